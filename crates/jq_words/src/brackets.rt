//! The three kinds of brackets, and those that are open.
ghost use Rattle.std.specs.Prelude.{◌≡◌, ◌+◌, [], ◌∷◌, length, drop, not, reverse, OnOk, IfOk, IfErr, Option};
ghost use Rattle.jq_words.specs.Brackets as spec;
ghost use Rattle.jq_words.specs.declared.faults.ScriptFault.TheVariants.{Memory};

use crate::faults::ScriptFault;
use crate::words::{Word, Words};
use std::alloc::Global;
use std::marker::Model;

/// A kind of bracket.
#[derive(Clone, Copy, Debug, PartialEq, Eq)]
pub enum Bracket {
    /// `(` and `)`.
    Round,
    /// `[` and `]`.
    Square,
    /// `{` and `}`.
    Curly,
}

/// The bracket that a word opens, if it opens one. Constant.
#[tactic(auto, unfolding(crate::specs::Brackets::opened_by))]
pub fn opened_by(word: &Word<'_>) -> Option<Bracket>
    ensures { result ≡ spec.opened_by word.now }
{
    if word.is_mark(b"(") {
        Some(Bracket::Round)
    } else if word.is_mark(b"[") {
        Some(Bracket::Square)
    } else if word.is_mark(b"{") {
        Some(Bracket::Curly)
    } else {
        None
    }
}

/// The bracket that a word closes, if it closes one. Constant.
#[tactic(auto, unfolding(crate::specs::Brackets::closed_by))]
pub fn closed_by(word: &Word<'_>) -> Option<Bracket>
    ensures { result ≡ spec.closed_by word.now }
{
    if word.is_mark(b")") {
        Some(Bracket::Round)
    } else if word.is_mark(b"]") {
        Some(Bracket::Square)
    } else if word.is_mark(b"}") {
        Some(Bracket::Curly)
    } else {
        None
    }
}

/// Brackets that are open. A contract sees the list of them, from the innermost outward.
#[derive(Drop)]
pub struct OpenBrackets {
    items: Vec<Bracket>,
}

impl Model for OpenBrackets {
    ghost use Rattle.std.specs.Prelude.{List, reverse};
    ghost use Rattle.jq_words.specs.declared.brackets.Bracket.{Bracket};

    ghost Value = { List Bracket };

    ghost view = { λ o. reverse o.items.items };
}

impl OpenBrackets {
    /// An empty stack of brackets. Constant.
    pub fn none(alloc: Global) -> Self
        ensures { result ≡ [] }
    {
        OpenBrackets {
            items: Vec::new(alloc),
        }
    }

    /// How many are open. Constant.
    pub fn len(&self) -> usize
        ensures { result ≡ length self.now }
    {
        self.items.len()
    }

    /// Whether none is open. Constant.
    pub fn is_empty(&self) -> bool
        ensures { result ≡ spec.is_empty self.now }
    {
        self.items.is_empty()
    }

    /// Whether a word closes another bracket than the innermost, or one that isn't open. Constant.
    #[tactic(auto, unfolding(crate::specs::Brackets::closes_outer))]
    pub fn closes_outer(&self, word: &Word<'_>) -> bool
        ensures { result ≡ spec.closes_outer self.now word.now }
    {
        match closed_by(word) {
            None => false,
            Some(bracket) => self.items.last() != Some(&bracket),
        }
    }

    /// The brackets that are open behind a word.
    #[tactic(auto, unfolding(crate::specs::Brackets::brackets_behind), using(tp_base::proofs::Lists::pushed_last, tp_base::proofs::Lists::popped_last))]
    pub fn pass(&mut self, word: &Word<'_>) -> Result<(), ScriptFault>
        ensures passed { OnOk result (self.new ≡ spec.brackets_behind self.old word.now) }
        ensures only_memory { IfErr result (λ e. e ≡ Memory) }
    {
        if closed_by(word).is_some() {
            self.items.pop();
        } else if let Some(bracket) = opened_by(word) {
            self.items.push(bracket)?;
        }
        Ok(())
    }
}

#[tactic(auto, unfolding(crate::specs::Brackets::ends_argument))]
fn ends_argument(others: bool, open_brackets: &OpenBrackets, word: &Word<'_>) -> bool
    ensures { result ≡ spec.ends_argument others open_brackets.now word.now }
{
    open_brackets.closes_outer(word)
        || (open_brackets.is_empty() && (word.is_mark(b";") || (others && word.is_mark(b","))))
}

/// How many words the next argument has; where there are others, a comma ends it.
#[tactic(auto, using(crate::proofs::ArgumentSteps::goes_on, crate::proofs::ArgumentSteps::over, crate::proofs::ArgumentSteps::ends, crate::proofs::ArgumentSteps::none_counted, crate::proofs::ArgumentSteps::one_fits, crate::proofs::ArgumentSteps::one_counted))]
pub fn argument_len(alloc: Global, others: bool, words: &Words<'_>) -> Result<usize, ScriptFault>
    ensures gives { IfOk result (λ n. n ≡ spec.argument_len others [] words.now.words) }
    ensures only_memory { IfErr result (λ e. e ≡ Memory) }
{
    let mut open_brackets = OpenBrackets::none(alloc);
    let mut rest = words.again();
    let mut count: usize = 0;
    'words: while let Some(word) = rest.first() {
        if ends_argument(others, &open_brackets, &word) {
            return Ok(count);
        }
        open_brackets.pass(&word)?;
        count += 1;
        rest.pass();
    }
    Ok(count)
}
