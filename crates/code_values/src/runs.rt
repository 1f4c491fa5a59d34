//! Texts that are joined by `+`, with what else is joined to them.
ghost use Rattle.std.specs.Prelude.{◌≡◌, ◌<◌, ◌+◌, ◌^◌, ◌∷◌, ◌++◌, [], drop, OnOk, IfOk};
ghost use Rattle.text_bytes.specs.Attributes.{is_among as stands_among};
ghost use Rattle.code_values.specs.Outer.{outer as outer_of};
ghost use Rattle.code_values.specs.Runs as spec;

use crate::names::is_among;
use crate::outside::{from_at, outer};
use crate::script::Script;
use crate::spans::Span;
use crate::texts::{is_plus, is_text, push_letters};
use crate::values::is_closer;
use code_scan::{Token, TokenKind, is_mark, spelling};
use std::alloc::Global;
use std::marker::Model;
use text_pieces::{Piece, push_operand, push_pieces};
use tp_base::{Items, NoMemory};

// Marks that an operand ends before.
const OPERAND_ENDS: [&[u8]; 16] = [
    b",", b";", b"?", b":", b"=", b"<", b">", b"<=", b">=", b"==", b"!=", b"===", b"!==", b"&&",
    b"||", b"??",
];

/// Where a run stands.
#[derive(Clone, Copy, Debug, PartialEq, Eq)]
pub(crate) enum Mode {
    /// Behind a Text or a Number.
    Joined,
    /// Behind a `+`.
    Asked,
    /// Within an operand.
    Operand,
    /// At its end.
    Ended,
}

/// A Text with what is joined to it.
#[derive(Debug, Drop)]
pub struct Run {
    /// The number of its first token.
    pub at: usize,
    /// The offset of its first byte.
    pub from: usize,
    pub pieces: Items<Piece>,
}

// A part of a run. A contract sees its letters, pieces and Texts as lists.
#[derive(Drop)]
pub(crate) struct Draft {
    mode: Mode,
    letters: Vec<u8>,
    pieces: Vec<Piece>,
    texts: Vec<usize>,
}

impl Model for Draft {
    ghost use Rattle.code_values.specs.Runs.{Drawn};

    ghost Value = { Drawn };

    ghost view = { λ d. record { mode = d.mode; letters = d.letters.items; pieces = d.pieces.items; texts = d.texts.items } };
}

// Texts that belong to runs that have begun. A contract sees the list of their numbers, the next one first.
#[derive(Drop)]
pub(crate) struct JoinedTexts {
    items: Vec<usize>,
}

impl Model for JoinedTexts {
    ghost use Rattle.std.specs.Prelude.{ℕ, List, reverse};

    ghost Value = { List ℕ };

    ghost view = { λ j. reverse j.items.items };
}

fn is_number(kind: &TokenKind) -> bool
    ensures { result ≡ spec.is_number kind.now }
{
    matches!(kind, TokenKind::Number)
}

#[tactic(auto, using(crate::proofs::Words::same_operand_ends))]
fn is_operand_end(mark: &[u8]) -> bool
    ensures { result ≡ stands_among spec.operand_ends mark.now }
{
    is_among(&OPERAND_ENDS, mark)
}

#[tactic(auto, unfolding(crate::specs::Runs::mode_in_operand, crate::specs::Runs::ends_operand))]
fn mode_in_operand(text: &[u8], token: &Token) -> Mode
    ensures { spec.mode_in_operand text.now token.now ≡ result }
{
    if is_plus(text, token) {
        Mode::Asked
    } else if is_text(&token.kind)
        || is_closer(text, token)
        || is_mark(&token.kind) && is_operand_end(spelling(text, token))
    {
        Mode::Ended
    } else {
        Mode::Operand
    }
}

#[tactic(auto, unfolding(crate::specs::Runs::mode_behind_part))]
fn mode_behind_part(text: &[u8], token: &Token) -> Mode
    ensures { spec.mode_behind_part text.now token.now ≡ result }
{
    if is_plus(text, token) {
        Mode::Asked
    } else {
        Mode::Ended
    }
}

fn is_ended(mode: Mode) -> bool
    ensures { result ≡ spec.is_ended mode }
{
    matches!(mode, Mode::Ended)
}

fn is_asked(mode: Mode) -> bool
    ensures { result ≡ spec.is_asked mode }
{
    matches!(mode, Mode::Asked)
}

impl Draft {
    fn begun(alloc: Global, token: &Token) -> Result<Self, NoMemory>
        ensures { IfOk result (λ d. d ≡ spec.begun token.now) }
    {
        let mut letters = Vec::new(alloc);
        push_letters(&mut letters, &token.kind)?;
        Ok(Draft {
            mode: Mode::Joined,
            letters,
            pieces: Vec::new(alloc),
            texts: Vec::new(alloc),
        })
    }

    #[tactic(auto, unfolding(crate::specs::Runs::with_text))]
    fn add_text(&mut self, at: usize, token: &Token) -> Result<(), NoMemory>
        ensures { OnOk result (spec.with_text at token.now self.old ≡ self.new) }
    {
        push_letters(&mut self.letters, &token.kind)?;
        self.texts.push(at)?;
        self.mode = Mode::Joined;
        Ok(())
    }

    #[tactic(auto, unfolding(crate::specs::Runs::with_zero))]
    fn add_zero(&mut self) -> Result<(), NoMemory>
        ensures { OnOk result (spec.with_zero self.old ≡ self.new) }
    {
        self.letters.push(b'0')?;
        self.mode = Mode::Joined;
        Ok(())
    }

    #[tactic(auto, unfolding(crate::specs::Runs::with_operand))]
    fn add_operand(&mut self, mode: Mode) -> Result<(), NoMemory>
        ensures { OnOk result (spec.with_operand mode self.old ≡ self.new) }
    {
        push_pieces(&mut self.pieces, &self.letters)?;
        push_operand(&mut self.pieces)?;
        self.letters.clear();
        self.mode = mode;
        Ok(())
    }

    #[tactic(auto, unfolding(crate::specs::Runs::behind_plus))]
    fn add_behind_plus(&mut self, text: &[u8], at: usize, token: &Token) -> Result<(), NoMemory>
        ensures { OnOk result (spec.behind_plus text.now at token.now self.old ≡ self.new) }
    {
        if is_text(&token.kind) {
            self.add_text(at, token)
        } else if is_number(&token.kind) {
            self.add_zero()
        } else {
            self.add_operand(mode_in_operand(text, token))
        }
    }

    // Goes past a token of a number.
    fn pass(&mut self, text: &[u8], at: usize, token: &Token) -> Result<(), NoMemory>
        ensures { OnOk result (spec.step self.old.mode text.now at token.now self.old ≡ self.new) }
    {
        match self.mode {
            Mode::Joined => self.mode = mode_behind_part(text, token),
            Mode::Asked => self.add_behind_plus(text, at, token)?,
            Mode::Operand => self.mode = mode_in_operand(text, token),
            Mode::Ended => {}
        }
        Ok(())
    }

    #[tactic(auto, unfolding(crate::specs::Runs::step_at))]
    fn pass_first(
        &mut self,
        script: &Script<'_>,
        at: usize,
        tokens: &[Token],
    ) -> Result<(), NoMemory>
        ensures { OnOk result (spec.step_at script.now.text.now at tokens.now self.old ≡ self.new) }
    {
        match tokens.split_first() {
            None => Ok(()),
            Some((first, _)) => self.pass(script.text, at, first),
        }
    }

    #[tactic(auto, unfolding(crate::specs::Runs::drawn))]
    fn pass_all(&mut self, script: &Script<'_>, span: Span) -> Result<(), NoMemory>
        ensures { OnOk result (spec.drawn script.now.text.now script.now.code.now (outer_of script.now.code.now span) self.old ≡ self.new) }
    {
        let mut left = outer(script.code, span);
        'tokens: while let Some(at) = left.next() {
            if is_ended(self.mode) {
                return Ok(());
            }
            self.pass_first(script, at, from_at(script.code, at))?;
        }
        Ok(())
    }

    // An operand that is missing at the end is a hole, too.
    fn into_run(self, at: usize, token: &Token) -> Result<(Run, Vec<usize>), NoMemory>
        ensures { IfOk result (λ p. (p.0 ≡ spec.run_of at token.now self) × p.1.items ≡ self.texts) }
    {
        let mut pieces = self.pieces;
        push_pieces(&mut pieces, &self.letters)?;
        push_missing(&mut pieces, is_asked(self.mode))?;
        let run = Run {
            at,
            from: token.from,
            pieces: Items::new(pieces),
        };
        Ok((run, self.texts))
    }
}

fn push_missing(pieces: &mut Vec<Piece>, is_asked: bool) -> Result<(), NoMemory>
    ensures { OnOk result (pieces.new.items ≡ pieces.old.items ++ spec.missing is_asked) }
{
    if is_asked {
        push_operand(pieces)?;
    }
    Ok(())
}

// All of the run that begins with the Text of a number.
#[tactic(auto, unfolding(crate::specs::Runs::drawn_at))]
fn draft_at(alloc: Global, script: &Script<'_>, at: usize, token: &Token) -> Result<Draft, NoMemory>
    requires { at + 1 < 2 ^ 64 }
    ensures { IfOk result (λ d. spec.drawn_at script.now.text.now script.now.code.now at token.now ≡ d) }
{
    let behind = Span {
        from: at + 1,
        to: script.code.others.items().len(),
    };
    let mut draft = Draft::begun(alloc, token)?;
    draft.pass_all(script, behind)?;
    Ok(draft)
}

impl JoinedTexts {
    fn none(alloc: Global) -> Self
        ensures { result ≡ [] }
    {
        JoinedTexts {
            items: Vec::new(alloc),
        }
    }

    #[tactic(auto, unfolding(crate::specs::Runs::is_first))]
    fn is_first(&self, at: usize) -> bool
        ensures { spec.is_first at self.now ≡ result }
    {
        match self.items.last() {
            None => false,
            Some(next) => *next == at,
        }
    }

    #[tactic(auto, using(tp_base::proofs::Lists::popped_last))]
    fn drop_first(&mut self)
        ensures { self.new ≡ drop 1 self.old }
    {
        self.items.pop();
    }

    #[tactic(auto, using(tp_base::proofs::Lists::pushed_last))]
    fn add_first(&mut self, at: usize) -> Result<(), NoMemory>
        ensures { OnOk result (self.new ≡ at ∷ self.old) }
    {
        self.items.push(at)?;
        Ok(())
    }

    fn add(&mut self, texts: &[usize]) -> Result<(), NoMemory>
        ensures { OnOk result (self.new ≡ texts.now ++ self.old) }
    {
        let mut rest = texts;
        'texts: while let Some((last, front)) = rest.split_last() {
            self.add_first(*last)?;
            rest = front;
        }
        Ok(())
    }
}

fn push_run(
    runs: &mut Vec<Run>,
    joined: &mut JoinedTexts,
    draft: Draft,
    at: usize,
    token: &Token,
) -> Result<(), NoMemory>
    ensures run { OnOk result (runs.new.items ≡ runs.old.items ++ spec.run_of at token.now draft ∷ []) }
    ensures texts { OnOk result (joined.new ≡ draft.texts ++ joined.old) }
{
    let (run, texts) = draft.into_run(at, token)?;
    joined.add(&texts)?;
    runs.push(run)?;
    Ok(())
}

/// The runs of code, in the order of their places: each Text begins one, or belongs to one before. Linear in the code.
#[tactic(auto, using(crate::proofs::RunSteps::joined, crate::proofs::RunSteps::begins, crate::proofs::RunSteps::passed, crate::proofs::RunSteps::ends))]
pub fn runs_of(alloc: Global, script: &Script<'_>) -> Result<Items<Run>, NoMemory>
    ensures { IfOk result (λ v. v ≡ spec.runs script.now.text.now script.now.code.now) }
{
    let tokens = script.code.tokens.items();
    let mut runs = Vec::new(alloc);
    let mut joined = JoinedTexts::none(alloc);
    let mut rest = tokens;
    'tokens: while let Some((token, behind)) = rest.split_first() {
        let at = tokens.len() - rest.len();
        if joined.is_first(at) {
            joined.drop_first();
        } else if is_text(&token.kind) {
            let draft = draft_at(alloc, script, at, token)?;
            push_run(&mut runs, &mut joined, draft, at, token)?;
        }
        rest = behind;
    }
    Ok(Items::new(runs))
}
