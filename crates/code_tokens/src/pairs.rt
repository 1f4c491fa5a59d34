//! Which brackets belong together.
ghost use Rattle.std.specs.Prelude.{◌≡◌, ◌≢◌, ◌<◌, ℕ, [], ◌∷◌, ◌++◌, length, drop, get_or, None, OnOk, IfOk};
ghost use Rattle.code_tokens.specs.Pairs as spec;

use code_scan::{Token, TokenKind, is_written};
use std::alloc::Global;
use std::marker::Model;
use tp_base::NoMemory;

/// A kind of bracket.
#[derive(Clone, Copy, Debug, PartialEq, Eq)]
pub(crate) enum Bracket {
    /// `(` and `)`.
    Round,
    /// `[` and `]`.
    Square,
    /// `{` and `}`.
    Curly,
    /// Those of a hole of a template.
    Hole,
}

/// Two brackets that belong together, by the numbers of their tokens.
#[derive(Clone, Copy, Debug, PartialEq, Eq)]
pub(crate) struct Pair {
    pub opening: usize,
    pub closing: usize,
}

/// A bracket that is open, and the number of its token.
#[derive(Clone, Copy, Debug, PartialEq, Eq)]
pub(crate) struct Opened {
    pub bracket: Bracket,
    pub index: usize,
}

/// Brackets that are open. A contract sees the list of them, from the innermost outward.
#[derive(Drop)]
pub(crate) struct Opens {
    items: Vec<Opened>,
}

impl Model for Opens {
    ghost use Rattle.std.specs.Prelude.{List, reverse};
    ghost use Rattle.code_tokens.specs.declared.pairs.Opened.{Opened};

    ghost Value = { List Opened };

    ghost view = { λ o. reverse o.items.items };
}

fn is_open(kind: &TokenKind) -> bool
    ensures { result ≡ spec.is_open kind.now }
{
    matches!(kind, TokenKind::Open)
}

fn is_close(kind: &TokenKind) -> bool
    ensures { result ≡ spec.is_close kind.now }
{
    matches!(kind, TokenKind::Close)
}

// The bracket that a token opens.
#[tactic(auto, unfolding(crate::specs::Pairs::opens))]
fn opened_by(text: &[u8], token: &Token) -> Option<Bracket>
    ensures { spec.opens text.now token.now ≡ result }
{
    if is_written(text, b"(", token) {
        Some(Bracket::Round)
    } else if is_written(text, b"[", token) {
        Some(Bracket::Square)
    } else if is_written(text, b"{", token) {
        Some(Bracket::Curly)
    } else if is_open(&token.kind) {
        Some(Bracket::Hole)
    } else {
        None
    }
}

// Whether a token closes a bracket of a kind.
fn closes_bracket(text: &[u8], token: &Token, bracket: Bracket) -> bool
    ensures { result ≡ spec.closes_bracket text.now token.now bracket }
{
    match bracket {
        Bracket::Round => is_written(text, b")", token),
        Bracket::Square => is_written(text, b"]", token),
        Bracket::Curly => is_written(text, b"}", token),
        Bracket::Hole => is_close(&token.kind),
    }
}

#[tactic(auto, unfolding(crate::specs::Pairs::is_closer))]
fn is_closer(text: &[u8], token: &Token) -> bool
    ensures { spec.is_closer text.now token.now ≡ result }
{
    is_written(text, b")", token)
        || is_written(text, b"]", token)
        || is_written(text, b"}", token)
        || is_close(&token.kind)
}

impl Opens {
    fn none(alloc: Global) -> Self
        ensures { result ≡ [] }
    {
        Opens {
            items: Vec::new(alloc),
        }
    }

    // Whether a token closes the innermost.
    #[tactic(auto, unfolding(crate::specs::Pairs::closes_first))]
    fn is_closed_by(&self, text: &[u8], token: &Token) -> bool
        ensures { spec.closes_first text.now token.now self.now ≡ result }
    {
        match self.items.last() {
            Some(opened) => closes_bracket(text, token, opened.bracket),
            None => false,
        }
    }

    // The number of the innermost.
    #[tactic(auto, unfolding(crate::specs::Pairs::first_index))]
    fn first_index(&self) -> usize
        ensures { spec.first_index self.now ≡ result }
    {
        match self.items.last() {
            Some(opened) => opened.index,
            None => 0,
        }
    }

    #[tactic(auto, using(tp_base::proofs::Lists::pushed_last))]
    fn push(&mut self, opened: Opened) -> Result<(), NoMemory>
        ensures { OnOk result (self.new ≡ opened ∷ self.old) }
    {
        self.items.push(opened)?;
        Ok(())
    }

    #[tactic(auto, using(tp_base::proofs::Lists::popped_last))]
    fn pop(&mut self)
        ensures { self.new ≡ drop 1 self.old }
    {
        self.items.pop();
    }

    // Goes past a token, which has this number.
    #[tactic(auto, unfolding(crate::specs::Pairs::open_after))]
    fn pass(&mut self, text: &[u8], index: usize, token: &Token) -> Result<(), NoMemory>
        ensures { OnOk result (self.new ≡ spec.open_after text.now index token.now self.old) }
    {
        if self.is_closed_by(text, token) {
            self.pop();
        } else if let Some(bracket) = opened_by(text, token) {
            self.push(Opened { bracket, index })?;
        }
        Ok(())
    }
}

#[tactic(auto, unfolding(crate::specs::Pairs::ended_pair))]
fn push_pair(
    pairs: &mut Vec<Pair>,
    opens: &Opens,
    text: &[u8],
    closing: usize,
    token: &Token,
) -> Result<(), NoMemory>
    ensures { OnOk result (pairs.new.items ≡ pairs.old.items ++ spec.ended_pair text.now closing token.now opens.now) }
{
    if opens.is_closed_by(text, token) {
        pairs.push(Pair {
            opening: opens.first_index(),
            closing,
        })?;
    }
    Ok(())
}

/// The brackets that belong together. Linear in the tokens.
#[tactic(auto, using(crate::proofs::PairSteps::goes_on, crate::proofs::PairSteps::ends))]
pub(crate) fn pairs_of(alloc: Global, text: &[u8], tokens: &[Token]) -> Result<Vec<Pair>, NoMemory>
    ensures { IfOk result (λ v. v.items ≡ spec.pairs_of text.now tokens.now) }
{
    let mut pairs = Vec::new(alloc);
    let mut opens = Opens::none(alloc);
    let mut rest = tokens;
    'tokens: while let Some((token, others)) = rest.split_first() {
        let at = tokens.len() - rest.len();
        push_pair(&mut pairs, &opens, text, at, token)?;
        opens.pass(text, at, token)?;
        rest = others;
    }
    Ok(pairs)
}

// ---- the other bracket

fn no_others(alloc: Global, size: usize) -> Result<Vec<Option<usize>>, NoMemory>
    ensures long { IfOk result (λ v. length v.items ≡ size) }
    ensures none { IfOk result (λ v. (i : ℕ) → get_or v.items i None ≡ None) }
{
    let mut others = Vec::new(alloc);
    let mut i = 0;
    'tokens: while i < size {
        others.push(None)?;
        i += 1;
    }
    Ok(others)
}

fn put(others: &mut Vec<Option<usize>>, at: usize, other: usize)
    ensures here { at < length others.old.items → get_or others.new.items at None ≡ Some other }
    ensures apart { (n : ℕ) → n ≢ at → get_or others.new.items n None ≡ get_or others.old.items n None }
    ensures long { length others.new.items ≡ length others.old.items }
{
    if at < others.len() {
        others[at] = Some(other);
    }
}

fn put_pair(others: &mut Vec<Option<usize>>, pair: Pair)
    ensures pair { (i : ℕ) → i < length others.old.items → get_or others.new.items i None ≡ spec.paired pair i (get_or others.old.items i None) }
    ensures long { length others.new.items ≡ length others.old.items }
{
    put(others, pair.opening, pair.closing);
    put(others, pair.closing, pair.opening);
}

/// For each of so many tokens the number of the bracket that belongs to it. Linear in them.
pub(crate) fn others_of(
    alloc: Global,
    size: usize,
    pairs: &[Pair],
) -> Result<Vec<Option<usize>>, NoMemory>
    ensures { IfOk result (λ v. spec.AreOthers pairs.now size v.items) }
{
    let mut others = no_others(alloc, size)?;
    let mut rest = pairs;
    'pairs: while let Some((pair, behind)) = rest.split_first() {
        put_pair(&mut others, *pair);
        rest = behind;
    }
    Ok(others)
}

// ---- brackets by themselves

#[tactic(auto, unfolding(crate::specs::Pairs::is_bracket))]
fn is_bracket(text: &[u8], token: &Token) -> bool
    ensures { spec.is_bracket text.now token.now ≡ result }
{
    opened_by(text, token).is_some() || is_closer(text, token)
}

fn other_at(others: &[Option<usize>], index: usize) -> Option<usize>
    ensures { result ≡ get_or others.now index None }
{
    match others.get(index) {
        Some(other) => *other,
        None => None,
    }
}

fn push_alone(
    unread: &mut Vec<usize>,
    text: &[u8],
    token: &Token,
    other: Option<usize>,
) -> Result<(), NoMemory>
    ensures { OnOk result (unread.new.items ≡ unread.old.items ++ spec.alone_at text.now token.now other) }
{
    if is_bracket(text, token) && other.is_none() {
        unread.push(token.from)?;
    }
    Ok(())
}

/// Adds the places of the brackets that have no other. Linear in the tokens.
pub(crate) fn with_alone(
    mut unread: Vec<usize>,
    text: &[u8],
    tokens: &[Token],
    others: &[Option<usize>],
) -> Result<Vec<usize>, NoMemory>
    requires others { spec.AreOthers (spec.pairs_of text.now tokens.now) (length tokens.now) others.now }
    ensures { IfOk result (λ v. v.items ≡ unread.items ++ spec.alone text.now tokens.now) }
{
    let mut rest = tokens;
    'tokens: while let Some((token, behind)) = rest.split_first() {
        let other = other_at(others, tokens.len() - rest.len());
        push_alone(&mut unread, text, token, other)?;
        rest = behind;
    }
    Ok(unread)
}
