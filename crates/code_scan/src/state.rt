//! What a token asks of those before it.
ghost use Rattle.std.specs.Prelude.{◌≡◌, map, IfSome, OnOk, Option};
ghost use Rattle.std.specs.Str.{str_to_ascii_lowercase};
ghost use Rattle.text_bytes.specs.Attributes.{is_among as stands_among};
ghost use Rattle.code_scan.specs.States as spec;
ghost use Rattle.code_scan.specs.Views.{state_of};

use crate::brackets::{Bracket, OpenBrackets};
use crate::spellings::is_mark;
use crate::token::{Piece, TokenKind};
use std::alloc::Global;
use tp_base::NoMemory;

/// What stands before a token, as far as a slash, a name or a bracket behind it asks for it.
#[derive(Clone, Copy, Debug, PartialEq, Eq)]
pub enum Before {
    /// A slash begins a regular expression; so it is at the beginning.
    Operator,
    /// The same, and a name is that of a member.
    Dot,
    /// A slash divides.
    Value,
    /// A slash most likely begins a regular expression.
    Keyword,
    /// The same, and a bracket is that of a condition.
    Head,
    /// A slash may divide: a block ends here, or an object.
    Block,
}

const OPENERS: [&[u8]; 2] = [b"return", b"typeof"];

const HEADINGS: [&[u8]; 5] = [b"if", b"while", b"for", b"with", b"await"];

const KEYWORDS: [&[u8]; 16] = [
    b"case",
    b"in",
    b"of",
    b"else",
    b"do",
    b"void",
    b"new",
    b"delete",
    b"throw",
    b"instanceof",
    b"yield",
    b"default",
    b"extends",
    b"break",
    b"continue",
    b"debugger",
];

/// What is known of the tokens so far.
#[derive(Drop)]
pub(crate) struct State {
    pub before: Before,
    pub new_line: bool,
    pub brackets: OpenBrackets,
}

fn is_among(names: &[&[u8]], name: &[u8]) -> bool
    ensures { result ≡ stands_among (map (λ n. n.now) names.now) name.now }
{
    let mut left = names;
    'names: while let [first, others @ ..] = left {
        if *first == name {
            return true;
        }
        left = others;
    }
    false
}

#[tactic(auto, using(crate::proofs::Words::same_openers))]
fn is_opener(spelling: &[u8]) -> bool
    ensures { result ≡ stands_among spec.openers spelling.now }
{
    is_among(&OPENERS, spelling)
}

#[tactic(auto, using(crate::proofs::Words::same_headings))]
fn is_heading(spelling: &[u8]) -> bool
    ensures { result ≡ stands_among spec.headings spelling.now }
{
    is_among(&HEADINGS, spelling)
}

#[tactic(auto, using(crate::proofs::Words::same_keywords))]
fn is_keyword(spelling: &[u8]) -> bool
    ensures { result ≡ stands_among spec.keywords spelling.now }
{
    is_among(&KEYWORDS, spelling)
}

/// What stands before what is behind a name that is no member's. Constant.
pub fn behind_word(spelling: &[u8]) -> Before
    ensures { result ≡ spec.behind_word spelling.now }
{
    if is_opener(spelling) {
        Before::Operator
    } else if is_heading(spelling) {
        Before::Head
    } else if is_keyword(spelling) {
        Before::Keyword
    } else {
        Before::Value
    }
}

#[tactic(auto, unfolding(crate::specs::States::behind_name))]
fn behind_name(before: Before, spelling: &[u8]) -> Before
    ensures { spec.behind_name before spelling.now ≡ result }
{
    match before {
        Before::Dot => Before::Value,
        _ => behind_word(spelling),
    }
}

fn behind_round(is_heading: bool) -> Before
    ensures { result ≡ spec.behind_round is_heading }
{
    if is_heading {
        Before::Keyword
    } else {
        Before::Value
    }
}

/// Whether a mark is a dot, or `?.`. Constant.
pub fn is_dot(spelling: &[u8]) -> bool
    ensures { result ≡ spec.is_dot spelling.now }
{
    spelling == b".".as_slice() || spelling == b"?.".as_slice()
}

fn is_step(spelling: &[u8]) -> bool
    ensures { result ≡ spec.is_step spelling.now }
{
    spelling == b"++".as_slice() || spelling == b"--".as_slice()
}

#[tactic(auto, unfolding(crate::specs::States::behind_mark))]
fn behind_mark(brackets: &OpenBrackets, spelling: &[u8]) -> Before
    ensures { spec.behind_mark brackets.now spelling.now ≡ result }
{
    if spelling == b")".as_slice() {
        behind_round(brackets.is_heading())
    } else if spelling == b"]".as_slice() || is_step(spelling) {
        Before::Value
    } else if spelling == b"}".as_slice() {
        Before::Block
    } else if is_dot(spelling) {
        Before::Dot
    } else {
        Before::Operator
    }
}

#[tactic(auto, unfolding(crate::specs::States::behind_token))]
fn behind_token(
    before: Before,
    brackets: &OpenBrackets,
    kind: &TokenKind,
    spelling: &[u8],
) -> Before
    ensures { spec.behind_token before brackets.now kind.now spelling.now ≡ result }
{
    match kind {
        TokenKind::Name => behind_name(before, spelling),
        TokenKind::Mark => behind_mark(brackets, spelling),
        _ => Before::Value,
    }
}

fn round_behind(before: Before) -> Bracket
    ensures { result ≡ spec.round_behind before }
{
    match before {
        Before::Head => Bracket::Heading,
        _ => Bracket::Round,
    }
}

#[tactic(auto, unfolding(crate::specs::States::opened_by))]
fn opened_by(before: Before, spelling: &[u8]) -> Option<Bracket>
    ensures { spec.opened_by before spelling.now ≡ result }
{
    if spelling == b"(".as_slice() {
        Some(round_behind(before))
    } else if spelling == b"[".as_slice() {
        Some(Bracket::Square)
    } else if spelling == b"{".as_slice() {
        Some(Bracket::Curly)
    } else {
        None
    }
}

// Opens or closes the bracket that a mark is.
#[tactic(auto, unfolding(crate::specs::States::open_behind))]
fn pass_mark(brackets: &mut OpenBrackets, before: Before, spelling: &[u8]) -> Result<(), NoMemory>
    ensures { OnOk result (brackets.new ≡ spec.open_behind before brackets.old spelling.now) }
{
    if brackets.closes_innermost(spelling) {
        brackets.pop();
    } else if let Some(bracket) = opened_by(before, spelling) {
        brackets.push(bracket)?;
    }
    Ok(())
}

impl State {
    /// At the beginning. Constant.
    pub(crate) fn new(alloc: Global) -> State
        ensures { state_of result ≡ spec.start }
    {
        State {
            before: Before::Operator,
            new_line: true,
            brackets: OpenBrackets::none(alloc),
        }
    }

    // Behind a token.
    fn pass_token(&mut self, kind: &TokenKind, spelling: &[u8]) -> Result<(), NoMemory>
        ensures { OnOk result (state_of self.new ≡ spec.after_token (state_of self.old) kind.now spelling.now) }
    {
        let before = self.before;
        self.before = behind_token(before, &self.brackets, kind, spelling);
        self.new_line = false;
        if is_mark(kind) {
            pass_mark(&mut self.brackets, before, spelling)?;
        }
        Ok(())
    }

    /// Behind what stands at a place. Constant on average.
    #[tactic(auto, unfolding(crate::specs::States::after))]
    pub(crate) fn pass(&mut self, piece: &Piece, spelling: &[u8]) -> Result<(), NoMemory>
        ensures { OnOk result (state_of self.new ≡ spec.after (state_of self.old) piece.now spelling.now) }
    {
        match piece {
            Piece::Passed(broken) => self.new_line = self.new_line || *broken,
            Piece::One(kind) => self.pass_token(kind, spelling)?,
            Piece::Opened(_) => {
                self.before = Before::Operator;
                self.new_line = false;
                self.brackets.push(Bracket::Hole)?;
            }
            Piece::Shut(_) => {
                self.before = Before::Value;
                self.new_line = false;
                self.brackets.pop();
            }
            Piece::Reopened(_) => {
                self.before = Before::Operator;
                self.new_line = false;
            }
        }
        Ok(())
    }
}
