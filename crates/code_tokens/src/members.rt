//! Members that are asked for by a text, as in `a["name"]`.
ghost use Rattle.std.specs.Prelude.{◌≡◌, ◌≤◌, ◌+◌, ◌++◌, [], ◌∷◌, length, take, drop, reverse, Some, IfOk, IfSome, OnOk};
ghost use Rattle.code_tokens.specs.Members as spec;

use code_scan::{
    Before, Token, TokenKind, behind_name, behind_word, goes_on, is_dot, is_mark, is_written,
    spelling,
};
use std::alloc::Global;
use tp_base::{Items, NoMemory};

/// The bracket that asks for a member, and how many tokens are before it.
#[derive(Clone, Copy)]
pub(crate) struct Start {
    pub count: usize,
    pub from: usize,
    pub first_in_line: bool,
}

#[tactic(auto, unfolding(crate::specs::Members::is_name))]
fn is_name(letters: &[u8]) -> bool
    ensures { spec.is_name letters.now ≡ result }
{
    match letters.split_first() {
        None => false,
        Some((first, behind)) => {
            goes_on(letters) && !first.is_ascii_digit() && behind_name(behind).is_empty()
        }
    }
}

fn is_text(kind: &TokenKind) -> bool
    ensures { result ≡ spec.is_text kind.now }
{
    matches!(kind, TokenKind::Text(_))
}

fn push_letters(letters: &mut Vec<u8>, kind: &TokenKind) -> Result<(), NoMemory>
    ensures { OnOk result (letters.new.items ≡ letters.old.items ++ spec.letters_of kind.now) }
{
    if let TokenKind::Text(text) = kind {
        letters.extend_from_slice(text.items())?;
    }
    Ok(())
}

// What texts say together.
#[tactic(auto, using(crate::proofs::MemberSteps::more_letters))]
fn letters_in(alloc: Global, tokens: &[Token]) -> Result<Vec<u8>, NoMemory>
    ensures { IfOk result (λ v. v.items ≡ spec.letters_in tokens.now) }
{
    let mut letters = Vec::new(alloc);
    let mut rest = tokens;
    'tokens: while let Some((first, others)) = rest.split_first() {
        push_letters(&mut letters, &first.kind)?;
        rest = others;
    }
    Ok(letters)
}

fn start_at(bracket: &Token, count: usize) -> Start
    ensures { result ≡ spec.start_at bracket.now count }
{
    Start {
        count,
        from: bracket.from,
        first_in_line: bracket.first_in_line,
    }
}

// Where tokens end in `[` and texts joined by `+`, that bracket.
#[tactic(auto, using(crate::proofs::MemberSteps::no_pair, crate::proofs::MemberSteps::no_text, crate::proofs::MemberSteps::bracket, crate::proofs::MemberSteps::joined, crate::proofs::MemberSteps::no_join, crate::proofs::MemberSteps::no_start))]
fn start_of(text: &[u8], tokens: &[Token]) -> Option<Start>
    ensures { spec.start_of text.now (reverse tokens.now) ≡ result }
{
    let mut rest = tokens;
    'pairs: while let Some((last, front)) = rest.split_last() {
        let Some((mark, others)) = front.split_last() else {
            return None;
        };
        if !is_text(&last.kind) {
            return None;
        }
        if is_written(text, b"[", mark) {
            return Some(start_at(mark, others.len()));
        }
        if !is_written(text, b"+", mark) {
            return None;
        }
        rest = others;
    }
    None
}

#[tactic(auto, unfolding(crate::specs::Members::ends_in_dot), using(crate::proofs::MemberSteps::last_first))]
fn ends_in_dot(text: &[u8], tokens: &[Token]) -> bool
    ensures { spec.ends_in_dot text.now (reverse tokens.now) ≡ result }
{
    match tokens.split_last() {
        None => false,
        Some((last, _)) => is_mark(&last.kind) && is_dot(spelling(text, last)),
    }
}

fn is_value(before: Before) -> bool
    ensures { result ≡ spec.is_value before }
{
    matches!(before, Before::Value)
}

fn closes_value(spelling: &[u8]) -> bool
    ensures { result ≡ spec.closes_value spelling.now }
{
    spelling == b")".as_slice() || spelling == b"]".as_slice()
}

fn ends_value(dotted: bool, kind: &TokenKind, spelling: &[u8]) -> bool
    ensures { result ≡ spec.ends_value dotted kind.now spelling.now }
{
    match kind {
        TokenKind::Name => dotted || is_value(behind_word(spelling)),
        TokenKind::Member(_) => true,
        TokenKind::Mark => closes_value(spelling),
        _ => false,
    }
}

// Whether a bracket behind these tokens may ask for a member.
#[tactic(auto, unfolding(crate::specs::Members::end_in_value), using(crate::proofs::MemberSteps::last_first))]
fn end_in_value(text: &[u8], tokens: &[Token]) -> bool
    ensures { spec.end_in_value text.now (reverse tokens.now) ≡ result }
{
    match tokens.split_last() {
        None => false,
        Some((last, others)) => {
            ends_value(ends_in_dot(text, others), &last.kind, spelling(text, last))
        }
    }
}

// The tokens from a place on, and those before it.
fn from_place(tokens: &[Token], place: usize) -> &[Token]
    ensures { result.now ≡ drop place tokens.now }
{
    match tokens.split_at_checked(place) {
        Some((_, last)) => last,
        None => &[],
    }
}

fn up_to_place(tokens: &[Token], place: usize) -> &[Token]
    ensures { result.now ≡ take place tokens.now }
{
    match tokens.split_at_checked(place) {
        Some((first, _)) => first,
        None => tokens,
    }
}

#[tactic(auto, unfolding(crate::specs::Members::asks_member))]
fn asks_member(text: &[u8], done: &[Token], start: Start, name: &[u8]) -> bool
    requires { name.now ≡ spec.asked_name done.now start }
    ensures { spec.asks_member text.now done.now start ≡ result }
{
    is_name(name) && end_in_value(text, up_to_place(done, start.count))
}

fn push_member(
    done: &mut Vec<Token>,
    start: Start,
    to: usize,
    name: Items<u8>,
) -> Result<(), NoMemory>
    ensures { OnOk result (done.new.items ≡ take start.count done.old.items ++ spec.member start to name) }
{
    done.truncate(start.count);
    done.push(Token {
        kind: TokenKind::Dot,
        from: start.from,
        to,
        first_in_line: start.first_in_line,
    })?;
    done.push(Token {
        kind: TokenKind::Member(name),
        from: start.from,
        to,
        first_in_line: false,
    })?;
    Ok(())
}

fn close_from(
    text: &[u8],
    done: &mut Vec<Token>,
    token: Token,
    start: Start,
) -> Result<(), NoMemory>
    ensures { OnOk result (done.new.items ≡ spec.closed_at text.now done.old.items token (Some start)) }
{
    let name = letters_in(
        *done.allocator(),
        from_place(from_place(done, start.count), 1),
    )?;
    if asks_member(text, done, start, &name) {
        push_member(done, start, token.to, Items::new(name))
    } else {
        done.push(token)?;
        Ok(())
    }
}

// Behind a `]`.
#[tactic(auto, unfolding(crate::specs::Members::closed))]
fn close(text: &[u8], done: &mut Vec<Token>, token: Token) -> Result<(), NoMemory>
    ensures { OnOk result (done.new.items ≡ spec.closed text.now done.old.items token) }
{
    match start_of(text, done) {
        Some(start) => close_from(text, done, token, start),
        None => {
            done.push(token)?;
            Ok(())
        }
    }
}

#[tactic(auto, unfolding(crate::specs::Members::ends_in_optional), using(crate::proofs::MemberSteps::last_first))]
fn ends_in_optional(text: &[u8], tokens: &[Token]) -> bool
    ensures { spec.ends_in_optional text.now (reverse tokens.now) ≡ result }
{
    match tokens.split_last() {
        None => false,
        Some((last, _)) => is_written(text, b"?.", last),
    }
}

// Without a `?.` at the end.
#[tactic(auto, unfolding(crate::specs::Members::without_optional))]
fn drop_optional(text: &[u8], done: &mut Vec<Token>)
    ensures { done.new.items ≡ spec.without_optional text.now done.old.items }
{
    if ends_in_optional(text, done) {
        done.pop();
    }
}

#[tactic(auto, unfolding(crate::specs::Members::is_asking))]
fn is_asking(text: &[u8], token: &Token) -> bool
    ensures { spec.is_asking text.now token.now ≡ result }
{
    is_written(text, b"(", token) || is_written(text, b"[", token)
}

fn push_asking(text: &[u8], done: &mut Vec<Token>, token: Token) -> Result<(), NoMemory>
    ensures { OnOk result (done.new.items ≡ spec.without_optional text.now done.old.items ++ token ∷ []) }
{
    drop_optional(text, done);
    done.push(token)?;
    Ok(())
}

#[tactic(auto, unfolding(crate::specs::Members::put))]
fn put(text: &[u8], done: &mut Vec<Token>, token: Token) -> Result<(), NoMemory>
    ensures { OnOk result (done.new.items ≡ spec.put text.now done.old.items token) }
{
    if is_written(text, b"]", &token) {
        close(text, done, token)
    } else if is_asking(text, &token) {
        push_asking(text, done, token)
    } else {
        done.push(token)?;
        Ok(())
    }
}

#[tactic(auto, unfolding(crate::specs::Members::put_all))]
fn put_all(alloc: Global, text: &[u8], tokens: Vec<Token>) -> Result<Vec<Token>, NoMemory>
    ensures { IfOk result (λ v. v.items ≡ spec.put_all text.now [] tokens.items) }
{
    let mut done = Vec::new(alloc);
    for token in tokens {
        put(text, &mut done, token)?;
    }
    Ok(done)
}

/// The tokens with a dot and a name where a bracket asks for a member, and without a `?.` before a bracket. Linear in them.
pub(crate) fn with_members(text: &[u8], tokens: Items<Token>) -> Result<Items<Token>, NoMemory>
    ensures { IfOk result (λ v. v ≡ spec.with_members text.now tokens) }
{
    let done = put_all(tokens.allocator(), text, tokens.into_items())?;
    Ok(Items::new(done))
}
