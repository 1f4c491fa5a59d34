//! Values behind `=` and behind `:`.
ghost use Rattle.std.specs.Prelude.{◌≡◌};
ghost use Rattle.code_tokens.specs.Pairs.{is_close as closing, is_closer as closes};
ghost use Rattle.code_values.specs.Outer.{outer as outer_of};
ghost use Rattle.code_values.specs.Values as spec;

use crate::outside::{from_at, outer};
use crate::script::Script;
use crate::spans::Span;
use crate::texts::{is_plus, is_text};
use code_scan::{Token, TokenKind, is_written};
use code_tokens::Code;

pub(crate) fn is_word(kind: &TokenKind) -> bool
    ensures { result ≡ spec.is_word kind.now }
{
    matches!(
        kind,
        TokenKind::Name | TokenKind::Number | TokenKind::Text(_)
    )
}

fn is_member(kind: &TokenKind) -> bool
    ensures { result ≡ spec.is_member kind.now }
{
    matches!(kind, TokenKind::Member(_))
}

fn is_close(kind: &TokenKind) -> bool
    ensures { result ≡ closing kind.now }
{
    matches!(kind, TokenKind::Close)
}

/// Whether a token closes a bracket. Constant.
#[tactic(auto, unfolding(code_tokens::specs::Pairs::is_closer))]
pub(crate) fn is_closer(text: &[u8], token: &Token) -> bool
    ensures { closes text.now token.now ≡ result }
{
    is_written(text, b")", token)
        || is_written(text, b"]", token)
        || is_written(text, b"}", token)
        || is_close(&token.kind)
}

#[tactic(auto, unfolding(crate::specs::Values::may_end))]
fn may_end(text: &[u8], token: &Token) -> bool
    ensures { spec.may_end text.now token.now ≡ result }
{
    is_word(&token.kind) || is_member(&token.kind) || is_closer(text, token)
}

#[tactic(auto, unfolding(crate::specs::Values::is_end_mark))]
fn is_end_mark(text: &[u8], token: &Token) -> bool
    ensures { spec.is_end_mark text.now token.now ≡ result }
{
    is_written(text, b";", token) || is_written(text, b",", token) || is_closer(text, token)
}

#[tactic(auto, unfolding(crate::specs::Values::begins_line))]
fn begins_line(token: &Token) -> bool
    ensures { spec.begins_line token.now ≡ result }
{
    token.first_in_line && is_word(&token.kind)
}

#[tactic(auto, unfolding(crate::specs::Values::first_may_end))]
fn first_may_end(text: &[u8], tokens: &[Token]) -> bool
    ensures { spec.first_may_end text.now tokens.now ≡ result }
{
    match tokens.split_first() {
        None => false,
        Some((first, _)) => may_end(text, first),
    }
}

#[tactic(auto, unfolding(crate::specs::Values::ends_before))]
fn ends_before(text: &[u8], tokens: &[Token], before: &[Token]) -> bool
    ensures { spec.ends_before text.now tokens.now before.now ≡ result }
{
    match tokens.split_first() {
        None => false,
        Some((first, _)) => {
            is_end_mark(text, first) || begins_line(first) && first_may_end(text, before)
        }
    }
}

fn ends_value(script: &Script<'_>, at: usize) -> bool
    ensures { spec.ends_value script.now.text.now script.now.code.now at ≡ result }
{
    ends_before(
        script.text,
        from_at(script.code, at),
        from_at(script.code, at.saturating_sub(1)),
    )
}

#[tactic(auto, unfolding(crate::specs::Values::first_end))]
fn first_end(script: &Script<'_>, span: Span) -> usize
    ensures { spec.first_end script.now.text.now script.now.code.now (outer_of script.now.code.now span) ≡ result }
{
    let mut left = outer(script.code, span);
    'tokens: while let Some(at) = left.next() {
        if ends_value(script, at) {
            return at;
        }
    }
    script.code.tokens.items().len()
}

/// The value that begins with the token of a number, as that behind a `=` or a `:`. It ends before a `;`, a `,`, a closing bracket that it
/// didn't open, or a word on a new line. Linear in what stands outside of its brackets.
pub fn value_from(script: &Script<'_>, at: usize) -> Span
    ensures { spec.value_from script.now.text.now script.now.code.now at ≡ result }
{
    let all = Span {
        from: at,
        to: script.code.tokens.items().len(),
    };
    Span {
        from: at,
        to: first_end(script, all),
    }
}

// ---- sums

#[tactic(auto, unfolding(crate::specs::Values::is_choice))]
fn is_choice(text: &[u8], token: &Token) -> bool
    ensures { spec.is_choice text.now token.now ≡ result }
{
    is_written(text, b"?", token)
        || is_written(text, b"||", token)
        || is_written(text, b"&&", token)
        || is_written(text, b"??", token)
}

#[tactic(auto, unfolding(crate::specs::Values::chooses))]
fn chooses(text: &[u8], tokens: &[Token]) -> bool
    ensures { spec.chooses text.now tokens.now ≡ result }
{
    match tokens.split_first() {
        None => false,
        Some((first, _)) => is_choice(text, first),
    }
}

#[tactic(auto, unfolding(crate::specs::Values::begins_plus))]
fn begins_plus(text: &[u8], tokens: &[Token]) -> bool
    ensures { spec.begins_plus text.now tokens.now ≡ result }
{
    match tokens.split_first() {
        None => false,
        Some((first, _)) => is_plus(text, first),
    }
}

#[tactic(auto, unfolding(crate::specs::Values::begins_text))]
fn begins_text(tokens: &[Token]) -> bool
    ensures { spec.begins_text tokens.now ≡ result }
{
    match tokens.split_first() {
        None => false,
        Some((first, _)) => is_text(&first.kind),
    }
}

#[tactic(auto, unfolding(crate::specs::Values::any_choice))]
fn any_choice(script: &Script<'_>, span: Span) -> bool
    ensures { spec.any_choice script.now.text.now script.now.code.now (outer_of script.now.code.now span) ≡ result }
{
    let mut left = outer(script.code, span);
    'tokens: while let Some(at) = left.next() {
        if chooses(script.text, from_at(script.code, at)) {
            return true;
        }
    }
    false
}

#[tactic(auto, unfolding(crate::specs::Values::any_plus))]
fn any_plus(script: &Script<'_>, span: Span) -> bool
    ensures { spec.any_plus script.now.text.now script.now.code.now (outer_of script.now.code.now span) ≡ result }
{
    let mut left = outer(script.code, span);
    'tokens: while let Some(at) = left.next() {
        if begins_plus(script.text, from_at(script.code, at)) {
            return true;
        }
    }
    false
}

#[tactic(auto, unfolding(crate::specs::Values::any_text))]
fn any_text(code: &Code, span: Span) -> bool
    ensures { spec.any_text code.now (outer_of code.now span) ≡ result }
{
    let mut left = outer(code, span);
    'tokens: while let Some(at) = left.next() {
        if begins_text(from_at(code, at)) {
            return true;
        }
    }
    false
}

/// Whether a value has `?`, `||`, `&&` or `??` outside of its brackets. Linear in what stands there.
pub fn is_chosen(script: &Script<'_>, span: Span) -> bool
    ensures { spec.is_chosen script.now.text.now script.now.code.now span ≡ result }
{
    any_choice(script, span)
}

/// Whether a value is `x + y + ..` with a Text among them and without a choice, outside of its brackets. Linear in what stands there.
pub fn is_sum(script: &Script<'_>, span: Span) -> bool
    ensures { spec.is_sum script.now.text.now script.now.code.now span ≡ result }
{
    any_plus(script, span) && any_text(script.code, span) && !is_chosen(script, span)
}
