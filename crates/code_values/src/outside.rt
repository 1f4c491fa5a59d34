//! What stands outside of inner brackets, and what stands at a place.
ghost use Rattle.std.specs.Prelude.{◌≡◌, ◌<◌, ◌+◌, ◌^◌, [], length, take, drop, get_or, None, IfSome};
ghost use Rattle.code_values.specs.Outer as spec;

use crate::spans::Span;
use code_scan::{Token, is_written};
use code_tokens::Code;
use std::marker::Model;

/// The tokens of a range that stand outside of its inner brackets. A contract sees the list of their numbers.
#[derive(Drop)]
pub(crate) struct OuterTokens<'a> {
    rest: &'a [Option<usize>],
    size: usize,
}

impl<'a> Model for OuterTokens<'a> {
    ghost use Rattle.std.specs.Prelude.{◌≤◌, ℕ, List, length};
    ghost use Rattle.code_values.specs.Outer.{outer_from};

    ghost Value = { List ℕ };

    ghost view = { λ o. outer_from o.size 0 o.rest.now };

    ghost invariant = { λ o. length o.rest.now ≤ o.size };
}

fn inner_count(at: usize, other: Option<usize>) -> usize
    ensures { result ≡ spec.inner_count at other }
{
    match other {
        None => 0,
        Some(other) => other.saturating_sub(at),
    }
}

fn others_up_to(others: &[Option<usize>], to: usize) -> &[Option<usize>]
    ensures { result.now ≡ take to others.now }
{
    match others.split_at_checked(to) {
        Some((front, _)) => front,
        None => others,
    }
}

fn others_from(others: &[Option<usize>], from: usize) -> &[Option<usize>]
    ensures { result.now ≡ drop from others.now }
{
    match others.split_at_checked(from) {
        Some((_, behind)) => behind,
        None => &[],
    }
}

/// Those of a range. Constant.
pub(crate) fn outer(code: &Code, span: Span) -> OuterTokens<'_>
    ensures { result ≡ spec.outer code.now span }
{
    let front = others_up_to(code.others.items(), span.to);
    OuterTokens {
        rest: others_from(front, span.from),
        size: front.len(),
    }
}

impl OuterTokens<'_> {
    /// The number of the next one. Constant.
    #[tactic(auto, using(crate::proofs::OuterSteps::one_more, crate::proofs::OuterSteps::none_left))]
    pub(crate) fn next(&mut self) -> Option<usize>
        ensures next { self.old ≡ spec.with_head result self.new }
        ensures end { result ≡ None → self.new ≡ [] }
        ensures within { IfSome result (λ at. at + 1 < 2 ^ 64) }
    {
        let Some((first, behind)) = self.rest.split_first() else {
            return None;
        };
        let at = self.size - self.rest.len();
        self.rest = others_from(behind, inner_count(at, *first));
        Some(at)
    }
}

/// The token that belongs to that of a number. Constant.
pub(crate) fn other_at(code: &Code, at: usize) -> Option<usize>
    ensures { result ≡ get_or code.now.others at None }
{
    match code.others.items().get(at) {
        Some(other) => *other,
        None => None,
    }
}

/// The tokens of a number on. Constant.
pub(crate) fn from_at(code: &Code, at: usize) -> &[Token]
    ensures { result.now ≡ spec.from_at code.now at }
{
    match code.tokens.items().split_at_checked(at) {
        Some((_, behind)) => behind,
        None => &[],
    }
}

fn up_to(tokens: &[Token], to: usize) -> &[Token]
    ensures { result.now ≡ take to tokens.now }
{
    match tokens.split_at_checked(to) {
        Some((front, _)) => front,
        None => tokens,
    }
}

/// The tokens of a range. Constant.
pub(crate) fn tokens_in(code: &Code, span: Span) -> &[Token]
    ensures gives { result.now ≡ spec.tokens_in code.now span }
    ensures within { 0 < length result.now → span.from + length result.now < 2 ^ 64 }
{
    match up_to(code.tokens.items(), span.to).split_at_checked(span.from) {
        Some((_, behind)) => behind,
        None => &[],
    }
}

/// Whether tokens begin with a mark. Constant.
#[tactic(auto, unfolding(crate::specs::Outer::begins))]
pub(crate) fn begins(text: &[u8], mark: &[u8], tokens: &[Token]) -> bool
    ensures { spec.begins text.now mark.now tokens.now ≡ result }
{
    match tokens.split_first() {
        None => false,
        Some((first, _)) => is_written(text, mark, first),
    }
}
