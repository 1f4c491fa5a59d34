//! Objects that are written out.
ghost use Rattle.std.specs.Prelude.{◌≡◌, ◌≤◌, length, true, IfOk};
ghost use Rattle.code_values.specs.Objects as spec;

use crate::calls::arguments;
use crate::outside::{begins, from_at, other_at, tokens_in};
use crate::script::Script;
use crate::spans::Span;
use crate::values::is_word;
use code_scan::{Token, is_written};
use std::alloc::Global;
use tp_base::{Items, NoMemory};

/// A part of an object.
#[derive(Clone, Copy, Debug, PartialEq, Eq)]
pub enum Part {
    /// `key: value`, by the number of the token that is the key (a Name, a Text or a Number), and the tokens of the value.
    Pair(usize, Span),
    /// Anything else: a method, `...x`, `[key]: value`, a name alone.
    Other(Span),
}

fn closes_at(span: Span, other: Option<usize>) -> bool
    ensures { result ≡ spec.closes_at span other }
{
    match other {
        None => false,
        Some(other) => span.to > other && span.to - other == 1,
    }
}

/// Whether a value is `{ .. }`. Constant.
pub fn is_object(script: &Script<'_>, span: Span) -> bool
    ensures { spec.is_object script.now.text.now script.now.code.now span ≡ result }
{
    begins(script.text, b"{", from_at(script.code, span.from))
        && closes_at(span, other_at(script.code, span.from))
}

#[tactic(auto, unfolding(crate::specs::Objects::begins_pair))]
fn begins_pair(text: &[u8], tokens: &[Token]) -> bool
    ensures gives { spec.begins_pair text.now tokens.now ≡ result }
    ensures long { result ≡ true → 2 ≤ length tokens.now }
{
    let Some((first, behind)) = tokens.split_first() else {
        return false;
    };
    match behind.split_first() {
        None => false,
        Some((second, _)) => is_word(&first.kind) && is_written(text, b":", second),
    }
}

#[tactic(auto, unfolding(crate::specs::Objects::part_at))]
fn part_at(script: &Script<'_>, span: Span) -> Part
    ensures { spec.part_at script.now.text.now script.now.code.now span ≡ result }
{
    if begins_pair(script.text, tokens_in(script.code, span)) {
        let value = Span {
            from: span.from + 2,
            to: span.to,
        };
        Part::Pair(span.from, value)
    } else {
        Part::Other(span)
    }
}

#[tactic(auto, unfolding(crate::specs::Objects::parts_at))]
fn parts_at(alloc: Global, script: &Script<'_>, spans: &[Span]) -> Result<Vec<Part>, NoMemory>
    ensures { IfOk result (λ v. v.items ≡ spec.parts_at script.now.text.now script.now.code.now spans.now) }
{
    let mut parts = Vec::new(alloc);
    let mut rest = spans;
    'spans: while let Some((first, others)) = rest.split_first() {
        parts.push(part_at(script, *first))?;
        rest = others;
    }
    Ok(parts)
}

/// The parts of a value that is `{ .. }`, none of another one. Linear in what stands outside of their brackets.
#[tactic(auto, unfolding(crate::specs::Objects::object_parts))]
pub fn object_parts(alloc: Global, script: &Script<'_>, span: Span) -> Result<Items<Part>, NoMemory>
    ensures { IfOk result (λ v. v ≡ spec.object_parts script.now.text.now script.now.code.now span) }
{
    if !is_object(script, span) {
        return Ok(Items::new(Vec::new(alloc)));
    }
    let spans = arguments(alloc, script, span.from)?;
    Ok(Items::new(parts_at(alloc, script, spans.items())?))
}
