//! Arguments of calls, and other lists between commas.
ghost use Rattle.std.specs.Prelude.{◌≡◌, ◌++◌, OnOk, IfOk};
ghost use Rattle.code_values.specs.Arguments as spec;
ghost use Rattle.code_values.specs.Outer.{part as part_between, is_comma as commas, parts as parts_in};

use crate::outside::{begins, from_at, other_at, outer};
use crate::script::Script;
use crate::spans::Span;
use code_tokens::Code;
use std::alloc::Global;
use tp_base::{Items, NoMemory};

fn is_comma(script: &Script<'_>, at: usize) -> bool
    ensures { commas script.now.text.now script.now.code.now at ≡ result }
{
    begins(script.text, b",", from_at(script.code, at))
}

#[tactic(auto, unfolding(crate::specs::Outer::part))]
fn push_part(parts: &mut Vec<Span>, from: usize, to: usize) -> Result<(), NoMemory>
    ensures { OnOk result (parts.new.items ≡ parts.old.items ++ part_between from to) }
{
    if from < to {
        parts.push(Span { from, to })?;
    }
    Ok(())
}

/// The parts of a range, split at the commas outside of its inner brackets, without empty ones. Linear in what stands outside of these.
#[tactic(auto, using(crate::proofs::OuterSteps::comma, crate::proofs::OuterSteps::no_comma, crate::proofs::OuterSteps::last_part))]
pub(crate) fn parts_of(
    alloc: Global,
    script: &Script<'_>,
    span: Span,
) -> Result<Vec<Span>, NoMemory>
    ensures { IfOk result (λ v. v.items ≡ parts_in script.now.text.now script.now.code.now span) }
{
    let mut parts = Vec::new(alloc);
    let mut from = span.from;
    let mut left = outer(script.code, span);
    'tokens: while let Some(at) = left.next() {
        if is_comma(script, at) {
            push_part(&mut parts, from, at)?;
            from = at + 1;
        }
    }
    push_part(&mut parts, from, span.to)?;
    Ok(parts)
}

fn end_or(size: usize, other: Option<usize>) -> usize
    ensures { result ≡ spec.end_or size other }
{
    match other {
        None => size,
        Some(other) => other,
    }
}

fn place_behind(size: usize, at: usize) -> usize
    ensures { result ≡ spec.place_behind size at }
{
    if at < size { at + 1 } else { size }
}

/// The tokens in the bracket that the token of a number opens: up to the other bracket, or up to the end of all tokens where there is none.
/// Constant.
pub fn inside(code: &Code, at: usize) -> Span
    ensures { result ≡ spec.inside code.now at }
{
    let size = code.tokens.items().len();
    Span {
        from: place_behind(size, at),
        to: end_or(size, other_at(code, at)),
    }
}

/// The arguments of the `(` of a number, without empty ones. Linear in what stands outside of their brackets.
pub fn arguments(alloc: Global, script: &Script<'_>, at: usize) -> Result<Items<Span>, NoMemory>
    ensures { IfOk result (λ v. v ≡ spec.arguments script.now.text.now script.now.code.now at) }
{
    Ok(Items::new(parts_of(alloc, script, inside(script.code, at))?))
}

/// Whether `...` stands in front of an argument. Constant.
pub fn is_spread(script: &Script<'_>, span: Span) -> bool
    ensures { spec.is_spread script.now.text.now script.now.code.now span ≡ result }
{
    begins(script.text, b"...", from_at(script.code, span.from))
}
