//! Members behind `++` and `--`, as in `++e.colSpan`.
ghost use Rattle.std.specs.Prelude.{◌≡◌, IfOk};
ghost use Rattle.code_places.specs.Steps as spec;

use crate::brackets::{flag_at, number_at};
use crate::script::Script;
use crate::words::begins_mark;
use code_scan::{Token, TokenKind};
use std::alloc::Global;
use tp_base::NoMemory;

const STEPS: [&[u8]; 2] = [b"++", b"--"];

const MEMBER_MARKS: [&[u8]; 4] = [b".", b"?.", b"(", b"["];

fn is_member_kind(kind: &TokenKind) -> bool
    ensures { result ≡ spec.is_member_kind kind.now }
{
    matches!(
        kind,
        TokenKind::Name | TokenKind::Member(_) | TokenKind::Dot
    )
}

#[tactic(auto, unfolding(crate::specs::Steps::goes_on), using(crate::proofs::Marks::same_member_marks))]
fn goes_on(text: &[u8], tokens: &[Token]) -> bool
    ensures { spec.goes_on text.now tokens.now ≡ result }
{
    match tokens.split_first() {
        None => false,
        Some((first, _)) => is_member_kind(&first.kind) || begins_mark(text, &MEMBER_MARKS, tokens),
    }
}

fn step_kept(text: &[u8], known: &[bool], tokens: &[Token], other: Option<usize>) -> bool
    ensures { result ≡ spec.step_kept text.now known.now tokens.now other }
{
    match other {
        Some(other) if other < known.len() => flag_at(known, other),
        _ => goes_on(text, tokens) && flag_at(known, known.len().saturating_sub(1)),
    }
}

#[tactic(auto, unfolding(crate::specs::Steps::is_stepped), using(crate::proofs::Marks::same_steps))]
fn is_stepped(script: &Script<'_>, known: &[bool], tokens: &[Token]) -> bool
    ensures { spec.is_stepped script.now.text.now script.now.code.now known.now tokens.now ≡ result }
{
    begins_mark(script.text, &STEPS, tokens)
        || step_kept(
            script.text,
            known,
            tokens,
            number_at(script.code.others.items(), known.len()),
        )
}

/// For each token whether it is `++` or `--`, or belongs to a member behind one. Linear in the code.
#[tactic(auto, unfolding(crate::specs::Steps::stepped_from))]
pub(crate) fn stepped(alloc: Global, script: &Script<'_>) -> Result<Vec<bool>, NoMemory>
    ensures { IfOk result (λ v. v.items ≡ spec.stepped script.now.text.now script.now.code.now) }
{
    let mut known = Vec::new(alloc);
    let mut rest = script.code.tokens.items();
    'tokens: while let Some((_, behind)) = rest.split_first() {
        let is = is_stepped(script, &known, rest);
        known.push(is)?;
        rest = behind;
    }
    Ok(known)
}
