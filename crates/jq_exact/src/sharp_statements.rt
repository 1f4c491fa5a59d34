//! Which statements have a sharp call.
ghost use Rattle.std.specs.Prelude.{◌≡◌, Some, map, IfOk};
ghost use Rattle.jq_stmts.specs.Sharp.{is_sharp, has_sharp, have_sharp, is_sharp_statement};
ghost use Rattle.jq_stmts.specs.SharpViews.{with_kind, exact_calls, exact_handlers, exact_of, exacts_of};
ghost use Rattle.jq_stmts.specs.Views.{call_of, chain_of};
ghost use Rattle.jq_stmts.specs.declared.sharp.SharpKind.TheVariants as sharp_kind;

use crate::sets::takes_all;
use jq_stmts::{Call, Chain, ExactStmt, Sharp, SharpKind, kind_at};
use std::alloc::Global;
use tp_base::NoMemory;

/// Of each statement whether it has a sharp call. Each call costs a look at its statement's marks.
pub fn sharp_statements(alloc: Global, stmts: &[ExactStmt]) -> Result<Vec<bool>, NoMemory>
    ensures { IfOk result (λ v. v.items ≡ map is_sharp_statement (exacts_of stmts.now)) }
{
    let mut sharp = Vec::new(alloc);
    'statements: for stmt in stmts {
        sharp.push(is_sharp_stmt(stmt))?;
    }
    Ok(sharp)
}

fn is_sharp_stmt(s: &ExactStmt) -> bool
    ensures { result ≡ is_sharp_statement (exact_of s.now) }
{
    let sharp = s.sharp.items();
    is_sharp_chain(&s.wide.chain, sharp, None) || have_sharp_call(s.wide.handlers.items(), sharp)
}

// Whether one of a statement's handlers has a sharp call.
fn have_sharp_call(handlers: &[Chain], sharp: &[Sharp]) -> bool
    ensures { result ≡ have_sharp (exact_handlers sharp.now 0 (map chain_of handlers.now)) }
{
    'handlers: for number in 0..handlers.len() {
        if is_sharp_chain(&handlers[number], sharp, Some(number)) {
            return true;
        }
    }
    false
}

// Whether a chain, of a handler or of the statement itself, has a sharp call.
fn is_sharp_chain(chain: &Chain, sharp: &[Sharp], handler: Option<usize>) -> bool
    ensures { result ≡ has_sharp (exact_calls sharp.now handler 0 (map call_of chain.now.calls)) }
{
    has_sharp_call(chain.calls.items(), sharp, handler)
}

fn has_sharp_call(calls: &[Call], sharp: &[Sharp], handler: Option<usize>) -> bool
    ensures { result ≡ has_sharp (exact_calls sharp.now handler 0 (map call_of calls.now)) }
{
    'calls: for number in 0..calls.len() {
        let kind = kind_at(sharp, handler, number);
        if is_sharp_call(&calls[number], kind) {
            return true;
        }
    }
    false
}

// Whether a call is sharp, of which this is kept.
fn is_sharp_call(call: &Call, kind: Option<SharpKind>) -> bool
    ensures { result ≡ is_sharp (with_kind (call_of call.now) kind) }
{
    match kind {
        None => false,
        Some(SharpKind::Closest) => is_around(call),
        Some(SharpKind::Siblings) => is_near(call),
        Some(SharpKind::First) => is_filter(call),
    }
}

fn is_around(call: &Call) -> bool
    ensures { result ≡ is_sharp (with_kind (call_of call.now) (Some sharp_kind.Closest)) }
{
    match call {
        Call::Around(_) => true,
        _ => false,
    }
}

fn is_near(call: &Call) -> bool
    ensures { result ≡ is_sharp (with_kind (call_of call.now) (Some sharp_kind.Siblings)) }
{
    match call {
        Call::Near(_) => true,
        _ => false,
    }
}

fn is_filter(call: &Call) -> bool
    ensures { result ≡ is_sharp (with_kind (call_of call.now) (Some sharp_kind.First)) }
{
    takes_all(call)
}
