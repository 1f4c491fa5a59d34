//! The guard of a chain below the guard of its handler.
ghost use Rattle.std.specs.Prelude.{◌≡◌, ◌||◌, true, [], IfOk, option_copied, map};
ghost use Rattle.jq_stmts.specs.Statements.{Root, this};
ghost use Rattle.jq_sem.specs.Standing.{after, last_first};
ghost use Rattle.jq_stmts.specs.Views.{call_of, root_of, chain_of};
ghost use Rattle.rule_translate.specs.Translation as spec;

use crate::sets::{both, nowhere, of_call, of_selectors};
use guard_sem::{Guard, GuardNode};
use jq_sem::standing;
use jq_stmts::{Call, Chain, Root};
use std::alloc::Global;
use tp_base::NoMemory;

/// The guard of a chain, where the handler has this guard.
pub(crate) fn of_chain(alloc: Global, handler: Option<Guard>, c: &Chain) -> Result<Guard, NoMemory>
    ensures { IfOk result (λ z. z ≡ spec.of_chain handler (chain_of c.now)) }
{
    let (emptied, calls) = standing(alloc, c.calls.items())?;
    if !is_free(c) {
        let first = of_this(alloc, handler, emptied);
        return of_calls(alloc, calls.as_slice(), first);
    }
    let first = of_root(alloc, handler.as_ref(), emptied, &c.root)?;
    let made = of_calls(alloc, calls.as_slice(), first)?;
    under(alloc, handler, made)
}

// Whether the chain may select a node though its handler has none.
fn is_free(c: &Chain) -> bool
    ensures { result ≡ (spec.is_matched (root_of c.now.root) || spec.has_add (map call_of c.now.calls)) }
{
    match &c.root {
        Root::List(_) => true,
        Root::This => has_add(c.calls.items()),
    }
}

// Whether some call is `add`.
fn has_add(calls: &[Call]) -> bool
    ensures { result ≡ spec.has_add (map call_of calls.now) }
{
    let mut rest = calls;
    'calls: while let Some((c, later)) = rest.split_first() {
        if let Call::Add(_) = c {
            return true;
        }
        rest = later;
    }
    false
}

// What `this` names, where it is left.
fn of_this(alloc: Global, handler: Option<Guard>, emptied: bool) -> Guard
    ensures { result ≡ spec.of_root handler (after emptied this) }
{
    match handler {
        Some(h) if !emptied => h,
        _ => nowhere(alloc),
    }
}

// The set that the chain begins with, where it is left.
fn of_root(
    alloc: Global,
    handler: Option<&Guard>,
    emptied: bool,
    root: &Root,
) -> Result<Guard, NoMemory>
    ensures { IfOk result (λ z. z ≡ spec.of_root (option_copied handler.entry) (after emptied (root_of root.now))) }
{
    if emptied {
        return Ok(nowhere(alloc));
    }
    match root {
        Root::List(selectors) => of_selectors(alloc, selectors.items()),
        Root::This => match handler {
            Some(h) => h.copy(alloc),
            None => Ok(nowhere(alloc)),
        },
    }
}

// The set that the calls make of the set where g holds.
fn of_calls(alloc: Global, calls: &[&Call], g: Guard) -> Result<Guard, NoMemory>
    ensures { IfOk result (λ z. (h : _) (root : _) → g ≡ spec.of_root h root → z ≡ spec.of_calls h root (last_first calls.now [])) }
{
    let mut guard = g;
    'calls: for c in calls {
        guard = of_call(alloc, c, guard)?;
    }
    Ok(guard)
}

// The guard, and that somewhere the handler has a node.
fn under(alloc: Global, handler: Option<Guard>, g: Guard) -> Result<Guard, NoMemory>
    ensures { IfOk result (λ z. z ≡ spec.under handler true g) }
{
    match handler {
        None => Ok(g),
        Some(h) => {
            let there = Guard {
                node: GuardNode::Somewhere(Box::new(alloc, h)?),
            };
            both(alloc, g, there)
        }
    }
}
