//! The rule of a statement.
ghost use Rattle.std.specs.Prelude.{◌≡◌, None, IfOk, map};
ghost use Rattle.jq_stmts.specs.Views.{chain_of, statement_of};
ghost use Rattle.rule_translate.specs.Translation as spec;

use crate::chains::of_chain;
use guard_sem::{Guard, GuardNode, Rule};
use jq_stmts::{Chain, Stmt};
use std::alloc::Global;
use tp_base::NoMemory;
use tree_sem::Action;

/// The rule of a statement. Linear in the statement, except that a chain which begins with `this` and has an `add`
/// takes the guard of the handler round it twice.
pub fn translate(alloc: Global, s: &Stmt) -> Result<Rule, NoMemory>
    ensures { IfOk result (λ r. r ≡ spec.rule_of (statement_of s.now)) }
{
    let selected = of_chains(alloc, s.handlers.items(), &s.chain)?;
    let guard = taker(alloc, &s.action, selected)?;
    let action = s.action.copy()?;
    Ok(Rule { guard, action })
}

// The guard of the handlers and the chain.
fn of_chains(alloc: Global, handlers: &[Chain], c: &Chain) -> Result<Guard, NoMemory>
    ensures { IfOk result (λ z. z ≡ spec.of_chains None (map chain_of handlers.now) (chain_of c.now)) }
{
    let mut above: Option<Guard> = None;
    let mut rest = handlers;
    'handlers: while let Some((handler, inner)) = rest.split_first() {
        above = Some(of_chain(alloc, above, handler)?);
        rest = inner;
    }
    of_chain(alloc, above, c)
}

// The guard at the node that takes what the action adds.
fn taker(alloc: Global, action: &Action, selected: Guard) -> Result<Guard, NoMemory>
    ensures { IfOk result (λ z. z ≡ spec.taker action.now selected) }
{
    match action {
        Action::Classes(_) | Action::Inside(_) => Ok(selected),
        Action::Beside(_) => Ok(Guard {
            node: GuardNode::Child(Box::new(alloc, selected)?),
        }),
    }
}
