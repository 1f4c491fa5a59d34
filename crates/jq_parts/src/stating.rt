//! The statements of a script, added one at a time.
ghost use Rattle.std.specs.Prelude.{◌≡◌, ◌≤◌, ℕ, List, length, map, min, IfOk, OnOk};
ghost use Rattle.jq_words.specs.Results.{Leaves};
ghost use Rattle.jq_words.specs.declared.faults.TheConstants.{MOST_STATEMENTS};
ghost use Rattle.jq_chains.specs.MarkedCalls as marked;
ghost use Rattle.jq_chains.specs.MarkedCalls.{marked_chain_of};
ghost use Rattle.jq_parts.specs.Stating as spec;
ghost use Rattle.jq_parts.specs.ScopeViews.{handlers_of, effect_of, stated_in};

use crate::placing::Stated;
use crate::scopes::Handler;
use jq_chains::{MarkedChain, SharedChain};
use jq_words::{MOST_CALLS, MOST_STATEMENTS, ScriptFault};
use std::alloc::Global;
use tp_base::NoMemory;
use tree_sem::Action;

// The number of calls in some chains, or `usize::MAX` where they are more.
fn calls_in(chains: &[MarkedChain]) -> usize
    ensures { result ≡ min (marked.calls_in (map marked_chain_of chains.now)) usize.MAX }
{
    let mut count: usize = 0;
    for chain in chains {
        count = count.saturating_add(chain.calls.len());
    }
    count
}

// The chains of handlers, outermost first.
fn chains_of(alloc: Global, handlers: &[Handler]) -> Result<Vec<MarkedChain>, NoMemory>
    ensures { IfOk result (λ v. map marked_chain_of v.items ≡ spec.chains_of (handlers_of handlers.now)) }
{
    let mut copy = Vec::new(alloc);
    for handler in handlers {
        copy.push(handler.chain.copy(alloc)?)?;
    }
    Ok(copy)
}

/// Adds the statement of a call, if the call acts. The call stands in the handlers, and `at` is the offset of its name. Linear in its
/// chain and the handlers' chains, which are copied.
#[tactic(auto, unfolding(crate::specs::Stating::stated), using(crate::proofs::StatingSteps::one_stated))]
pub fn stated(
    alloc: Global,
    handlers: &[Handler],
    at: usize,
    effect: Option<(SharedChain, Action)>,
    statements: &mut Vec<Stated>,
) -> Result<(), ScriptFault>
    ensures gives { (text : List ℕ) → Leaves (map (stated_in text) statements.new.items) result (spec.stated text (handlers_of handlers.now) at (effect_of effect) (map (stated_in text) statements.old.items)) }
    ensures few { length statements.old.items ≤ MOST_STATEMENTS → OnOk result (length statements.new.items ≤ MOST_STATEMENTS) }
{
    let Some((chain, action)) = effect else {
        return Ok(());
    };
    if statements.len() >= MOST_STATEMENTS {
        return Err(ScriptFault::TooManyStatements(at));
    }
    let chain = chain.copy(alloc)?;
    let chains = chains_of(alloc, handlers)?;
    if calls_in(&chains).saturating_add(chain.calls.len()) > MOST_CALLS {
        return Err(ScriptFault::TooLong(at));
    }
    statements.push(Stated {
        at,
        handlers: chains,
        chain,
        action,
    })?;
    Ok(())
}
