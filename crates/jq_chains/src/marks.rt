//! The marks of a statement's sharp calls, apart from the calls.
ghost use Rattle.std.specs.Prelude.{◌≡◌, ◌<◌, ◌≤◌, ◌∷◌, ◌++◌, length, map, Some, None, IfOk, OnOk};
ghost use Rattle.jq_stmts.specs.Views.{call_of, chain_of};
ghost use Rattle.jq_words.specs.declared.faults.TheConstants.{MOST_CALLS, MOST_OPEN};
ghost use Rattle.jq_chains.specs.MarkedCalls.{judged_of, marked_chain_of, calls_in};
ghost use Rattle.jq_chains.specs.Marks as spec;

use crate::marked_calls::{MarkedCall, MarkedChain};
use jq_stmts::{Call, Calls, Chain, Chains, Sharp, SharpKind, Sharps};
use std::alloc::Global;
use tp_base::NoMemory;

/// Chains that are judged, and the marks of their calls.
#[derive(Drop)]
pub struct Unmarked {
    pub handlers: Chains,
    pub chain: Chain,
    pub sharp: Sharps,
}

// Adds the mark of a call of a handler's chain, or of the statement's own, where not all of its set is kept.
fn mark(
    handler: Option<u32>,
    call: usize,
    kind: Option<SharpKind>,
    marks: &mut Vec<Sharp>,
) -> Result<(), NoMemory>
    requires few { call < MOST_CALLS }
    ensures { OnOk result (marks.new.items ≡ marks.old.items ++ spec.mark_of handler call kind) }
{
    let Some(kind) = kind else {
        return Ok(());
    };
    marks.push(Sharp {
        handler,
        call: call as u32,
        kind,
    })?;
    Ok(())
}

// The calls that are judged; their marks are added. Linear in the calls.
#[tactic(auto, using(crate::proofs::MarkSteps::one_parted, crate::proofs::MarkSteps::one_judged, crate::proofs::MarkSteps::none_marked, crate::proofs::MarkSteps::none_judged))]
fn parted_calls(
    alloc: Global,
    handler: Option<u32>,
    calls: Vec<MarkedCall>,
    marks: &mut Vec<Sharp>,
) -> Result<Vec<Call>, NoMemory>
    requires few { length calls.items ≤ MOST_CALLS }
    ensures judged { IfOk result (λ v. map call_of v.items ≡ map judged_of calls.items) }
    ensures marked { OnOk result (marks.new.items ≡ marks.old.items ++ spec.marks_of handler 0 calls.items) }
{
    let mut judged = Vec::new(alloc);
    for call in calls {
        mark(handler, judged.len(), call.kind, marks)?;
        judged.push(call.call)?;
    }
    Ok(judged)
}

// The chain that is judged; the marks of its calls are added. Linear in the calls.
fn parted_chain(
    alloc: Global,
    handler: Option<u32>,
    chain: MarkedChain,
    marks: &mut Vec<Sharp>,
) -> Result<Chain, NoMemory>
    requires few { length chain.calls.items ≤ MOST_CALLS }
    ensures judged { IfOk result (λ c. chain_of c ≡ spec.judged_chain chain) }
    ensures marked { OnOk result (marks.new.items ≡ marks.old.items ++ spec.marks_of handler 0 chain.calls.items) }
{
    let calls = parted_calls(alloc, handler, chain.calls, marks)?;
    Ok(Chain {
        root: chain.root,
        calls: Calls::new(calls),
    })
}

// The same of the chains of handlers, outermost first. Linear in the calls.
#[tactic(auto, using(crate::proofs::MarkSteps::handler_parted, crate::proofs::MarkSteps::handler_judged, crate::proofs::MarkSteps::no_handler_marked, crate::proofs::MarkSteps::no_handler_judged, crate::proofs::MarkSteps::first_short, crate::proofs::MarkSteps::others_short))]
fn parted_chains(
    alloc: Global,
    chains: Vec<MarkedChain>,
    marks: &mut Vec<Sharp>,
) -> Result<Vec<Chain>, NoMemory>
    requires few { length chains.items ≤ MOST_OPEN }
    requires short { calls_in (map marked_chain_of chains.items) ≤ MOST_CALLS }
    ensures judged { IfOk result (λ v. map chain_of v.items ≡ map spec.judged_chain chains.items) }
    ensures marked { OnOk result (marks.new.items ≡ marks.old.items ++ spec.handlers_marks 0 chains.items) }
{
    let mut judged = Vec::new(alloc);
    for chain in chains {
        let handler = judged.len() as u32;
        judged.push(parted_chain(alloc, Some(handler), chain, marks)?)?;
    }
    Ok(judged)
}

/// The chains of a statement, and the marks of their calls. Linear in the calls.
#[tactic(auto, using(crate::proofs::MarkSteps::first_short, crate::proofs::MarkSteps::others_short))]
pub fn parted(
    alloc: Global,
    handlers: Vec<MarkedChain>,
    chain: MarkedChain,
) -> Result<Unmarked, NoMemory>
    requires few { length handlers.items ≤ MOST_OPEN }
    requires short { calls_in (map marked_chain_of (chain ∷ handlers.items)) ≤ MOST_CALLS }
    ensures handlers { IfOk result (λ p. map chain_of p.handlers ≡ map spec.judged_chain handlers.items) }
    ensures chain { IfOk result (λ p. chain_of p.chain ≡ spec.judged_chain chain) }
    ensures sharp { IfOk result (λ p. p.sharp ≡ spec.statement_marks handlers.items chain) }
{
    let mut marks = Vec::new(alloc);
    let chain = parted_chain(alloc, None, chain, &mut marks)?;
    let chains = parted_chains(alloc, handlers, &mut marks)?;
    Ok(Unmarked {
        handlers: Chains::new(chains),
        chain,
        sharp: Sharps::new(marks),
    })
}
