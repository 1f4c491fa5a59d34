//! The places of the statements in their script.
ghost use Rattle.std.specs.List.{AllByRecursion};
ghost use Rattle.std.specs.Prelude.{◌≡◌, ◌≤◌, ◌∷◌, ℕ, List, length, map, IfOk, IfErr};
ghost use Rattle.tp_base.specs.Places.{place_at};
ghost use Rattle.tp_base.specs.declared.places.TheConstants.{MOST_BYTES};
ghost use Rattle.jq_stmts.specs.SharpViews.{exact_of, exacts_of};
ghost use Rattle.jq_words.specs.declared.faults.ScriptFault.TheVariants.{Memory};
ghost use Rattle.jq_words.specs.declared.faults.TheConstants.{MOST_CALLS, MOST_OPEN};
ghost use Rattle.jq_chains.specs.MarkedCalls.{marked_chain_of, calls_in};
ghost use Rattle.jq_parts.specs.ScopeViews.{stated_in};
ghost use Rattle.jq_parts.specs.Stating.{IsCounted};

use jq_chains::{MarkedChain, parted};
use jq_stmts::{ExactStmt, Stmt};
use jq_words::ScriptFault;
use std::alloc::Global;
use tp_base::{Cursor, NoMemory, Place};
use tree_sem::Action;

/// A statement that still has the offset of its action's name instead of its place.
#[derive(Drop)]
pub struct Stated {
    pub at: usize,
    pub handlers: Vec<MarkedChain>,
    pub chain: MarkedChain,
    pub action: Action,
}

// The statement at a place, with its marks in a list. Linear in its calls.
#[tactic(auto, using(jq_chains::proofs::MarkSteps::told_at))]
fn at_place(alloc: Global, place: Place, statement: Stated) -> Result<ExactStmt, NoMemory>
    requires few { length statement.handlers.items ≤ MOST_OPEN }
    requires short { calls_in (map marked_chain_of (statement.chain ∷ statement.handlers.items)) ≤ MOST_CALLS }
    ensures { IfOk result (λ s. (text : List ℕ) → place ≡ place_at text statement.at → exact_of s ≡ stated_in text statement) }
{
    let unmarked = parted(alloc, statement.handlers, statement.chain)?;
    Ok(ExactStmt {
        wide: Stmt {
            place,
            handlers: unmarked.handlers,
            chain: unmarked.chain,
            action: statement.action,
        },
        sharp: unmarked.sharp,
    })
}

/// The wide statements at their places, each with the marks of its sharp calls. Linear in the calls, and in the text where the
/// offsets rise. They do where a file is read in order.
#[tactic(auto, using(crate::proofs::StatingSteps::placed_more, crate::proofs::StatingSteps::placed_all, crate::proofs::StatingSteps::few_handlers, crate::proofs::StatingSteps::short_chains))]
pub fn placed(
    alloc: Global,
    text: &[u8],
    statements: Vec<Stated>,
) -> Result<Vec<ExactStmt>, ScriptFault>
    requires in_limit { length text.now ≤ MOST_BYTES }
    requires counted { AllByRecursion IsCounted (map (stated_in text.now) statements.items) }
    ensures gives { IfOk result (λ v. exacts_of v.items ≡ map (stated_in text.now) statements.items) }
    ensures only_memory { IfErr result (λ e. e ≡ Memory) }
{
    let mut found = Vec::new(alloc);
    let mut cursor = Cursor::new();
    for statement in statements {
        let place = cursor.place_at(text, statement.at);
        found.push(at_place(alloc, place, statement)?)?;
    }
    Ok(found)
}
