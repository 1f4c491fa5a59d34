//! Closing a page: its least fixpoint.
ghost use Rattle.std.specs.Prelude.{◌≡◌, ◌↔◌, ℕ, List, None, IfOk, OnOk, OnErr, IfSome, IsSome, IsErrOf};
ghost use Rattle.simple_core.specs.Systems.{IsSound};
ghost use Rattle.simple_core.specs.Pairs.{Pair, Asked};
ghost use Rattle.simple_core.specs.Knowledge.{KeepsAsking, IsToldBy, TellsAfter, TellsWithin, KeepsRoom};
ghost use Rattle.closed_page.specs.ClosedPages.{IsClosedPage};
ghost use Rattle.class_adding.specs.Closing.{MayClose, Closes};

use crate::labelling::page_labels;
use closed_page::Closed;
use rule_index::IndexedSystem;
use simple_core::{GainFault, Summaries, System};
use std::alloc::Global;
use tree_sem::Tree;

// Closes the page, over rules that are found by their atoms.
fn close_over<S: Summaries>(
    alloc: Global,
    page: &Tree,
    system: &IndexedSystem,
    sums: &mut S,
) -> Result<Closed, GainFault>
    requires { MayClose S.Summaries system.now sums.old }
    ensures closed { IfOk result (λ c. IsClosedPage system.now page.now c) }
    ensures went { Closes S.Summaries system.now (Asked system.now page.now) result sums.old sums.new }
{
    let labels = page_labels(alloc, page, system, sums)?;
    let closed = Closed::new(alloc, labels)?;
    Ok(closed)
}

/// Computes the least fixpoint on the page. Each pair that it asks is asked of the summaries once, with a first round for
/// each link from a child. Whether children of one node are alike costs a few steps for each node and each atom of a label.
/// Where folding such children leaves at most half of the nodes, the fixpoint is computed on the folded page. In the end
/// each node then gets the label and the first rounds of the node that represents it. This costs a few steps for each round
/// in which it gained something. The fixpoint costs a walk along each label at first, and a few steps for each round. A node
/// is looked at in each round after its label or what an added child gives has changed. It is looked at, too, where its
/// parent's or a child's label got an atom that a link from there looks at. A look costs a few steps for each atom that is
/// fresh there or next to it, and for each rule that needs one of these or none. A child that got the same atoms as the one
/// before it costs a comparison of these. A look costs more where an added child gives more, or a fresh atom adds a child or
/// is visible to one. It then takes a few steps for each atom of the label and of what such a child sees. A node without
/// children takes over the look at the node before it by a few steps, where both have one parent and the same label at
/// first. A change costs at most the length of the node's label, in steps that only copy or move.
pub fn close_page<S: Summaries>(
    alloc: Global,
    page: &Tree,
    system: &System,
    sums: &mut S,
) -> Result<Closed, GainFault>
    requires sound { IsSound system.now }
    requires made { S.system sums.old ≡ system.now }
    requires lawful { KeepsAsking system.now (S.known sums.old) }
    requires tells { IsToldBy (S.told sums.old) (S.known sums.old) }
    requires keeps_room { KeepsRoom system.now (S.room sums.old) (S.told sums.old) (S.spent_on sums.old) }
    ensures closed { IfOk result (λ c. IsClosedPage system.now page.now c) }
    ensures asked { OnOk result ((q : Pair) → Asked system.now page.now q → S.known sums.new q) }
    ensures kept { (q : Pair) → S.known sums.old q → S.known sums.new q }
    ensures told { OnOk result (TellsAfter system.now (S.told sums.old) (S.told sums.new) (Asked system.now page.now)) }
    ensures within { OnErr result (TellsWithin system.now (S.told sums.old) (S.told sums.new) (Asked system.now page.now)) }
    ensures system { S.system sums.new ≡ S.system sums.old }
    ensures room { S.room sums.new ≡ S.room sums.old }
    ensures keeps_room { KeepsRoom system.now (S.room sums.new) (S.told sums.new) (S.spent_on sums.new) }
    ensures spent { S.spent_on sums.old ≡ None → (IsErrOf result GainFault.Spent ↔ IsSome (S.spent_on sums.new)) }
    ensures stays_spent { IsSome (S.spent_on sums.old) → S.spent_on sums.new ≡ S.spent_on sums.old }
    ensures spent_on { S.spent_on sums.old ≡ None → IfSome (S.spent_on sums.new) (λ q. Asked system.now page.now q) }
{
    let indexed = IndexedSystem::new(alloc, system)?;
    close_over(alloc, page, &indexed, sums)
}
