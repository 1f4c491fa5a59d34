//! The replay of steps, and of events, one after another.
ghost use Rattle.std.specs.Prelude.{◌≡◌, ◌⊎◌, ◌↔◌, ℕ, ◌<◌, ◌≤◌, [], length, take, IsTrue, OnOk, IfErr, IsErrOf};
ghost use Rattle.tree_sem.specs.Replays.{step_of, IsReplay, IsStep};
ghost use Rattle.tree_sem.specs.Series.{CanTake, IsIllegalAt, IsFullAt};
ghost use Rattle.tree_sem.specs.Trees.{count_of};
ghost use Rattle.jq_sem.specs.Events.{IsLegalEvent, after_event, AreLegalEvents, end_of_events};
ghost use Rattle.jq_sem.specs.Reachability.{IsLegal, after_step, AreLegal, end_of};
ghost use Rattle.jq_stmts.specs.Views.{statements_of};

use jq_sem::{act, selects};
use jq_stmts::Stmt;
use std::alloc::Global;
use tp_base::{Atom, NoMemory, Path};
use tree_sem::{Event, MOST_NODES, ReplayFault, Step, Tree, TreeFault};

/// Replays the steps one after another. It stops at the first one that isn't legal in the tree before it, or that would make
/// too many nodes. Then it leaves the tree as it was before that step. Each step costs what `selects` and `act` cost.
pub fn replay(
    alloc: Global,
    stmts: &[Stmt],
    tree: &mut Tree,
    steps: &[Step],
) -> Result<(), ReplayFault>
    ensures legal { OnOk result (AreLegal tree.old (statements_of stmts.now) steps.now) }
    ensures taken { OnOk result (CanTake IsLegal after_step tree.old (statements_of stmts.now) steps.now) }
    ensures ok { OnOk result (tree.new ≡ end_of tree.old (statements_of stmts.now) steps.now) }
    ensures illegal_step { (i : ℕ) → IsErrOf result (ReplayFault.IllegalStep i)
        → IsIllegalAt IsLegal after_step tree.old (statements_of stmts.now) steps.now i }
    ensures illegal_refused { (i : ℕ) → IsIllegalAt IsLegal after_step tree.old (statements_of stmts.now) steps.now i
        → IsErrOf result (ReplayFault.IllegalStep i) ⊎ ((j : ℕ) × IsErrOf result (ReplayFault.Memory j)) }
    ensures too_many_nodes { (i : ℕ) → IsErrOf result (ReplayFault.TooManyNodes i)
        → IsFullAt IsLegal after_step tree.old (statements_of stmts.now) steps.now i }
    ensures full_refused { (i : ℕ) → IsFullAt IsLegal after_step tree.old (statements_of stmts.now) steps.now i
        → IsErrOf result (ReplayFault.TooManyNodes i) ⊎ ((j : ℕ) × IsErrOf result (ReplayFault.Memory j)) }
    ensures memory { (i : ℕ) → IsErrOf result (ReplayFault.Memory i) → i < length steps.now }
    ensures before_memory { (i : ℕ) → IsErrOf result (ReplayFault.Memory i)
        → CanTake IsLegal after_step tree.old (statements_of stmts.now) (take i steps.now) }
    ensures err { IfErr result (λ e.
        tree.new ≡ end_of tree.old (statements_of stmts.now) (take (step_of e) steps.now)) }
{
    take_steps(alloc, stmts, tree, steps)
}

/// Replays the events one after another. It stops at the first one that isn't legal in the tree before it, or at a step that
/// would make too many nodes. Then it leaves the tree as it was before that event. A step costs what it costs in `replay`. A
/// loss costs what `take_class` and `cut` of the tree cost, and no memory.
pub fn replay_events(
    alloc: Global,
    stmts: &[Stmt],
    tree: &mut Tree,
    events: &[Event],
) -> Result<(), ReplayFault>
    ensures legal { OnOk result (AreLegalEvents tree.old (statements_of stmts.now) events.now) }
    ensures taken { OnOk result (CanTake IsLegalEvent after_event tree.old (statements_of stmts.now) events.now) }
    ensures ok { OnOk result (tree.new ≡ end_of_events tree.old (statements_of stmts.now) events.now) }
    ensures illegal_step { (i : ℕ) → IsErrOf result (ReplayFault.IllegalStep i)
        → IsIllegalAt IsLegalEvent after_event tree.old (statements_of stmts.now) events.now i }
    ensures illegal_refused { (i : ℕ) → IsIllegalAt IsLegalEvent after_event tree.old (statements_of stmts.now) events.now i
        → IsErrOf result (ReplayFault.IllegalStep i) ⊎ ((j : ℕ) × IsErrOf result (ReplayFault.Memory j)) }
    ensures too_many_nodes { (i : ℕ) → IsErrOf result (ReplayFault.TooManyNodes i)
        → IsFullAt IsLegalEvent after_event tree.old (statements_of stmts.now) events.now i }
    ensures full_refused { (i : ℕ) → IsFullAt IsLegalEvent after_event tree.old (statements_of stmts.now) events.now i
        → IsErrOf result (ReplayFault.TooManyNodes i) ⊎ ((j : ℕ) × IsErrOf result (ReplayFault.Memory j)) }
    ensures memory { (i : ℕ) → IsErrOf result (ReplayFault.Memory i) → i < length events.now }
    ensures before_memory { (i : ℕ) → IsErrOf result (ReplayFault.Memory i)
        → CanTake IsLegalEvent after_event tree.old (statements_of stmts.now) (take i events.now) }
    ensures err { IfErr result (λ e.
        tree.new ≡ end_of_events tree.old (statements_of stmts.now) (take (step_of e) events.now)) }
{
    take_events(alloc, stmts, tree, events)
}

// The same, said by one clause.
fn take_steps(
    alloc: Global,
    stmts: &[Stmt],
    tree: &mut Tree,
    steps: &[Step],
) -> Result<(), ReplayFault>
    ensures { IsReplay IsLegal after_step tree.old (statements_of stmts.now) steps.now tree.new result }
{
    for (number, step) in steps.iter().enumerate() {
        take_step(alloc, stmts, tree, step, number)?;
    }
    Ok(())
}

fn take_events(
    alloc: Global,
    stmts: &[Stmt],
    tree: &mut Tree,
    events: &[Event],
) -> Result<(), ReplayFault>
    ensures { IsReplay IsLegalEvent after_event tree.old (statements_of stmts.now) events.now tree.new result }
{
    for (number, event) in events.iter().enumerate() {
        take_event(alloc, stmts, tree, event, number)?;
    }
    Ok(())
}

// Takes the event of this number.
fn take_event(
    alloc: Global,
    stmts: &[Stmt],
    tree: &mut Tree,
    event: &Event,
    number: usize,
) -> Result<(), ReplayFault>
    ensures { IsStep IsLegalEvent after_event tree.old (statements_of stmts.now) event.now number tree.new result }
{
    match event {
        Event::Step(step) => take_step(alloc, stmts, tree, step, number),
        Event::Take(at, atom) => {
            if take_class(tree, at, *atom) {
                Ok(())
            } else {
                Err(ReplayFault::IllegalStep(number))
            }
        }
        Event::Cut(at) => {
            if cut(tree, at) {
                Ok(())
            } else {
                Err(ReplayFault::IllegalStep(number))
            }
        }
    }
}

// Takes a class from the node at the path, and says whether there is a node; else nothing changes.
fn take_class(tree: &mut Tree, at: &Path, atom: Atom) -> bool
    ensures taken { tree.new ≡ after_event tree.old [] (Event.Take at.now atom) }
    ensures test { IsTrue result ↔ IsLegalEvent tree.old [] (Event.Take at.now atom) }
    ensures in_limit { count_of tree.new ≤ MOST_NODES }
{
    let had = tree.take_class(at, atom);
    had.is_some()
}

// Cuts the node at the path, and says whether there is one that isn't the root; else nothing changes.
fn cut(tree: &mut Tree, at: &Path) -> bool
    ensures taken { tree.new ≡ after_event tree.old [] (Event.Cut at.now) }
    ensures test { IsTrue result ↔ IsLegalEvent tree.old [] (Event.Cut at.now) }
    ensures in_limit { IsTrue result → count_of tree.new ≤ MOST_NODES }
{
    tree.cut(at)
}

// Takes the step of this number.
fn take_step(
    alloc: Global,
    stmts: &[Stmt],
    tree: &mut Tree,
    step: &Step,
    number: usize,
) -> Result<(), ReplayFault>
    ensures { IsStep IsLegal after_step tree.old (statements_of stmts.now) step.now number tree.new result }
{
    let Some(stmt) = stmts.get(step.stmt as usize) else {
        return Err(ReplayFault::IllegalStep(number));
    };
    match selects(alloc, stmt, tree, &step.at) {
        Ok(true) => {}
        Ok(false) => return Err(ReplayFault::IllegalStep(number)),
        Err(NoMemory) => return Err(ReplayFault::Memory(number)),
    }
    match act(alloc, stmt, tree, &step.at) {
        Ok(()) => Ok(()),
        Err(TreeFault::TooManyNodes) => Err(ReplayFault::TooManyNodes(number)),
        Err(TreeFault::Memory) => Err(ReplayFault::Memory(number)),
        // What is selected is a node.
        Err(TreeFault::NoSuchNode) => unreachable!(),
    }
}
