//! Traces that share the runs of their common prefixes.
ghost use Rattle.std.specs.Prelude.{◌≡◌, ◌⊎◌, ◌≤◌, ℕ, length, get_or, All, None, Some, MatchBool, IsTrue, IfOk, IfSome, OnOk};
ghost use Rattle.jq_stmts.specs.Views.{statements_of};
ghost use Rattle.jq_sem.specs.WholeRuns.{runs_of};
ghost use Rattle.run_trace.specs.Known.{IsTracedTask, AreKnownTo, IsBranch, IsLedBranch, IsStoppedBranch, IsShownBy, IsShownTo, IsTraceFor};
ghost use Rattle.usage_report.specs.declared.run_traces.RunTrace as code_trace;

use crate::branches::{Branch, run_up_to};
use crate::matches::first_among;
use crate::orders::in_order;
use crate::shown::{Shown, Task, begins_with, has_runs, shared_length, shown_at};
use node_marks::NumberedTree;
use std::alloc::Global;
use tp_base::NoMemory;
use usage_report::RunTrace;

/// Traces of the answers that show steps, each in the place of its item. A run is done once for all answers whose runs begin
/// alike up to it. Where lists part, the fewer of them go on with a copy of the tree, and first: so no more trees are held
/// than the number of the lists has binary digits, and two.
pub(crate) fn known_traces(alloc: Global, task: &Task) -> Result<Vec<Option<RunTrace>>, NoMemory>
    requires { IsTracedTask task.now }
    ensures { IfOk result (λ v. AreKnownTo task.now v.items) }
{
    let order = in_order(alloc, task)?;
    let mut known = none_known(alloc, task.items.len())?;
    let mut branches = Vec::new(alloc);
    branches.push(Branch::root(alloc, task.page, order.len())?)?;
    // In a turn lists end or stop, or a branch parts in two.
    'turns: for _turn in 0..order.len().saturating_mul(2) {
        if !take_turn(alloc, task, &order, &mut branches, &mut known)? {
            return Ok(known);
        }
    }
    Ok(known)
}

// No trace for any of so many items.
fn none_known(alloc: Global, items: usize) -> Result<Vec<Option<RunTrace>>, NoMemory>
    ensures { IfOk result (λ v. (n : ℕ) → get_or v.items n None ≡ None) }
{
    let mut known = Vec::new(alloc);
    for _item in 0..items {
        known.push(None)?;
    }
    Ok(known)
}

// Goes on with the last branch, and says whether there was one.
fn take_turn(
    alloc: Global,
    task: &Task,
    order: &[usize],
    branches: &mut Vec<Branch>,
    known: &mut Vec<Option<RunTrace>>,
) -> Result<bool, NoMemory>
    requires tracked { IsTracedTask task.now }
    requires done { All (IsBranch task.now) branches.old.items }
    requires known { AreKnownTo task.now known.old.items }
    ensures done { OnOk result (All (IsBranch task.now) branches.new.items) }
    ensures known { OnOk result (AreKnownTo task.now known.new.items) }
{
    let Some(mut branch) = branches.pop() else {
        return Ok(false);
    };
    if follow(alloc, task, order, &mut branch, known)? {
        part(task, order, branch, branches)?;
    }
    Ok(true)
}

// Does the runs that all lists of the branch share, and finds the traces of those that end with them; or of all, where the
// tree has no room. Says whether lists are left.
fn follow(
    alloc: Global,
    task: &Task,
    order: &[usize],
    branch: &mut Branch,
    known: &mut Vec<Option<RunTrace>>,
) -> Result<bool, NoMemory>
    requires tracked { IsTracedTask task.now }
    requires done { IsBranch task.now branch.old }
    requires known { AreKnownTo task.now known.old.items }
    ensures done { IfOk result (λ left. IsTrue left → IsBranch task.now branch.new) }
    ensures known { OnOk result (AreKnownTo task.now known.new.items) }
{
    if !run_shared(alloc, task, order, branch)? {
        stop_all(task, order, branch, known);
        return Ok(false);
    }
    end_some(alloc, task, order, branch, known)?;
    Ok(branch.from < branch.to)
}

// Does the runs that the first list of the branch shares with the last one, and so with all, since they stand in order.
fn run_shared(
    alloc: Global,
    task: &Task,
    order: &[usize],
    branch: &mut Branch,
) -> Result<bool, NoMemory>
    requires tracked { IsTracedTask task.now }
    requires done { IsBranch task.now branch.old }
    ensures { IfOk result (IsLedBranch task.now branch.new) }
{
    let Some(first) = shown_in_order(task, order, branch.from) else {
        return Ok(true);
    };
    let count = match shown_in_order(task, order, branch.to.saturating_sub(1)) {
        Some(last) => shared_length(first.steps, last.steps),
        None => 0,
    };
    run_up_to(alloc, task, branch, first.steps, count)
}

// Notes for the lists of the branch that begin with its runs that these stop at the last of them.
fn stop_all(task: &Task, order: &[usize], branch: &Branch, known: &mut Vec<Option<RunTrace>>)
    requires stopped { IsStoppedBranch task.now branch.now }
    requires known { AreKnownTo task.now known.old.items }
    ensures known { AreKnownTo task.now known.new.items }
{
    'lists: for place in branch.from..branch.to {
        stop_one(task, order, branch, place, known);
    }
}

fn stop_one(
    task: &Task,
    order: &[usize],
    branch: &Branch,
    place: usize,
    known: &mut Vec<Option<RunTrace>>,
)
    requires stopped { IsStoppedBranch task.now branch.now }
    requires known { AreKnownTo task.now known.old.items }
    ensures known { AreKnownTo task.now known.new.items }
{
    let Some(item) = order.get(place) else {
        return;
    };
    let item = *item;
    let Some(shown) = shown_at(task, item) else {
        return;
    };
    let runs = branch.runs.as_slice();
    if begins_with(shown.steps, runs) {
        note(known, item, RunTrace::Stopped(runs.len()));
    }
}

// Finds the traces of the first lists of the branch that end with its runs, and goes behind them.
fn end_some(
    alloc: Global,
    task: &Task,
    order: &[usize],
    branch: &mut Branch,
    known: &mut Vec<Option<RunTrace>>,
) -> Result<(), NoMemory>
    requires tracked { IsTracedTask task.now }
    requires done { IsBranch task.now branch.old }
    requires known { AreKnownTo task.now known.old.items }
    ensures done { OnOk result (IsBranch task.now branch.new) }
    ensures known { OnOk result (AreKnownTo task.now known.new.items) }
{
    let behind = behind_ended(task, order, branch);
    if branch.from < behind {
        end_lists(alloc, task, order, branch, behind, known)?;
        branch.from = behind;
    }
    Ok(())
}

// The place behind the first lists of the branch that have no more runs than it.
fn behind_ended(task: &Task, order: &[usize], branch: &Branch) -> usize {
    'lists: for place in branch.from..branch.to {
        if steps_in_order(task, order, place) > branch.runs.len() {
            return place;
        }
    }
    branch.to
}

fn end_lists(
    alloc: Global,
    task: &Task,
    order: &[usize],
    branch: &Branch,
    behind: usize,
    known: &mut Vec<Option<RunTrace>>,
) -> Result<(), NoMemory>
    requires tracked { IsTracedTask task.now }
    requires done { IsBranch task.now branch.now }
    requires known { AreKnownTo task.now known.old.items }
    ensures known { OnOk result (AreKnownTo task.now known.new.items) }
{
    let nodes = NumberedTree::new(alloc, &branch.tree)?;
    'lists: for place in branch.from..behind {
        if let Some(item) = order.get(place) {
            end_one(alloc, task, branch, &nodes, *item, known)?;
        }
    }
    Ok(())
}

// Finds the trace of an item whose runs are those of the branch.
fn end_one(
    alloc: Global,
    task: &Task,
    branch: &Branch,
    nodes: &NumberedTree,
    item: usize,
    known: &mut Vec<Option<RunTrace>>,
) -> Result<(), NoMemory>
    requires tracked { IsTracedTask task.now }
    requires done { IsBranch task.now branch.now }
    requires nodes { nodes.now ≡ branch.now.tree }
    requires known { AreKnownTo task.now known.old.items }
    ensures known { OnOk result (AreKnownTo task.now known.new.items) }
{
    let Some(shown) = shown_at(task, item) else {
        return Ok(());
    };
    if has_runs(shown.steps, branch.runs.as_slice()) {
        let trace = listed(alloc, task, branch, nodes, item, &shown)?;
        note(known, item, trace);
    }
    Ok(())
}

// The trace of steps whose runs are those of the branch.
fn listed(
    alloc: Global,
    task: &Task,
    branch: &Branch,
    nodes: &NumberedTree,
    item: usize,
    shown: &Shown,
) -> Result<RunTrace, NoMemory>
    requires tracked { IsTracedTask task.now }
    requires done { IsBranch task.now branch.now }
    requires nodes { nodes.now ≡ branch.now.tree }
    requires shown { IsShownTo task.now item shown.now }
    requires runs { runs_of shown.now.steps.now ≡ branch.now.runs.items }
    ensures { IfOk result (IsTraceFor task.now item) }
{
    let Some(at) = first_among(alloc, &branch.tree, nodes, shown.selector)? else {
        unreachable!()
    };
    let runs = Vec::from_slice(alloc, &branch.runs)?;
    Ok(RunTrace::Listed(runs, at))
}

// Puts a trace in the place of its item.
fn note(known: &mut Vec<Option<RunTrace>>, item: usize, trace: RunTrace)
    ensures { (n : ℕ) (r : code_trace.RunTrace) → get_or known.new.items n None ≡ Some r → ((n ≡ item) × (r ≡ trace)) ⊎ (get_or known.old.items n None ≡ Some r) }
{
    if item < known.len() {
        known[item] = Some(trace);
    }
}

// Parts the branch in two where its lists part, and puts the one of fewer lists last. Where they go on alike, as behind lists
// that end, it stays whole.
fn part(
    task: &Task,
    order: &[usize],
    branch: Branch,
    branches: &mut Vec<Branch>,
) -> Result<(), NoMemory>
    requires branch { IsBranch task.now branch }
    requires done { All (IsBranch task.now) branches.old.items }
    ensures done { OnOk result (All (IsBranch task.now) branches.new.items) }
{
    let parting = parting_of(task, order, &branch);
    if parting >= branch.to {
        branches.push(branch)?;
        return Ok(());
    }
    let mut few = branch.copy()?;
    let mut many = branch;
    if parting.saturating_sub(many.from) <= many.to - parting {
        few.to = parting;
        many.from = parting;
    } else {
        few.from = parting;
        many.to = parting;
    }
    branches.push(many)?;
    branches.push(few)?;
    Ok(())
}

// The place of the first list that goes on otherwise than the first one of the branch.
fn parting_of(task: &Task, order: &[usize], branch: &Branch) -> usize {
    let depth = branch.runs.len();
    let first = run_in_order(task, order, branch.from, depth);
    'lists: for place in branch.from..branch.to {
        if run_in_order(task, order, place, depth) != first {
            return place;
        }
    }
    branch.to
}

// What the answer of the item at a place of the order shows.
fn shown_in_order<'a>(task: &Task<'a>, order: &[usize], place: usize) -> Option<Shown<'a>>
    ensures { IfSome result (IsShownBy task.now) }
{
    let item = order.get(place)?;
    shown_at(task, *item)
}

// How many steps there are at a place of the order.
fn steps_in_order(task: &Task, order: &[usize], place: usize) -> usize {
    match shown_in_order(task, order, place) {
        Some(shown) => shown.steps.len(),
        None => 0,
    }
}

// The statement of a step of the list at a place of the order.
fn run_in_order(task: &Task, order: &[usize], place: usize, depth: usize) -> Option<u32> {
    let shown = shown_in_order(task, order, place)?;
    let step = shown.steps.get(depth)?;
    Some(step.stmt)
}
