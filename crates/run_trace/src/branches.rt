//! A memo of trees after common prefixes of runs.
ghost use Rattle.std.specs.Prelude.{◌≡◌, ◌<◌, [], length, All, IfOk};
ghost use Rattle.jq_sem.specs.WholeRuns.{runs_of};
ghost use Rattle.run_trace.specs.Known.{IsBranch, IsLedBranch};

use crate::replays::{RunFault, take_run};
use crate::shown::Task;
use crate::traces::MOST_RUN_NODES;
use std::alloc::Global;
use tp_base::NoMemory;
use tree_sem::{Step, Tree};

/// The tree after some runs, and the places of the lists that begin with them, from one place up to another.
#[derive(Drop)]
pub(crate) struct Branch {
    pub from: usize,
    pub to: usize,
    pub runs: Vec<u32>,
    pub tree: Tree,
}

impl Branch {
    /// The page, with which all lists begin.
    pub fn root(alloc: Global, page: &Tree, lists: usize) -> Result<Branch, NoMemory>
        ensures lists { IfOk result (λ b. (b.from ≡ 0) × (b.to ≡ lists)) }
        ensures runs { IfOk result (λ b. b.runs.items ≡ []) }
        ensures tree { IfOk result (λ b. b.tree ≡ page.now) }
    {
        Ok(Branch {
            from: 0,
            to: lists,
            runs: Vec::new(alloc),
            tree: page.copy()?,
        })
    }

    /// A copy of the branch. Linear in the runs and in the tree.
    pub fn copy(&self) -> Result<Branch, NoMemory>
        ensures lists { IfOk result (λ b. (b.from ≡ self.now.from) × (b.to ≡ self.now.to)) }
        ensures runs { IfOk result (λ b. b.runs.items ≡ self.now.runs.items) }
        ensures tree { IfOk result (λ b. b.tree ≡ self.now.tree) }
    {
        let tree = self.tree.copy()?;
        let runs = Vec::from_slice(*self.runs.allocator(), &self.runs)?;
        Ok(Branch {
            from: self.from,
            to: self.to,
            runs,
            tree,
        })
    }
}

/// Does the runs of the steps behind those that are done, up to so many of all, and says whether the tree had room for them.
pub(crate) fn run_up_to(
    alloc: Global,
    task: &Task,
    branch: &mut Branch,
    steps: &[Step],
    count: usize,
) -> Result<bool, NoMemory>
    requires numbers { All (λ k. k < length task.now.stmts.now) (runs_of steps.now) }
    requires done { IsBranch task.now branch.old }
    ensures { IfOk result (IsLedBranch task.now branch.new) }
{
    'runs: for depth in branch.runs.len()..steps.len() {
        if depth >= count {
            return Ok(true);
        }
        let step = &steps[depth];
        if !run_one(alloc, task, branch, step.stmt)? {
            return Ok(false);
        }
    }
    Ok(true)
}

// One run more.
fn run_one(alloc: Global, task: &Task, branch: &mut Branch, run: u32) -> Result<bool, NoMemory>
    requires there { run < length task.now.stmts.now }
    requires done { IsBranch task.now branch.old }
    ensures { IfOk result (IsLedBranch task.now branch.new) }
{
    let number = branch.runs.len();
    branch.runs.push(run)?;
    match take_run(
        alloc,
        task.stmts,
        &mut branch.tree,
        run,
        number,
        MOST_RUN_NODES,
    ) {
        Ok(()) => Ok(true),
        Err(RunFault::OverLimit(_)) => Ok(false),
        Err(RunFault::Memory(_)) => Err(NoMemory),
    }
}
