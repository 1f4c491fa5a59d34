//! The steps of an unfolding so far.
ghost use Rattle.std.specs.Prelude.{◌≡◌, ◌+◌, ◌<◌, ◌≤◌, ◌*◌, ◌^◌, OnOk, IfOk, length};
ghost use Rattle.simple_core.specs.declared.system.TheConstants.{MOST_KINDS};
ghost use Rattle.tree_sem.specs.declared.tree_fault.TheConstants.{MOST_NODES};
ghost use Rattle.proof_check.specs.Unfolding as spec;
ghost use Rattle.proof_core.specs.AddedChildren.{IsFew, progress_in};
ghost use Rattle.proof_core.specs.declared.unfolded.TheConstants.{MOST_LISTED};

use indexmap::IndexMap;
use proof_check::steps_of;
use simple_core::Kind;
use std::alloc::Global;
use tp_base::{NoMemory, Path};
use tree_sem::Step;

/// The steps so far, and the number of children that they have added to each node.
#[derive(Drop)]
pub struct Trail {
    steps: Vec<Step>,
    added: IndexMap<Vec<u32>, u64>,
    ghost few: { IsFew (progress_in steps.items added.entries) },
}

impl Trail {
    ghost use Rattle.proof_core.specs.Trails.{progress_of, grown_at, no_progress, step_of_forest, number_for, with_forest_of};

    /// An empty trail. Constant.
    pub fn new(alloc: Global) -> Trail
        ensures { progress_of result ≡ no_progress }
    {
        Trail {
            steps: Vec::new(alloc),
            added: IndexMap::new(alloc),
        }
    }

    /// The allocator that its memory comes from. Constant.
    pub fn allocator(&self) -> Global {
        *self.steps.allocator()
    }

    /// The steps, by value. Constant.
    pub fn into_steps(self) -> Vec<Step>
        ensures { result.items ≡ (progress_of self).steps }
    {
        self.steps
    }

    /// Adds a step. Linear in the path's length.
    pub fn push(&mut self, stmt: u32, at: &Path) -> Result<(), NoMemory>
        ensures { OnOk result (progress_of self.new ≡ spec.with_step stmt at.now (progress_of self.old)) }
    {
        let at = at.copy()?;
        self.steps.push(Step { stmt, at })?;
        Ok(())
    }

    // Adds the step that brings a kind's forest: at the node or, for a `beside` kind, at the node's child with this number.
    fn push_forest(&mut self, kind: &Kind, at: &Path, child: u32) -> Result<(), NoMemory>
        ensures { OnOk result (progress_of self.new ≡ step_of_forest kind.now at.now child (progress_of self.old)) }
    {
        if kind.beside {
            let mut beside = at.copy()?;
            beside.push(child)?;
            self.push(kind.stmt, &beside)
        } else {
            self.push(kind.stmt, at)
        }
    }

    // Adds n children at the path. Linear in its length, on average.
    fn grow(&mut self, path: Vec<u32>, n: u32) -> Result<(), NoMemory>
        requires room { (progress_of self.old).added path.items < 2 ^ 63 }
        requires few { (progress_of self.old).added path.items + n ≤ MOST_KINDS * length (progress_of self.old).steps }
        ensures { OnOk result (progress_of self.new ≡ grown_at path.items n (progress_of self.old)) }
    {
        let sum = sum_of(self.added(&path), n);
        self.added.insert(path, sum)?;
        Ok(())
    }

    // The number of children that were added at the path. Linear in its length, on average.
    fn added(&self, path: &[u32]) -> u64
        ensures { result ≡ (progress_of self.now).added path.now }
    {
        match self.added.get(path) {
            Some(n) => *n,
            None => 0,
        }
    }

    /// The number of the new node of a kind among the children of a node. That node had `base` children before all steps. For the top
    /// node of a forest, the step that brings the forest is added: at the node or, for a `beside` kind, at the node's child `child`.
    /// Linear in the path's length, on average.
    pub fn bring(&mut self, kind: &Kind, base: u32, at: &Path, child: u32) -> Result<u32, NoMemory>
        requires number { kind.now.number < MOST_KINDS }
        requires siblings { kind.now.siblings ≤ MOST_KINDS }
        requires base { base ≤ MOST_NODES }
        requires short { length (progress_of self.old).steps ≤ MOST_LISTED }
        ensures number { IfOk result (λ k. k ≡ number_for kind.now base at.now (progress_of self.old)) }
        ensures trail { OnOk result (progress_of self.new ≡ with_forest_of kind.now at.now child (progress_of self.old)) }
    {
        if kind.above.is_some() {
            return Ok(kind.number);
        }
        let path = steps_of(self.allocator(), at)?;
        let number = top_number(base, self.added(&path), kind.number);
        self.push_forest(kind, at, child)?;
        self.grow(path, kind.siblings)?;
        Ok(number)
    }
}

fn sum_of(added: u64, n: u32) -> u64
    requires { added < 2 ^ 63 }
    ensures { result ≡ added + n }
{
    added + u64::from(n)
}

fn top_number(base: u32, added: u64, number: u32) -> u32
    requires base { base ≤ MOST_NODES }
    requires added { added ≤ MOST_KINDS * MOST_LISTED }
    requires number { number < MOST_KINDS }
    ensures { result ≡ base + added + number }
{
    (u64::from(base) + added + u64::from(number)) as u32
}
