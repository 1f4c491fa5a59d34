//! The path of a node: which child to take, level by level, from the root.
ghost use Rattle.std.specs.Prelude.{◌≡◌, ◌<◌, ◌-◌, [], ◌∷◌, ◌++◌, length, take, slice_get, IsNone, IfSome, IfOk, OnOk, OnErr, ◌↔◌};

use crate::no_memory::NoMemory;
use std::alloc::Global;
use std::marker::Model;

/// A path from the root of a tree to one of its nodes. A contract sees the list of its steps.
#[derive(Debug, Drop)]
pub struct Path {
    steps: Vec<u32>,
}

impl Model for Path {
    ghost use Rattle.std.specs.Prelude.{ℕ, List};

    ghost Value = { List ℕ };

    ghost view = { λ p. p.steps.items };
}

impl Path {
    /// The path to the root.
    pub fn root(alloc: Global) -> Self
        ensures { result ≡ [] }
    {
        Path {
            steps: Vec::new(alloc),
        }
    }

    /// How many steps it takes.
    pub fn len(&self) -> usize
        ensures { result ≡ length self.now }
    {
        self.steps.len()
    }

    /// Which child the step from level `i` takes, where the root is at level 0.
    pub fn at(&self, i: usize) -> u32
        requires { i < length self.now }
        ensures { slice_get self.now i ≡ Some result }
    {
        self.steps[i]
    }

    /// Goes on to the child of this number.
    pub fn push(&mut self, child: u32) -> Result<(), NoMemory>
        ensures ok { OnOk result (self.new ≡ self.old ++ child ∷ []) }
        ensures err { OnErr result (self.new ≡ self.old) }
    {
        self.steps.push(child)?;
        Ok(())
    }

    /// Goes back to the parent, and says which child it came from.
    pub fn pop(&mut self) -> Option<u32>
        ensures last { IfSome result (λ child. self.old ≡ self.new ++ child ∷ []) }
        ensures root { IsNone result ↔ (self.old ≡ []) }
        ensures rest { self.new ≡ take (length self.old - 1) self.old }
    {
        self.steps.pop()
    }

    /// A copy of the path. Linear in its length.
    pub fn copy(&self) -> Result<Path, NoMemory>
        ensures { IfOk result (λ p. p ≡ self.now) }
    {
        Ok(Path {
            steps: Vec::from_slice(*self.steps.allocator(), &self.steps)?,
        })
    }
}
