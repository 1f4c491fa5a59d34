//! The memo of operations: a hash table of bounded size.
ghost use Rattle.std.specs.Prelude.{◌≡◌, [], Contains, IfSome, IfOk, ◌⊎◌};
ghost use Rattle.std.specs.Hash.{u64};
ghost use Rattle.class_diagrams.specs.declared.memo.Task.{Task};
ghost use Rattle.class_diagrams.specs.declared.refs.Target.{Target};
ghost use Rattle.class_diagrams.specs.Tasks.{task_key, IsTaskOf};
ghost use borrow.Author.Rules.{rules};

use crate::refs::Ref;
use lru::LruCache;
use std::alloc::{AllocError, Global};
use std::hash::{Hash, Hasher};
use std::marker::Model;
use std::num::NonZeroUsize;

/// How many results are remembered.
pub(crate) const MOST_RESULTS: usize = 65_536;

#[derive(Clone, Copy, Debug, PartialEq, Eq)]
pub(crate) enum Operation {
    And,
    Or,
}

/// A key of the memo: an operation on two diagrams, of which the first has no greater number than the second.
#[derive(Clone, Copy, Debug, PartialEq, Eq)]
pub(crate) struct Task {
    operation: Operation,
    first: Ref,
    second: Ref,
}

impl Task {
    /// The task of an operation that gives the same where its two diagrams change places.
    pub(crate) fn of(operation: Operation, f: Ref, g: Ref) -> Task
        ensures { IsTaskOf operation f g result }
    {
        if f.number() <= g.number() {
            Task {
                operation,
                first: f,
                second: g,
            }
        } else {
            Task {
                operation,
                first: g,
                second: f,
            }
        }
    }

    // The task as one number.
    fn key(&self) -> u64
        ensures { result ≡ task_key self.now }
    {
        let (upper, lower) = match self.operation {
            Operation::And => (self.first, self.second),
            Operation::Or => (self.second, self.first),
        };
        upper.number() as u64 * 0x1_0000_0000 + lower.number() as u64
    }
}

impl Hash for Task {
    ghost hash_input = { λ t. u64 (task_key t) };

    ghost respects_eq = { Prim.search rules };

    fn hash<H: Hasher>(&self, state: &mut H) {
        state.write_u64(self.key());
    }
}

/// The memo: the results of the operations that were used last.
#[derive(Drop)]
pub(crate) struct Memo {
    results: LruCache<Task, Ref>,
}

impl Model for Memo {
    ghost use Rattle.std.specs.Prelude.{List};
    ghost use Rattle.class_diagrams.specs.declared.memo.Task.{Task};
    ghost use Rattle.class_diagrams.specs.declared.refs.Target.{Target};

    ghost Value = { List (Task × Target) };

    ghost view = { λ m. m.results.entries };
}

impl Memo {
    pub(crate) fn new(alloc: Global) -> Result<Self, AllocError>
        ensures { IfOk result (λ m. m ≡ []) }
    {
        let most = NonZeroUsize::new(MOST_RESULTS).unwrap();
        Ok(Memo {
            results: LruCache::sparse(alloc, most)?,
        })
    }

    pub(crate) fn recall(&mut self, task: &Task) -> Option<Ref>
        ensures known { IfSome result (λ f. Contains self.old (task.now, f)) }
        ensures old { (entry : Task × Target) → Contains self.new entry → Contains self.old entry }
    {
        self.results.get(task).copied()
    }

    pub(crate) fn note(&mut self, task: Task, result_of: Ref)
        ensures { (entry : Task × Target) → Contains self.new entry → Contains self.old entry ⊎ (entry ≡ (task, result_of)) }
    {
        let _ = self.results.put(task, result_of);
    }
}
