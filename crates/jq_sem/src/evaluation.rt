//! The sets of chains and statements. All nodes that `this` may name are evaluated together, as one set.
ghost use Rattle.std.specs.Prelude.{◌≡◌, ◌↔◌, ℕ, List, [], Option, map, IfOk, IsTrue};
ghost use Rattle.node_marks.specs.Marks.{IsMarked};
ghost use Rattle.jq_sem.specs.Standing.{after, last_first};
ghost use Rattle.jq_sem.specs.Statements as spec;
ghost use Rattle.jq_sem.specs.Statements.{Selected};
ghost use Rattle.jq_sem.specs.Together.{MadeOf, NamedBy, InRoots, InOne};
ghost use Rattle.jq_stmts.specs.Views.{chain_of, root_of, statement_of};

use crate::sets::{matching, of_call};
use crate::standing_calls::standing;
use jq_stmts::{Call, Chain, Root, Stmt};
use node_marks::{Marks, NumberedTree};
use std::alloc::Global;
use tp_base::NoMemory;

/// The nodes that `this` may name.
#[derive(Drop)]
pub enum This {
    /// Nothing: outside all handlers.
    Nothing,
    /// One of the marked nodes.
    Nodes(Marks),
}

/// The nodes that the statement selects. Each of its calls takes one step per node and compound.
pub fn selected(alloc: Global, tree: &NumberedTree, s: &Stmt) -> Result<Marks, NoMemory>
    ensures { IfOk result (λ m. (v : List ℕ) → IsMarked tree.now m v ↔ Selected tree.now (statement_of s.now) v) }
{
    let mut this = This::Nothing;
    let mut rest = s.handlers.items();
    'handlers: while let Some((handler, inner)) = rest.split_first() {
        let marks = of_chain(alloc, tree, &this, handler)?;
        this = This::Nodes(marks);
        rest = inner;
    }
    of_chain(alloc, tree, &this, &s.chain)
}

// The union of a chain's sets, with each of the nodes as `this`.
fn of_chain(
    alloc: Global,
    tree: &NumberedTree,
    this: &This,
    chain: &Chain,
) -> Result<Marks, NoMemory>
    ensures { IfOk result (λ m. (v : List ℕ) → IsMarked tree.now m v ↔ InOne tree.now (NamedBy tree.now this.now) (chain_of chain.now) v) }
{
    if !names_some(tree, this) {
        return tree.no_node();
    }
    let (emptied, calls) = standing(alloc, chain.calls.items())?;
    let first = of_root(tree, this, emptied, &chain.root)?;
    of_calls(tree, first, calls.as_slice())
}

// Whether `this` may name a node. Outside handlers the answer is true, since no `this` is needed there.
fn names_some(tree: &NumberedTree, this: &This) -> bool
    ensures { IsTrue result ↔ ((u : Option (List ℕ)) × NamedBy tree.now this.now u) }
{
    match this {
        This::Nothing => true,
        This::Nodes(marks) => tree.is_any(marks),
    }
}

// The set that a chain begins with; the empty set where `end` has taken it back.
fn of_root(tree: &NumberedTree, this: &This, emptied: bool, root: &Root) -> Result<Marks, NoMemory>
    requires { (u : Option (List ℕ)) × NamedBy tree.now this.now u }
    ensures { IfOk result (λ m. (v : List ℕ) → IsMarked tree.now m v ↔ InRoots tree.now (NamedBy tree.now this.now) (after emptied (root_of root.now)) v) }
{
    if emptied {
        return tree.no_node();
    }
    match root {
        Root::List(selectors) => matching(tree, selectors.items()),
        Root::This => of_this(tree, this),
    }
}

fn of_this(tree: &NumberedTree, this: &This) -> Result<Marks, NoMemory>
    ensures { IfOk result (λ m. (v : List ℕ) → IsMarked tree.now m v ↔ InRoots tree.now (NamedBy tree.now this.now) spec.this v) }
{
    match this {
        This::Nothing => tree.no_node(),
        This::Nodes(marks) => marks.copy(),
    }
}

// The set that the calls make from the first one.
fn of_calls(tree: &NumberedTree, first: Marks, calls: &[&Call]) -> Result<Marks, NoMemory>
    ensures { IfOk result (λ m. (v : List ℕ) → IsMarked tree.now m v ↔ MadeOf tree.now (IsMarked tree.now first) (last_first calls.now []) v) }
{
    let mut marks = first;
    'calls: for call in calls {
        marks = of_call(tree, call, &marks)?;
    }
    Ok(marks)
}
