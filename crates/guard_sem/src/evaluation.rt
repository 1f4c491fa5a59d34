//! Evaluation of a guard, from the inside out: for each part of it the set of nodes where that part holds.
ghost use Rattle.std.specs.Prelude.{◌↔◌, ◌⊎◌, IsTrue, IfOk};
ghost use Rattle.tree_sem.specs.Nodes.{IsNode};
ghost use Rattle.node_marks.specs.Marks.{IsMarked, IsSetOf, HasDescendantIn};
ghost use Rattle.guard_sem.specs.Guards.{guards_of};
ghost use Rattle.guard_sem.specs.Holding.{Holds, HoldAll, HoldsOne};

use crate::guards::{Guard, GuardNode};
use node_marks::{Marks, NumberedTree};
use std::alloc::Global;
use tp_base::{NoMemory, Path};
use tree_sem::Tree;

/// Whether the guard holds at the node of this path, and `false` where there is no such node. Costs a walk over the tree, and a
/// step for each node and each part of the guard. The step for an atom is a search of the node's label.
pub fn holds(alloc: Global, tree: &Tree, at: &Path, g: &Guard) -> Result<bool, NoMemory>
    ensures { IfOk result (λ holds. IsTrue holds ↔ Holds tree.now at.now g.now) }
{
    let nodes = NumberedTree::new(alloc, tree)?;
    let marks = marked(&nodes, g)?;
    Ok(nodes.has(&marks, at))
}

// The nodes where the guard holds.
#[cycle(evaluation)]
fn marked(nodes: &NumberedTree, g: &Guard) -> Result<Marks, NoMemory>
    ensures { IfOk result (λ m. IsSetOf nodes.now m (λ v. Holds nodes.now v g.now)) }
{
    match &g.node {
        GuardNode::True => nodes.every_node(),
        GuardNode::Atom(a) => nodes.with_atoms(&[*a]),
        GuardNode::All(guards) => marked_by_all(nodes, guards.items()),
        GuardNode::Any(guards) => marked_by_any(nodes, guards.items()),
        GuardNode::Parent(g) => nodes.below(&marked(nodes, g)?),
        GuardNode::Ancestor(g) => nodes.far_below(&marked(nodes, g)?),
        GuardNode::Child(g) => nodes.over(&marked(nodes, g)?),
        GuardNode::Descendant(g) => nodes.far_over(&marked(nodes, g)?),
        GuardNode::Somewhere(g) => nodes.if_any(&marked(nodes, g)?),
        GuardNode::AtOrBelow(g) => at_or_below(nodes, &marked(nodes, g)?),
    }
}

// The nodes of a set, and those that have a descendant in it.
fn at_or_below(nodes: &NumberedTree, marks: &Marks) -> Result<Marks, NoMemory>
    ensures { IfOk result (λ m. IsSetOf nodes.now m (λ v. IsMarked nodes.now marks.now v ⊎ HasDescendantIn (IsMarked nodes.now marks.now) v)) }
{
    let over = nodes.far_over(marks)?;
    nodes.in_either(marks, &over)
}

// The nodes where all of the guards hold.
#[cycle(evaluation)]
fn marked_by_all(nodes: &NumberedTree, guards: &[Guard]) -> Result<Marks, NoMemory>
    ensures { IfOk result (λ m. IsSetOf nodes.now m (λ v. IsNode nodes.now v × HoldAll nodes.now v (guards_of guards.now))) }
{
    let mut made = nodes.every_node()?;
    'guards: for g in guards {
        made = nodes.in_both(&made, &marked(nodes, g)?)?;
    }
    Ok(made)
}

// The nodes where one of the guards holds.
#[cycle(evaluation)]
fn marked_by_any(nodes: &NumberedTree, guards: &[Guard]) -> Result<Marks, NoMemory>
    ensures { IfOk result (λ m. IsSetOf nodes.now m (λ v. HoldsOne nodes.now v (guards_of guards.now))) }
{
    let mut made = nodes.no_node()?;
    'guards: for g in guards {
        made = nodes.in_either(&made, &marked(nodes, g)?)?;
    }
    Ok(made)
}
