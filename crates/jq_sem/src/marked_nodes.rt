//! An action at all marked nodes of a tree, in one walk.
ghost use Rattle.std.specs.Prelude.{◌≡◌, ◌-◌, ◌≤◌, ◌↔◌, IsTrue, IfOk, OnOk};
ghost use Rattle.tree_sem.specs.Order.{paths_of};
ghost use Rattle.tree_sem.specs.Trees.{count_of};
ghost use Rattle.tree_sem.specs.Nodes.{IsNode};
ghost use Rattle.jq_sem.specs.Runs.{run_at, if_marked, marked_from, count_marked};

use crate::actions::act_at;
use node_marks::Marks;
use std::alloc::Global;
use tp_base::{NoMemory, Path};
use tree_sem::{Action, MOST_NODES, Tour, Tree, TreeFault, has_room};

/// The count of marked nodes with a number from `from` on, in a tree of `nodes` nodes. Linear in these.
pub fn marked_count(marks: &Marks, from: u32, nodes: u32) -> u32
    requires { from ≤ nodes }
    ensures count { result ≡ count_marked marks.now from (nodes - from) }
    ensures few { result ≤ nodes }
{
    let mut count = 0;
    for number in from..nodes {
        let marked = marks.at(number as usize);
        if marked {
            count += 1;
        }
    }
    count
}

/// Whether the tree has at most `most` nodes after the action at its marked nodes. Linear in the nodes and in the
/// trees that are added. It takes no memory, and looks at no more trees than there is room for nodes.
pub fn stays_within(action: &Action, tree: &Tree, marks: &Marks, most: u32) -> bool
    ensures { IsTrue result ↔ count_of (run_at action.now (marked_from marks.now 0 (paths_of tree.now)) tree.now) ≤ most }
{
    let nodes = tree.count();
    match action {
        Action::Classes(_) => nodes <= most,
        Action::Inside(forest) => {
            let times = marked_count(marks, 0, nodes);
            has_room(nodes, times as usize, forest.tops.items(), most)
        }
        // The root is the first node. It has no parent, so nothing is added beside it.
        Action::Beside(forest) => {
            let times = marked_count(marks, 1, nodes);
            has_room(nodes, times as usize, forest.tops.items(), most)
        }
    }
}

/// Does the action at all marked nodes of the tree, one after another. The cost is a copy of the tree, a walk over it,
/// a look-up of each marked node by its path, and the nodes that are added. New children stand behind the old ones, so each
/// node keeps its path.
pub fn act_at_all(
    alloc: Global,
    action: &Action,
    tree: &Tree,
    marks: &Marks,
) -> Result<Tree, NoMemory>
    requires { count_of (run_at action.now (marked_from marks.now 0 (paths_of tree.now)) tree.now) ≤ MOST_NODES }
    ensures { IfOk result (λ u. u ≡ run_at action.now (marked_from marks.now 0 (paths_of tree.now)) tree.now) }
{
    let mut made = tree.copy()?;
    act_on_copy(alloc, action, tree, marks, &mut made)?;
    Ok(made)
}

// The same in a copy of the tree.
fn act_on_copy(
    alloc: Global,
    action: &Action,
    tree: &Tree,
    marks: &Marks,
    made: &mut Tree,
) -> Result<(), NoMemory>
    requires copy { made.old ≡ tree.now }
    requires room { count_of (run_at action.now (marked_from marks.now 0 (paths_of tree.now)) tree.now) ≤ MOST_NODES }
    ensures { OnOk result (made.new ≡ run_at action.now (marked_from marks.now 0 (paths_of tree.now)) tree.now) }
{
    let mut tour = Tour::new(alloc, tree);
    let nodes = tree.count() as usize;
    'nodes: for number in 0..nodes {
        let marked = marks.at(number);
        act_if(marked, action, made, tour.path())?;
        let more = tour.go_on()?;
        if !more {
            return Ok(());
        }
    }
    Ok(())
}

// Does the action at the node at the path, if it is marked.
fn act_if(marked: bool, action: &Action, made: &mut Tree, at: &Path) -> Result<(), NoMemory>
    requires node { IsNode made.old at.now }
    requires room { count_of (run_at action.now (if_marked marked at.now) made.old) ≤ MOST_NODES }
    ensures { OnOk result (made.new ≡ run_at action.now (if_marked marked at.now) made.old) }
{
    if !marked {
        return Ok(());
    }
    match act_at(action, made, at) {
        Ok(()) => Ok(()),
        Err(TreeFault::Memory) => Err(NoMemory),
        // The node is there, and the tree has room.
        Err(_) => unreachable!(),
    }
}
