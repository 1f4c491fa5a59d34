//! The first rounds of a page's atoms, found by a node's parent and the node's index there.
ghost use Rattle.std.specs.Prelude.{◌≡◌, ◌<◌, ◌≤◌, ◌∷◌, ◌++◌, ℕ, List, [], None, length, get_or, Contains, IfOk, IfSome, IsNone, true, false};
ghost use Rattle.std.specs.List.Sorted.{IsPartitionPoint};
ghost use Rattle.closed_page.specs.ClosedPages.{round_of};
ghost use Rattle.closed_page.specs.FirstChildren.{IsFirstChild};
ghost use Rattle.closed_page.specs.Firsts.{placed, AreKept, IsSpotOf};
ghost use Rattle.closed_page.specs.Notes.{expanded};
ghost use Rattle.closed_page.specs.Runs.{ends_before, AreOrdered, IsRoundInRow, IsChildInRow};
ghost use Rattle.closed_page.specs.Views.{firsts_of};

use crate::first_rows::{FirstRow, Run, in_rows, row_of};
use crate::nodes::PageNodes;
use crate::notes::NodeNews;
use std::alloc::Global;
use std::marker::Model;
use tp_base::{Atom, NoMemory, Path};

/// A node by its parent's number and its step from there. The root has the count of the nodes in place of a parent, and step 0.
#[derive(Clone, Copy, Debug, PartialEq, Eq, PartialOrd, Ord)]
pub(crate) struct Spot {
    pub(crate) parent: usize,
    pub(crate) step: u32,
}

/// Firsts (a node, an atom and its first round) in a sorted row for each atom. A contract sees them with the paths of their
/// nodes.
#[derive(Drop)]
pub(crate) struct FirstRounds {
    nodes: PageNodes,
    rows: Vec<FirstRow>,
}

impl Model for FirstRounds {
    ghost use Rattle.closed_page.specs.ClosedPages.{NodeRounds, rounds_code};
    ghost use Rattle.closed_page.specs.Views.{firsts_of};
    ghost use Rattle.closed_page.specs.Firsts.{placed, AreKept};
    ghost use Rattle.closed_page.specs.Runs.{all_in, AreSorted};

    ghost Value = { NodeRounds };

    ghost coded = { rounds_code };

    ghost view = { λ r. record { nodes = r.nodes; firsts = firsts_of (placed r.nodes (all_in r.rows.items)) } };

    ghost invariant = { λ r. AreKept r.nodes (all_in r.rows.items) × AreSorted r.rows.items };
}

impl FirstRounds {
    /// Sorts the firsts of the notes into rows. Linear in the atoms of the notes and the largest atom, plus one sort of the
    /// notes.
    pub(crate) fn new(
        alloc: Global,
        nodes: PageNodes,
        notes: Vec<NodeNews>,
    ) -> Result<FirstRounds, NoMemory>
        requires { AreKept nodes (expanded notes.items) }
        ensures nodes { IfOk result (λ r. r.nodes ≡ nodes) }
        ensures rounds { IfOk result (λ r. (v : List ℕ) (a : ℕ) → round_of r.firsts v a ≡ round_of (firsts_of (placed nodes (expanded notes.items))) v a) }
    {
        let rows = in_rows(alloc, notes)?;
        Ok(FirstRounds { nodes, rows })
    }

    /// The number of the node at a path. Linear in the path's length where the node is there.
    pub(crate) fn number_of(&self, at: &Path) -> Option<usize>
        ensures some { IfSome result (λ i. (i < length self.now.nodes) × (get_or self.now.nodes i [] ≡ at.now)) }
        ensures none { IsNone result → ¬ Contains self.now.nodes at.now }
    {
        self.nodes.number_of(at)
    }

    /// The first round in which a node has the atom. Linear in the path's length, and logarithmic in
    /// the runs of the atom.
    pub(crate) fn round(&self, at: &Path, atom: Atom) -> Option<u64>
        ensures { result ≡ round_of self.now.firsts at.now atom }
    {
        match self.nodes.number_of(at) {
            Some(number) => {
                let spot = spot_of(&self.nodes, number);
                round_in(row_of(&self.rows, atom), spot)
            }
            None => None,
        }
    }

    /// The first child of a node that has the atom by this round. Linear in the path's length and logarithmic in the runs of
    /// the atom. Linear, too, in the runs of the children before it, which got the atom later.
    pub(crate) fn first_child(&self, at: &Path, atom: Atom, round: u64) -> Option<u32>
        ensures { IsFirstChild self.now.firsts at.now atom round result }
    {
        match self.nodes.number_of(at) {
            Some(number) => child_in(row_of(&self.rows, atom), number, round),
            None => None,
        }
    }
}

/// The spot of the node with this number.
pub(crate) fn spot_of(nodes: &PageNodes, number: usize) -> Spot
    requires { number < length nodes.now }
    ensures { IsSpotOf nodes.now (get_or nodes.now number []) result }
{
    match nodes.parent(number) {
        Some(parent) => Spot {
            parent,
            step: nodes.step(number),
        },
        None => Spot {
            parent: nodes.count(),
            step: 0,
        },
    }
}

// The index of the first run that does not end before the child.
fn place_of(row: &[Run], spot: Spot) -> usize
    requires { AreOrdered row.now }
    ensures bound { result ≤ length row.now }
    ensures point { IsPartitionPoint (λ x. ends_before x spot ≡ true) (λ x. ends_before x spot ≡ false) row.now result }
{
    row.partition_point(|run| run.ends_before(spot))
}

// The round in which the child got the row's atom.
fn round_in(row: &[Run], spot: Spot) -> Option<u64>
    requires { AreOrdered row.now }
    ensures { IsRoundInRow row.now spot result }
{
    let place = place_of(row, spot);
    if place < row.len() {
        let run = row[place];
        if run.covers(spot) {
            return Some(run.round);
        }
    }
    None
}

// The least step from this node to a child that has the row's atom by the round.
fn child_in(row: &[Run], parent: usize, round: u64) -> Option<u32>
    requires { AreOrdered row.now }
    ensures { IsChildInRow row.now parent round result }
{
    let mut i = place_of(row, Spot { parent, step: 0 });
    'children: while i < row.len() {
        let run = row[i];
        if run.parent != parent {
            return None;
        }
        if run.round <= round {
            return Some(run.first);
        }
        i += 1;
    }
    None
}
