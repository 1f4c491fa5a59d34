//! The labels of a page and the first rounds of their atoms, by node numbers in document order.
ghost use Rattle.std.specs.Prelude.{◌≡◌, ◌<◌, ◌⊎◌, ◌↔◌, ◌++◌, ◌+◌, ◌^◌, ℕ, [], Some, None, map, length, get_or, IfOk, OnOk, OnErr, IfSome, IsSome, IsNone, List, Contains};
ghost use Rattle.tree_sem.specs.Trees.{LabelTree, node_at, label_at, edit_at, count_of};
ghost use Rattle.tree_sem.specs.Order.{paths_of};
ghost use Rattle.tree_sem.specs.Actions.{add_classes};
ghost use Rattle.std.specs.List.Sorted.{IsStrictlyIncreasing};
ghost use Rattle.node_marks.specs.Numbering.{IsNumbering};
ghost use Rattle.row_index.specs.Rows.{row_of};
ghost use Rattle.closed_page.specs.ClosedPages.{round_of};
ghost use Rattle.closed_page.specs.Firsts.{AreOfNodes, IsSpotOf, placed};
ghost use Rattle.closed_page.specs.Gains.{label_in, firsts_at, IsGrown, AreStarts};
ghost use Rattle.closed_page.specs.Notes.{IsSpot, AreAtSpots, expanded};
ghost use Rattle.closed_page.specs.Relabelled.{label_by, relabelled, shape_of};
ghost use Rattle.closed_page.specs.Spreading.{IsNumberAt, AreLabelled};
ghost use Rattle.closed_page.specs.Views.{firsts_of};
ghost use Rattle.closed_page.specs.Labelled.{node_of, IsAbove, AreKids, IsParentIn, AreKidsAll, IsHeard, IsCalled, AreAllLabels, HaveLabels};

use crate::first_rounds::{FirstRounds, Spot, spot_of};
use crate::nodes::PageNodes;
use crate::notes::{NodeNews, note};
use crate::shared_set::{SharedSet, copies, joined_before, shares};
use node_marks::Columns;
use row_index::Index;
use std::alloc::Global;
use std::marker::Model;
use tp_base::{ClassSet, NoMemory};
use tree_sem::Tree;

/// The labels of a page by node numbers, and the first rounds of the atoms.
#[derive(Drop)]
pub(crate) struct PageParts {
    pub(crate) own: Vec<SharedSet>,
    pub(crate) firsts: FirstRounds,
}

/// A page whose labels still grow: its numbered nodes, their labels now, and the first rounds so far. No tree is kept. A
/// contract sees the tree with these labels, the paths of the nodes, and the firsts with these paths.
#[derive(Drop)]
pub struct PageLabels {
    nodes: PageNodes,
    own: Vec<SharedSet>,
    notes: Vec<NodeNews>,
}

impl Model for PageLabels {
    ghost use Rattle.closed_page.specs.Labelled.{Labelled, labelled_code, AreRelated};
    ghost use Rattle.closed_page.specs.Firsts.{placed};
    ghost use Rattle.closed_page.specs.Notes.{expanded, AreAtSpots};
    ghost use Rattle.closed_page.specs.Relabelled.{label_by, relabelled, shape_of};
    ghost use Rattle.std.specs.Prelude.{length};

    ghost Value = { Labelled };

    ghost coded = { labelled_code };

    ghost view = { λ l. record { labels = relabelled (label_by l.nodes l.own.items) (shape_of l.nodes); nodes = l.nodes; firsts = placed l.nodes (expanded l.notes.items); notes = length l.notes.items } };

    ghost invariant = { λ l. AreRelated (relabelled (label_by l.nodes l.own.items) (shape_of l.nodes)) l.nodes l.own.items × AreAtSpots l.nodes l.notes.items };
}

impl PageLabels {
    /// Makes the labels of a page from its columns, with all its atoms as firsts of round 0. Linear in the columns and the
    /// nodes.
    pub fn new(alloc: Global, page: &Tree, columns: Columns<'_>) -> Result<PageLabels, NoMemory>
        requires { IsNumbering page.now columns.parents.items columns.steps.items (map (λ b. b.now) columns.labels.items) }
        ensures labels { IfOk result (λ l. l.labels ≡ page.now) }
        ensures nodes { IfOk result (λ l. l.nodes ≡ paths_of page.now) }
        ensures firsts { IfOk result (λ l. AreStarts page.now (paths_of page.now) l.firsts) }
        ensures rising { OnOk result ((v : List ℕ) → Contains (paths_of page.now) v → IsStrictlyIncreasing (label_in page.now v)) }
        ensures few { IfOk result (λ l. l.notes < 2 ^ 63) }
    {
        let mut labels = PageLabels::numbered(alloc, page, columns)?;
        let none = ClassSet::new(alloc);
        let numbers = labels.by_parents(alloc)?;
        let order = numbers.as_slice();
        for i in 0..order.len() {
            labels.note_own(order[i], &none)?;
        }
        Ok(labels)
    }

    /// The numbers of all nodes, children of one node behind one another, and the root last. Rows of firsts have this order, so
    /// that notes made in it need no sorting. Linear in the nodes.
    pub(crate) fn by_parents(&self, alloc: Global) -> Result<Vec<usize>, NoMemory>
        requires { (t : LabelTree) × (self.now.nodes ≡ paths_of t) }
        ensures within { IfOk result (λ v. (i : ℕ) → Contains v.items i → i < length self.now.nodes) }
        ensures whole { IfOk result (λ v. (i : ℕ) → i < length self.now.nodes → Contains v.items i) }
    {
        let mut numbers = Vec::new(alloc);
        let count = self.count();
        for i in 0..count {
            numbers.extend_from_slice(self.kids(i))?;
        }
        numbers.push(0)?;
        Ok(numbers)
    }

    // The labels of a page without firsts. Linear in the nodes.
    fn numbered(alloc: Global, page: &Tree, columns: Columns<'_>) -> Result<PageLabels, NoMemory>
        requires { IsNumbering page.now columns.parents.items columns.steps.items (map (λ b. b.now) columns.labels.items) }
        ensures labels { IfOk result (λ l. l.labels ≡ page.now) }
        ensures nodes { IfOk result (λ l. l.nodes ≡ paths_of page.now) }
        ensures firsts { IfOk result (λ l. l.firsts ≡ []) }
    {
        let own = copies(alloc, &columns.labels)?;
        let nodes = PageNodes::new(alloc, columns.parents, columns.steps)?;
        Ok(PageLabels {
            nodes,
            own,
            notes: Vec::new(alloc),
        })
    }

    /// The nodes of a page with other labels and without firsts. Linear in the nodes.
    pub(crate) fn with_own(
        alloc: Global,
        page: &Tree,
        columns: Columns<'_>,
        own: Vec<SharedSet>,
    ) -> Result<PageLabels, NoMemory>
        requires columns { IsNumbering page.now columns.parents.items columns.steps.items (map (λ b. b.now) columns.labels.items) }
        requires count { length own.items ≡ count_of page.now }
        ensures nodes { IfOk result (λ l. l.nodes ≡ paths_of page.now) }
        ensures labels { IfOk result (λ l. AreLabelled page.now own.items l.labels) }
    {
        let nodes = PageNodes::new(alloc, columns.parents, columns.steps)?;
        Ok(PageLabels {
            nodes,
            own,
            notes: Vec::new(alloc),
        })
    }

    /// The same nodes and labels, with the firsts of these notes. Constant.
    pub(crate) fn with_notes(self, notes: Vec<NodeNews>) -> PageLabels
        requires { AreAtSpots self.nodes notes.items }
        ensures labels { result.labels ≡ self.labels }
        ensures nodes { result.nodes ≡ self.nodes }
        ensures firsts { result.firsts ≡ placed self.nodes (expanded notes.items) }
    {
        PageLabels {
            nodes: self.nodes,
            own: self.own,
            notes,
        }
    }

    /// The notes of the firsts. Constant.
    pub(crate) fn noted(&self) -> &[NodeNews]
        ensures firsts { placed self.now.nodes (expanded result.now) ≡ self.now.firsts }
        ensures spots { AreAtSpots self.now.nodes result.now }
    {
        &self.notes
    }

    /// The number of a note's node, if there is such a node. Constant.
    pub(crate) fn number_of(&self, note: &NodeNews) -> Option<usize>
        requires { IsSpot self.now.nodes note.now.spot.parent note.now.spot.step }
        ensures { IsNumberAt self.now.nodes note.now.spot.parent note.now.spot.step result }
    {
        self.nodes.number_at(note.spot.parent, note.spot.step)
    }

    /// How many nodes there are.
    pub fn count(&self) -> usize
        ensures { result ≡ length self.now.nodes }
    {
        self.nodes.count()
    }

    /// The numbers of all nodes. Linear in them.
    pub fn all_numbers(&self, alloc: Global) -> Result<Vec<usize>, NoMemory>
        ensures { IfOk result (λ v. (i : ℕ) → Contains v.items i ↔ (i < length self.now.nodes)) }
    {
        let mut numbers = Vec::new(alloc);
        let count = self.count();
        for i in 0..count {
            numbers.push(i)?;
        }
        Ok(numbers)
    }

    /// The label of a node now. Constant.
    pub fn own(&self, number: usize) -> &ClassSet
        requires { number < length self.now.nodes }
        ensures { label_at (node_of self.now number) self.now.labels ≡ Some result.now }
    {
        self.own[number].set()
    }

    /// Copies of all labels, by node numbers. They share the sets. Linear in the nodes.
    pub fn all_own(&self, alloc: Global) -> Result<Vec<SharedSet>, NoMemory>
        ensures { IfOk result (λ v. AreAllLabels self.now.labels self.now.nodes v.items (length self.now.nodes)) }
    {
        let labels = shares(alloc, &self.own)?;
        Ok(labels)
    }

    /// The number of a node's parent, and `None` for the root. Constant.
    pub fn parent(&self, number: usize) -> Option<usize>
        requires { number < length self.now.nodes }
        ensures above { IsAbove self.now.nodes (node_of self.now number) result }
        ensures whole { (v : List ℕ) → IsSome (node_at v self.now.labels) → Contains self.now.nodes v }
        ensures once { (i j : ℕ) → i < length self.now.nodes → j < length self.now.nodes → node_of self.now i ≡ node_of self.now j → i ≡ j }
    {
        self.nodes.parent(number)
    }

    /// The numbers of a node's children, in their order. Constant.
    pub fn kids(&self, number: usize) -> &[usize]
        requires { number < length self.now.nodes }
        ensures kids { AreKids self.now.nodes number result.now }
        ensures whole { (v : List ℕ) → IsSome (node_at v self.now.labels) → Contains self.now.nodes v }
    {
        self.nodes.kids(number)
    }

    /// Appends the number of a node's parent to the row, if there is a parent. Constant.
    pub fn add_parent(&self, number: usize, row: &mut Vec<usize>) -> Result<(), NoMemory>
        requires number { number < length self.now.nodes }
        ensures kept { OnOk result ((i : ℕ) → Contains row.old.items i → Contains row.new.items i) }
        ensures within { OnOk result ((i : ℕ) → Contains row.new.items i → Contains row.old.items i ⊎ (i < length self.now.nodes)) }
        ensures there { OnOk result (IsParentIn self.now.nodes number row.new.items) }
        ensures err { OnErr result (row.new.items ≡ row.old.items) }
    {
        match self.parent(number) {
            Some(parent) => {
                row.push(parent)?;
                Ok(())
            }
            None => Ok(()),
        }
    }

    /// Notes a node among the callers of its parent, if there is one. When memory runs out, no row has changed. Linear in the
    /// parent's number where it is the largest so far.
    pub fn call(&self, alloc: Global, number: usize, callers: &mut Index) -> Result<(), NoMemory>
        requires { number < length self.now.nodes }
        ensures ok { OnOk result (IsCalled self.now.nodes callers.old callers.new number) }
        ensures err { OnErr result ((i : ℕ) → row_of callers.new i ≡ row_of callers.old i) }
    {
        match self.parent(number) {
            Some(parent) => {
                callers.note(alloc, parent, number)?;
                Ok(())
            }
            None => Ok(()),
        }
    }

    /// The spot of a node.
    pub(crate) fn spot(&self, number: usize) -> Spot
        requires { number < length self.now.nodes }
        ensures { IsSpotOf self.now.nodes (node_of self.now number) result }
    {
        spot_of(&self.nodes, number)
    }

    /// Notes the atoms that a node does not have, as its firsts of this round.
    pub(crate) fn note(
        &mut self,
        number: usize,
        label: &SharedSet,
        round: u64,
    ) -> Result<(), NoMemory>
        requires { number < length self.old.nodes }
        ensures labels { self.new.labels ≡ self.old.labels }
        ensures nodes { self.new.nodes ≡ self.old.nodes }
        ensures firsts { OnOk result (self.new.firsts ≡ self.old.firsts ++ firsts_at (node_of self.old number) (label_in self.old.labels (node_of self.old number)) label.now round) }
        ensures notes { OnOk result (self.new.notes ≡ self.old.notes + 1) }
        ensures few { self.new.notes < 2 ^ 63 }
    {
        let spot = self.spot(number);
        note(&mut self.notes, spot, self.own[number].set(), label, round)
    }

    // Notes all atoms of a node, if any, as its firsts of round 0.
    fn note_own(&mut self, number: usize, none: &ClassSet) -> Result<(), NoMemory>
        requires number { number < length self.old.nodes }
        requires none { none.now ≡ [] }
        ensures labels { self.new.labels ≡ self.old.labels }
        ensures nodes { self.new.nodes ≡ self.old.nodes }
        ensures firsts { OnOk result (self.new.firsts ≡ self.old.firsts ++ firsts_at (node_of self.old number) [] (label_in self.old.labels (node_of self.old number)) 0) }
        ensures rising { IsStrictlyIncreasing (label_in self.old.labels (node_of self.old number)) }
        ensures few { self.new.notes < 2 ^ 63 }
    {
        let own = self.own[number].set();
        if own.len() == 0 {
            return Ok(());
        }
        let spot = self.spot(number);
        note(&mut self.notes, spot, none, &self.own[number], 0)
    }

    /// Adds atoms to the label of a node. If the node before it has the resulting label, both share that set. Otherwise each of
    /// a few atoms costs a search and shifts the atoms behind it, and more atoms cost a walk along both labels. The first
    /// addition at a node also copies its label.
    pub(crate) fn add(&mut self, number: usize, label: &ClassSet) -> Result<(), NoMemory>
        requires { number < length self.old.nodes }
        ensures labels { OnOk result (self.new.labels ≡ edit_at (node_of self.old number) (add_classes label.now) self.old.labels) }
        ensures nodes { self.new.nodes ≡ self.old.nodes }
        ensures firsts { OnOk result (self.new.firsts ≡ self.old.firsts) }
        ensures notes { OnOk result (self.new.notes ≡ self.old.notes) }
        ensures grown { OnErr result (IsGrown self.old.labels self.new.labels) }
    {
        if let Some(grown) = joined_before(&self.own, number, label)? {
            self.own[number] = grown;
            return Ok(());
        }
        let own = &mut self.own[number];
        own.add(label)?;
        Ok(())
    }

    /// The labels by node numbers, and the firsts in rows by atoms.
    pub(crate) fn into_parts(self, alloc: Global) -> Result<PageParts, NoMemory>
        requires { AreOfNodes self.nodes self.firsts }
        ensures tree { IfOk result (λ r. relabelled (label_by r.firsts.nodes r.own.items) (shape_of r.firsts.nodes) ≡ self.labels) }
        ensures own { IfOk result (λ r. HaveLabels self.labels r.firsts.nodes r.own.items) }
        ensures rounds { IfOk result (λ r. (v : List ℕ) (a : ℕ) → round_of r.firsts.firsts v a ≡ round_of (firsts_of self.firsts) v a) }
    {
        let firsts = FirstRounds::new(alloc, self.nodes, self.notes)?;
        Ok(PageParts {
            own: self.own,
            firsts,
        })
    }
}
