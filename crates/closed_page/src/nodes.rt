//! The nodes of a page, numbered in document order.
ghost use Rattle.std.specs.Prelude.{◌≡◌, ◌<◌, ◌++◌, ◌∷◌, ℕ, List, [], Some, length, get_or, slice_get, Contains, ◌↔◌, IsTrue, IfSome, IsNone, IfOk, OnOk};
ghost use Rattle.tree_sem.specs.Trees.{LabelTree};
ghost use Rattle.tree_sem.specs.Order.{paths_of};
ghost use Rattle.row_index.specs.Rows.{row_of, IsNotedIf, AreByNumber};
ghost use Rattle.closed_page.specs.Labelled.{IsAbove, AreKids};
ghost use Rattle.closed_page.specs.Numbered.{parent_told, told, AreColumns};
ghost use Rattle.closed_page.specs.Notes.{IsSpot};
ghost use Rattle.closed_page.specs.Spreading.{IsNumberAt};

use row_index::Index;
use std::alloc::Global;
use std::marker::Model;
use tp_base::{NoMemory, Path};

/// For each node the number of its parent, its step from there, and the numbers of its children. No path is kept. The root's
/// parent number has no meaning. A contract sees the paths.
#[derive(Drop)]
pub(crate) struct PageNodes {
    parents: Vec<usize>,
    steps: Vec<u32>,
    kids: Index,
}

impl Model for PageNodes {
    ghost use Rattle.std.specs.Prelude.{List, ℕ};
    ghost use Rattle.closed_page.specs.Numbered.{told, paths_by, AreNumbered};

    ghost Value = { List (List ℕ) };

    ghost view = { λ n. paths_by (told n.parents.items) n.steps.items };

    ghost invariant = { λ n. AreNumbered (paths_by (told n.parents.items) n.steps.items) (told n.parents.items) n.steps.items n.kids };
}

impl PageNodes {
    /// Makes the nodes from their parents' numbers and their steps. The root's parent number has no meaning. Linear in the
    /// nodes.
    pub(crate) fn new(
        alloc: Global,
        parents: Vec<usize>,
        steps: Vec<u32>,
    ) -> Result<PageNodes, NoMemory>
        requires { (t : LabelTree) × AreColumns t parents.items steps.items }
        ensures { IfOk result (λ n. (t : LabelTree) → AreColumns t parents.items steps.items → n ≡ paths_of t) }
    {
        let kids = kids_of(alloc, &parents)?;
        Ok(PageNodes {
            parents,
            steps,
            kids,
        })
    }

    /// How many nodes there are.
    pub(crate) fn count(&self) -> usize
        ensures { result ≡ length self.now }
    {
        self.parents.len()
    }

    /// The number of a node's parent, and `None` for the root. Constant.
    pub(crate) fn parent(&self, number: usize) -> Option<usize>
        requires { number < length self.now }
        ensures above { IsAbove self.now (get_or self.now number []) result }
        ensures before { IfSome result (λ p. p < number) }
        ensures root { IsNone result → get_or self.now number [] ≡ [] }
        ensures once { (i j : ℕ) → i < length self.now → j < length self.now → get_or self.now i [] ≡ get_or self.now j [] → i ≡ j }
    {
        told_parent(&self.parents, number)
    }

    /// The step from a node's parent to the node, and 0 for the root.
    pub(crate) fn step(&self, number: usize) -> u32
        requires { number < length self.now }
        ensures { (v : List ℕ) (k : ℕ) → get_or self.now number [] ≡ v ++ k ∷ [] → result ≡ k }
    {
        self.steps[number]
    }

    /// The numbers of a node's children, in their order. Constant.
    pub(crate) fn kids(&self, number: usize) -> &[usize]
        requires { number < length self.now }
        ensures { AreKids self.now number result.now }
    {
        self.kids.of(number)
    }

    /// The number of the node to which a step leads from this parent. The count of the nodes with step 0 stands for the root.
    /// Constant where the node is there, since children are in order.
    pub(crate) fn number_at(&self, parent: usize, step: u32) -> Option<usize>
        requires { IsSpot self.now parent step }
        ensures { IsNumberAt self.now parent step result }
    {
        if parent < self.count() {
            return child_of(&self.kids, &self.steps, parent, step);
        }
        Some(0)
    }

    /// The number of the node at a path. Linear in the path's length where the node is there. Otherwise also linear in the
    /// children of one node.
    pub(crate) fn number_of(&self, at: &Path) -> Option<usize>
        ensures some { IfSome result (λ i. (i < length self.now) × (get_or self.now i [] ≡ at.now)) }
        ensures none { IsNone result → ¬ Contains self.now at.now }
    {
        let steps = self.steps.as_slice();
        let mut found = 0;
        'levels: for level in 0..at.len() {
            found = child_of(&self.kids, steps, found, at.at(level))?;
        }
        Some(found)
    }
}

// The number of a node's parent.
fn told_parent(numbers: &[usize], i: usize) -> Option<usize>
    requires { i < length numbers.now }
    ensures { result ≡ parent_told numbers.now i }
{
    if i == 0 { None } else { Some(numbers[i]) }
}

// Notes a node at its parent, if it has one.
fn note_kid(alloc: Global, numbers: &[usize], i: usize, kids: &mut Index) -> Result<(), NoMemory>
    requires { i < length numbers.now }
    ensures { OnOk result (IsNotedIf kids.old kids.new (parent_told numbers.now i) i) }
{
    match told_parent(numbers, i) {
        Some(parent) => kids.note(alloc, parent, i),
        None => Ok(()),
    }
}

// The numbers of each node's children.
fn kids_of(alloc: Global, numbers: &[usize]) -> Result<Index, NoMemory>
    ensures { IfOk result (λ t. AreByNumber (told numbers.now) t) }
{
    let mut kids = Index::new(alloc);
    for i in 0..numbers.len() {
        note_kid(alloc, numbers, i, &mut kids)?;
    }
    Ok(kids)
}

// Whether this step leads to the node.
fn has_step(steps: &[u32], number: usize, step: u32) -> bool
    ensures { IsTrue result ↔ (slice_get steps.now number ≡ Some step) }
{
    match steps.get(number) {
        Some(own) => *own == step,
        None => false,
    }
}

// The number at the index `step` of the row, if this step leads to its node.
fn at_place(row: &[usize], steps: &[u32], step: u32) -> Option<usize>
    ensures { IfSome result (λ c. Contains row.now c × (slice_get steps.now c ≡ Some step)) }
{
    let child = *row.get(step as usize)?;
    if has_step(steps, child, step) {
        Some(child)
    } else {
        None
    }
}

// The number in the row to whose node this step leads, by a linear search.
fn search(row: &[usize], steps: &[u32], step: u32) -> Option<usize>
    ensures some { IfSome result (λ c. Contains row.now c × (slice_get steps.now c ≡ Some step)) }
    ensures none { IsNone result → (c : ℕ) → Contains row.now c → ¬ (slice_get steps.now c ≡ Some step) }
{
    for i in 0..row.len() {
        if has_step(steps, row[i], step) {
            return Some(row[i]);
        }
    }
    None
}

// The number of the child to which this step leads. Children are in order, so that the step is normally the child's index.
fn child_of(kids: &Index, steps: &[u32], number: usize, step: u32) -> Option<usize>
    ensures some { IfSome result (λ c. Contains (row_of kids.now number) c × (slice_get steps.now c ≡ Some step)) }
    ensures none { IsNone result → (c : ℕ) → Contains (row_of kids.now number) c → ¬ (slice_get steps.now c ≡ Some step) }
{
    let row = kids.of(number);
    match at_place(row, steps, step) {
        Some(child) => Some(child),
        None => search(row, steps, step),
    }
}
