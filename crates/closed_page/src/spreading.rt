//! Spreading: the nodes of a page take their labels and first rounds from the nodes of a folded page.
ghost use Rattle.std.specs.Prelude.{◌≡◌, ◌<◌, ◌++◌, ◌↔◌, ℕ, List, map, length, get_or, Contains, IsSome, IfOk, OnOk};
ghost use Rattle.tree_sem.specs.Trees.{LabelTree, count_of, node_at, label_at};
ghost use Rattle.tree_sem.specs.Order.{paths_of};
ghost use Rattle.node_marks.specs.Numbering.{IsNumbering};
ghost use Rattle.row_index.specs.Rows.{row_of};
ghost use Rattle.closed_page.specs.Firsts.{placed};
ghost use Rattle.closed_page.specs.Labelled.{node_of};
ghost use Rattle.closed_page.specs.Notes.{expanded, AreAtSpots};
ghost use Rattle.closed_page.specs.Spread.{from_at, IsSpread};
ghost use Rattle.closed_page.specs.Spreading.{news_at, AreNumbersOf, AreByNode, again, all_again, AreAgain, AreMoved};

use crate::first_rounds::Spot;
use crate::notes::NodeNews;
use crate::page_labels::PageLabels;
use crate::shared_set::{SharedSet, shares_at};
use node_marks::Columns;
use row_index::Index;
use std::alloc::Global;
use tp_base::NoMemory;
use tree_sem::Tree;

// The numbers of the notes' nodes.
fn numbers_of(
    alloc: Global,
    labels: &PageLabels,
    notes: &[NodeNews],
) -> Result<Vec<Option<usize>>, NoMemory>
    requires { AreAtSpots labels.now.nodes notes.now }
    ensures { IfOk result (λ v. AreNumbersOf labels.now.nodes notes.now v.items (length notes.now)) }
{
    let mut numbers = Vec::new(alloc);
    for i in 0..notes.len() {
        let note = &notes[i];
        numbers.push(labels.number_of(note))?;
    }
    Ok(numbers)
}

// An index of notes by the numbers of their nodes.
fn by_nodes(alloc: Global, labels: &PageLabels, notes: &[NodeNews]) -> Result<Index, NoMemory>
    requires nodes { (t : LabelTree) × (labels.now.nodes ≡ paths_of t) }
    requires spots { AreAtSpots labels.now.nodes notes.now }
    ensures { IfOk result (λ t. AreByNode labels.now.nodes notes.now t) }
{
    let numbers = numbers_of(alloc, labels, notes)?;
    let index = Index::of_numbers(alloc, &numbers)?;
    Ok(index)
}

// A copy of the note at this place, for another node.
fn again_at(known: &[NodeNews], place: usize, spot: Spot) -> Result<NodeNews, NoMemory>
    requires { place < length known.now }
    ensures { IfOk result (λ n. n ≡ again spot (news_at known.now place)) }
{
    let news = &known[place];
    let atoms = news.atoms.share()?;
    Ok(NodeNews {
        spot,
        round: news.round,
        atoms,
    })
}

// Copies the notes at these places for another node.
fn note_again(
    known: &[NodeNews],
    places: &[usize],
    spot: Spot,
    notes: &mut Vec<NodeNews>,
) -> Result<(), NoMemory>
    requires { (p : ℕ) → Contains places.now p → p < length known.now }
    ensures { OnOk result (notes.new.items ≡ notes.old.items ++ all_again known.now spot places.now) }
{
    for i in 0..places.len() {
        let next = again_at(known, places[i], spot)?;
        notes.push(next)?;
    }
    Ok(())
}

// The places of the notes of the node from which the node with this number takes its own.
fn places_for<'a>(index: &'a Index, numbers: &[usize], number: usize) -> &'a [usize]
    requires { number < length numbers.now }
    ensures { result.now ≡ row_of index.now (get_or numbers.now number 0) }
{
    index.of(numbers[number])
}

// The notes of a page's nodes, in the order of the rows of firsts.
fn all_notes(
    alloc: Global,
    labels: &PageLabels,
    numbers: &[usize],
    known: &[NodeNews],
    index: &Index,
) -> Result<Vec<NodeNews>, NoMemory>
    requires nodes { (t : LabelTree) × (labels.now.nodes ≡ paths_of t) }
    requires count { length numbers.now ≡ length labels.now.nodes }
    requires within { (k p : ℕ) → Contains (row_of index.now k) p → p < length known.now }
    ensures { IfOk result (λ v. AreAgain labels.now.nodes numbers.now known.now index.now (λ i. i < length labels.now.nodes) v.items) }
{
    let all = labels.by_parents(alloc)?;
    let order = all.as_slice();
    let mut notes = Vec::new(alloc);
    for i in 0..order.len() {
        let number = order[i];
        let places = places_for(index, numbers, number);
        let spot = labels.spot(number);
        note_again(known, places, spot, &mut notes)?;
    }
    Ok(notes)
}

// The notes of a page's nodes, each taken from the node with its number in the folded page.
fn spread_notes(
    alloc: Global,
    labels: &PageLabels,
    numbers: &[usize],
    folded: &PageLabels,
) -> Result<Vec<NodeNews>, NoMemory>
    requires nodes { (t : LabelTree) × (labels.now.nodes ≡ paths_of t) }
    requires count { length numbers.now ≡ length labels.now.nodes }
    requires within { (i : ℕ) → i < length labels.now.nodes → get_or numbers.now i 0 < length folded.now.nodes }
    requires folded { (u : LabelTree) × (folded.now.nodes ≡ paths_of u) }
    ensures spots { IfOk result (λ v. AreAtSpots labels.now.nodes v.items) }
    ensures moved { IfOk result (λ v. AreMoved numbers.now folded.now labels.now (placed labels.now.nodes (expanded v.items))) }
{
    let known = folded.noted();
    let index = by_nodes(alloc, folded, known)?;
    let notes = all_notes(alloc, labels, numbers, known, &index)?;
    Ok(notes)
}

// The labels of a page's nodes, each taken from the node with its number in the folded page.
fn spread_labels(
    alloc: Global,
    page: &Tree,
    columns: Columns<'_>,
    numbers: &[usize],
    folded: &PageLabels,
) -> Result<PageLabels, NoMemory>
    requires columns { IsNumbering page.now columns.parents.items columns.steps.items (map (λ b. b.now) columns.labels.items) }
    requires count { length numbers.now ≡ count_of page.now }
    requires within { (i : ℕ) → i < count_of page.now → get_or numbers.now i 0 < length folded.now.nodes }
    ensures nodes { IfOk result (λ l. l.nodes ≡ paths_of page.now) }
    ensures there { IfOk result (λ l. (v : List ℕ) → IsSome (node_at v l.labels) ↔ IsSome (node_at v page.now)) }
    ensures label { IfOk result (λ l. (i : ℕ) → i < count_of page.now → label_at (node_of l i) l.labels ≡ label_at (from_at folded.now numbers.now i) folded.now.labels) }
{
    let known = folded.all_own(alloc)?;
    let own = shares_at(alloc, &known, numbers)?;
    let labels = PageLabels::with_own(alloc, page, columns, own)?;
    Ok(labels)
}

/// The labels and first rounds of a page. The i-th node takes them from the node of the folded page with the i-th number.
/// Linear in the nodes and notes of both pages. All sets are shared, and the notes come in the order of the rows, so that no
/// sort has to move them.
pub fn spread(
    alloc: Global,
    page: &Tree,
    columns: Columns<'_>,
    numbers: &[usize],
    folded: PageLabels,
) -> Result<PageLabels, NoMemory>
    requires columns { IsNumbering page.now columns.parents.items columns.steps.items (map (λ b. b.now) columns.labels.items) }
    requires count { length numbers.now ≡ count_of page.now }
    requires within { (i : ℕ) → i < count_of page.now → get_or numbers.now i 0 < length folded.nodes }
    requires nodes { (u : LabelTree) × (folded.nodes ≡ paths_of u) }
    ensures spread { IfOk result (λ l. IsSpread page.now numbers.now folded l) }
{
    let labels = spread_labels(alloc, page, columns, numbers, &folded)?;
    let notes = spread_notes(alloc, &labels, numbers, &folded)?;
    Ok(labels.with_notes(notes))
}
