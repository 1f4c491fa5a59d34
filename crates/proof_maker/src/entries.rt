//! The entries and items of a proof, from the sorted wants.
ghost use Rattle.std.specs.Prelude.{◌≡◌, ◌<◌, ◌^◌, min, length, map, All, slice_get, option_map, unwrap_or, IfOk};
ghost use Rattle.proof_check.specs.Kept.{kept_steps};
ghost use Rattle.proof_check.specs.Unfolding.{items_count};
ghost use Rattle.proof_check.specs.Validity.{MOST_STEPS};
ghost use Rattle.proof_maker.specs.Entries.{IsEntryWith};
ghost use Rattle.proof_maker.specs.Items.{reason_with};
ghost use Rattle.proof_needs.specs.Dealing.{node_of};
ghost use Rattle.proof_needs.specs.Numbers.{number_in};
ghost use Rattle.proof_maker.specs.Making.{AreEntries, IsNodeWant, item_of, page_item_of};

use indexmap::IndexSet;
use proof_check::{
    Below, Entries, Entry, PageItem, PageItems, ProofItem, ProofItems, Reason, items_steps,
};
use proof_needs::{Choice, Draft, Needs, Order, Spot, Want, number_of, path_of};
use simple_core::System;
use std::alloc::Global;
use tp_base::{Atom, NoMemory};

/// The entries of the triples that have numbers, in the order of these. Linear in all their items, but for look-ups.
pub(crate) fn entries_of(
    alloc: Global,
    needs: &Needs,
    system: &System,
    orders: &[Order],
    order: &IndexSet<usize>,
) -> Result<Entries, NoMemory>
    requires orders { All (λ m. m < length orders.now) order.now.keys }
    requires triples { All (λ m. m < length needs.now.triples.keys) order.now.keys }
    requires ties { All (λ m. m < length needs.now.ties.items) order.now.keys }
    requires few { length order.now.keys < 2 ^ 32 }
    ensures { IfOk result (AreEntries needs.now order.now.keys system.now orders.now (length order.now.keys)) }
{
    let mut entries = Entries::new(Vec::new(alloc));
    for i in 0..order.len() {
        let triple = order.as_slice()[i];
        let items = items_of(alloc, needs, &orders[triple].wants, order)?;
        let entry = entry_of(needs, triple, items, system, &entries)?;
        entries.push(entry)?;
    }
    Ok(entries)
}

// The entry of a triple with these items, behind the entries so far.
fn entry_of(
    needs: &Needs,
    triple: usize,
    items: Vec<ProofItem>,
    system: &System,
    entries: &Entries,
) -> Result<Entry, NoMemory>
    requires triple { triple < length needs.now.triples.keys }
    requires tie { triple < length needs.now.ties.items }
    ensures made { IfOk result (IsEntryWith needs.now items.items triple) }
    ensures steps { IfOk result (λ e. e.steps ≡ min (items_count system.now (kept_steps entries.now) e.items) MOST_STEPS) }
{
    let steps = items_steps(&items, entries, system);
    let parent = needs.ties[triple].above.copy()?;
    Ok(Entry {
        kind: needs.triples.as_slice()[triple].kind,
        parent,
        items: ProofItems::new(items),
        steps,
    })
}

fn items_of(
    alloc: Global,
    needs: &Needs,
    wants: &[usize],
    order: &IndexSet<usize>,
) -> Result<Vec<ProofItem>, NoMemory>
    requires few { length order.now.keys < 2 ^ 32 }
    ensures { IfOk result (λ v. v.items ≡ map (item_of needs.now order.now.keys) wants.now) }
{
    let mut items = Vec::new(alloc);
    for i in 0..wants.len() {
        items.push(item_of(needs, wants[i], order))?;
    }
    Ok(items)
}

/// The items of the page, in their order.
pub(crate) fn page_items(
    alloc: Global,
    needs: &Needs,
    wants: &[usize],
    order: &IndexSet<usize>,
) -> Result<PageItems, NoMemory>
    requires nodes { All (IsNodeWant needs.now) wants.now }
    requires few { length order.now.keys < 2 ^ 32 }
    ensures { IfOk result (λ p. p ≡ map (page_item_of needs.now order.now.keys) wants.now) }
{
    let mut items = Vec::new(alloc);
    for i in 0..wants.len() {
        let item = page_item_of(alloc, needs, wants[i], order)?;
        items.push(item)?;
    }
    Ok(PageItems::new(items))
}

fn page_item_of(
    alloc: Global,
    needs: &Needs,
    want: usize,
    order: &IndexSet<usize>,
) -> Result<PageItem, NoMemory>
    requires node { IsNodeWant needs.now want }
    requires few { length order.now.keys < 2 ^ 32 }
    ensures { IfOk result (λ i. i ≡ page_item_of needs.now order.now.keys want) }
{
    let at = path_of(alloc, &needs.nodes, node_at(&needs.wants, want))?;
    Ok(PageItem {
        at,
        item: item_of(needs, want, order),
    })
}

fn node_at(wants: &IndexSet<Want>, want: usize) -> usize
    ensures { result ≡ unwrap_or (option_map (λ w. node_of w.spot) (slice_get wants.now.keys want)) 0 }
{
    match wants.get_index(want) {
        Some(want) => number_at(want.spot),
        None => 0,
    }
}

fn number_at(spot: Spot) -> usize
    ensures { result ≡ node_of spot }
{
    match spot {
        Spot::Page(n) => n,
        Spot::Added(_) => 0,
    }
}

fn item_of(needs: &Needs, want: usize, order: &IndexSet<usize>) -> ProofItem
    requires few { length order.now.keys < 2 ^ 32 }
    ensures { result ≡ item_of needs.now order.now.keys want }
{
    ProofItem {
        atom: atom_at(&needs.wants, want),
        reason: reason_at(&needs.drafts, want, order),
    }
}

fn atom_at(wants: &IndexSet<Want>, want: usize) -> Atom
    ensures { result ≡ unwrap_or (option_map (λ w. w.atom) (slice_get wants.now.keys want)) 0 }
{
    match wants.get_index(want) {
        Some(want) => want.atom,
        None => Atom(0),
    }
}

fn reason_at(drafts: &[Draft], want: usize, order: &IndexSet<usize>) -> Reason
    requires few { length order.now.keys < 2 ^ 32 }
    ensures { result ≡ unwrap_or (option_map (λ d. reason_with (number_in order.now.keys) d.choice d.triple) (slice_get drafts.now want)) Reason.Start }
{
    match drafts.get(want) {
        Some(draft) => reason_of(draft, order),
        None => Reason::Start,
    }
}

fn reason_of(draft: &Draft, order: &IndexSet<usize>) -> Reason
    requires few { length order.now.keys < 2 ^ 32 }
    ensures { result ≡ reason_with (number_in order.now.keys) draft.now.choice draft.now.triple }
{
    match draft.choice {
        Choice::Start => Reason::Start,
        Choice::Local(l) => Reason::Local(l),
        Choice::Up(l) => Reason::Up(l),
        Choice::Real(l, n) => Reason::Down(l, Below::Real(n)),
        Choice::Spawn(l, c) => Reason::Down(
            l,
            Below::Grown(c, number_of(order, draft.triple.unwrap_or(0))),
        ),
    }
}
