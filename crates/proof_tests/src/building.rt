//! Proofs from tables.
ghost use Rattle.std.specs.Prelude.{IsTrue};
ghost use Rattle.proof_core.specs.Worlds.{HasFewSiblings};

use crate::rows::{EntryRow, ItemRow, PageItemRow, ProofRow};
use proof_core::{Entries, Entry, PageItem, PageItems, Proof, ProofItem, ProofItems};
use simple_core::{Kind, MOST_KINDS};
use std::alloc::Global;
use test_building::{path_of, set_of};
use tp_base::{Atom, NoMemory};

/// Whether each kind is one of its siblings, and these are few, as in each sound system.
pub fn are_few(kinds: &[Kind]) -> bool
    ensures { IsTrue result → HasFewSiblings kinds.now }
{
    kinds.iter().all(|kind| kind.number < kind.siblings && kind.siblings <= MOST_KINDS)
}

fn items_of(alloc: Global, rows: &[ItemRow]) -> Result<ProofItems, NoMemory> {
    let mut items = Vec::new(alloc);
    for (atom, reason) in rows {
        items.push(ProofItem {
            atom: Atom(*atom),
            reason: *reason,
        })?;
    }
    Ok(ProofItems::new(items))
}

fn entry_of(alloc: Global, row: &EntryRow) -> Result<Entry, NoMemory> {
    Ok(Entry {
        kind: row.kind,
        parent: set_of(alloc, row.parent)?,
        items: items_of(alloc, row.items)?,
        steps: row.steps,
    })
}

fn entries_of(alloc: Global, rows: &[EntryRow]) -> Result<Entries, NoMemory> {
    let mut entries = Vec::new(alloc);
    for row in rows {
        entries.push(entry_of(alloc, row)?)?;
    }
    Ok(Entries::new(entries))
}

fn page_items_of(alloc: Global, rows: &[PageItemRow]) -> Result<PageItems, NoMemory> {
    let mut items = Vec::new(alloc);
    for (at, atom, reason) in rows {
        let item = ProofItem {
            atom: Atom(*atom),
            reason: *reason,
        };
        let at = path_of(alloc, at)?;
        items.push(PageItem { at, item })?;
    }
    Ok(PageItems::new(items))
}

pub fn proof_of(alloc: Global, row: &ProofRow) -> Result<Proof, NoMemory> {
    Ok(Proof {
        entries: entries_of(alloc, row.entries)?,
        page: page_items_of(alloc, row.items)?,
    })
}
