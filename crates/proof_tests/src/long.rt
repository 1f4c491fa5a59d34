//! Long proofs: chains of entries, each of which names the one before it.
use proof_core::Below::Grown;
use proof_core::Reason::{Down, Start};
use proof_core::{Entries, Entry, PageItem, PageItems, Proof, ProofItem, ProofItems};
use simple_core::{Kind, Kinds, Links, Locals, Spawn, Spawns, System};
use std::alloc::Global;
use test_building::{links, set_of};
use tp_base::{Atom, ClassSet, NoMemory, Path};

/// How many kinds the system of a chain has, each below the one before it. The first one comes by a step.
pub const DEPTH: u32 = 4_000;

fn kinds(alloc: Global) -> Result<Kinds, NoMemory> {
    let mut kinds = Vec::new(alloc);
    for n in 0..DEPTH {
        kinds.push(Kind {
            label: set_of(alloc, &[0])?,
            stmt: 0,
            above: n.checked_sub(1),
            number: 0,
            siblings: 1,
            beside: false,
        })?;
    }
    Ok(Kinds::new(kinds))
}

fn spawns(alloc: Global) -> Result<Spawns, NoMemory> {
    let mut spawns = Vec::new(alloc);
    for kind in 0..DEPTH {
        let needs = Atom(0);
        spawns.push(Spawn { needs, kind })?;
    }
    Ok(Spawns::new(spawns))
}

// The rules that add nodes, and their kinds.
fn below_nodes(alloc: Global) -> Result<(Spawns, Kinds), NoMemory> {
    let child = spawns(alloc)?;
    let kinds = kinds(alloc)?;
    Ok((child, kinds))
}

/// A node with the atom 0 gets a child of each kind that may stand there. Its parent gets 1 and 2 from the child's 0, and 1 from its 1.
pub fn chain_system(alloc: Global) -> Result<System, NoMemory> {
    let down = links(alloc, &[(0, 1), (1, 1), (0, 2)])?;
    let local = Locals::new(Vec::new(alloc))?;
    let (child, kinds) = below_nodes(alloc)?;
    Ok(System {
        local,
        up: Links::new(Vec::new(alloc)),
        down,
        child,
        kinds,
        visible: ClassSet::new(alloc),
    })
}

fn first_item() -> ProofItem {
    ProofItem {
        atom: Atom(0),
        reason: Start,
    }
}

fn chain_items(alloc: Global, number: u32, kind: u32) -> Result<ProofItems, NoMemory> {
    let mut items = Vec::new(alloc);
    items.push(first_item())?;
    if number > 0 {
        let spawn = u64::from(kind.saturating_add(1) % DEPTH);
        let link = u64::from(number > 1);
        items.push(ProofItem {
            atom: Atom(1),
            reason: Down(link, Grown(spawn, number - 1)),
        })?;
    }
    Ok(ProofItems::new(items))
}

fn chain_entry(alloc: Global, number: u32, kind: u32, steps: u64) -> Result<Entry, NoMemory> {
    let items = chain_items(alloc, number, kind)?;
    Ok(Entry {
        kind,
        parent: ClassSet::new(alloc),
        items,
        steps,
    })
}

// Each entry names the one before it. The last one is of the kind 0.
fn chain_entries(alloc: Global, count: u32) -> Result<Entries, NoMemory> {
    let mut entries = Vec::new(alloc);
    let mut steps = 0u64;
    for number in 0..count {
        let kind = (count - 1 - number) % DEPTH;
        entries.push(chain_entry(alloc, number, kind, steps)?)?;
        if kind == 0 {
            steps = steps.saturating_add(1);
        }
    }
    Ok(Entries::new(entries))
}

// The page's root has 0 from the start, and 1 by a child with the last of so many entries.
fn page_items(alloc: Global, link: u64, count: u32) -> Result<PageItems, NoMemory> {
    let mut items = Vec::new(alloc);
    items.push(PageItem {
        at: Path::root(alloc),
        item: first_item(),
    })?;
    let item = ProofItem {
        atom: Atom(1),
        reason: Down(link, Grown(0, count.saturating_sub(1))),
    };
    let at = Path::root(alloc);
    items.push(PageItem { at, item })?;
    Ok(PageItems::new(items))
}

/// So many entries, each of which stands below the next.
pub fn chain(alloc: Global, count: u32) -> Result<Proof, NoMemory> {
    Ok(Proof {
        entries: chain_entries(alloc, count)?,
        page: page_items(alloc, u64::from(count > 1), count)?,
    })
}

fn twice_items(alloc: Global, number: u32) -> Result<ProofItems, NoMemory> {
    let mut items = Vec::new(alloc);
    items.push(first_item())?;
    if number > 0 {
        items.push(ProofItem {
            atom: Atom(1),
            reason: Down(0, Grown(0, number - 1)),
        })?;
        items.push(ProofItem {
            atom: Atom(2),
            reason: Down(2, Grown(0, number - 1)),
        })?;
    }
    Ok(ProofItems::new(items))
}

fn twice_entry(alloc: Global, number: u32, steps: u64) -> Result<Entry, NoMemory> {
    let items = twice_items(alloc, number)?;
    Ok(Entry {
        kind: 0,
        parent: ClassSet::new(alloc),
        items,
        steps,
    })
}

fn twice_entries(alloc: Global, count: u32) -> Result<Entries, NoMemory> {
    let mut entries = Vec::new(alloc);
    let mut steps = 0u64;
    for number in 0..count {
        entries.push(twice_entry(alloc, number, steps)?)?;
        steps = steps.saturating_add(1).saturating_mul(2);
    }
    Ok(Entries::new(entries))
}

/// So many entries, each of which stands below the next twice.
pub fn twice(alloc: Global, count: u32) -> Result<Proof, NoMemory> {
    Ok(Proof {
        entries: twice_entries(alloc, count)?,
        page: page_items(alloc, 0, count)?,
    })
}
