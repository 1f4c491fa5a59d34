ghost use Rattle.std.specs.Prelude.{ℕ, ◌<◌, length, All, IfOk};
ghost use Rattle.guard_simplify.specs.Law.{IsOver};

use crate::systems::written;
use guard_sem::{Guard, GuardNode, Guards};
use guard_simplify::{Simplified, SimplifyFault, simplify};
use std::alloc::{AllocError, Global};
use std::test::Fail;
use tp_base::{Atom, AtomFault, AtomKind, AtomTable, NoMemory};

// The atom, at a node whose parent the guard holds at.
fn below(alloc: Global, atom: u32, parent: Guard) -> Result<Guard, NoMemory>
    ensures { (n : ℕ) → atom < n → IsOver n parent → IfOk result (λ g. IsOver n g) }
{
    let above = Guard {
        node: GuardNode::Parent(Box::new(alloc, parent)?),
    };
    let here = Guard {
        node: GuardNode::Atom(Atom(atom)),
    };
    let parts = vec![in alloc; here, above]?;
    Ok(Guard {
        node: GuardNode::All(Guards::new(parts)),
    })
}

// The guard of `.first > .inner > .. > .inner`, with so many compounds.
fn chain(alloc: Global, first: u32, inner: u32, compounds: u32) -> Result<Guard, NoMemory>
    ensures { (n : ℕ) → first < n → inner < n → IfOk result (λ g. IsOver n g) }
{
    let mut made = Guard {
        node: GuardNode::Atom(Atom(first)),
    };
    'compounds: for _ in 1..compounds {
        made = below(alloc, inner, made)?;
    }
    Ok(made)
}

// So many guards, with the first names of the table for their first classes, and the next one for the others.
fn chains(
    alloc: Global,
    count: u32,
    compounds: u32,
    atoms: &AtomTable,
) -> Result<Vec<Guard>, NoMemory>
    requires { count < length atoms.now }
    ensures { IfOk result (λ v. All (IsOver (length atoms.now)) v.items) }
{
    let mut guards = Vec::new(alloc);
    'chains: for first in 0..count {
        guards.push(chain(alloc, first, count, compounds)?)?;
    }
    Ok(guards)
}

fn enter(alloc: Global, atoms: &mut AtomTable, number: u32) -> Result<(), AtomFault> {
    let name = number.to_string(alloc)?;
    atoms.intern(AtomKind::Class, name.as_bytes())?;
    Ok(())
}

// A table of so many names.
fn table(alloc: Global, count: u32) -> Result<AtomTable, AtomFault> {
    let mut atoms = AtomTable::new(alloc);
    for number in 0..count {
        enter(alloc, &mut atoms, number)?;
    }
    Ok(atoms)
}

// What is made of so many guards. With too few names for the guards it is a fault that no row expects.
fn made_over(
    alloc: Global,
    atoms: &AtomTable,
    count: u32,
    compounds: u32,
) -> Result<Simplified, SimplifyFault> {
    if count >= atoms.count() {
        return Err(SimplifyFault::Memory);
    }
    let guards = chains(alloc, count, compounds, atoms)?;
    simplify(alloc, &[], &guards, atoms)
}

// The same over a table of so many names. With no such table it is that fault, too.
fn made(
    alloc: Global,
    names: u32,
    count: u32,
    compounds: u32,
) -> Result<Simplified, SimplifyFault> {
    let Ok(atoms) = table(alloc, names) else {
        return Err(SimplifyFault::Memory);
    };
    made_over(alloc, &atoms, count, compounds)
}

// How many guards of how many compounds over how many names, and how many rules, visible atoms and seen atoms come of
// them, or why nothing does.
type Row = (u32, u32, u32, Result<(usize, usize, usize), SimplifyFault>);

static ROWS: [Row; 6] = [
    (1, 2, 2, Ok((4, 1, 1))),
    (1, 1, 2, Ok((2, 0, 1))),
    (1, 2, 1_048_572, Ok((4, 1, 1))),
    (1, 2, 1_048_573, Err(SimplifyFault::TooManyAtoms)),
    (32, 512, 33, Ok((32_768, 16_352, 32))),
    (33, 512, 34, Err(SimplifyFault::TooManyVisible)),
];

// The counts of a system's rules, its visible atoms and its seen atoms.
fn counts(made: &Simplified) -> (usize, usize, usize) {
    let system = &made.system;
    let links = system
        .up
        .items()
        .len()
        .saturating_add(system.down.items().len());
    let rules = system.local.items().len().saturating_add(links);
    (rules, system.visible.len(), made.seen.items().len())
}

fn is_right(alloc: Global, row: &Row) -> bool {
    match made(alloc, row.2, row.0, row.1) {
        Ok(found) => row.3 == Ok(counts(&found)),
        Err(fault) => row.3 == Err(fault),
    }
}

#[test]
fn limits(rt: HostRuntime) -> Result<(), Fail> {
    for row in &ROWS {
        assert!(rt; is_right(rt.alloc(), row));
    }
    Ok(())
}

fn is_written(alloc: Global, found: &Simplified, wanted: &str) -> Result<bool, AllocError> {
    let text = written(alloc, found)?;
    Ok(text.as_str() == wanted)
}

// Whether the system of one guard is this text.
fn is_text(alloc: Global, compounds: u32, wanted: &str) -> Result<bool, AllocError> {
    match made(alloc, 2, 1, compounds) {
        Ok(found) => is_written(alloc, &found, wanted),
        Err(_) => Ok(false),
    }
}

static ONE_CHILD: &str =
    "local 1 2 gives 3; local 3 gives 4; up 0 to 2; down 4 to 4; 0 spawns, 0 kinds; visible 0; seen 4";

#[test]
fn one_child(rt: HostRuntime) -> Result<(), Fail> {
    assert!(rt; is_text(rt.alloc(), 2, ONE_CHILD)?);
    Ok(())
}
