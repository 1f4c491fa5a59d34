use std::alloc::Global;
use std::test::Fail;
use test_building::set_of;
use tp_base::{Atom, ClassSet, NoMemory};

// Atoms in any order, some of them more than once, and the set of them.
static LISTS: [(&[u32], &[u32]); 5] = [
    (&[], &[]),
    (&[7], &[7]),
    (&[3, 5, 9], &[3, 5, 9]),
    (&[9, 3, 5, 3], &[3, 5, 9]),
    (&[4, 4, 4], &[4]),
];

fn listed(alloc: Global, numbers: &[u32]) -> Result<Vec<Atom>, NoMemory> {
    let mut atoms = Vec::new(alloc);
    for number in numbers {
        atoms.push(Atom(*number))?;
    }
    Ok(atoms)
}

// Whether the set of the atoms has just those of the row, in order.
fn is_made(alloc: Global, row: &(&'static [u32], &'static [u32])) -> Result<bool, NoMemory> {
    let set = ClassSet::of(listed(alloc, row.0)?)?;
    Ok(atoms_of(alloc, &set)?.as_slice() == row.1)
}

#[test]
fn makes_a_set_of_a_list(rt: HostRuntime) -> Result<(), Fail> {
    for row in &LISTS {
        assert!(rt; is_made(rt.alloc(), row)?);
    }
    Ok(())
}

// A set, an atom that is taken out of it, whether it was there, and what is left.
struct Taking {
    atoms: &'static [u32],
    taken: u32,
    had: bool,
    left: &'static [u32],
}

static TAKINGS: [Taking; 6] = [
    Taking {
        atoms: &[9, 3, 5],
        taken: 5,
        had: true,
        left: &[3, 9],
    },
    Taking {
        atoms: &[3, 5, 9],
        taken: 3,
        had: true,
        left: &[5, 9],
    },
    Taking {
        atoms: &[3, 5, 9],
        taken: 9,
        had: true,
        left: &[3, 5],
    },
    Taking {
        atoms: &[3, 5, 9],
        taken: 4,
        had: false,
        left: &[3, 5, 9],
    },
    Taking {
        atoms: &[2],
        taken: 2,
        had: true,
        left: &[],
    },
    Taking {
        atoms: &[],
        taken: 2,
        had: false,
        left: &[],
    },
];

fn atoms_of(alloc: Global, set: &ClassSet) -> Result<Vec<u32>, NoMemory> {
    let mut atoms = Vec::new(alloc);
    for i in 0..set.len() {
        atoms.push(set.at(i).0)?;
    }
    Ok(atoms)
}

// Whether the call answers as its row says, and leaves what it says.
fn takes(alloc: Global, row: &Taking) -> Result<bool, NoMemory> {
    let mut set = set_of(alloc, row.atoms)?;
    let had = set.take(Atom(row.taken));
    Ok(had == row.had && atoms_of(alloc, &set)?.as_slice() == row.left)
}

#[test]
fn takes_an_atom(rt: HostRuntime) -> Result<(), Fail> {
    for row in &TAKINGS {
        assert!(rt; takes(rt.alloc(), row)?);
    }
    Ok(())
}
