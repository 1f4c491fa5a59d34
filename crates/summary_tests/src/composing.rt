ghost use Rattle.std.specs.Prelude.{◌≤◌};

use crate::building::either;
use class_diagrams::{DiagramFault, Diagrams};
use diagram_ops::{compose, size, support};
use limits::MOST_BRANCHES;
use std::alloc::Global;
use std::test::Fail;
use test_building::set_of;
use tp_base::{Atom, ClassSet};

const A: Atom = Atom(1);

const B: Atom = Atom(2);

const C: Atom = Atom(3);

// All atoms at once: what comes in for the one isn't looked at for the other.
fn swapped_is_the_other(alloc: Global, d: &mut Diagrams) -> Result<bool, DiagramFault> {
    let a = d.var(A)?;
    let b = d.var(B)?;
    Ok(compose(alloc, d, a, &[(A, b), (B, a)])? == b)
}

fn certain_is_certain(alloc: Global, d: &mut Diagrams) -> Result<bool, DiagramFault> {
    let one_of = either(d, 1, 2)?;
    let c = d.var(C)?;
    let top = Diagrams::leaf(true);
    Ok(compose(alloc, d, one_of, &[(A, c), (B, top)])? == top)
}

// The disjunction of b and c would be the fifth branch.
fn full_keeps_all(alloc: Global, d: &mut Diagrams) -> Result<bool, DiagramFault> {
    let b = d.var(B)?;
    let c = d.var(C)?;
    let one_of = either(d, 1, 2)?;
    let is_full = compose(alloc, d, one_of, &[(A, b), (B, c)]) == Err(DiagramFault::Full);
    let is_kept = d.branch(one_of) == Some((A, b, Diagrams::leaf(true)));
    Ok(is_full && is_kept && d.held() == 4)
}

// Whether these are the two atoms of the set of both.
fn are_both(alloc: Global, atoms: &ClassSet) -> Result<bool, DiagramFault> {
    Ok(atoms.len() == 2 && set_of(alloc, &[1, 2])?.within(atoms))
}

fn both_has_two(alloc: Global, d: &mut Diagrams) -> Result<bool, DiagramFault> {
    let a = d.var(A)?;
    let b = d.var(B)?;
    let both = d.and(a, b)?;
    if size(alloc, d, both)? != 2 {
        return Ok(false);
    }
    let atoms = support(alloc, d, both)?;
    are_both(alloc, &atoms)
}

#[derive(Clone, Copy)]
enum Case {
    Swapped,
    Certain,
    Full,
    Both,
}

// Tries a case in an arena for so many branches.
fn holds(alloc: Global, nodes: u32, case: Case) -> Result<bool, DiagramFault>
    requires { nodes ≤ MOST_BRANCHES }
{
    let mut d = Diagrams::new(alloc, nodes)?;
    match case {
        Case::Swapped => swapped_is_the_other(alloc, &mut d),
        Case::Certain => certain_is_certain(alloc, &mut d),
        Case::Full => full_keeps_all(alloc, &mut d),
        Case::Both => both_has_two(alloc, &mut d),
    }
}

#[test]
fn diagrams_in_the_place_of_atoms(rt: HostRuntime) -> Result<(), Fail> {
    assert!(rt; holds(rt.alloc(), 8, Case::Swapped)?);
    assert!(rt; holds(rt.alloc(), 8, Case::Certain)?);
    assert!(rt; holds(rt.alloc(), 4, Case::Full)?);
    Ok(())
}

#[test]
fn what_a_diagram_is_made_of(rt: HostRuntime) -> Result<(), Fail> {
    assert!(rt; holds(rt.alloc(), 3, Case::Both)?);
    Ok(())
}
