ghost use Rattle.std.specs.Prelude.{IfOk, OnOk};
ghost use Rattle.class_diagrams.specs.References.{Reference};
ghost use Rattle.class_diagrams.specs.Arena.{IsIn};

use class_diagrams::{DiagramFault, Diagrams, Ref};
use diagram_ops::{compose, size, support};
use std::alloc::Global;
use std::test::Fail;
use tp_base::Atom;

// As many atoms as a node can see of its parent.
const MOST: u32 = 16_384;

// The disjunction of every second atom before this one.
fn every_second(d: &mut Diagrams, behind: u32) -> Result<Ref, DiagramFault>
    ensures inside { IfOk result (IsIn d.new.branches) }
    ensures stays { (p : Reference) → IsIn d.old.branches p → OnOk result (IsIn d.new.branches p) }
{
    let mut sofar = Diagrams::leaf(false);
    let mut atom = behind;
    'atoms: while atom >= 2 {
        atom -= 2;
        let one = d.var(Atom(atom))?;
        sofar = d.or(one, sofar)?;
    }
    Ok(sofar)
}

// The disjunctions of the even and of the odd atoms.
fn parts(d: &mut Diagrams) -> Result<(Ref, Ref), DiagramFault>
    ensures first { IfOk result (λ r. IsIn d.new.branches r.0) }
    ensures second { IfOk result (λ r. IsIn d.new.branches r.1) }
{
    let first = every_second(d, MOST)?;
    let second = every_second(d, MOST + 1)?;
    Ok((first, second))
}

// Each operation goes down by all atoms, taking them from both in turn.
fn are_sized(alloc: Global, d: &mut Diagrams) -> Result<bool, DiagramFault> {
    let (first, second) = parts(d)?;
    let either = d.or(first, second)?;
    let both = d.and(first, second)?;
    let of_first = size(alloc, d, first)?;
    let of_either = size(alloc, d, either)?;
    let of_both = size(alloc, d, both)?;
    Ok([of_first, of_either, of_both, d.held()] == [8_192, 16_384, 32_766, 65_532])
}

// The last two atoms become the two parts again: the composition goes down by all atoms, and from there once more.
fn parts_again(alloc: Global, d: &mut Diagrams) -> Result<bool, DiagramFault> {
    let (first, second) = parts(d)?;
    let either = d.or(first, second)?;
    let by = [(Atom(MOST - 2), first), (Atom(MOST - 1), second)];
    Ok(compose(alloc, d, either, &by)? == either)
}

fn has_all_atoms(alloc: Global, d: &mut Diagrams) -> Result<bool, DiagramFault> {
    let (first, second) = parts(d)?;
    let either = d.or(first, second)?;
    Ok(support(alloc, d, either)?.len() == 16_384)
}

#[derive(Clone, Copy)]
enum Case {
    Sizes,
    Parts,
    Atoms,
}

// Tries a case in an arena of its own.
fn holds(alloc: Global, case: Case) -> Result<bool, DiagramFault> {
    let mut d = Diagrams::new(alloc, 65_532)?;
    match case {
        Case::Sizes => are_sized(alloc, &mut d),
        Case::Parts => parts_again(alloc, &mut d),
        Case::Atoms => has_all_atoms(alloc, &mut d),
    }
}

#[test]
fn diagrams_of_all_atoms(rt: HostRuntime) -> Result<(), Fail> {
    assert!(rt; holds(rt.alloc(), Case::Sizes)?);
    assert!(rt; holds(rt.alloc(), Case::Parts)?);
    assert!(rt; holds(rt.alloc(), Case::Atoms)?);
    Ok(())
}
