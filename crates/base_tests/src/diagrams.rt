use class_diagrams::{DiagramFault, Diagrams, Marks};
use std::alloc::Global;
use std::test::Fail;
use test_building::set_of;
use tp_base::{Atom, ClassSet};

// Whether three branches are room for two variables and their conjunction, and not for their disjunction.
// The set has the first of the two atoms.
fn is_full(d: &mut Diagrams, set: &ClassSet) -> Result<bool, DiagramFault> {
    let a = d.var(Atom(1))?;
    let b = d.var(Atom(2))?;
    let both = d.and(a, b)?;
    let held = d.held();
    let refused = d.or(a, b) == Err(DiagramFault::Full);
    let kept = d.held();
    let again = d.var(Atom(1))?;
    Ok(held == 3 && refused && kept == 3 && again == a && !d.eval(both, set))
}

fn three_are_full(alloc: Global) -> Result<bool, DiagramFault> {
    let mut d = Diagrams::new(alloc, 3)?;
    let set = set_of(alloc, &[1])?;
    is_full(&mut d, &set)
}

// Whether a leaf has no parts, and a disjunction those of its first atom.
fn has_parts(d: &mut Diagrams) -> Result<bool, DiagramFault> {
    let top = Diagrams::leaf(true);
    let none = d.branch(top);
    let b = d.var(Atom(2))?;
    let a = d.var(Atom(1))?;
    let either = d.or(a, b)?;
    Ok(none == None && d.branch(either) == Some((Atom(1), b, top)))
}

fn three_have_parts(alloc: Global) -> Result<bool, DiagramFault> {
    let mut d = Diagrams::new(alloc, 3)?;
    has_parts(&mut d)
}

// Some atoms, whether both 1 and 2 are among them, and whether one of these is.
type Meaning = (&'static [u32], bool, bool);

static MEANINGS: [Meaning; 5] = [
    (&[], false, false),
    (&[1], false, true),
    (&[2, 3], false, true),
    (&[0, 1, 2], true, true),
    (&[0, 3], false, false),
];

// Whether the conjunction and the disjunction say so of the set, as it is and by its marks.
fn tell(
    d: &mut Diagrams,
    set: &ClassSet,
    marks: &Marks,
    row: &Meaning,
) -> Result<bool, DiagramFault> {
    let a = d.var(Atom(1))?;
    let b = d.var(Atom(2))?;
    let both = d.and(a, b)?;
    let either = d.or(a, b)?;
    let as_it_is = d.eval(both, set) == row.1 && d.eval(either, set) == row.2;
    let by_marks = d.eval_marked(both, marks) == row.1 && d.eval_marked(either, marks) == row.2;
    Ok(!d.same(both, either) && as_it_is && by_marks)
}

fn means(alloc: Global, row: &Meaning) -> Result<bool, DiagramFault> {
    let mut d = Diagrams::new(alloc, 4)?;
    let set = set_of(alloc, row.0)?;
    let marks = Marks::of(alloc, &set)?;
    tell(&mut d, &set, &marks, row)
}

// Whether just 1 and 4 are marked, of a set of these two.
fn two_are_marked(alloc: Global) -> Result<bool, DiagramFault> {
    let marks = Marks::of(alloc, &set_of(alloc, &[1, 4])?)?;
    let inside = marks.has(Atom(1)) && marks.has(Atom(4));
    let outside = marks.has(Atom(0)) || marks.has(Atom(3)) || marks.has(Atom(5));
    Ok(inside && !outside)
}

#[test]
fn diagrams_of_two_atoms(rt: HostRuntime) -> Result<(), Fail> {
    assert!(rt; three_are_full(rt.alloc())?);
    assert!(rt; three_have_parts(rt.alloc())?);
    assert!(rt; two_are_marked(rt.alloc())?);
    for row in &MEANINGS {
        assert!(rt; means(rt.alloc(), row)?);
    }
    Ok(())
}
