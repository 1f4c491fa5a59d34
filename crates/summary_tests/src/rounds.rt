ghost use Rattle.std.specs.Prelude.{◌≤◌, ◌<◌, length, IfOk, OnOk};
ghost use Rattle.pushdown_sym.specs.Adding.{AreIn};

use crate::examples::{Example, diagram_of, has, system_of};
use class_diagrams::{DiagramFault, Diagrams, Ref};
use pushdown_sym::{Cells, Equations};
use simple_core::{MOST_KINDS, System};
use std::alloc::Global;
use std::test::Fail;
use tp_base::{Atom, NoMemory};

// More atoms than the systems have.
const ATOMS: u32 = 18;

// The cells of a round, as written.
fn cells_of(
    alloc: Global,
    d: &mut Diagrams,
    system: &System,
    example: Example,
    round: u32,
) -> Result<Cells, DiagramFault>
    requires { length system.now.kinds ≤ MOST_KINDS }
    ensures inside { IfOk result (AreIn d.new.branches) }
{
    let mut all = Cells::first(alloc, system)?;
    for kind in 0..2 {
        set_kind(d, &mut all, example, round, kind)?;
    }
    Ok(all)
}

fn set_kind(
    d: &mut Diagrams,
    all: &mut Cells,
    example: Example,
    round: u32,
    kind: u32,
) -> Result<(), DiagramFault>
    requires { AreIn d.old.branches all.old }
    ensures { OnOk result (AreIn d.new.branches all.new) }
{
    for atom in 0..ATOMS {
        set_cell(d, all, example, round, kind, atom)?;
    }
    Ok(())
}

fn set_cell(
    d: &mut Diagrams,
    all: &mut Cells,
    example: Example,
    round: u32,
    kind: u32,
    atom: u32,
) -> Result<(), DiagramFault>
    requires { AreIn d.old.branches all.old }
    ensures { OnOk result (AreIn d.new.branches all.new) }
{
    let to = diagram_of(d, has(example, round, kind, atom))?;
    all.set(kind, Atom(atom), to)?;
    Ok(())
}

fn first_cell(alloc: Global, system: &System, kind: u32, atom: u32) -> Result<Ref, NoMemory>
    requires { length system.now.kinds ≤ MOST_KINDS }
{
    Ok(Cells::first(alloc, system)?.get(kind, Atom(atom)))
}

// Whether a cell of the first round is as written.
fn is_first(
    alloc: Global,
    d: &mut Diagrams,
    system: &System,
    example: Example,
    kind: u32,
    atom: u32,
) -> Result<bool, DiagramFault> {
    if system.kinds.items().len() > MOST_KINDS as usize {
        return Ok(false);
    }
    let first = first_cell(alloc, system, kind, atom)?;
    let wanted = diagram_of(d, has(example, 0, kind, atom))?;
    Ok(first == wanted)
}

fn next_cell(
    alloc: Global,
    d: &mut Diagrams,
    system: &System,
    now: &Cells,
    kind: u32,
    atom: u32,
) -> Result<Ref, DiagramFault>
    requires kind { kind < length system.now.kinds }
    requires inside { AreIn d.old.branches now.now }
{
    let equations = Equations::new(alloc, system)?;
    equations.next_cell(d, now, kind, Atom(atom))
}

fn cell_behind(
    alloc: Global,
    d: &mut Diagrams,
    system: &System,
    example: Example,
    before: u32,
    kind: u32,
    atom: u32,
) -> Result<Ref, DiagramFault>
    requires kinds { length system.now.kinds ≤ MOST_KINDS }
    requires kind { kind < length system.now.kinds }
{
    let now = cells_of(alloc, d, system, example, before)?;
    next_cell(alloc, d, system, &now, kind, atom)
}

// Whether a cell behind a round as written is as written for the next.
fn is_next(
    alloc: Global,
    d: &mut Diagrams,
    system: &System,
    example: Example,
    before: u32,
    kind: u32,
    atom: u32,
) -> Result<bool, DiagramFault> {
    let kinds = system.kinds.items().len();
    if kinds > MOST_KINDS as usize || kind as usize >= kinds {
        return Ok(false);
    }
    let next = cell_behind(alloc, d, system, example, before, kind, atom)?;
    let after = has(example, before.saturating_add(1), kind, atom);
    Ok(next == diagram_of(d, after)?)
}

fn is_right(
    alloc: Global,
    system: &System,
    example: Example,
    round: u32,
    kind: u32,
    atom: u32,
) -> Result<bool, DiagramFault> {
    let mut d = Diagrams::new(alloc, 100)?;
    match round.checked_sub(1) {
        None => is_first(alloc, &mut d, system, example, kind, atom),
        Some(before) => is_next(alloc, &mut d, system, example, before, kind, atom),
    }
}

fn are_right(
    alloc: Global,
    system: &System,
    example: Example,
    round: u32,
    kind: u32,
) -> Result<bool, DiagramFault> {
    for atom in 0..ATOMS {
        if !is_right(alloc, system, example, round, kind, atom)? {
            return Ok(false);
        }
    }
    Ok(true)
}

// Whether the cells of a kind in a round are as written.
fn is_round(alloc: Global, example: Example, round: u32, kind: u32) -> Result<bool, DiagramFault> {
    let system = system_of(alloc, example)?;
    are_right(alloc, &system, example, round, kind)
}

#[test]
fn boxes_in_boxes(rt: HostRuntime) -> Result<(), Fail> {
    for round in 0..7 {
        assert!(rt; is_round(rt.alloc(), Example::Boxes, round, 0)?);
    }
    Ok(())
}

#[test]
fn errors_below_forms(rt: HostRuntime) -> Result<(), Fail> {
    for round in 0..4 {
        assert!(rt; is_round(rt.alloc(), Example::Forms, round, 0)?);
        assert!(rt; is_round(rt.alloc(), Example::Forms, round, 1)?);
    }
    Ok(())
}
