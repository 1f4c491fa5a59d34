//! Two systems, and their cells as they were worked out by hand.
ghost use Rattle.std.specs.Prelude.{IfOk, OnOk};
ghost use Rattle.class_diagrams.specs.References.{Reference};
ghost use Rattle.class_diagrams.specs.Arena.{IsIn};

use crate::building::{either, one};
use class_diagrams::{DiagramFault, Diagrams, Ref};
use simple_core::System;
use std::alloc::Global;
use test_building::{Script, rules_of};
use tp_base::NoMemory;

/// A script of `test_building`: boxes that get boxes (a div, 3, of the class 4), or forms (3) that are bad (7) where an error is below.
#[derive(Clone, Copy)]
pub enum Example {
    Boxes,
    Forms,
}

pub fn system_of(alloc: Global, example: Example) -> Result<System, NoMemory> {
    match example {
        Example::Boxes => test_building::system_of(alloc, rules_of(Script::Boxes)),
        Example::Forms => test_building::system_of(alloc, rules_of(Script::Errors)),
    }
}

/// When a node has an atom: under each parent or none, or where the parent has one of these atoms.
#[derive(Clone, Copy)]
pub enum When {
    Fixed(bool),
    One(u32),
    Two(u32, u32),
    Four(u32, u32, u32, u32),
}

// A child of a box has 12 where the box has 7 or 8, and so the box has it a round later below 4 or 6 and below 7 or 8;
// a child is always below 4.
fn box_has(round: u32, atom: u32) -> When {
    match (atom, round) {
        (3, _) => When::Fixed(true),
        (4, _) => When::Fixed(true),
        (6, 1..) => When::Two(4, 6),
        (7, 2..) => When::Two(4, 6),
        (8, 1..) => When::Two(7, 8),
        (9, 2..) => When::Two(7, 8),
        (10, 1..) => When::One(4),
        (12, 3) => When::Two(7, 8),
        (12, 4) => When::Four(4, 6, 7, 8),
        (12, 5..) => When::Fixed(true),
        _ => When::Fixed(false),
    }
}

fn form_has(round: u32, kind: u32, atom: u32) -> When {
    match (kind, atom, round) {
        (0, 8, _) => When::Fixed(true),
        (0, 14, _) => When::Fixed(true),
        (1, 9, _) => When::Fixed(true),
        (1, 10, _) => When::Fixed(true),
        (0, 11, 1..) => When::Fixed(true),
        _ => When::Fixed(false),
    }
}

/// When a node of this kind has the atom after so many rounds.
pub fn has(example: Example, round: u32, kind: u32, atom: u32) -> When {
    match example {
        Example::Boxes => box_has(round, atom),
        Example::Forms => form_has(round, kind, atom),
    }
}

pub fn diagram_of(d: &mut Diagrams, when: When) -> Result<Ref, DiagramFault>
    ensures inside { IfOk result (IsIn d.new.branches) }
    ensures stays { (p : Reference) → IsIn d.old.branches p → OnOk result (IsIn d.new.branches p) }
{
    match when {
        When::Fixed(value) => Ok(Diagrams::leaf(value)),
        When::One(atom) => one(d, atom),
        When::Two(first, second) => either(d, first, second),
        When::Four(first, second, third, fourth) => any_of(d, (first, second), (third, fourth)),
    }
}

fn any_of(d: &mut Diagrams, left: (u32, u32), right: (u32, u32)) -> Result<Ref, DiagramFault>
    ensures inside { IfOk result (IsIn d.new.branches) }
    ensures stays { (p : Reference) → IsIn d.old.branches p → OnOk result (IsIn d.new.branches p) }
{
    let first = either(d, left.0, left.1)?;
    let second = either(d, right.0, right.1)?;
    let all = d.or(first, second)?;
    Ok(all)
}
