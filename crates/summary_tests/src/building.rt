//! Diagrams of few atoms.
ghost use Rattle.std.specs.Prelude.{IfOk, OnOk};
ghost use Rattle.class_diagrams.specs.References.{Reference};
ghost use Rattle.class_diagrams.specs.Arena.{IsIn};

use class_diagrams::{DiagramFault, Diagrams, Ref};
use tp_base::Atom;

/// The diagram of the sets that have the atom.
pub fn one(d: &mut Diagrams, atom: u32) -> Result<Ref, DiagramFault>
    ensures inside { IfOk result (IsIn d.new.branches) }
    ensures stays { (p : Reference) → IsIn d.old.branches p → OnOk result (IsIn d.new.branches p) }
{
    let only = d.var(Atom(atom))?;
    Ok(only)
}

/// The diagram of the sets that have one of two atoms.
pub fn either(d: &mut Diagrams, first: u32, second: u32) -> Result<Ref, DiagramFault>
    ensures inside { IfOk result (IsIn d.new.branches) }
    ensures stays { (p : Reference) → IsIn d.old.branches p → OnOk result (IsIn d.new.branches p) }
{
    let left = d.var(Atom(first))?;
    let right = d.var(Atom(second))?;
    let both = d.or(left, right)?;
    Ok(both)
}
