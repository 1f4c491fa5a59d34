//! The support of a diagram, and its size.
ghost use Rattle.std.specs.Prelude.{◌≡◌, All, IfOk, OnOk};
ghost use Rattle.class_diagrams.specs.Arena.{tree_at, IsIn};
ghost use Rattle.diagram_ops.specs.Compositions.{atoms_of, size_of};
ghost use Rattle.diagram_ops.specs.Walks.{with_root, roots_of};

use crate::branches::branches_of;
use class_diagrams::{Diagrams, Ref};
use std::alloc::Global;
use tp_base::{ClassSet, NoMemory};

/// The support: the atoms that a diagram looks at. A step for each different branch, on average, and one for each atom's
/// place among the others.
pub fn support(alloc: Global, d: &Diagrams, f: Ref) -> Result<ClassSet, NoMemory>
    requires { IsIn d.now.branches f }
    ensures { IfOk result (λ atoms. atoms ≡ atoms_of (tree_at d.now.branches f)) }
{
    let branches = branches_of(alloc, d, f)?;
    atoms_among(alloc, d, branches.as_slice())
}

/// How many different branches a diagram has. Linear in their number, on average.
pub fn size(alloc: Global, d: &Diagrams, f: Ref) -> Result<u32, NoMemory>
    requires { IsIn d.now.branches f }
    ensures { IfOk result (λ n. n ≡ size_of (tree_at d.now.branches f)) }
{
    let branches = branches_of(alloc, d, f)?;
    Ok(branches.len() as u32)
}

// The atoms of some branches.
fn atoms_among(alloc: Global, d: &Diagrams, branches: &[Ref]) -> Result<ClassSet, NoMemory>
    requires { All (IsIn d.now.branches) branches.now }
    ensures { IfOk result (λ atoms. atoms ≡ roots_of d.now.branches branches.now) }
{
    let mut atoms = ClassSet::new(alloc);
    for at in branches {
        add_atom(d, *at, &mut atoms)?;
    }
    Ok(atoms)
}

// The atom of a branch.
fn add_atom(d: &Diagrams, at: Ref, atoms: &mut ClassSet) -> Result<(), NoMemory>
    requires { IsIn d.now.branches at }
    ensures { OnOk result (atoms.new ≡ with_root (tree_at d.now.branches at) atoms.old) }
{
    match d.branch(at) {
        None => Ok(()),
        Some(branch) => {
            atoms.add(branch.0)?;
            Ok(())
        }
    }
}
