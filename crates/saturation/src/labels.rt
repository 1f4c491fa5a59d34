//! Labels of added nodes, read from cells.
ghost use Rattle.std.specs.Prelude.{◌≡◌, ◌↔◌, ℕ, true, Contains, IfOk};
ghost use Rattle.std.specs.List.Sorted.{IsStrictlyIncreasing};
ghost use Rattle.class_diagrams.specs.Trees.{eval};
ghost use Rattle.pushdown_sym.specs.CellMap.{trees_in};
ghost use Rattle.pushdown_sym.specs.Adding.{AreIn};

use class_diagrams::{AtomSet, Diagrams, Marks, are_worth_marks};
use pushdown_sym::Cells;
use std::alloc::Global;
use tp_base::{ClassSet, NoMemory};

fn label_under<L: AtomSet>(
    alloc: Global,
    atoms: &ClassSet,
    d: &Diagrams,
    cells: &Cells,
    kind: u32,
    parent: &L,
) -> Result<ClassSet, NoMemory>
    requires { AreIn d.now.branches cells.now }
    ensures members { IfOk result (λ label. (a : ℕ) → Contains label a ↔ (Contains atoms.now a × (eval (trees_in d.now.branches cells.now kind a) (L.atoms parent.now) ≡ true))) }
    ensures rising { IfOk result IsStrictlyIncreasing }
{
    let mut label = ClassSet::new(alloc);
    for i in 0..atoms.len() {
        let atom = atoms.at(i);
        let there = cells.get(kind, atom);
        if parent.satisfies(d, there) {
            label.add(atom)?;
        }
    }
    Ok(label)
}

/// The given atoms whose cells are true below a parent with these visible atoms. One evaluation of a diagram for each atom.
pub(crate) fn label_of(
    alloc: Global,
    atoms: &ClassSet,
    d: &Diagrams,
    cells: &Cells,
    kind: u32,
    parent: &ClassSet,
) -> Result<ClassSet, NoMemory>
    requires { AreIn d.now.branches cells.now }
    ensures members { IfOk result (λ label. (a : ℕ) → Contains label a ↔ (Contains atoms.now a × (eval (trees_in d.now.branches cells.now kind a) parent.now ≡ true))) }
    ensures rising { IfOk result IsStrictlyIncreasing }
{
    if are_worth_marks(atoms.len(), parent) {
        let marks = Marks::of(alloc, parent)?;
        return label_under(alloc, atoms, d, cells, kind, &marks);
    }
    label_under(alloc, atoms, d, cells, kind, parent)
}
