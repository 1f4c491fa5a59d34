//! The kinds whose nodes can make a child, and the cells to recalculate there.
ghost use Rattle.std.specs.Prelude.{◌≡◌, ◌++◌, false, get_or, List, IfOk, OnOk};
ghost use Rattle.class_diagrams.specs.Trees.{Tree};
ghost use Rattle.pushdown_sym.specs.CellMap.{trees_in};
ghost use Rattle.row_index.specs.Rows.{row_of};
ghost use Rattle.saturation.specs.Waking.{with_atom, seen_each, AreMakers, AreAbove, AreSeen};

use crate::names::add_kind;
use pushdown_sym::{Cells, Ends};
use std::alloc::Global;
use tp_base::{Atom, ClassSet, NoMemory};

// Adds a cell of the atom for each of these kinds.
fn add_atom(todo: &mut Vec<(u32, Atom)>, kinds: &[u32], atom: Atom) -> Result<(), NoMemory>
    ensures { OnOk result (todo.new.items ≡ todo.old.items ++ with_atom atom kinds.now) }
{
    for i in 0..kinds.len() {
        let kind = kinds[i];
        todo.push((kind, atom))?;
    }
    Ok(())
}

// The kinds, below the count, whose nodes may have an atom.
fn makers_of(alloc: Global, now: &Cells, count: usize, atom: Atom) -> Result<Vec<u32>, NoMemory>
    ensures { (branches : List Tree) → IfOk result (λ kinds. AreMakers (trees_in branches now.now) count atom kinds.items) }
{
    let kinds = now.kinds_with(atom);
    let mut makers = Vec::new(alloc);
    for i in 0..kinds.len() {
        let kind = kinds[i];
        if (kind as usize) < count {
            makers.push(kind)?;
        }
    }
    Ok(makers)
}

/// For each pair of atoms, adds the cells of the second atom for the kinds whose nodes may have the first.
pub(crate) fn add_above(
    alloc: Global,
    now: &Cells,
    count: usize,
    pairs: &[(u32, Atom)],
    todo: &mut Vec<(u32, Atom)>,
) -> Result<(), NoMemory>
    ensures { (branches : List Tree) → OnOk result (AreAbove (trees_in branches now.now) count pairs.now todo.old.items todo.new.items) }
{
    for pair in pairs {
        let makers = makers_of(alloc, now, count, Atom(pair.0))?;
        add_atom(todo, &makers, pair.1)?;
    }
    Ok(())
}

// Adds a cell for each of these kinds that is marked and each of these atoms.
fn add_marked(
    kinds: &[u32],
    marks: &[bool],
    atoms: &ClassSet,
    todo: &mut Vec<(u32, Atom)>,
) -> Result<(), NoMemory>
    ensures { OnOk result (todo.new.items ≡ todo.old.items ++ seen_each marks.now atoms.now kinds.now) }
{
    for i in 0..kinds.len() {
        let kind = kinds[i];
        if is_marked(marks, kind) {
            add_kind(kind, atoms, todo)?;
        }
    }
    Ok(())
}

// Whether a kind is marked.
fn is_marked(marks: &[bool], kind: u32) -> bool
    ensures { result ≡ get_or marks.now kind false }
{
    match marks.get(kind as usize) {
        Some(mark) => *mark,
        None => false,
    }
}

/// For each of these atoms and each marked kind that may have it, adds the cells of the atom's ends. One step for each kind
/// that may have the atom, and one for each added cell.
pub(crate) fn add_seen(
    now: &Cells,
    marks: &[bool],
    atoms: &ClassSet,
    ends: &Ends,
    todo: &mut Vec<(u32, Atom)>,
) -> Result<(), NoMemory>
    ensures { (branches : List Tree) → OnOk result (AreSeen (trees_in branches now.now) marks.now atoms.now (row_of ends.now) todo.old.items todo.new.items) }
{
    for i in 0..atoms.len() {
        let atom = atoms.at(i);
        if let Some(given) = ends.of(atom) {
            add_marked(now.kinds_with(atom), marks, given, todo)?;
        }
    }
    Ok(())
}
