//! Waking: which cells a change puts into the worklist.
ghost use Rattle.std.specs.Prelude.{◌≡◌, ◌<◌, ◌++◌, ℕ, List, length, All, Contains, IfOk, OnOk};
ghost use Rattle.std.specs.List.Sorted.{IsStrictlySortedBy};
ghost use Rattle.simple_core.specs.declared.system.System.{System};
ghost use Rattle.simple_core.specs.Systems.{IsSound};
ghost use Rattle.pushdown_sym.specs.CellMap.{trees_in};
ghost use Rattle.pushdown_sym.specs.Terms.{CellTrees};
ghost use Rattle.class_diagrams.specs.Trees.{Tree};
ghost use Rattle.row_index.specs.Rows.{row_of};
ghost use Rattle.saturation.specs.Tables.{noted_in, AreReadsOf};
ghost use Rattle.saturation.specs.Waking.{CellName, cell_cmp, named, named_each, by_rules, by_makers, of_each, AreMarked, AreAllMarked, AreReaders, AreEnds, HaveChanged};

use crate::parents::{add_above, add_seen};
use crate::reads::Reads;
use class_diagrams::{Marks, Ref};
use pushdown_sym::{Cells, Ends};
use std::alloc::Global;
use tp_base::{Atom, NoMemory};

/// Adds the cells of a kind for these atoms.
pub(crate) fn add_named(
    todo: &mut Vec<(u32, Atom)>,
    kind: u32,
    atoms: &[u32],
) -> Result<(), NoMemory>
    ensures { OnOk result (todo.new.items ≡ todo.old.items ++ named kind atoms.now) }
{
    for i in 0..atoms.len() {
        let atom = atoms[i];
        todo.push((kind, Atom(atom)))?;
    }
    Ok(())
}

fn add_each(todo: &mut Vec<(u32, Atom)>, kinds: &[u32], atoms: &[u32]) -> Result<(), NoMemory>
    ensures { OnOk result (todo.new.items ≡ todo.old.items ++ named_each kinds.now atoms.now) }
{
    for i in 0..kinds.len() {
        let kind = kinds[i];
        add_named(todo, kind, atoms)?;
    }
    Ok(())
}

// Marks the kind of a cell if children, or links from children, look at its atom.
fn mark(marks: &mut Vec<bool>, looked: &Marks, name: (u32, Atom))
    ensures { AreMarked looked.now name marks.old.items marks.new.items }
{
    let place = name.0 as usize;
    if looked.has(name.1) && place < marks.len() {
        marks[place] = true;
    }
}

// Wakes the readers of a changed cell. Local rules lead to other cells of its kind. Links lead to parents of the kind, as pairs
// of an atom that makes the kind and an atom that the parent gets. The kind is marked if children, or links from children, look
// at the atom.
fn wake_one(
    reads: &Reads,
    name: (u32, Atom),
    cells: &mut Vec<(u32, Atom)>,
    marks: &mut Vec<bool>,
    above: &mut Vec<(u32, Atom)>,
) -> Result<(), NoMemory>
    ensures cells { OnOk result (cells.new.items ≡ cells.old.items ++ by_rules (noted_in reads.now.by_needs) name) }
    ensures marks { OnOk result (AreMarked reads.now.looked name marks.old.items marks.new.items) }
    ensures above { OnOk result (above.new.items ≡ above.old.items ++ by_makers (noted_in reads.now.makers) (noted_in reads.now.by_child) name) }
{
    let (kind, atom) = name;
    let gives = reads.by_needs.of(atom.0);
    let ends = reads.by_child.of(atom.0);
    let makers = reads.makers.of(kind);
    add_named(cells, kind, gives)?;
    add_each(above, makers, ends)?;
    mark(marks, &reads.looked, name);
    Ok(())
}

// The readers of all changed cells.
#[derive(Drop)]
struct Woken {
    cells: Vec<(u32, Atom)>,
    marks: Vec<bool>,
    above: Vec<(u32, Atom)>,
}

fn woken_by(
    alloc: Global,
    count: usize,
    reads: &Reads,
    changes: &[((u32, Atom), Ref)],
) -> Result<Woken, NoMemory>
    ensures cells { IfOk result (λ w. w.cells.items ≡ of_each (by_rules (noted_in reads.now.by_needs)) changes.now) }
    ensures marks { IfOk result (λ w. AreAllMarked count reads.now.looked changes.now w.marks.items) }
    ensures above { IfOk result (λ w. w.above.items ≡ of_each (by_makers (noted_in reads.now.makers) (noted_in reads.now.by_child)) changes.now) }
{
    let mut cells = Vec::new(alloc);
    let mut marks = vec![in alloc; false; count]?;
    let mut above = Vec::new(alloc);
    for change in changes {
        wake_one(reads, change.0, &mut cells, &mut marks, &mut above)?;
    }
    Ok(Woken {
        cells,
        marks,
        above,
    })
}

/// The cells without duplicates, sorted by kinds and atoms.
pub(crate) fn sorted(cells: Vec<(u32, Atom)>) -> Result<Vec<(u32, Atom)>, NoMemory>
    ensures order { IfOk result (λ once. IsStrictlySortedBy cell_cmp once.items) }
    ensures kept { IfOk result (λ once. (c : CellName) → Contains cells.items c → Contains once.items c) }
    ensures only { IfOk result (λ once. (c : CellName) → Contains once.items c → Contains cells.items c) }
{
    let mut in_order = cells;
    in_order.sort()?;
    in_order.dedup();
    Ok(in_order)
}

/// The worklist after these changes: all cells that read one which changed. For atoms that make children, `ends` notes what
/// links may give to their nodes.
pub(crate) fn readers(
    alloc: Global,
    now: &Cells,
    count: usize,
    reads: &Reads,
    ends: &mut Ends,
    changes: &[((u32, Atom), Ref)],
) -> Result<Vec<(u32, Atom)>, NoMemory>
    ensures { (s : System) (before : CellTrees) (branches : List Tree) → IsSound s → count ≡ length s.kinds
        → AreReadsOf s reads.now
        → All (λ c. c.0.0 < length s.kinds) changes.now
        → AreEnds s before (row_of ends.old)
        → HaveChanged s before (trees_in branches now.now) changes.now
        → IfOk result (λ todo. AreReaders s (trees_in branches now.now) changes.now todo.items × AreEnds s (trees_in branches now.now) (row_of ends.new)) }
{
    let woken = woken_by(alloc, count, reads, changes)?;
    let mut todo = woken.cells;
    let pairs = sorted(woken.above)?;
    ends.note_each(&pairs)?;
    add_above(alloc, now, count, &pairs, &mut todo)?;
    add_seen(now, &woken.marks, &reads.needs, ends, &mut todo)?;
    let once = sorted(todo)?;
    Ok(once)
}
