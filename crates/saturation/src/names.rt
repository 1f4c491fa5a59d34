//! The cells that the first round may change.
ghost use Rattle.std.specs.Prelude.{◌≡◌, ◌≤◌, ◌<◌, ◌++◌, ℕ, [], length, IfOk, OnOk, map};
ghost use Rattle.std.specs.List.{flat_map, range_with_len};
ghost use Rattle.tp_base.specs.Classes.{union_of};
ghost use Rattle.row_index.specs.Rows.{row_of};
ghost use Rattle.simple_core.specs.Systems.{kind_label, IsSound};
ghost use Rattle.pushdown_sym.specs.CellMap.{place_in};
ghost use Rattle.pushdown_sym.specs.Rounds.{cell, given_atoms};
ghost use Rattle.simple_core.specs.declared.rules.Link.{Link};
ghost use Rattle.saturation.specs.Histories.{start_place};
ghost use Rattle.saturation.specs.Tables.{AreReadsOf};
ghost use Rattle.saturation.specs.Waking.{named, named_each, AreEnds};
ghost use Rattle.saturation.specs.Starting.{bare_gives, labelled, labelled_each, AreFirst};

use crate::reads::Reads;
use crate::waking::{readers, sorted};
use class_diagrams::{Diagrams, Ref};
use gathered::Gathered;
use pushdown_sym::{Cells, Ends};
use simple_core::{Kind, Link, Local, MOST_KINDS, System};
use std::alloc::Global;
use tp_base::{Atom, ClassSet, NoMemory};

fn add_labels(kinds: &[Kind], atoms: &mut Gathered) -> Result<(), NoMemory>
    ensures { OnOk result (atoms.new ≡ union_of atoms.old (flat_map (λ k. k.label) kinds.now)) }
{
    let mut rest = kinds;
    'kinds: while let Some((kind, others)) = rest.split_first() {
        atoms.union(&kind.label)?;
        rest = others;
    }
    Ok(())
}

fn add_gives(rules: &[Local], atoms: &mut Gathered) -> Result<(), NoMemory>
    ensures { OnOk result (atoms.new ≡ union_of atoms.old (map (λ r. r.gives) rules.now)) }
{
    let mut rest = rules;
    'rules: while let Some((rule, others)) = rest.split_first() {
        atoms.add(rule.gives)?;
        rest = others;
    }
    Ok(())
}

pub(crate) fn add_ends(links: &[Link], atoms: &mut Gathered) -> Result<(), NoMemory>
    ensures { OnOk result (atoms.new ≡ union_of atoms.old (map (λ l. l.to) links.now)) }
{
    let mut rest = links;
    'links: while let Some((link, others)) = rest.split_first() {
        atoms.add(link.to)?;
        rest = others;
    }
    Ok(())
}

/// The atoms that an added node can get at all: those of kinds' labels, and those that a rule or a link gives.
pub(crate) fn given(alloc: Global, system: &System) -> Result<ClassSet, NoMemory>
    ensures { IfOk result (λ atoms. atoms ≡ given_atoms system.now) }
{
    let mut atoms = Gathered::new(alloc);
    add_labels(system.kinds.items(), &mut atoms)?;
    add_gives(system.local.items(), &mut atoms)?;
    add_ends(system.up.items(), &mut atoms)?;
    add_ends(system.down.items(), &mut atoms)?;
    atoms.into_set()
}

// Adds the atoms that rules without needs give.
fn add_bare(rules: &[Local], atoms: &mut Gathered) -> Result<(), NoMemory>
    ensures { OnOk result (atoms.new ≡ union_of atoms.old (bare_gives rules.now)) }
{
    let mut rest = rules;
    'rules: while let Some((rule, others)) = rest.split_first() {
        if rule.needs.len() == 0 {
            atoms.add(rule.gives)?;
        }
        rest = others;
    }
    Ok(())
}

// The atoms that links from the parent or rules without needs give.
fn given_anywhere(alloc: Global, system: &System) -> Result<ClassSet, NoMemory>
    ensures { IfOk result (λ atoms. atoms ≡ union_of (union_of [] (map (λ (l : Link). l.to) system.now.up)) (bare_gives system.now.local)) }
{
    let mut atoms = Gathered::new(alloc);
    add_ends(system.up.items(), &mut atoms)?;
    add_bare(system.local.items(), &mut atoms)?;
    atoms.into_set()
}

// Adds the cells of a kind's label, which are true from the beginning.
fn add_label(
    system: &System,
    kind: u32,
    cells: &mut Vec<((u32, Atom), Ref)>,
) -> Result<(), NoMemory>
    requires { kind < length system.now.kinds }
    ensures { OnOk result (cells.new.items ≡ cells.old.items ++ labelled kind (kind_label system.now kind)) }
{
    let kinds = system.kinds.items();
    let label = &kinds[kind as usize].label;
    for i in 0..label.len() {
        cells.push(((kind, label.at(i)), Diagrams::leaf(true)))?;
    }
    Ok(())
}

// The cells of all kinds' labels.
fn label_cells(alloc: Global, system: &System) -> Result<Vec<((u32, Atom), Ref)>, NoMemory>
    requires { length system.now.kinds ≤ MOST_KINDS }
    ensures { IfOk result (λ cs. cs.items ≡ labelled_each system.now (length system.now.kinds)) }
{
    let mut cells = Vec::new(alloc);
    for i in 0..system.kinds.items().len() {
        add_label(system, i as u32, &mut cells)?;
    }
    Ok(cells)
}

// Adds a cell for each of `count` kinds and each of these atoms.
fn add_kinds(count: usize, atoms: &ClassSet, cells: &mut Vec<(u32, Atom)>) -> Result<(), NoMemory>
    requires { count ≤ MOST_KINDS }
    ensures { OnOk result (cells.new.items ≡ cells.old.items ++ named_each (range_with_len 0 count) atoms.now) }
{
    for i in 0..count {
        add_kind(i as u32, atoms, cells)?;
    }
    Ok(())
}

/// The worklist of the first round. It has the cells that read a cell of a kind's label. For each kind it also has the atoms
/// that a link from the parent or a rule without needs gives.
pub(crate) fn first_cells(
    alloc: Global,
    system: &System,
    now: &Cells,
    reads: &Reads,
    ends: &mut Ends,
) -> Result<Vec<(u32, Atom)>, NoMemory>
    requires sound { IsSound system.now }
    requires reads { AreReadsOf system.now reads.now }
    requires cells { (j a : ℕ) → place_in now.now j a ≡ start_place system.now j a }
    requires none { ends.old ≡ [] }
    ensures first { IfOk result (λ cs. AreFirst system.now cs.items) }
    ensures ends { IfOk result (λ cs. AreEnds system.now (cell system.now 0) (row_of ends.new)) }
{
    let count = system.kinds.items().len();
    let labels = label_cells(alloc, system)?;
    let mut cells = readers(alloc, now, count, reads, ends, &labels)?;
    let anywhere = given_anywhere(alloc, system)?;
    add_kinds(count, &anywhere, &mut cells)?;
    let once = sorted(cells)?;
    Ok(once)
}

pub(crate) fn add_kind(
    kind: u32,
    atoms: &ClassSet,
    cells: &mut Vec<(u32, Atom)>,
) -> Result<(), NoMemory>
    ensures { OnOk result (cells.new.items ≡ cells.old.items ++ named kind atoms.now) }
{
    for i in 0..atoms.len() {
        cells.push((kind, atoms.at(i)))?;
    }
    Ok(())
}
