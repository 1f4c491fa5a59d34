//! Saturation: rounds until no cell changes.
ghost use Rattle.std.specs.Prelude.{◌≡◌, ℕ, true, false, length, [], IsOk, IsErrOf, OnOk};
ghost use Rattle.class_diagrams.specs.Arena.{IsArena};
ghost use Rattle.simple_core.specs.Systems.{IsSound};
ghost use Rattle.pushdown_sym.specs.Adding.{AreIn};
ghost use Rattle.pushdown_sym.specs.CellMap.{place_in};
ghost use Rattle.pushdown_sym.specs.Rounds.{cell};
ghost use Rattle.row_index.specs.Rows.{row_of};
ghost use Rattle.saturation.specs.Waking.{AreEnds};
ghost use Rattle.saturation.specs.Budgets.{MayBeSpent, HasToBeSpent};
ghost use Rattle.saturation.specs.HistoryMap.{history_in};
ghost use Rattle.saturation.specs.Histories.{start_place};
ghost use Rattle.saturation.specs.Tables.{AreReadsOf};
ghost use Rattle.saturation.specs.Saturation.{IsBuilt, IsDone, HasSome};

use crate::changes::changed_cells;
use crate::histories::Log;
use crate::names::first_cells;
use crate::reads::Reads;
use crate::rounds::noted;
use class_diagrams::{Diagrams, Ref};
use pushdown_sym::{Cells, Ends, Equations};
use simple_core::{GainFault, System};
use std::alloc::Global;
use tp_base::Atom;

fn are_none(changes: &[((u32, Atom), Ref)]) -> bool
    ensures none { result ≡ true → changes.now ≡ [] }
    ensures some { result ≡ false → HasSome changes.now }
{
    changes.len() == 0
}

fn saturate_from(
    alloc: Global,
    equations: &Equations,
    count: usize,
    reads: &Reads,
    ends: &mut Ends,
    d: &mut Diagrams,
    cells: &mut Cells,
    log: &mut Log,
    start: Vec<(u32, Atom)>,
) -> Result<(), GainFault>
    requires sound { IsSound equations.now }
    requires count { count ≡ length equations.now.kinds }
    requires reads { AreReadsOf equations.now reads.now }
    requires ends { AreEnds equations.now (cell equations.now 0) (row_of ends.old) }
    requires done { IsDone equations.now d.old.limit 0 d.old (history_in log.old) cells.old start.items }
    ensures inside { OnOk result (AreIn d.new.branches cells.new) }
    ensures built { OnOk result (IsBuilt equations.now d.new (history_in log.new) cells.new) }
    ensures spent { IsErrOf result GainFault.Spent → MayBeSpent equations.now d.old.limit }
    ensures whole { IsOk result → ¬ HasToBeSpent equations.now d.old.limit }
{
    let mut todo = start;
    let mut round: u64 = 0;
    'rounds: loop {
        let changes = changed_cells(alloc, equations, d, cells, &todo)?;
        let list = changes.as_slice();
        if are_none(list) {
            return Ok(());
        }
        round += 1;
        let next = noted(alloc, d, cells, log, round, count, reads, ends, list)?;
        todo = next;
    }
}

// Saturates the cells of a system by its equations.
fn saturate_by(
    alloc: Global,
    system: &System,
    equations: &Equations,
    d: &mut Diagrams,
    cells: &mut Cells,
    log: &mut Log,
) -> Result<(), GainFault>
    requires sound { IsSound equations.now }
    requires same { equations.now ≡ system.now }
    requires empty { d.old.branches ≡ [] }
    requires arena { IsArena d.old }
    requires cells { (j a : ℕ) → place_in cells.old j a ≡ start_place equations.now j a }
    requires log { log.old ≡ [] }
    ensures inside { OnOk result (AreIn d.new.branches cells.new) }
    ensures built { OnOk result (IsBuilt equations.now d.new (history_in log.new) cells.new) }
    ensures spent { IsErrOf result GainFault.Spent → MayBeSpent equations.now d.old.limit }
    ensures whole { IsOk result → ¬ HasToBeSpent equations.now d.old.limit }
{
    let reads = Reads::new(alloc, system)?;
    let count = system.kinds.items().len();
    let mut ends = Ends::new(alloc);
    let start = first_cells(alloc, system, cells, &reads, &mut ends)?;
    saturate_from(
        alloc, equations, count, &reads, &mut ends, d, cells, log, start,
    )
}

// Whether the system adds no nodes.
fn has_no_kinds(system: &System) -> bool
    ensures { result ≡ true → length system.now.kinds ≡ 0 }
{
    system.kinds.items().len() == 0
}

/// Saturates the cells: does rounds until none changes. A system that adds no nodes has no cells.
pub(crate) fn saturate(
    alloc: Global,
    system: &System,
    d: &mut Diagrams,
    cells: &mut Cells,
    log: &mut Log,
) -> Result<(), GainFault>
    requires sound { IsSound system.now }
    requires empty { d.old.branches ≡ [] }
    requires arena { IsArena d.old }
    requires cells { (j a : ℕ) → place_in cells.old j a ≡ start_place system.now j a }
    requires log { log.old ≡ [] }
    ensures inside { OnOk result (AreIn d.new.branches cells.new) }
    ensures built { OnOk result (IsBuilt system.now d.new (history_in log.new) cells.new) }
    ensures spent { IsErrOf result GainFault.Spent → MayBeSpent system.now d.old.limit }
    ensures whole { IsOk result → ¬ HasToBeSpent system.now d.old.limit }
{
    if has_no_kinds(system) {
        return Ok(());
    }
    let equations = Equations::new(alloc, system)?;
    saturate_by(alloc, system, &equations, d, cells, log)
}
