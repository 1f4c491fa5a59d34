//! Notes the changes of a round, and makes the worklist of the next one.
ghost use Rattle.std.specs.Prelude.{◌≡◌, ℕ, suc, length, List, [], ◌∷◌, ◌++◌, All, Contains, IfOk, OnOk};
ghost use Rattle.class_diagrams.specs.References.{Reference};
ghost use Rattle.class_diagrams.specs.Arena.{Arena, tree_at, IsIn};
ghost use Rattle.simple_core.specs.declared.system.System.{System};
ghost use Rattle.simple_core.specs.Systems.{IsSound};
ghost use Rattle.pushdown_sym.specs.CellMap.{trees_in};
ghost use Rattle.pushdown_sym.specs.Adding.{AreIn};
ghost use Rattle.pushdown_sym.specs.Rounds.{cell};
ghost use Rattle.saturation.specs.HistoryMap.{history_in};
ghost use Rattle.saturation.specs.Tables.{AreReadsOf};
ghost use Rattle.row_index.specs.Rows.{row_of};
ghost use Rattle.saturation.specs.Waking.{CellName, AreEnds};
ghost use Rattle.saturation.specs.Saturation.{AreChanges, AreNotedUpTo, IsDone};

use crate::histories::Log;
use crate::reads::Reads;
use crate::waking::readers;
use class_diagrams::{Diagrams, Ref};
use pushdown_sym::{Cells, Ends};
use std::alloc::Global;
use tp_base::{Atom, NoMemory};

// Notes one change, unless the cell has this diagram already.
fn note_one(
    d: &Diagrams,
    cells: &mut Cells,
    log: &mut Log,
    round: u64,
    change: ((u32, Atom), Ref),
) -> Result<(), NoMemory>
    requires cells { AreIn d.now.branches cells.old }
    requires inside { IsIn d.now.branches change.1 }
    ensures cells { OnOk result (AreIn d.now.branches cells.new) }
    ensures noted { (s : System) (k : ℕ) (done : List (CellName × Reference)) → round ≡ suc k → tree_at d.now.branches change.1 ≡ cell s (suc k) change.0.0 change.0.1
        → AreNotedUpTo s d.now.branches k done (history_in log.old) (trees_in d.now.branches cells.old)
        → OnOk result (AreNotedUpTo s d.now.branches k (done ++ change ∷ []) (history_in log.new) (trees_in d.now.branches cells.new)) }
{
    let ((kind, atom), to) = change;
    let before = cells.replace(kind, atom, to)?;
    if !d.same(to, before) {
        log.push(kind, atom, round, to)?;
    }
    Ok(())
}

// Notes all changes of a round.
fn note_all(
    d: &Diagrams,
    cells: &mut Cells,
    log: &mut Log,
    round: u64,
    changes: &[((u32, Atom), Ref)],
) -> Result<(), NoMemory>
    requires cells { AreIn d.now.branches cells.old }
    requires inside { All (λ c. IsIn d.now.branches c.1) changes.now }
    ensures cells { OnOk result (AreIn d.now.branches cells.new) }
    ensures noted { (s : System) (k : ℕ) → round ≡ suc k → All (λ c. tree_at d.now.branches c.1 ≡ cell s (suc k) c.0.0 c.0.1) changes.now
        → AreNotedUpTo s d.now.branches k [] (history_in log.old) (trees_in d.now.branches cells.old)
        → OnOk result (AreNotedUpTo s d.now.branches k changes.now (history_in log.new) (trees_in d.now.branches cells.new)) }
{
    for change in changes {
        note_one(d, cells, log, round, *change)?;
    }
    Ok(())
}

/// Notes the changes, and returns the worklist of the next round.
pub(crate) fn noted(
    alloc: Global,
    d: &Diagrams,
    cells: &mut Cells,
    log: &mut Log,
    round: u64,
    count: usize,
    reads: &Reads,
    ends: &mut Ends,
    changes: &[((u32, Atom), Ref)],
) -> Result<Vec<(u32, Atom)>, NoMemory>
    requires cells { AreIn d.now.branches cells.old }
    requires inside { All (λ c. IsIn d.now.branches c.1) changes.now }
    ensures { (s : System) (nodes k : ℕ) (old : Arena) (todo : List CellName) → round ≡ suc k → IsSound s → count ≡ length s.kinds
        → AreReadsOf s reads.now → AreEnds s (cell s k) (row_of ends.old)
        → IsDone s nodes k old (history_in log.old) cells.old todo → AreChanges s k old d.now todo changes.now
        → (c : CellName × Reference) → Contains changes.now c
        → IfOk result (λ next. IsDone s nodes (suc k) d.now (history_in log.new) cells.new next.items × AreEnds s (cell s (suc k)) (row_of ends.new)) }
{
    note_all(d, cells, log, round, changes)?;
    let next = readers(alloc, cells, count, reads, ends, changes)?;
    Ok(next)
}
