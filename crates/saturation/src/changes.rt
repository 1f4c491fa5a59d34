//! One round of all cells: which of them change.
ghost use Rattle.std.specs.Prelude.{◌↔◌, ◌≡◌, ℕ, ◌<◌, length, All, Contains, IfOk, IsErrOf};
ghost use Rattle.class_diagrams.specs.Arena.{StartsWith, IsArena};
ghost use Rattle.simple_core.specs.Systems.{IsSound};
ghost use Rattle.pushdown_sym.specs.Adding.{AreIn};
ghost use Rattle.pushdown_sym.specs.Rounds.{given_atoms};
ghost use Rattle.saturation.specs.Budgets.{MayBeSpent};
ghost use Rattle.pushdown_sym.specs.Laws.{Tells};
ghost use Rattle.saturation.specs.Saturation.{AreChanges, Histories, IsDone, Steps, IsFullIn};

use class_diagrams::{DiagramFault, Diagrams, Ref};
use pushdown_sym::{Cells, Equations, Round};
use simple_core::GainFault;
use std::alloc::Global;
use tp_base::{Atom, NoMemory};

// Calculates one cell for the next round, and notes it if it changes.
fn one_cell(
    round: &mut Round<'_, '_>,
    d: &mut Diagrams,
    name: (u32, Atom),
    changes: &mut Vec<((u32, Atom), Ref)>,
) -> Result<(), DiagramFault>
    requires kind { name.0 < length round.old.0.kinds }
    requires inside { AreIn d.old.branches round.old.1 }
    ensures same { round.new ≡ round.old }
    ensures stays { StartsWith d.old.branches d.new.branches }
    ensures step { Steps round.old.0 round.old.1 d.old d.new name changes.old.items changes.new.items result }
{
    let next = round.next_cell(d, name.0, name.1)?;
    if !d.same(next, round.get(name.0, name.1)) {
        changes.push((name, next))?;
    }
    Ok(())
}

// Calculates the worklist's cells for the next round, and notes those that change.
fn one_round(
    alloc: Global,
    equations: &Equations,
    d: &mut Diagrams,
    now: &Cells,
    todo: &[(u32, Atom)],
) -> Result<Vec<((u32, Atom), Ref)>, DiagramFault>
    requires kinds { All (λ c. c.0 < length equations.now.kinds) todo.now }
    requires inside { AreIn d.old.branches now.now }
    requires arena { IsArena d.old }
    ensures changes { (k : ℕ) → IsSound equations.now → All (λ c. Contains (given_atoms equations.now) c.1) todo.now → Tells equations.now d.old.branches now.now k
        → IfOk result (λ cs. AreChanges equations.now k d.old d.new todo.now cs.items) }
    ensures full { (k : ℕ) → IsSound equations.now → All (λ c. Contains (given_atoms equations.now) c.1) todo.now → Tells equations.now d.old.branches now.now k
        → IsErrOf result DiagramFault.Full → IsFullIn equations.now k d.old }
{
    let mut round = Round::new(alloc, equations, now)?;
    let mut changes = Vec::new(alloc);
    for name in todo {
        one_cell(&mut round, d, *name, &mut changes)?;
    }
    Ok(changes)
}

fn fault_of(fault: DiagramFault) -> GainFault
    ensures { (result ≡ GainFault.Spent) ↔ (fault ≡ DiagramFault.Full) }
{
    match fault {
        DiagramFault::Full => GainFault::Spent,
        DiagramFault::Memory => GainFault::Memory,
    }
}

/// The cells of the worklist that change in the next round, with their new diagrams.
pub(crate) fn changed_cells(
    alloc: Global,
    equations: &Equations,
    d: &mut Diagrams,
    now: &Cells,
    todo: &[(u32, Atom)],
) -> Result<Vec<((u32, Atom), Ref)>, GainFault>
    requires kinds { All (λ c. c.0 < length equations.now.kinds) todo.now }
    requires inside { AreIn d.old.branches now.now }
    requires arena { IsArena d.old }
    ensures changes { (nodes k : ℕ) (histories : Histories) → IsSound equations.now → IsDone equations.now nodes k d.old histories now.now todo.now
        → IfOk result (λ cs. AreChanges equations.now k d.old d.new todo.now cs.items) }
    ensures spent { (nodes k : ℕ) (histories : Histories) → IsSound equations.now → IsDone equations.now nodes k d.old histories now.now todo.now
        → IsErrOf result GainFault.Spent → MayBeSpent equations.now nodes }
{
    match one_round(alloc, equations, d, now, todo) {
        Ok(changes) => Ok(changes),
        Err(fault) => Err(fault_of(fault)),
    }
}
