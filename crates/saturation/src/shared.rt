//! Summaries for all visible labels at once, read from decision diagrams.
ghost use Rattle.std.specs.Prelude.{◌≡◌, ℕ, ◌<◌, ◌≤◌, ◌^◌, [], length, All, IfOk, IfSome, IsOk, IsErrOf};
ghost use Rattle.tp_base.specs.Classes.{has_class};
ghost use Rattle.class_diagrams.specs.Arena.{IsIn, IsArena};
ghost use Rattle.limits.specs.declared.budgets.TheConstants.{MOST_BRANCHES};
ghost use Rattle.simple_core.specs.Rounds.{grown, IsRest, IsFirst};
ghost use Rattle.simple_core.specs.Systems.{kind_label, IsSound};
ghost use Rattle.pushdown_sym.specs.Adding.{AreIn};
ghost use Rattle.pushdown_sym.specs.Rounds.{given_atoms};
ghost use Rattle.saturation.specs.Budgets.{MayBeSpent, HasToBeSpent};
ghost use Rattle.saturation.specs.Held.{AreWork, HoldsCells};
ghost use Rattle.saturation.specs.HistoryMap.{history_in};
ghost use Rattle.saturation.specs.Saturation.{IsBuilt};
ghost use Rattle.saturation.specs.Courses.{AreRows, HasGate};

use crate::courses::{Course, course_of, firsts_by, row_at, rows_of};
use crate::histories::{Histories, Log, first_round_under};
use crate::labels::label_of;
use crate::names::given;
use crate::saturating::saturate;
use class_diagrams::Diagrams;
use pushdown_sym::Cells;
use simple_core::{First, GainFault, Summaries, System};
use std::alloc::Global;
use std::marker::Model;
use tp_base::{Atom, ClassSet, Items, NoMemory};

// The cells at the fixpoint, and their histories.
#[derive(Drop)]
struct Ended {
    cells: Cells,
    histories: Histories,
}

fn all_rounds(alloc: Global, system: &System, diagrams: &mut Diagrams) -> Result<Ended, GainFault>
    requires sound { IsSound system.now }
    requires empty { diagrams.old.branches ≡ [] }
    requires arena { IsArena diagrams.old }
    ensures inside { IfOk result (λ e. AreIn diagrams.new.branches e.cells) }
    ensures built { IfOk result (λ e. IsBuilt system.now diagrams.new (history_in e.histories) e.cells) }
    ensures spent { IsErrOf result GainFault.Spent → MayBeSpent system.now diagrams.old.limit }
    ensures whole { IsOk result → ¬ HasToBeSpent system.now diagrams.old.limit }
{
    let mut cells = Cells::first(alloc, system)?;
    let mut log = Log::new(alloc);
    saturate(alloc, system, diagrams, &mut cells, &mut log)?;
    let histories = Histories::of_log(alloc, &log, system.kinds.items().len())?;
    Ok(Ended { cells, histories })
}

// A copy of a system, the atoms that it gives, and the courses of each kind.
#[derive(Drop)]
struct Copied {
    system: System,
    atoms: ClassSet,
    rows: Items<Items<Course>>,
}

fn copy_of(
    alloc: Global,
    system: &System,
    diagrams: &Diagrams,
    histories: &Histories,
) -> Result<Copied, NoMemory>
    requires sound { IsSound system.now }
    requires inside { (j a : ℕ) → j < length system.now.kinds → All (λ c. IsIn diagrams.now.branches c.1) (history_in histories.now j a) }
    ensures same { IfOk result (λ c. c.system ≡ system.now) }
    ensures given { IfOk result (λ c. c.atoms ≡ given_atoms system.now) }
    ensures rows { IfOk result (λ c. AreRows system.now (history_in histories.now) c.rows) }
    ensures gates { IfOk result (λ c. All (All (HasGate diagrams.now.branches)) c.rows) }
{
    let atoms = given(alloc, system)?;
    let rows = rows_of(alloc, diagrams, system, histories)?;
    let system = system.copy(alloc)?;
    Ok(Copied {
        system,
        atoms,
        rows,
    })
}

/// The summaries of a system, for every visible label of a parent. A contract sees the system and the stored branches. `firsts`
/// costs a step for each visible atom that may come to the kind (its `rows`). It evaluates a diagram only where the parent has
/// an atom of the gate. A single atom is found by a binary search.
#[derive(Drop)]
pub struct SharedSummaries {
    system: System,
    atoms: ClassSet,
    diagrams: Diagrams,
    cells: Cells,
    histories: Histories,
    rows: Items<Items<Course>>,
}

impl Model for SharedSummaries {
    ghost use Rattle.saturation.specs.Shared.{Shared};
    ghost use Rattle.saturation.specs.Invariant.{AreSummaries};
    ghost use Rattle.std.specs.Coded.{codes};
    ghost use Rattle.class_diagrams.specs.TreeCode.{tree_code};

    ghost Value = { Shared };

    ghost coded = { Prim.hlevel (codes, tree_code) };

    ghost view = { λ s. record { system = s.system; branches = s.diagrams.branches } };

    ghost invariant = { λ s. AreSummaries s.system s.atoms s.diagrams s.cells s.histories s.rows };
}

impl SharedSummaries {
    /// Builds the summaries with at most `nodes` branches, by rounds until no cell changes. The first round calculates the
    /// cells that a rule may change. Each later round calculates the cells that read one which changed before. Where what
    /// children see changed, a kind costs a step for each of its atoms that make children. At the end there is one lookup of a
    /// history for each kind and visible atom.
    pub fn build(alloc: Global, system: &System, nodes: u32) -> Result<Self, GainFault>
        requires sound { IsSound system.now }
        requires nodes { nodes ≤ MOST_BRANCHES }
        ensures system { IfOk result (λ s. s.system ≡ system.now) }
        ensures work { IfOk result (λ s. AreWork system.now s.branches) }
        ensures cells { IfOk result (λ s. HoldsCells system.now s.branches) }
        ensures spent { IsErrOf result GainFault.Spent → MayBeSpent system.now nodes }
        ensures whole { IsOk result → ¬ HasToBeSpent system.now nodes }
    {
        let mut diagrams = Diagrams::new(alloc, nodes)?;
        let ended = all_rounds(alloc, system, &mut diagrams)?;
        let copied = copy_of(alloc, system, &diagrams, &ended.histories)?;
        Ok(SharedSummaries {
            system: copied.system,
            atoms: copied.atoms,
            diagrams,
            cells: ended.cells,
            histories: ended.histories,
            rows: copied.rows,
        })
    }

    // The label at which a node of the kind ends, below a parent with these visible atoms.
    fn last_label(&self, alloc: Global, kind: u32, parent: &ClassSet) -> Result<ClassSet, NoMemory>
        requires kind { kind < length self.now.system.kinds }
        ensures { IfOk result (λ label. IsRest self.now.system kind parent.now label) }
    {
        let label = label_of(
            alloc,
            &self.atoms,
            &self.diagrams,
            &self.cells,
            kind,
            parent,
        )?;
        Ok(label)
    }

    // Whether a kind has an atom from the beginning.
    fn starts_with(&self, kind: u32, atom: Atom) -> bool
        requires { kind < length self.now.system.kinds }
        ensures { result ≡ has_class atom (kind_label self.now.system kind) }
    {
        let kinds = self.system.kinds.items();
        kinds[kind as usize].label.has(atom)
    }

    // The first round in which a node of the kind has the atom, below a parent with these visible atoms. A visible atom is
    // looked up in the kind's row.
    fn first_told(&self, kind: u32, parent: &ClassSet, atom: Atom) -> Option<u64>
        requires { kind < length self.now.system.kinds }
        ensures first { IsFirst (λ k. grown self.now.system k kind parent.now) atom result }
        ensures bound { IfSome result (λ k. k < 2 ^ 62) }
        ensures sound { IsSound self.now.system }
    {
        if !self.system.visible.has(atom) {
            return self.first_noted(kind, parent, atom);
        }
        match course_of(row_at(self.rows.items(), kind), atom) {
            Some(course) => course.first_under(&self.diagrams, parent),
            None => None,
        }
    }

    // The same for any atom, from the history of its cell.
    fn first_noted(&self, kind: u32, parent: &ClassSet, atom: Atom) -> Option<u64>
        requires { kind < length self.now.system.kinds }
        ensures first { IsFirst (λ k. grown self.now.system k kind parent.now) atom result }
        ensures bound { IfSome result (λ k. k < 2 ^ 62) }
    {
        if self.starts_with(kind, atom) {
            return Some(0);
        }
        let history = self.histories.of(kind, atom);
        first_round_under(history, &self.diagrams, parent)
    }
}

impl Summaries for SharedSummaries {
    ghost use Rattle.std.specs.Prelude.{◌<◌, length, None, All, Contains};

    ghost system = { λ s. s.system };

    ghost known = { λ s q. (q.0 < length s.system.kinds) × All (Contains s.system.visible) q.1 };

    ghost told = { λ s. None };

    ghost spent_on = { λ s. None };

    // Histories are found by the kind alone, so that an entry holds no information.
    ghost is_entry = { λ s n q. Unit {0} };

    ghost room = { λ s. None };

    fn gain(&mut self, kind: u32, parent: &ClassSet) -> Result<ClassSet, GainFault> {
        let alloc = self.histories.allocator();
        let label = self.last_label(alloc, kind, parent)?;
        Ok(label)
    }

    fn entry(&self, _kind: u32, _parent: &ClassSet) -> usize {
        0
    }

    fn first_at(&self, _entry: usize, kind: u32, parent: &ClassSet, atom: Atom) -> Option<u64> {
        self.first_told(kind, parent, atom)
    }

    fn firsts(&self, alloc: Global, kind: u32, parent: &ClassSet) -> Result<Vec<First>, NoMemory> {
        let row = row_at(self.rows.items(), kind);
        let firsts = firsts_by(alloc, row, &self.diagrams, parent)?;
        Ok(firsts)
    }
}
