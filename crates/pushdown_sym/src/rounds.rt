//! One iteration of all equations: the cells of a round, and those of the next one.
ghost use Rattle.std.specs.Prelude.{◌≡◌, ◌<◌, ◌==◌, if◌then◌else◌, length, ℕ, suc, IsErrOf, IfOk, OnOk, OnErr, [], Some, is_some, unwrap_or};
ghost use Rattle.class_diagrams.specs.References.{Reference};
ghost use Rattle.class_diagrams.specs.Arena.{tree_at, IsIn, IsArena, StartsWith};
ghost use Rattle.diagram_ops.specs.Steps.{held_with_all, AreAmong, Calculates};
ghost use Rattle.simple_core.specs.Systems.{IsSound};
ghost use Rattle.pushdown_sym.specs.Rounds.{cell};
ghost use Rattle.pushdown_sym.specs.Laws.{Tells};
ghost use Rattle.pushdown_sym.specs.CellMap.{place_in};
ghost use Rattle.pushdown_sym.specs.Adding.{AreIn, next_in, results_in};
ghost use Rattle.pushdown_sym.specs.Children.{standing_of, different, kept_in, AreKept};

use crate::cells::Cells;
use crate::doors::{Doors, are_few};
use crate::equations::{Equations, is_whole};
use crate::gathering::{Child, Children};
use class_diagrams::{DiagramFault, Diagrams, Ref};
use indexmap::IndexMap;
use std::alloc::Global;
use std::marker::Model;
use tp_base::{Atom, NoMemory};

// For some atoms the different children that links look at and that may be there.
#[derive(Drop)]
struct Kept {
    map: IndexMap<Atom, Children>,
}

impl Model for Kept {
    ghost use Rattle.std.specs.Prelude.{List, ℕ};
    ghost use Rattle.pushdown_sym.specs.declared.gathering.Child.{Child};

    ghost Value = { List (ℕ × List Child) };

    ghost view = { λ k. k.map.entries };
}

impl Kept {
    fn new(alloc: Global) -> Self
        ensures { result ≡ [] }
    {
        Kept {
            map: IndexMap::new(alloc),
        }
    }

    fn has(&self, atom: Atom) -> bool
        ensures { result ≡ is_some (kept_in self.now atom) }
    {
        self.map.get(&atom).is_some()
    }

    // The children of an atom, none where nothing is kept.
    fn of(&self, atom: Atom) -> &[Child]
        ensures { result.now ≡ unwrap_or (kept_in self.now atom) [] }
    {
        match self.map.get(&atom) {
            None => &[],
            Some(children) => children.items(),
        }
    }

    fn keep(&mut self, atom: Atom, children: Children) -> Result<(), NoMemory>
        ensures ok { OnOk result ((a : ℕ) → kept_in self.new a ≡ (if atom == a then Some children else kept_in self.old a)) }
        ensures err { OnErr result (self.new ≡ self.old) }
    {
        self.map.insert(atom, children)?;
        Ok(())
    }

    // Sees to it that the children of an atom are there.
    fn gather(
        &mut self,
        alloc: Global,
        equations: &Equations,
        now: &Cells,
        atom: Atom,
    ) -> Result<(), NoMemory>
        requires { AreKept equations.now now.now self.old }
        ensures kept { AreKept equations.now now.now self.new }
        ensures there { OnOk result (kept_in self.new atom ≡ Some (different (standing_of equations.now now.now atom))) }
    {
        if !self.has(atom) {
            let children = equations.children(alloc, now, atom)?;
            self.keep(atom, children)?;
        }
        Ok(())
    }
}

/// The equations of a system and the cells of one round. It knows for each kind which spawn rules its nodes may use. Where
/// they are many, what the links that give an atom look at is found once for all these kinds. A contract sees the system and
/// the cells.
#[derive(Drop)]
pub struct Round<'e, 'c> {
    equations: &'e Equations,
    cells: &'c Cells,
    doors: Doors,
    kept: Kept,
}

impl<'e, 'c> Model for Round<'e, 'c> {
    ghost use Rattle.simple_core.specs.declared.system.System.{System};
    ghost use Rattle.pushdown_sym.specs.CellMap.{Entries};
    ghost use Rattle.pushdown_sym.specs.Children.{AreKept};
    ghost use Rattle.pushdown_sym.specs.Givers.{HaveDoors};

    ghost Value = { System × Entries };

    ghost view = { λ r. (r.equations.now, r.cells.now) };

    ghost invariant = { λ r. HaveDoors r.equations.now.child r.cells.now r.doors × AreKept r.equations.now r.cells.now r.kept };
}

impl<'e, 'c> Round<'e, 'c> {
    /// The cells of a round. Nothing is calculated yet; for each spawn rule a look at each kind that may have the atom that
    /// it needs.
    pub fn new(
        alloc: Global,
        equations: &'e Equations,
        cells: &'c Cells,
    ) -> Result<Round<'e, 'c>, NoMemory>
        ensures { IfOk result (λ r. r ≡ (equations.now, cells.now)) }
    {
        Ok(Round {
            equations,
            cells,
            doors: equations.doors(alloc, cells)?,
            kept: Kept::new(alloc),
        })
    }

    /// The diagram of a cell.
    pub fn get(&self, kind: u32, atom: Atom) -> Ref
        ensures { result ≡ place_in self.now.1 kind atom }
    {
        self.cells.get(kind, atom)
    }

    /// The value of a cell in the next round, as `Equations::next_cell` gives it. Where a node of the kind may use a few
    /// spawn rules alone, each link that gives the atom costs a look at each of them. For all other kinds together, each
    /// link costs a look at each kind of child that may have its left side. Then each cell costs a look at each distinct
    /// pair of a child's diagram and the atom that spawns the child. In both ways a cell costs a composition for each of
    /// these pairs whose atom a node of the kind may have. A cell that is true of every label stays, and costs nothing.
    pub fn next_cell(
        &mut self,
        d: &mut Diagrams,
        kind: u32,
        atom: Atom,
    ) -> Result<Ref, DiagramFault>
        requires kind { kind < length self.old.0.kinds }
        requires inside { AreIn d.old.branches self.old.1 }
        ensures same { self.new ≡ self.old }
        ensures tree { IfOk result (λ r. tree_at d.new.branches r ≡ next_in self.old.0 d.old self.old.1 kind atom) }
        ensures round { IsSound self.old.0 → (k : ℕ) → Tells self.old.0 d.old.branches self.old.1 k → IfOk result (λ r. tree_at d.new.branches r ≡ cell self.old.0 (suc k) kind atom) }
        ensures inside { IfOk result (λ r. IsIn d.new.branches r) }
        ensures full { IsErrOf result DiagramFault.Full → d.old.limit < length (held_with_all d.old.branches (results_in self.old.0 d.old self.old.1 kind atom)) }
        ensures stays { StartsWith d.old.branches d.new.branches }
        ensures only { AreAmong d.new.branches (held_with_all d.old.branches (results_in self.old.0 d.old self.old.1 kind atom)) }
        ensures references { (p : Reference) → IsIn d.old.branches p
            → IsIn d.new.branches p × (tree_at d.new.branches p ≡ tree_at d.old.branches p) }
        ensures limit { d.new.limit ≡ d.old.limit }
        ensures arena { IsArena d.new }
    {
        let start = self.get(kind, atom);
        self.next(d, (kind, atom, start))
    }

    // The cell behind one that is given with its diagram, by the few spawn rules that its kind may use, or by what is kept for
    // all kinds.
    fn next(&mut self, d: &mut Diagrams, cell: (u32, Atom, Ref)) -> Result<Ref, DiagramFault>
        requires inside { AreIn d.old.branches self.old.1 }
        requires start { cell.2 ≡ place_in self.old.1 cell.0 cell.1 }
        ensures same { self.new ≡ self.old }
        ensures next { Calculates d.old d.new (results_in self.old.0 d.old self.old.1 cell.0 cell.1) (next_in self.old.0 d.old self.old.1 cell.0 cell.1) result }
    {
        let alloc = self.cells.allocator();
        let doors = self.doors.of(cell.0);
        if are_few(doors) {
            return self
                .equations
                .next_through(alloc, d, self.cells, cell, doors);
        }
        next_kept(alloc, self.equations, self.cells, &mut self.kept, d, cell)
    }
}

// The cell behind one that is given with its diagram, and what is kept then: nothing of an atom that no link from a child
// gives.
fn next_kept(
    alloc: Global,
    equations: &Equations,
    now: &Cells,
    kept: &mut Kept,
    d: &mut Diagrams,
    cell: (u32, Atom, Ref),
) -> Result<Ref, DiagramFault>
    requires inside { AreIn d.old.branches now.now }
    requires start { cell.2 ≡ place_in now.now cell.0 cell.1 }
    requires kept { AreKept equations.now now.now kept.old }
    ensures kept { AreKept equations.now now.now kept.new }
    ensures next { Calculates d.old d.new (results_in equations.now d.old now.now cell.0 cell.1) (next_in equations.now d.old now.now cell.0 cell.1) result }
{
    if is_whole(d, cell.2) {
        return Ok(cell.2);
    }
    if !equations.is_given_below(cell.1) {
        return equations.next_by(alloc, d, now, cell, &[]);
    }
    match kept.gather(alloc, equations, now, cell.1) {
        Ok(()) => equations.next_by(alloc, d, now, cell, kept.of(cell.1)),
        Err(_) => Err(DiagramFault::Memory),
    }
}
