//! The equation of a cell: its value in the next round.
ghost use Rattle.std.specs.Prelude.{◌≡◌, ◌≢◌, ◌<◌, ◌==◌, ℕ, suc, true, false, [], length, IsErrOf, IfOk};
ghost use Rattle.class_diagrams.specs.References.{Reference};
ghost use Rattle.class_diagrams.specs.Trees.{leaf};
ghost use Rattle.class_diagrams.specs.Arena.{tree_at, IsIn, IsArena, StartsWith};
ghost use Rattle.diagram_ops.specs.Steps.{held_with_all, AreAmong, Calculates};
ghost use Rattle.pushdown_sym.specs.CellMap.{place_in};
ghost use Rattle.pushdown_sym.specs.Adding.{AreIn, next_in, results_in};
ghost use Rattle.pushdown_sym.specs.Children.{standing_of, different, DoServe};
ghost use Rattle.pushdown_sym.specs.Givers.{AreDoors, HaveDoors};
ghost use Rattle.simple_core.specs.Systems.{IsSound};
ghost use Rattle.pushdown_sym.specs.Rounds.{cell};
ghost use Rattle.pushdown_sym.specs.Laws.{Tells};
ghost use Rattle.simple_core.specs.Givers.{places_from};

use crate::cells::Cells;
use crate::children::add_children;
use crate::doors::Doors;
use crate::gathering::{Child, Children};
use crate::links::add_ups;
use crate::locals::add_locals;
use crate::makers::Makers;
use class_diagrams::{DiagramFault, Diagrams, Ref};
use simple_core::{AllGivers, System};
use std::alloc::Global;
use std::marker::Model;
use tp_base::{Atom, NoMemory};

/// The equations of a system: its rules, with an index of those that give each atom. A contract sees the system.
#[derive(Drop)]
pub struct Equations {
    system: System,
    givers: AllGivers,
    makers: Makers,
}

impl Model for Equations {
    ghost use Rattle.simple_core.specs.declared.system.System.{System};
    ghost use Rattle.simple_core.specs.Givers.{AreAllGivers};
    ghost use Rattle.pushdown_sym.specs.Givers.{AreMakers};

    ghost Value = { System };

    ghost view = { λ e. e.system };

    ghost invariant = { λ e. AreAllGivers e.system e.givers × AreMakers e.system.child e.makers };
}

impl Equations {
    /// The rules of a copy of the system. Linear in its size, on average.
    pub fn new(alloc: Global, system: &System) -> Result<Self, NoMemory>
        ensures { IfOk result (λ e. e ≡ system.now) }
    {
        Ok(Equations {
            system: system.copy(alloc)?,
            givers: AllGivers::of(alloc, system)?,
            makers: Makers::of_spawns(alloc, system.child.items())?,
        })
    }

    /// The next value of a cell, in the round after `now`. It costs a conjunction for each atom that a local rule needs.
    /// Each link from a child costs a look at each kind of child that may have its left side. Each distinct pair of a
    /// child's diagram and of the atom that spawns it costs a composition. `Round` looks at fewer. A cell that is true of
    /// every label stays, and costs nothing.
    pub fn next_cell(
        &self,
        d: &mut Diagrams,
        now: &Cells,
        kind: u32,
        atom: Atom,
    ) -> Result<Ref, DiagramFault>
        requires kind { kind < length self.now.kinds }
        requires inside { AreIn d.old.branches now.now }
        ensures tree { IfOk result (λ r. tree_at d.new.branches r ≡ next_in self.now d.old now.now kind atom) }
        ensures round { IsSound self.now → (k : ℕ) → Tells self.now d.old.branches now.now k → IfOk result (λ r. tree_at d.new.branches r ≡ cell self.now (suc k) kind atom) }
        ensures inside { IfOk result (λ r. IsIn d.new.branches r) }
        ensures full { IsErrOf result DiagramFault.Full → d.old.limit < length (held_with_all d.old.branches (results_in self.now d.old now.now kind atom)) }
        ensures stays { StartsWith d.old.branches d.new.branches }
        ensures only { AreAmong d.new.branches (held_with_all d.old.branches (results_in self.now d.old now.now kind atom)) }
        ensures references { (p : Reference) → IsIn d.old.branches p
            → IsIn d.new.branches p × (tree_at d.new.branches p ≡ tree_at d.old.branches p) }
        ensures limit { d.new.limit ≡ d.old.limit }
        ensures arena { IsArena d.new }
    {
        self.next_alone(now.allocator(), d, now, kind, atom)
    }

    /// Whether a link from a child gives the atom.
    pub(crate) fn is_given_below(&self, atom: Atom) -> bool
        ensures none { result ≡ false → places_from (λ l. l.to == atom) 0 self.now.down ≡ [] }
        ensures some { result ≡ true → places_from (λ l. l.to == atom) 0 self.now.down ≢ [] }
    {
        let places = self.givers.downs.of(atom);
        places.len() > 0
    }

    /// The cell, where nothing is kept of the children that its links look at.
    pub(crate) fn next_alone(
        &self,
        alloc: Global,
        d: &mut Diagrams,
        now: &Cells,
        kind: u32,
        atom: Atom,
    ) -> Result<Ref, DiagramFault>
        requires { AreIn d.old.branches now.now }
        ensures { Calculates d.old d.new (results_in self.now d.old now.now kind atom) (next_in self.now d.old now.now kind atom) result }
    {
        let start = now.get(kind, atom);
        if is_whole(d, start) {
            return Ok(start);
        }
        match self.children(alloc, now, atom) {
            Ok(children) => self.next_by(alloc, d, now, (kind, atom, start), children.items()),
            Err(_) => Err(DiagramFault::Memory),
        }
    }

    /// The different children that the links that give the atom look at, without those that can't be there.
    pub(crate) fn children(
        &self,
        alloc: Global,
        now: &Cells,
        atom: Atom,
    ) -> Result<Children, NoMemory>
        ensures { IfOk result (λ c. c ≡ different (standing_of self.now now.now atom)) }
    {
        let places = self.givers.downs.of(atom);
        Children::of(
            alloc,
            now,
            self.system.down.items(),
            places,
            self.system.child.items(),
            &self.makers,
        )
    }

    /// For each kind the spawn rules that its nodes may use.
    pub(crate) fn doors(&self, alloc: Global, now: &Cells) -> Result<Doors, NoMemory>
        ensures { IfOk result (HaveDoors self.now.child now.now) }
    {
        Doors::of_spawns(alloc, self.system.child.items(), now)
    }

    // The children that serve for a cell, where a node of the kind may use the spawn rules at these places alone.
    fn children_through(
        &self,
        alloc: Global,
        now: &Cells,
        cell: (u32, Atom),
        doors: &[usize],
    ) -> Result<Children, NoMemory>
        requires { AreDoors self.now.child now.now cell.0 doors.now }
        ensures { IfOk result (DoServe self.now now.now cell.0 cell.1) }
    {
        let places = self.givers.downs.of(cell.1);
        Children::through(
            alloc,
            now,
            self.system.down.items(),
            places,
            self.system.child.items(),
            doors,
        )
    }

    /// The next value of a cell whose kind may use the spawn rules at these places alone. Besides the compositions it costs
    /// a look at each of these rules for each link from a child that gives the atom. A cell that is true of every label
    /// costs nothing.
    pub(crate) fn next_through(
        &self,
        alloc: Global,
        d: &mut Diagrams,
        now: &Cells,
        cell: (u32, Atom, Ref),
        doors: &[usize],
    ) -> Result<Ref, DiagramFault>
        requires inside { AreIn d.old.branches now.now }
        requires start { cell.2 ≡ place_in now.now cell.0 cell.1 }
        requires doors { AreDoors self.now.child now.now cell.0 doors.now }
        ensures { Calculates d.old d.new (results_in self.now d.old now.now cell.0 cell.1) (next_in self.now d.old now.now cell.0 cell.1) result }
    {
        if is_whole(d, cell.2) {
            return Ok(cell.2);
        }
        if !self.is_given_below(cell.1) {
            return self.next_by(alloc, d, now, cell, &[]);
        }
        match self.children_through(alloc, now, (cell.0, cell.1), doors) {
            Ok(children) => self.next_by(alloc, d, now, cell, children.items()),
            Err(_) => Err(DiagramFault::Memory),
        }
    }

    /// The next value of a cell, where these children serve for it.
    pub(crate) fn next_by(
        &self,
        alloc: Global,
        d: &mut Diagrams,
        now: &Cells,
        cell: (u32, Atom, Ref),
        children: &[Child],
    ) -> Result<Ref, DiagramFault>
        requires inside { AreIn d.old.branches now.now }
        requires start { cell.2 ≡ place_in now.now cell.0 cell.1 }
        requires arena { IsArena d.old }
        requires children { DoServe self.now now.now cell.0 cell.1 children.now }
        ensures { Calculates d.old d.new (results_in self.now d.old now.now cell.0 cell.1) (next_in self.now d.old now.now cell.0 cell.1) result }
    {
        let locals = self.givers.locals.of(cell.1);
        let ups = self.givers.ups.of(cell.1);
        next_of(alloc, &self.system, (locals, ups), children, d, now, cell)
    }
}

/// Whether a diagram is the one that is true of every label. Constant.
pub(crate) fn is_whole(d: &Diagrams, f: Ref) -> bool
    requires { IsIn d.now.branches f }
    ensures whole { result ≡ true → tree_at d.now.branches f ≡ leaf true }
    ensures other { result ≡ false → tree_at d.now.branches f ≢ leaf true }
    ensures arena { IsArena d.now }
{
    d.same(f, Diagrams::leaf(true))
}

// The cell with its diagram, and behind it the terms of the local rules, of the links to the parent, and of those from the
// children.
fn next_of(
    alloc: Global,
    system: &System,
    givers: (&[usize], &[usize]),
    children: &[Child],
    d: &mut Diagrams,
    now: &Cells,
    cell: (u32, Atom, Ref),
) -> Result<Ref, DiagramFault>
    requires inside { AreIn d.old.branches now.now }
    requires start { cell.2 ≡ place_in now.now cell.0 cell.1 }
    requires arena { IsArena d.old }
    requires locals { givers.0.now ≡ places_from (λ r. r.gives == cell.1) 0 system.now.local }
    requires ups { givers.1.now ≡ places_from (λ l. l.to == cell.1) 0 system.now.up }
    requires children { DoServe system.now now.now cell.0 cell.1 children.now }
    ensures { Calculates d.old d.new (results_in system.now d.old now.now cell.0 cell.1) (next_in system.now d.old now.now cell.0 cell.1) result }
{
    let (kind, atom, start) = cell;
    let by_locals = add_locals(d, now, kind, atom, system.local.items(), givers.0, start)?;
    let by_ups = add_ups(d, atom, system.up.items(), givers.1, by_locals)?;
    add_children(alloc, d, now, kind, children, by_ups)
}
