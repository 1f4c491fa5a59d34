//! The steps of an entry at a node, with the steps of the entries that it names. The levels above wait on a stack, so only
//! memory limits the length of a chain of entries.
ghost use Rattle.std.specs.Prelude.{◌≡◌, ◌<◌, ◌≤◌, ◌-◌, ◌∷◌, ◌++◌, ℕ, List, [], IsTrue, IfOk, OnOk, Some, None, false, length, slice_get};
ghost use Rattle.simple_core.specs.declared.system.TheConstants.{MOST_KINDS};
ghost use Rattle.proof_core.specs.Trails.{progress_of};
ghost use Rattle.proof_check.specs.Unfolding.{Progress, unfold_entry};
ghost use Rattle.proof_core.specs.Walks.{GoesOn, level_items, level_base, rest_of, node_of, walk_work};
ghost use Rattle.proof_core.specs.Passes.{seen};
ghost use Rattle.proof_core.specs.declared.unfolded.TheConstants.{MOST_LISTED};

use crate::passes::{Passes, child_for, down, plain, way_from};
use crate::trails::Trail;
use crate::worlds::{GrownChild, World, after_local, from_of, needed_by, spawned};
use proof_check::{Below, ProofItem, Reason};
use std::alloc::Global;
use std::mem;
use tp_base::{Atom, NoMemory, Path};

/// A level: the items of an entry that were passed so far. Below it may be `depth - 1` further levels.
#[derive(Drop)]
pub struct Level {
    pub entry: u32,
    pub depth: usize,
    pub here: Passes,
}

/// A level that waits for the entry at its child. Its present item is for this atom, by a link from the atom `from`.
#[derive(Drop)]
pub struct Frame {
    pub level: Level,
    pub atom: Atom,
    pub from: Atom,
    pub child: u32,
}

/// The present node, its level, and the levels above it.
#[derive(Drop)]
pub struct Walk {
    pub at: Path,
    pub level: Level,
    pub stack: Vec<Frame>,
}

/// Passes the items of an entry at a node. Linear in the items that are passed and in the lengths of the steps' paths, on average.
pub fn entry_passed(
    entry: u32,
    at: Path,
    world: &World<'_>,
    trail: &mut Trail,
) -> Result<Passes, NoMemory>
    requires short { length (unfold_entry world.now.system.now world.now.entries.now (length world.now.entries.now) entry at (progress_of trail.old)).0.steps ≤ MOST_LISTED }
    ensures trail { OnOk result (progress_of trail.new ≡ (unfold_entry world.now.system.now world.now.entries.now (length world.now.entries.now) entry at (progress_of trail.old)).0) }
    ensures here { IfOk result (λ here. seen at here ≡ (unfold_entry world.now.system.now world.now.entries.now (length world.now.entries.now) entry at (progress_of trail.old)).1) }
{
    let alloc = trail.allocator();
    let mut walk = Walk::of(entry, at, world, alloc);
    'turns: loop {
        let more = walk.turn(world, trail)?;
        if !more {
            return Ok(walk.level.here);
        }
    }
}

// The number of children that a node of the entry's kind had before all steps.
fn base_of(entry: u32, world: &World<'_>) -> u32
    ensures base { result ≡ level_base world.now.system.now world.now.entries.now entry }
    ensures few { result ≤ MOST_KINDS }
{
    match world.entries.items().get(entry as usize) {
        Some(entry) => world.counts.children_of(entry.kind),
        None => 0,
    }
}

impl Level {
    // The next item of the present level.
    fn next(&self, world: &World<'_>) -> Option<ProofItem>
        ensures { result ≡ slice_get (level_items world.now.entries.now self.now.depth self.now.entry) (length self.now.here) }
    {
        if self.depth == 0 {
            return None;
        }
        let entry = world.entries.items().get(self.entry as usize)?;
        let item = entry.items.items().get(self.here.len())?;
        Some(*item)
    }
}

impl Walk {
    // The walk at an entry's node, before its first item.
    fn of(entry: u32, at: Path, world: &World<'_>, alloc: Global) -> Walk
        ensures stands { result.at ≡ node_of at result.stack.items }
        ensures whole { (done : Progress) → rest_of world.now.system.now world.now.entries.now at result done
            ≡ unfold_entry world.now.system.now world.now.entries.now (length world.now.entries.now) entry at done }
    {
        let here = Passes::new(alloc);
        let stack = Vec::new(alloc);
        let depth = world.entries.items().len();
        Walk {
            at,
            level: Level { entry, depth, here },
            stack,
        }
    }

    // Passes the next item, or goes back to the level above. False where the walk has ended.
    fn turn(&mut self, world: &World<'_>, trail: &mut Trail) -> Result<bool, NoMemory>
        requires short { length (progress_of trail.old).steps ≤ MOST_LISTED }
        ensures on { OnOk result (GoesOn world.now.system.now world.now.entries.now self.old (progress_of trail.old) self.new (progress_of trail.new)) }
        ensures work { IfOk result (λ more. IsTrue more → walk_work world.now.entries.now self.new < walk_work world.now.entries.now self.old) }
        ensures end { IfOk result (λ more. more ≡ false → (v : List ℕ) → self.new.at ≡ node_of v self.new.stack.items
            → rest_of world.now.system.now world.now.entries.now v self.new (progress_of trail.new) ≡ (progress_of trail.new, seen v self.new.level.here)) }
    {
        match self.level.next(world) {
            Some(item) => {
                self.pass(item, world, trail)?;
                Ok(true)
            }
            None => self.leave(world),
        }
    }

    fn pass(
        &mut self,
        item: ProofItem,
        world: &World<'_>,
        trail: &mut Trail,
    ) -> Result<(), NoMemory>
        requires short { length (progress_of trail.old).steps ≤ MOST_LISTED }
        requires next { slice_get (level_items world.now.entries.now self.old.level.depth self.old.level.entry) (length self.old.level.here) ≡ Some item }
        ensures on { OnOk result (GoesOn world.now.system.now world.now.entries.now self.old (progress_of trail.old) self.new (progress_of trail.new)) }
        ensures work { OnOk result (walk_work world.now.entries.now self.new < walk_work world.now.entries.now self.old) }
    {
        let alloc = trail.allocator();
        match item.reason {
            Reason::Start => self.level.here.push(plain(alloc, item.atom)),
            Reason::Up(_) => self.level.here.push(plain(alloc, item.atom)),
            Reason::Local(l) => {
                after_local(world.system, l, &self.at, trail)?;
                self.level.here.push(plain(alloc, item.atom))
            }
            // An entry's node is an added one, so none of its children is a node of the page.
            Reason::Down(_, Below::Real(k)) => {
                let pass = down(item.atom, k, Vec::new(alloc))?;
                self.level.here.push(pass)
            }
            Reason::Down(link, Below::Grown(spawn, entry)) => {
                let grown = GrownChild { link, spawn, entry };
                self.pass_grown(item, grown, world, trail)
            }
        }
    }

    // Passes an item whose child a spawn rule adds.
    fn pass_grown(
        &mut self,
        item: ProofItem,
        grown: GrownChild,
        world: &World<'_>,
        trail: &mut Trail,
    ) -> Result<(), NoMemory>
        requires short { length (progress_of trail.old).steps ≤ MOST_LISTED }
        requires next { slice_get (level_items world.now.entries.now self.old.level.depth self.old.level.entry) (length self.old.level.here) ≡ Some item }
        requires reason { item.reason ≡ Reason.Down grown.link (Below.Grown grown.spawn grown.entry) }
        ensures on { OnOk result (GoesOn world.now.system.now world.now.entries.now self.old (progress_of trail.old) self.new (progress_of trail.new)) }
        ensures work { OnOk result (walk_work world.now.entries.now self.new < walk_work world.now.entries.now self.old) }
    {
        let alloc = trail.allocator();
        match spawned(world.system, grown.spawn) {
            Some(kind) => {
                let child = child_for(&self.level.here, needed_by(world.system, grown.spawn));
                let base = base_of(self.level.entry, world);
                let number = trail.bring(kind, base, &self.at, child)?;
                let from = from_of(world.system, grown.link);
                self.enter(grown.entry, number, item.atom, from, alloc)
            }
            None => self.level.here.push(plain(alloc, item.atom)),
        }
    }

    // Goes on with an entry at the child with this number. The item for it is of this atom, by a link from the atom `from`.
    fn enter(
        &mut self,
        entry: u32,
        child: u32,
        atom: Atom,
        from: Atom,
        alloc: Global,
    ) -> Result<(), NoMemory>
        ensures at { OnOk result (self.new.at ≡ self.old.at ++ child ∷ []) }
        ensures level { OnOk result (self.new.level ≡ record { entry = entry; depth = self.old.level.depth - 1; here = [] }) }
        ensures stack { OnOk result (self.new.stack.items ≡ self.old.stack.items ++ record { level = self.old.level; atom = atom; from = from; child = child } ∷ []) }
    {
        let above = Level {
            entry,
            depth: self.level.depth.saturating_sub(1),
            here: Passes::new(alloc),
        };
        let level = mem::replace(&mut self.level, above);
        self.at.push(child)?;
        self.stack.push(Frame {
            level,
            atom,
            from,
            child,
        })?;
        Ok(())
    }

    // Goes back to the level above. The present level has no more items.
    fn leave(&mut self, world: &World<'_>) -> Result<bool, NoMemory>
        requires none { slice_get (level_items world.now.entries.now self.old.level.depth self.old.level.entry) (length self.old.level.here) ≡ None }
        ensures on { (done : Progress) → OnOk result (GoesOn world.now.system.now world.now.entries.now self.old done self.new done) }
        ensures work { IfOk result (λ more. IsTrue more → walk_work world.now.entries.now self.new < walk_work world.now.entries.now self.old) }
        ensures end { (done : Progress) → IfOk result (λ more. more ≡ false → (v : List ℕ) → self.new.at ≡ node_of v self.new.stack.items
            → rest_of world.now.system.now world.now.entries.now v self.new done ≡ (done, seen v self.new.level.here)) }
    {
        let Some(frame) = self.stack.pop() else {
            return Ok(false);
        };
        self.at.pop();
        let inside = mem::replace(&mut self.level, frame.level);
        let way = way_from(inside.here, frame.from);
        let pass = down(frame.atom, frame.child, way)?;
        self.level.here.push(pass)?;
        Ok(true)
    }
}
