//! An index of which cells read a cell.
ghost use Rattle.std.specs.Prelude.{◌≡◌, [], map, IfOk, OnOk};
ghost use Rattle.tp_base.specs.Classes.{union_of};
ghost use Rattle.simple_core.specs.declared.rules.Spawn.{Spawn};
ghost use Rattle.saturation.specs.Tables.{AreReadsOf};

use crate::tables::Table;
use class_diagrams::Marks;
use gathered::Gathered;
use simple_core::{Spawn, System};
use std::alloc::Global;
use tp_base::{ClassSet, NoMemory};

/// The rules of a system as tables. `by_needs` has what local rules give by their needs, `by_child` what links give from a
/// child, and `makers` the atoms that make each kind. `needs` are all atoms that make children, and `looked` these and the
/// visible ones.
#[derive(Drop)]
pub(crate) struct Reads {
    pub(crate) by_needs: Table,
    pub(crate) by_child: Table,
    pub(crate) makers: Table,
    pub(crate) needs: ClassSet,
    pub(crate) looked: Marks,
}

impl Reads {
    pub(crate) fn new(alloc: Global, system: &System) -> Result<Self, NoMemory>
        ensures { IfOk result (AreReadsOf system.now) }
    {
        let by_needs = Table::of_needs(alloc, system.local.items())?;
        let by_child = Table::of_links(alloc, system.down.items())?;
        let makers = Table::of_spawns(alloc, system.child.items())?;
        let needs = needs_of(alloc, system.child.items())?;
        let looked = Marks::of(alloc, &looked_at(alloc, system)?)?;
        Ok(Reads {
            by_needs,
            by_child,
            makers,
            needs,
            looked,
        })
    }
}

// The atoms that make children.
fn needs_of(alloc: Global, spawns: &[Spawn]) -> Result<ClassSet, NoMemory>
    ensures { IfOk result (λ needs. needs ≡ union_of [] (map (λ (c : Spawn). c.needs) spawns.now)) }
{
    let mut needs = Gathered::new(alloc);
    add_makers(spawns, &mut needs)?;
    needs.into_set()
}

// The visible atoms, and those that make children.
fn looked_at(alloc: Global, system: &System) -> Result<ClassSet, NoMemory>
    ensures { IfOk result (λ looked. looked ≡ union_of (union_of [] system.now.visible) (map (λ (c : Spawn). c.needs) system.now.child)) }
{
    let mut looked = Gathered::new(alloc);
    looked.union(&system.visible)?;
    add_makers(system.child.items(), &mut looked)?;
    looked.into_set()
}

fn add_makers(spawns: &[Spawn], atoms: &mut Gathered) -> Result<(), NoMemory>
    ensures { OnOk result (atoms.new ≡ union_of atoms.old (map (λ (c : Spawn). c.needs) spawns.now)) }
{
    let mut rest = spawns;
    'spawns: while let Some((spawn, others)) = rest.split_first() {
        atoms.add(spawn.needs)?;
        rest = others;
    }
    Ok(())
}
