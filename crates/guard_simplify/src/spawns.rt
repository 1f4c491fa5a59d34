//! The rules that spawn the nodes of forests.
ghost use Rattle.std.specs.Prelude.{◌≡◌, ◌++◌, length, IfOk, OnOk, All};
ghost use Rattle.std.specs.List.{flat_map};
ghost use Rattle.simple_core.specs.Systems.{IsAtom};
ghost use Rattle.guard_simplify.specs.Forests.{AreBelow, spawned_by, spawned_below, spawns_from, spawns_by};

use crate::forest_nodes::RuleForest;
use crate::formula_rules::atom_of;
use crate::node_numbers::NodeNumbers;
use simple_core::Spawn;
use std::alloc::Global;
use tp_base::{Atom, NoMemory, Path};

impl RuleForest {
    // The spawns of the children of the node at the path, by the atom, behind those that are there.
    fn spawn_children(
        &self,
        needs: Atom,
        at: &Path,
        numbers: &NodeNumbers,
        spawns: &mut Vec<Spawn>,
    ) -> Result<(), NoMemory>
        ensures { OnOk result (spawns.new.items ≡ spawns.old.items ++ spawned_by numbers.now self.now needs at.now) }
    {
        let count = self.children(at);
        'children: for child in 0..count {
            let mut below = at.copy()?;
            below.push(child)?;
            let node = self.node(&below)?;
            spawns.push(Spawn {
                needs,
                kind: numbers.kind(&node),
            })?;
        }
        Ok(())
    }

    // The spawns of the children of the node at the path, by its own atom, behind those that are there.
    fn spawn_below(
        &self,
        at: &Path,
        numbers: &NodeNumbers,
        spawns: &mut Vec<Spawn>,
    ) -> Result<(), NoMemory>
        ensures { OnOk result (spawns.new.items ≡ spawns.old.items ++ spawned_below numbers.now self.now at.now) }
    {
        let node = self.node(at)?;
        self.spawn_children(numbers.own_atom(&node), at, numbers, spawns)
    }

    // The same for all nodes of the forest, one after another.
    fn spawn_below_each(
        &self,
        numbers: &NodeNumbers,
        spawns: &mut Vec<Spawn>,
    ) -> Result<(), NoMemory>
        ensures { OnOk result (spawns.new.items ≡ spawns.old.items ++ flat_map (spawned_below numbers.now self.now) self.now.paths.items) }
    {
        'paths: for at in &self.paths {
            self.spawn_below(at, numbers, spawns)?;
        }
        Ok(())
    }

    // The spawns of the forest, whose rule's guard has the atom `needs`, behind those that are there.
    fn add_spawns(
        &self,
        needs: Atom,
        numbers: &NodeNumbers,
        spawns: &mut Vec<Spawn>,
    ) -> Result<(), NoMemory>
        ensures { OnOk result (spawns.new.items ≡ spawns.old.items ++ spawns_from numbers.now needs self.now) }
    {
        let root = Path::root(*self.paths.allocator());
        self.spawn_children(needs, &root, numbers, spawns)?;
        self.spawn_below_each(numbers, spawns)
    }
}

/// The spawns of all forests, in the order of the rules, where `guards` are the numbers of the atoms of the rules'
/// guards. Linear in the forests, but for the look-ups.
pub(crate) fn all_spawns(
    alloc: Global,
    forests: &[RuleForest],
    guards: &[usize],
    numbers: &NodeNumbers,
) -> Result<Vec<Spawn>, NoMemory>
    requires below { AreBelow (length guards.now) forests.now }
    requires atoms { All IsAtom guards.now }
    ensures { IfOk result (λ v. v.items ≡ flat_map (spawns_by numbers.now guards.now) forests.now) }
{
    let mut spawns = Vec::new(alloc);
    'forests: for forest in forests {
        let guard = guards[forest.rule as usize];
        forest.add_spawns(atom_of(guard), numbers, &mut spawns)?;
    }
    Ok(spawns)
}
