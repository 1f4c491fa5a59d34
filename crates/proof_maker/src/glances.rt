//! What one look at an atom finds: its first round and its reason.
ghost use Rattle.std.specs.Prelude.{◌≡◌, ℕ, List, slice_get, Some, IfOk, OnOk};
ghost use Rattle.simple_core.specs.Knowledge.{KeepsAsking};
ghost use Rattle.simple_core.specs.Rounds.{IsFirst};
ghost use Rattle.proof_needs.specs.Triples.{page_node, added};
ghost use Rattle.proof_maker.specs.Worlds.{labels_of, IsPlace, HasArrivals, IsAsking, IsReady};
ghost use Rattle.proof_maker.specs.PlaceMemos.{IsPlaceMemo};
ghost use Rattle.proof_needs.specs.Spots.{paths_in, triple_of};
ghost use Rattle.proof_maker.specs.Glances.{IsGlance, IsGlanceAt, IsNodeAt, IsKeyOf};

use crate::choices::{chosen, looks_below};
use crate::place_memo::PlaceMemo;
use crate::worlds::{Place, World, first};
use indexmap::IndexSet;
use proof_needs::{Choice, TripleKey, path_of};
use simple_core::Summaries;
use std::alloc::Global;
use tp_base::{Atom, ClassSet, NoMemory};

/// What a look at an atom finds: its first round, its reason, and for a spawn the visible label in the round before.
#[derive(Drop)]
pub(crate) struct Glance {
    pub(crate) round: u64,
    pub(crate) choice: Choice,
    pub(crate) below: ClassSet,
}

// Looks at an atom whose first round at the place is `round`.
fn glance_in<S: Summaries>(
    alloc: Global,
    world: &World<'_, S>,
    place: &Place<'_>,
    atom: Atom,
    round: u64,
) -> Result<Glance, NoMemory>
    requires ready { IsReady S.Summaries world.now }
    requires place { IsPlace S.Summaries world.now place.now }
    requires arrivals { HasArrivals world.now.system.now place.now }
    requires first { IsFirst (labels_of world.now.system.now world.now.page.now place.now) atom (Some round) }
    requires asking { IsAsking world.now.system.now (S.known world.now.sums.now) place.now }
    ensures glance { IfOk result (IsGlanceAt world.now.system.now world.now.page.now place.now atom) }
    ensures asking { OnOk result (IsAsking world.now.system.now (S.known world.now.sums.now) place.now) }
{
    let found = chosen(alloc, world, place, atom, round)?;
    Ok(Glance {
        round,
        choice: found.choice,
        below: found.below,
    })
}

/// Looks at an atom that comes at the node of this number.
pub(crate) fn glance_node<S: Summaries>(
    alloc: Global,
    nodes: &IndexSet<Vec<u32>>,
    n: usize,
    world: &World<'_, S>,
    atom: Atom,
) -> Result<Glance, NoMemory>
    requires ready { IsReady S.Summaries world.now }
    requires node { IsNodeAt world.now.system.now world.now.page.now (paths_in nodes.now.keys) n atom }
    ensures { IfOk result (λ g. (v : List ℕ) → slice_get (paths_in nodes.now.keys) n ≡ Some v → IsGlance world.now.system.now world.now.page.now (page_node v) atom g) }
{
    let at = path_of(alloc, nodes, n)?;
    let place = Place::Node(&at);
    let round = first(world, &place, atom).unwrap_or(0);
    glance_in(alloc, world, &place, atom, round)
}

/// Looks at an atom that comes at the added node of a triple. What comes to that node is asked only where its children are looked at.
pub(crate) fn glance_added<S: Summaries>(
    alloc: Global,
    key: &TripleKey,
    world: &World<'_, S>,
    atom: Atom,
    memo: &mut PlaceMemo,
) -> Result<Glance, NoMemory>
    requires ready { IsReady S.Summaries world.now }
    requires key { IsKeyOf world.now.system.now world.now.page.now (S.known world.now.sums.now) (triple_of key.now) atom }
    requires memo { IsPlaceMemo world.now.system.now memo.old }
    ensures glance { IfOk result (IsGlance world.now.system.now world.now.page.now (added (triple_of key.now)) atom) }
    ensures asking { OnOk result (KeepsAsking world.now.system.now (S.known world.now.sums.now)) }
    ensures memo { IsPlaceMemo world.now.system.now memo.new }
{
    let parent = key.parent.copy()?;
    let entry = world.sums.entry(key.kind, &parent);
    let bare = Place::Added(key.kind, &parent, None, entry);
    let round = first(world, &bare, atom).unwrap_or(0);
    let below = looks_below(world, &bare, atom, round)?;
    if !below {
        return glance_in(alloc, world, &bare, atom, round);
    }
    let row = memo.reach(alloc, world.system, world.sums, key.kind, &parent)?;
    let told = memo.told(row);
    let place = Place::Added(key.kind, &parent, Some(told), entry);
    glance_in(alloc, world, &place, atom, round)
}
