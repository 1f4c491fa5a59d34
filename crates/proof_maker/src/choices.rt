//! The canonical reason of an atom at a place: the first rule whose premises all stand in the round before the atom's first
//! round.
ghost use Rattle.std.specs.Prelude.{◌≡◌, ◌&&◌, ◌-◌, length, find, Contains, IfOk, IfSome, option_map};
ghost use Rattle.std.specs.List.{flat_map, range_with_len};
ghost use Rattle.tp_base.specs.Classes.{has_class};
ghost use Rattle.simple_core.specs.Labels.{visible_in};
ghost use Rattle.simple_core.specs.Rounds.{grown};
ghost use Rattle.proof_needs.specs.Choices.{by_local, by_up, ways_down, ways, chosen};
ghost use Rattle.proof_maker.specs.Worlds.{setting_of, path_of, labels_of, IsPlace, HasArrivals, IsNodeOf, IsAsking, IsReady, stands_at, real_has, spawn_has};
ghost use Rattle.proof_maker.specs.Glances.{HasBelow};
ghost use Rattle.proof_maker.specs.Reasons.{found_reason};

use crate::worlds::{Place, World, added_has, has, has_all, idle_at, is_above, visible_at};
use class_diagrams::Marks;
use proof_needs::{Choice, from_of};
use simple_core::{Spawn, Summaries};
use std::alloc::Global;
use tp_base::{Atom, ClassSet, NoMemory};

/// A reason, and for a spawn the visible label in the round before: with it the reason was found.
#[derive(Drop)]
pub(crate) struct Found {
    pub(crate) choice: Choice,
    pub(crate) below: ClassSet,
}

// A place in a round, and the visible part of its label then, with the marks of that where they are worth it.
#[derive(Clone, Copy)]
struct Scene<'a> {
    place: &'a Place<'a>,
    round: u64,
    visible: &'a ClassSet,
    marks: &'a Option<Marks>,
}

// A reason that is no spawn.
fn alone(alloc: Global, choice: Choice) -> Found
    ensures { result.choice ≡ choice }
{
    Found {
        choice,
        below: ClassSet::new(alloc),
    }
}

/// The reason for an atom whose first round is `round`.
pub(crate) fn chosen<S: Summaries>(
    alloc: Global,
    world: &World<'_, S>,
    place: &Place<'_>,
    atom: Atom,
    round: u64,
) -> Result<Found, NoMemory>
    requires ready { IsReady S.Summaries world.now }
    requires place { IsPlace S.Summaries world.now place.now }
    requires arrivals { HasArrivals world.now.system.now place.now }
    requires asking { IsAsking world.now.system.now (S.known world.now.sums.now) place.now }
    ensures choice { IfOk result (λ f. found_reason f ≡ chosen world.now.system.now (setting_of world.now.system.now world.now.page.now place.now) (path_of place.now) atom round) }
    ensures below { IfOk result (HasBelow world.now place.now (round - 1)) }
{
    match round.checked_sub(1) {
        None => Ok(alone(alloc, Choice::Start)),
        Some(before) => {
            let way = way(alloc, world, place, atom, before)?;
            match way {
                Some(found) => Ok(found),
                None => Ok(alone(alloc, Choice::Start)),
            }
        }
    }
}

/// Whether an atom whose first round is `round` may be given by a child: a link from a child gives it, and neither the node's own atoms
/// nor its parent do. Only what is asked rests on it, and no answer.
pub(crate) fn looks_below<S: Summaries>(
    world: &World<'_, S>,
    place: &Place<'_>,
    atom: Atom,
    round: u64,
) -> Result<bool, NoMemory>
    requires ready { IsReady S.Summaries world.now }
    requires place { IsPlace S.Summaries world.now place.now }
{
    if round == 0 {
        return Ok(false);
    }
    may_come_from_below(world, place, atom, round - 1)
}

fn may_come_from_below<S: Summaries>(
    world: &World<'_, S>,
    place: &Place<'_>,
    atom: Atom,
    before: u64,
) -> Result<bool, NoMemory>
    requires ready { IsReady S.Summaries world.now }
    requires place { IsPlace S.Summaries world.now place.now }
{
    if world.rules.downs.of(atom).is_empty() {
        return Ok(false);
    }
    let rule = local_way(world, place, world.rules.locals.of(atom), before);
    if rule.is_some() {
        return Ok(false);
    }
    let link = up_way(world, place, world.rules.ups.of(atom), before)?;
    Ok(link.is_none())
}

// The first way to the atom all of whose premises stand in the round.
fn way<S: Summaries>(
    alloc: Global,
    world: &World<'_, S>,
    place: &Place<'_>,
    atom: Atom,
    round: u64,
) -> Result<Option<Found>, NoMemory>
    requires ready { IsReady S.Summaries world.now }
    requires place { IsPlace S.Summaries world.now place.now }
    requires arrivals { HasArrivals world.now.system.now place.now }
    requires asking { IsAsking world.now.system.now (S.known world.now.sums.now) place.now }
    ensures below { IfOk result (λ w. IfSome w (HasBelow world.now place.now round)) }
    ensures choice { IfOk result (λ w. option_map found_reason w
        ≡ find (stands_at world.now place.now round) (ways world.now.system.now (setting_of world.now.system.now world.now.page.now place.now) (path_of place.now) atom)) }
{
    if let Some(rule) = local_way(world, place, world.rules.locals.of(atom), round) {
        return Ok(Some(alone(alloc, Choice::Local(rule as u64))));
    }
    if let Some(link) = up_way(world, place, world.rules.ups.of(atom), round)? {
        return Ok(Some(alone(alloc, Choice::Up(link as u64))));
    }
    down_way(alloc, world, place, world.rules.downs.of(atom), round)
}

fn local_way<S: Summaries>(
    world: &World<'_, S>,
    place: &Place<'_>,
    rules: &[usize],
    round: u64,
) -> Option<usize>
    requires ready { IsReady S.Summaries world.now }
    requires place { IsPlace S.Summaries world.now place.now }
    ensures { result ≡ find (λ l. stands_at world.now place.now round (by_local l)) rules.now }
{
    for rule in rules {
        if local_stands(world, place, *rule, round) {
            return Some(*rule);
        }
    }
    None
}

fn local_stands<S: Summaries>(
    world: &World<'_, S>,
    place: &Place<'_>,
    rule: usize,
    round: u64,
) -> bool
    requires ready { IsReady S.Summaries world.now }
    requires place { IsPlace S.Summaries world.now place.now }
    ensures { result ≡ stands_at world.now place.now round (by_local rule) }
{
    match world.system.local.items().get(rule) {
        Some(rule) => has_all(world, place, &rule.needs, round),
        None => true,
    }
}

fn up_way<S: Summaries>(
    world: &World<'_, S>,
    place: &Place<'_>,
    links: &[usize],
    round: u64,
) -> Result<Option<usize>, NoMemory>
    requires ready { IsReady S.Summaries world.now }
    requires node { IsNodeOf world.now.page.now place.now }
    ensures { IfOk result (λ w. w ≡ find (λ l. stands_at world.now place.now round (by_up l)) links.now) }
{
    for link in links {
        let from = from_of(world.system.up.items(), *link);
        if is_above(world, place, from, round)? {
            return Ok(Some(*link));
        }
    }
    Ok(None)
}

fn down_way<S: Summaries>(
    alloc: Global,
    world: &World<'_, S>,
    place: &Place<'_>,
    links: &[usize],
    round: u64,
) -> Result<Option<Found>, NoMemory>
    requires ready { IsReady S.Summaries world.now }
    requires place { IsPlace S.Summaries world.now place.now }
    requires arrivals { HasArrivals world.now.system.now place.now }
    requires asking { IsAsking world.now.system.now (S.known world.now.sums.now) place.now }
    ensures below { IfOk result (λ w. IfSome w (HasBelow world.now place.now round)) }
    ensures choice { IfOk result (λ w. option_map found_reason w
        ≡ find (stands_at world.now place.now round) (flat_map (ways_down world.now.system.now (setting_of world.now.system.now world.now.page.now place.now) (path_of place.now)) links.now)) }
{
    for link in links {
        let way = link_way(alloc, world, place, *link, round)?;
        if way.is_some() {
            return Ok(way);
        }
    }
    Ok(None)
}

// The first child, in the page or by a spawn rule, that has the link's left side by the round.
fn link_way<S: Summaries>(
    alloc: Global,
    world: &World<'_, S>,
    place: &Place<'_>,
    link: usize,
    round: u64,
) -> Result<Option<Found>, NoMemory>
    requires ready { IsReady S.Summaries world.now }
    requires place { IsPlace S.Summaries world.now place.now }
    requires arrivals { HasArrivals world.now.system.now place.now }
    requires asking { IsAsking world.now.system.now (S.known world.now.sums.now) place.now }
    ensures below { IfOk result (λ w. IfSome w (HasBelow world.now place.now round)) }
    ensures choice { IfOk result (λ w. option_map found_reason w
        ≡ find (stands_at world.now place.now round) (ways_down world.now.system.now (setting_of world.now.system.now world.now.page.now place.now) (path_of place.now) link)) }
{
    let from = from_of(world.system.down.items(), link);
    if let Some(child) = real_child(world, place, from, round) {
        return Ok(Some(alone(alloc, Choice::Real(link as u64, child))));
    }
    let visible = visible_at(alloc, world, place, round)?;
    let marks = marks_for(alloc, &visible, world.system.child.items().len())?;
    let scene = Scene {
        place,
        round,
        visible: &visible,
        marks: &marks,
    };
    match added_child(world, &scene, from) {
        Some(spawn) => Ok(Some(Found {
            choice: Choice::Spawn(link as u64, spawn as u64),
            below: visible,
        })),
        None => Ok(None),
    }
}

// The marks of a set for so many looks, where they are worth it, which is for time alone.
fn marks_for(alloc: Global, set: &ClassSet, looks: usize) -> Result<Option<Marks>, NoMemory>
    ensures { IfOk result (λ m. IfSome m (λ n. n ≡ set.now)) }
{
    if are_worth_marks(set, looks) {
        Ok(Some(Marks::of(alloc, set)?))
    } else {
        Ok(None)
    }
}

// Whether so many looks are worth the marks of a set, which are a byte for each number up to its largest atom.
fn are_worth_marks(set: &ClassSet, looks: usize) -> bool {
    match set.len() {
        0 => false,
        count => count <= looks && set.at(count - 1).0 as usize / NUMBERS_A_LOOK <= looks,
    }
}

// How many bytes are filled in the time of one look.
const NUMBERS_A_LOOK: usize = 64;

fn real_child<S: Summaries>(
    world: &World<'_, S>,
    place: &Place<'_>,
    from: Atom,
    round: u64,
) -> Option<u32>
    requires ready { IsReady S.Summaries world.now }
    requires node { IsNodeOf world.now.page.now place.now }
    ensures { result ≡ find (real_has world.now place.now round from)
        (range_with_len 0 ((setting_of world.now.system.now world.now.page.now place.now).reals (path_of place.now))) }
{
    match place {
        Place::Node(at) => world.closed.first_child(at, from, round),
        Place::Added(_, _, _, _) => None,
    }
}

// The first spawn rule whose child has the atom. Of an added node that was asked about, the first rules are passed over whose atom
// never comes to it.
fn added_child<S: Summaries>(world: &World<'_, S>, scene: &Scene<'_>, from: Atom) -> Option<usize>
    requires ready { IsReady S.Summaries world.now }
    requires place { IsPlace S.Summaries world.now scene.now.place.now }
    requires arrivals { HasArrivals world.now.system.now scene.now.place.now }
    requires asking { IsAsking world.now.system.now (S.known world.now.sums.now) scene.now.place.now }
    requires visible { scene.now.visible.now ≡ visible_in world.now.system.now (labels_of world.now.system.now world.now.page.now scene.now.place.now scene.now.round) }
    requires marks { IfSome scene.now.marks.now (λ m. m ≡ scene.now.visible.now) }
    ensures { result ≡ find (spawn_has world.now scene.now.place.now scene.now.round from) (range_with_len 0 (length world.now.system.now.child)) }
{
    let spawns = world.system.child.items();
    let first = idle_at(scene.place);
    for c in first..spawns.len() {
        let spawn = spawns[c];
        if spawn_stands(world, scene, &spawn, from) {
            return Some(c);
        }
    }
    None
}

fn spawn_stands<S: Summaries>(
    world: &World<'_, S>,
    scene: &Scene<'_>,
    spawn: &Spawn,
    from: Atom,
) -> bool
    requires ready { IsReady S.Summaries world.now }
    requires place { IsPlace S.Summaries world.now scene.now.place.now }
    requires visible { scene.now.visible.now ≡ visible_in world.now.system.now (labels_of world.now.system.now world.now.page.now scene.now.place.now scene.now.round) }
    requires marks { IfSome scene.now.marks.now (λ m. m ≡ scene.now.visible.now) }
    requires asking { IsAsking world.now.system.now (S.known world.now.sums.now) scene.now.place.now }
    requires listed { Contains world.now.system.now.child spawn.now }
    ensures { result ≡ (has_class spawn.now.needs (labels_of world.now.system.now world.now.page.now scene.now.place.now scene.now.round) && has_class from (grown world.now.system.now scene.now.round spawn.now.kind scene.now.visible.now)) }
{
    if !is_there(world, scene, spawn.needs) {
        return false;
    }
    added_has(world.sums, spawn.kind, scene.visible, from, scene.round)
}

// Whether the label has the atom, which the visible part of it tells of a visible one.
fn is_there<S: Summaries>(world: &World<'_, S>, scene: &Scene<'_>, atom: Atom) -> bool
    requires ready { IsReady S.Summaries world.now }
    requires place { IsPlace S.Summaries world.now scene.now.place.now }
    requires visible { scene.now.visible.now ≡ visible_in world.now.system.now (labels_of world.now.system.now world.now.page.now scene.now.place.now scene.now.round) }
    requires marks { IfSome scene.now.marks.now (λ m. m ≡ scene.now.visible.now) }
    ensures { result ≡ has_class atom (labels_of world.now.system.now world.now.page.now scene.now.place.now scene.now.round) }
{
    if world.marks.has(atom) {
        return is_seen(scene, atom);
    }
    has(world, scene.place, atom, scene.round)
}

// Whether the visible part of the label has the atom.
fn is_seen(scene: &Scene<'_>, atom: Atom) -> bool
    requires marks { IfSome scene.now.marks.now (λ m. m ≡ scene.now.visible.now) }
    ensures { result ≡ has_class atom scene.now.visible.now }
{
    match scene.marks {
        Some(marks) => marks.has(atom),
        None => scene.visible.has(atom),
    }
}
