//! The context of a proof: a closed page with its rules, and the places at which labels are looked at.
ghost use Rattle.std.specs.Prelude.{◌≡◌, Some, IsSome, IfOk};
ghost use Rattle.tp_base.specs.Classes.{has_class, all_among};
ghost use Rattle.tree_sem.specs.Trees.{LabelTree, node_at, label_at};
ghost use Rattle.simple_core.specs.declared.system.System.{System};
ghost use Rattle.simple_core.specs.Labels.{visible_in};
ghost use Rattle.simple_core.specs.Rounds.{grown, IsFirst};
ghost use Rattle.simple_core.specs.Pages.{page_round};
ghost use Rattle.simple_core.specs.Knowledge.{KeepsAsking};
ghost use Rattle.proof_maker.specs.Tellings.{AreIdle};
ghost use Rattle.proof_maker.specs.Worlds.{setting_of, path_of, labels_of, IsPlace, HasArrivals, above_on, IsNodeOf, IsAsking, IsReady};

use crate::told::Told;
use class_diagrams::Marks;
use closed_page::Closed;
use simple_core::{AllGivers, Summaries, System};
use std::alloc::Global;
use tp_base::{Atom, ClassSet, NoMemory, Path};
use tree_sem::Tree;

/// The context of proofs: a closed page, the rules of its system by what they give, the marks of its visible atoms, and the
/// summaries of its added nodes.
#[derive(Drop)]
pub(crate) struct World<'a, S: Summaries> {
    pub(crate) page: &'a Tree,
    pub(crate) system: &'a System,
    pub(crate) closed: &'a Closed,
    pub(crate) rules: &'a AllGivers,
    pub(crate) marks: &'a Marks,
    pub(crate) sums: &'a S,
}

/// A node of the page, or an added node of a kind below a parent with this visible label. An added node comes with the entry
/// of its pair, and with what summaries told of it where that was asked.
#[derive(Clone, Copy)]
pub(crate) enum Place<'a> {
    Node(&'a Path),
    Added(u32, &'a ClassSet, Option<&'a Told>, usize),
}

/// The first round in which the label at the place has the atom.
pub(crate) fn first<S: Summaries>(
    world: &World<'_, S>,
    place: &Place<'_>,
    atom: Atom,
) -> Option<u64>
    requires ready { IsReady S.Summaries world.now }
    requires place { IsPlace S.Summaries world.now place.now }
    ensures first { IsFirst (labels_of world.now.system.now world.now.page.now place.now) atom result }
    ensures asking { IsAsking world.now.system.now (S.known world.now.sums.now) place.now }
{
    match place {
        Place::Node(at) => world.closed.first_round(at, atom),
        Place::Added(kind, parent, _, entry) => { world.sums.first_at(*entry, *kind, parent, atom) }
    }
}

/// Whether a node of the page has the atom by the round.
pub(crate) fn node_has<S: Summaries>(
    world: &World<'_, S>,
    at: &Path,
    atom: Atom,
    round: u64,
) -> bool
    requires ready { IsReady S.Summaries world.now }
    requires node { IsSome (node_at at.now world.now.page.now) }
    ensures { result ≡ has_class atom (page_round world.now.system.now world.now.page.now round at.now) }
{
    match world.closed.first_round(at, atom) {
        Some(first) => first <= round,
        None => false,
    }
}

/// Whether an added node has the atom by the round.
pub(crate) fn added_has<S: Summaries>(
    sums: &S,
    kind: u32,
    parent: &ClassSet,
    atom: Atom,
    round: u64,
) -> bool
    requires known { S.known sums.now (kind, parent.now) }
    ensures test { result ≡ has_class atom (grown (S.system sums.now) round kind parent.now) }
    ensures asking { KeepsAsking (S.system sums.now) (S.known sums.now) }
{
    let entry = sums.entry(kind, parent);
    has_at(sums, entry, kind, parent, atom, round)
}

// The same, where the entry of its pair is at hand.
fn has_at<S: Summaries>(
    sums: &S,
    entry: usize,
    kind: u32,
    parent: &ClassSet,
    atom: Atom,
    round: u64,
) -> bool
    requires known { S.known sums.now (kind, parent.now) }
    requires entry { S.is_entry sums.now entry (kind, parent.now) }
    ensures test { result ≡ has_class atom (grown (S.system sums.now) round kind parent.now) }
    ensures asking { KeepsAsking (S.system sums.now) (S.known sums.now) }
{
    match sums.first_at(entry, kind, parent, atom) {
        Some(first) => first <= round,
        None => false,
    }
}

/// Whether the label at the place has the atom by the round.
pub(crate) fn has<S: Summaries>(
    world: &World<'_, S>,
    place: &Place<'_>,
    atom: Atom,
    round: u64,
) -> bool
    requires ready { IsReady S.Summaries world.now }
    requires place { IsPlace S.Summaries world.now place.now }
    ensures test { result ≡ has_class atom (labels_of world.now.system.now world.now.page.now place.now round) }
    ensures asking { IsAsking world.now.system.now (S.known world.now.sums.now) place.now }
{
    match place {
        Place::Node(at) => node_has(world, at, atom, round),
        Place::Added(kind, parent, _, entry) => {
            has_at(world.sums, *entry, *kind, parent, atom, round)
        }
    }
}

/// Whether it has all these atoms.
pub(crate) fn has_all<S: Summaries>(
    world: &World<'_, S>,
    place: &Place<'_>,
    atoms: &ClassSet,
    round: u64,
) -> bool
    requires ready { IsReady S.Summaries world.now }
    requires place { IsPlace S.Summaries world.now place.now }
    ensures { result ≡ all_among atoms.now (labels_of world.now.system.now world.now.page.now place.now round) }
{
    for i in 0..atoms.len() {
        if !has(world, place, atoms.at(i), round) {
            return false;
        }
    }
    true
}

/// Whether the parent has the atom by the round.
pub(crate) fn is_above<S: Summaries>(
    world: &World<'_, S>,
    place: &Place<'_>,
    atom: Atom,
    round: u64,
) -> Result<bool, NoMemory>
    requires ready { IsReady S.Summaries world.now }
    requires node { IsNodeOf world.now.page.now place.now }
    ensures { IfOk result (λ b. b ≡ has_class atom ((setting_of world.now.system.now world.now.page.now place.now).above round (path_of place.now))) }
{
    match place {
        Place::Added(_, parent, _, _) => Ok(parent.has(atom)),
        Place::Node(at) => parent_has(world, at, atom, round),
    }
}

fn parent_has<S: Summaries>(
    world: &World<'_, S>,
    at: &Path,
    atom: Atom,
    round: u64,
) -> Result<bool, NoMemory>
    requires ready { IsReady S.Summaries world.now }
    requires node { IsSome (node_at at.now world.now.page.now) }
    ensures { IfOk result (λ b. b ≡ has_class atom (above_on world.now.system.now world.now.page.now round at.now)) }
{
    let mut above = at.copy()?;
    if above.pop().is_none() {
        return Ok(false);
    }
    Ok(node_has(world, &above, atom, round))
}

/// How many spawn rules there are before the first one whose atom may come to the place, where that was asked.
pub(crate) fn idle_at(place: &Place<'_>) -> usize
    ensures { (s : System) (page : LabelTree) → HasArrivals s place.now → AreIdle s (labels_of s page place.now) result }
{
    match place {
        Place::Added(_, _, told, _) => match told {
            Some(told) => told.idle,
            None => 0,
        },
        Place::Node(_) => 0,
    }
}

/// The visible part of the label at the place in a round. Where what comes to the added node was asked, it costs a sort of the
/// atoms that are there; at a node of the page a look at each atom of its closed label, and a look-up for each that is visible;
/// else a look-up for each visible atom.
pub(crate) fn visible_at<S: Summaries>(
    alloc: Global,
    world: &World<'_, S>,
    place: &Place<'_>,
    round: u64,
) -> Result<ClassSet, NoMemory>
    requires ready { IsReady S.Summaries world.now }
    requires place { IsPlace S.Summaries world.now place.now }
    requires arrivals { HasArrivals world.now.system.now place.now }
    ensures { IfOk result (λ l. l ≡ visible_in world.now.system.now (labels_of world.now.system.now world.now.page.now place.now round)) }
{
    match place {
        Place::Added(_, _, told, _) => match told {
            Some(told) => told.arrivals.by(alloc, round),
            None => visible_now(alloc, world, place, round),
        },
        Place::Node(at) => match world.closed.label(at) {
            Some(own) => visible_on(alloc, world, own, at, round),
            None => visible_now(alloc, world, place, round),
        },
    }
}

// Whether the visible part of the label in a round of a node of the page has the atom.
fn shows<S: Summaries>(world: &World<'_, S>, at: &Path, atom: Atom, round: u64) -> bool
    requires ready { IsReady S.Summaries world.now }
    requires node { IsSome (node_at at.now world.now.page.now) }
    ensures { result ≡ has_class atom (visible_in world.now.system.now (page_round world.now.system.now world.now.page.now round at.now)) }
{
    if !world.marks.has(atom) {
        return false;
    }
    node_has(world, at, atom, round)
}

// The same of a node of the page with this closed label. It costs a look at each atom of that, and a look-up of its first round
// for each that is visible.
fn visible_on<S: Summaries>(
    alloc: Global,
    world: &World<'_, S>,
    own: &ClassSet,
    at: &Path,
    round: u64,
) -> Result<ClassSet, NoMemory>
    requires ready { IsReady S.Summaries world.now }
    requires own { label_at at.now world.now.closed.now.labels ≡ Some own.now }
    requires node { IsSome (node_at at.now world.now.page.now) }
    ensures { IfOk result (λ l. l ≡ visible_in world.now.system.now (page_round world.now.system.now world.now.page.now round at.now)) }
{
    let mut label = ClassSet::new(alloc);
    for i in 0..own.len() {
        let atom = own.at(i);
        if shows(world, at, atom, round) {
            label.add(atom)?;
        }
    }
    Ok(label)
}

// The same of any place, by a look-up of the first round for each visible atom.
fn visible_now<S: Summaries>(
    alloc: Global,
    world: &World<'_, S>,
    place: &Place<'_>,
    round: u64,
) -> Result<ClassSet, NoMemory>
    requires ready { IsReady S.Summaries world.now }
    requires place { IsPlace S.Summaries world.now place.now }
    ensures { IfOk result (λ l. l ≡ visible_in world.now.system.now (labels_of world.now.system.now world.now.page.now place.now round)) }
{
    let mut label = ClassSet::new(alloc);
    for i in 0..world.system.visible.len() {
        let atom = world.system.visible.at(i);
        if has(world, place, atom, round) {
            label.add(atom)?;
        }
    }
    Ok(label)
}
