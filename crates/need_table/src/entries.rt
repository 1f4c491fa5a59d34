//! A pair of the table with its label, which grows round by round.
ghost use Rattle.std.specs.Prelude.{◌≡◌, ◌↔◌, ◌≤◌, ◌<◌, ◌+◌, ◌++◌, ◌^◌, [], map, take, drop, length, Some, Contains, IfOk, OnOk, IsTrue};
ghost use Rattle.std.specs.List.Sorted.{IsStrictlyIncreasing};
ghost use Rattle.tp_base.specs.Classes.{union_of};
ghost use Rattle.simple_core.specs.Labels.{set_of};
ghost use Rattle.simple_core.specs.declared.summaries.First.{First};
ghost use Rattle.need_table.specs.Tables.{fresh_of, AreInOrder, IsPlaceFrom};

use gathered::Gathered;
use simple_core::First;
use std::alloc::Global;
use tp_base::{Atom, ClassSet, NoMemory};

/// So many of the last firsts are looked at before the others, and so many new atoms one by one.
pub(crate) const A_FEW: usize = 8;

/// A pair. `label` is its last label, and `firsts` has the label's atoms in the order of their first rounds. `rounds` is the
/// last round for which it was computed, and `None` at its fixpoint. `children` has the places of the pairs that its label
/// asked in the round before, and none at its fixpoint.
#[derive(Drop)]
pub(crate) struct Entry {
    pub(crate) kind: u32,
    pub(crate) parent: ClassSet,
    pub(crate) label: ClassSet,
    pub(crate) firsts: Vec<First>,
    pub(crate) children: Vec<usize>,
    pub(crate) rounds: Option<u64>,
}

// How many of the firsts come before this round. Logarithmic in all.
fn search(firsts: &[First], round: u64) -> usize
    requires { AreInOrder firsts.now }
    ensures { IsPlaceFrom firsts.now round result }
{
    firsts.partition_point(|first| first.round < round)
}

/// How many of the firsts come before this round. It looks at a few of the last ones, and where none of these does, it is
/// logarithmic in all.
pub(crate) fn place_from(firsts: &[First], round: u64) -> usize
    requires { AreInOrder firsts.now }
    ensures { IsPlaceFrom firsts.now round result }
{
    let mut left = A_FEW;
    let mut rest = firsts;
    'last: while let Some((last, others)) = rest.split_last() {
        if last.round < round {
            return rest.len();
        }
        if left == 0 {
            return search(others, round);
        }
        left -= 1;
        rest = others;
    }
    0
}

/// The firsts from this place on.
pub(crate) fn behind(firsts: &[First], place: usize) -> &[First]
    ensures { result.now ≡ drop place firsts.now }
{
    match firsts.split_at_checked(place) {
        Some((_, last)) => last,
        None => &[],
    }
}

// The firsts before this place.
fn before(firsts: &[First], place: usize) -> &[First]
    requires { place ≤ length firsts.now }
    ensures { result.now ≡ take place firsts.now }
{
    firsts.split_at(place).0
}

/// The firsts of these rounds. Each end costs what `place_from` does.
pub(crate) fn within(firsts: &[First], from: u64, to: u64) -> &[First]
    requires order { AreInOrder firsts.now }
    requires round { to + 1 < 2 ^ 64 }
    ensures { (f : First) → Contains result.now f ↔ (Contains firsts.now f × (from ≤ f.round) × (f.round ≤ to)) }
{
    let known = before(firsts, place_from(firsts, to + 1));
    behind(known, place_from(known, from))
}

/// The atoms of a label in round 0.
pub(crate) fn firsts_of(alloc: Global, label: &ClassSet) -> Result<Vec<First>, NoMemory>
    ensures firsts { IfOk result (λ v. v.items ≡ fresh_of [] 0 label.now) }
    ensures rises { OnOk result (IsStrictlyIncreasing label.now) }
{
    let mut firsts = Vec::with_capacity(alloc, label.len())?;
    for i in 0..label.len() {
        let atom = label.at(i);
        firsts.push(First { atom, round: 0 })?;
    }
    Ok(firsts)
}

// Makes room for this many firsts more at once, where they are more than a few.
fn make_room(firsts: &mut Vec<First>, count: usize) -> Result<(), NoMemory>
    ensures { OnOk result (firsts.new.items ≡ firsts.old.items) }
{
    if count > A_FEW {
        firsts.reserve(count)?;
    }
    Ok(())
}

// Adds the atoms to the firsts, with the round in which they came.
fn add_news(firsts: &mut Vec<First>, news: &[Atom], round: u64) -> Result<(), NoMemory>
    ensures { OnOk result (firsts.new.items ≡ firsts.old.items ++ map (λ a. record { atom = a; round = round }) news.now) }
{
    let mut rest = news;
    'atoms: while let Some((atom, others)) = rest.split_first() {
        firsts.push(First { atom: *atom, round })?;
        rest = others;
    }
    Ok(())
}

/// Moves the atoms to a label, and adds those that it didn't have to the firsts, with the round, by a search for each: a few one by
/// one, and many by a copy of the label. `news` is room for those.
pub(crate) fn grow(
    label: &mut ClassSet,
    firsts: &mut Vec<First>,
    given: &mut Gathered,
    news: &mut Vec<Atom>,
    round: u64,
) -> Result<(), NoMemory>
    ensures label { OnOk result (label.new ≡ union_of label.old (set_of (map (λ f. f.atom) (fresh_of label.old round given.old)))) }
    ensures firsts { OnOk result (firsts.new.items ≡ firsts.old.items ++ fresh_of label.old round given.old) }
{
    let known = label.len();
    given.move_to(label, news)?;
    make_room(firsts, news.len())?;
    add_news(firsts, news, round)?;
    Ok(())
}

/// Whether this is the last round of the entry.
pub(crate) fn is_at(entry: &Entry, k: u64) -> bool
    ensures { IsTrue result ↔ (entry.now.rounds ≡ Some k) }
{
    match entry.rounds {
        Some(n) => n == k,
        None => false,
    }
}
