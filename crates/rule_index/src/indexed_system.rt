//! A system with indexes of its rules, and what its rules give to a label.
ghost use Rattle.std.specs.Prelude.{◌≡◌, ◌≢◌, ◌++◌, ◌+◌, ◌∷◌, [], ℕ, map, Contains, All, IfOk, OnOk, OnErr, IsTrue, IsFalse};
ghost use Rattle.std.specs.List.Sorted.{IsStrictlyIncreasing};
ghost use Rattle.tp_base.specs.Classes.{has_class, all_among, union_of};
ghost use Rattle.gathered.specs.Between.{IsBetween};
ghost use Rattle.simple_core.specs.Labels.{given_by_rules, given_by_links, visible_in};
ghost use Rattle.simple_core.specs.Systems.{IsSound};
ghost use Rattle.simple_core.specs.declared.summaries.First.{First};
ghost use Rattle.simple_core.specs.declared.rules.Link.{Link};
ghost use Rattle.simple_core.specs.declared.rules.Spawn.{Spawn};
ghost use Rattle.rule_index.specs.Asking.{IsMore, AreMet, AreMetBy, AreUnseen, AsksAnew, AreKinds};
ghost use Rattle.rule_index.specs.Indexes.{at_place, at_row, by_label, given_in, to_of, kind_of, AreLinksAt, AreFound};

use crate::places::{links_at, locals_at, rarest_at, spawns_at};
use gathered::Gathered;
use row_index::Index;
use simple_core::{First, Kind, Link, Local, Spawn, System};
use std::alloc::Global;
use std::marker::Model;
use tp_base::{Atom, ClassSet, NoMemory};

/// A system with indexes: for each atom the places of the rules that look at it. To apply rules to some atoms costs a step for
/// each atom and for each rule that looks at it. A contract sees the system.
#[derive(Drop)]
pub struct IndexedSystem<'a> {
    system: &'a System,
    local: Index,
    rare: Index,
    up: Index,
    down: Index,
    child: Index,
}

impl<'a> Model for IndexedSystem<'a> {
    ghost use Rattle.simple_core.specs.declared.system.System.{System};
    ghost use Rattle.rule_index.specs.Indexes.{AreIndexes};

    ghost Value = { System };

    ghost view = { λ s. s.system.now };

    ghost invariant = { λ s. AreIndexes s.system.now s.local s.rare s.up s.down s.child };
}

impl<'a> IndexedSystem<'a> {
    /// Builds the indexes. A local rule stands at each atom that it needs, and in a second index only at the rarest of them.
    /// Linear in the atoms that rules need and in the largest atom that rules look at.
    pub fn new(alloc: Global, system: &'a System) -> Result<IndexedSystem<'a>, NoMemory>
        ensures { IfOk result (λ s. s ≡ system.now) }
    {
        let local = locals_at(alloc, system.local.items())?;
        let rare = rarest_at(alloc, system.local.items(), &local)?;
        let up = links_at(alloc, system.up.items())?;
        let down = links_at(alloc, system.down.items())?;
        let child = spawns_at(alloc, system.child.items())?;
        Ok(IndexedSystem {
            system,
            local,
            rare,
            up,
            down,
            child,
        })
    }

    /// The links that look at a child.
    pub fn down_links(&self) -> &[Link]
        ensures { result.now ≡ self.now.down }
    {
        self.system.down.items()
    }

    /// The visible atoms: those that links look at in a parent.
    pub fn visible(&self) -> &ClassSet
        ensures { result.now ≡ self.now.visible }
    {
        &self.system.visible
    }

    /// Adds what local rules give at a label, where the label has what older atoms alone give. A rule is tested once for each
    /// fresh atom that it needs. Where the whole label is fresh, only rules whose rarest atom the label has are tested, once
    /// each.
    pub fn add_local(
        &self,
        label: &ClassSet,
        fresh: &ClassSet,
        next: &mut Gathered,
    ) -> Result<(), NoMemory>
        requires { AreMet self.now.local label.now fresh.now }
        ensures ok { OnOk result (IsMore label.now (given_by_rules self.now.local label.now) next.old next.new) }
        ensures err { OnErr result (IsBetween next.old (union_of next.old (given_by_rules self.now.local label.now)) next.new) }
    {
        let rules = self.system.local.items();
        if are_all_fresh(label, fresh) {
            return add_by_needs(rules, &self.rare, label, fresh, next);
        }
        add_by_needs(rules, &self.local, label, fresh, next)
    }

    /// Adds what local rules give at a label, by the atoms that came last to it. The label has what older atoms alone give, and
    /// what rules without needs give. A rule is tested once for each of the new atoms that it needs. Each test searches the
    /// label for the rule's other atoms.
    pub fn add_later(
        &self,
        label: &ClassSet,
        fresh: &[First],
        next: &mut Gathered,
    ) -> Result<(), NoMemory>
        requires met { AreMetBy self.now.local label.now (map (λ f. f.atom) fresh.now) }
        requires within { (f : First) → Contains fresh.now f → Contains label.now f.atom }
        ensures ok { OnOk result (IsMore label.now (given_by_rules self.now.local label.now) next.old next.new) }
        ensures err { OnErr result (IsBetween next.old (union_of next.old (given_by_rules self.now.local label.now)) next.new) }
    {
        let rules = self.system.local.items();
        add_by_firsts(rules, &self.local, label, fresh, next)?;
        Ok(())
    }

    /// Adds what links give from the label of the parent. Linear in the label and in the links that look at its atoms.
    pub fn add_up(&self, label: &ClassSet, next: &mut Gathered) -> Result<(), NoMemory>
        requires { IsStrictlyIncreasing next.old }
        ensures ok { OnOk result (next.new ≡ union_of next.old (given_by_links self.now.up label.now)) }
        ensures err { OnErr result (IsBetween next.old (union_of next.old (given_by_links self.now.up label.now)) next.new) }
    {
        add_linked(self.system.up.items(), &self.up, label, next)
    }

    /// Adds what links give from the label of a child. Linear in the label and in the links that look at its atoms.
    pub fn add_down(&self, label: &ClassSet, next: &mut Gathered) -> Result<(), NoMemory>
        requires { IsStrictlyIncreasing next.old }
        ensures ok { OnOk result (next.new ≡ union_of next.old (given_by_links self.now.down label.now)) }
        ensures err { OnErr result (IsBetween next.old (union_of next.old (given_by_links self.now.down label.now)) next.new) }
    {
        add_linked(self.system.down.items(), &self.down, label, next)
    }

    /// Adds what links give from one atom of a child. Linear in the links that look at it.
    pub fn add_down_of(&self, atom: Atom, next: &mut Gathered) -> Result<(), NoMemory>
        requires { IsStrictlyIncreasing next.old }
        ensures ok { OnOk result (next.new ≡ union_of next.old (given_by_links self.now.down (atom ∷ []))) }
        ensures err { OnErr result (IsBetween next.old (union_of next.old (given_by_links self.now.down (atom ∷ []))) next.new) }
    {
        add_linked_by(self.system.down.items(), &self.down, atom, next)
    }

    /// The kinds of the system, by their numbers.
    pub fn kinds(&self) -> &[Kind]
        ensures { result.now ≡ self.now.kinds }
    {
        self.system.kinds.items()
    }

    /// Whether a label that gets these atoms may ask for other pairs than before. `false` is certain. A wrong `true` costs time
    /// alone. Logarithmic in the visible atoms, for each of these.
    pub fn is_asking(&self, fresh: &ClassSet) -> bool
        ensures { IsFalse result → (a : ℕ) → Contains fresh.now a → ¬ AsksAnew self.now a }
    {
        for i in 0..fresh.len() {
            if self.asks(fresh.at(i)) {
                return true;
            }
        }
        false
    }

    /// Whether a label to which these atoms came last may ask for other pairs than before. `false` is certain. Linear in their
    /// number.
    pub fn is_asking_by(&self, fresh: &[First]) -> bool
        requires { IsSound self.now }
        ensures { IsFalse result → (f : First) → Contains fresh.now f → ¬ AsksAnew self.now f.atom }
    {
        let mut rest = fresh;
        'firsts: while let Some((first, others)) = rest.split_first() {
            if self.is_looked_at(first.atom) {
                return true;
            }
            rest = others;
        }
        false
    }

    /// Whether an atom is visible: some link looks at it in a parent. Constant.
    pub fn is_visible(&self, atom: Atom) -> bool
        requires { IsSound self.now }
        ensures { result ≡ has_class atom self.now.visible }
    {
        self.up.of(atom.0 as usize).len() != 0
    }

    /// The visible atoms of a label. Linear in the label, since the sort at the end finds them in order.
    pub fn visible_of(&self, label: &ClassSet) -> Result<ClassSet, NoMemory>
        requires { IsSound self.now }
        ensures { IfOk result (λ s. s ≡ visible_in self.now label.now) }
    {
        let mut seen = Vec::with_capacity(label.allocator(), label.len())?;
        for i in 0..label.len() {
            let atom = label.at(i);
            if self.is_visible(atom) {
                seen.push(atom)?;
            }
        }
        ClassSet::of(seen)
    }

    // Whether an atom is visible or makes a child.
    fn is_looked_at(&self, atom: Atom) -> bool
        requires { IsSound self.now }
        ensures { IsFalse result → ¬ AsksAnew self.now atom }
    {
        self.is_visible(atom) || self.spawns(atom)
    }

    // Whether a label that gets this atom may ask for other pairs than before.
    fn asks(&self, atom: Atom) -> bool
        ensures { IsFalse result → ¬ AsksAnew self.now atom }
    {
        self.system.visible.has(atom) || self.spawns(atom)
    }

    // Whether an atom makes a child.
    fn spawns(&self, atom: Atom) -> bool
        ensures { IsFalse result → (c : Spawn) → Contains self.now.child c → c.needs ≢ atom }
    {
        self.child.of(atom.0 as usize).len() != 0
    }

    /// Whether some link looks at one of these atoms in a child, so that they may give something to the parent. `false` is
    /// certain. A wrong `true` costs time alone. Linear in the number of atoms.
    pub fn is_seen_above(&self, label: &ClassSet) -> bool
        ensures { IsFalse result → AreUnseen self.now.down label.now }
    {
        are_seen(self.system.down.items(), &self.down, label)
    }

    /// Whether some link looks at one of these atoms in a parent, so that they may give something to children. `false` is
    /// certain. A wrong `true` costs time alone. Linear in the number of atoms.
    pub fn is_seen_below(&self, label: &ClassSet) -> bool
        ensures { IsFalse result → AreUnseen self.now.up label.now }
    {
        are_seen(self.system.up.items(), &self.up, label)
    }

    /// The kinds of the children that a label makes. A kind may stand there more than once. Linear in the label and in these
    /// kinds.
    pub fn kinds_of(&self, alloc: Global, label: &ClassSet) -> Result<Vec<u32>, NoMemory>
        ensures { IfOk result (λ v. AreKinds self.now label.now v.items) }
    {
        let mut kinds = Vec::new(alloc);
        add_spawned(self.system.child.items(), &self.child, label, &mut kinds)?;
        Ok(kinds)
    }
}

// Whether some link looks at the atom.
fn is_seen(links: &[Link], index: &Index, atom: Atom) -> bool
    requires { AreLinksAt links.now index.now }
    ensures { IsFalse result → (l : Link) → Contains links.now l → l.from ≢ atom }
{
    index.of(atom.0 as usize).len() != 0
}

// Whether some link looks at one of these atoms.
fn are_seen(links: &[Link], index: &Index, label: &ClassSet) -> bool
    requires { AreLinksAt links.now index.now }
    ensures { IsFalse result → AreUnseen links.now label.now }
{
    for i in 0..label.len() {
        if is_seen(links, index, label.at(i)) {
            return true;
        }
    }
    false
}

// Whether the label has each of these atoms. Logarithmic in the label for each.
fn has_each(label: &ClassSet, needs: &ClassSet) -> bool
    ensures { result ≡ all_among needs.now label.now }
{
    for i in 0..needs.len() {
        if !label.has(needs.at(i)) {
            return false;
        }
    }
    true
}

// Whether the label has the atom `need`. It has the atom `known`, which is not searched for.
fn has_need(label: &ClassSet, need: Atom, known: Atom) -> bool
    requires { Contains label.now known }
    ensures { result ≡ has_class need label.now }
{
    if need == known {
        return true;
    }
    label.has(need)
}

// Whether the label has each of these atoms. It has the atom `known`, which is not searched for.
fn has_others(label: &ClassSet, needs: &ClassSet, known: Atom) -> bool
    requires { Contains label.now known }
    ensures { result ≡ all_among needs.now label.now }
{
    for i in 0..needs.len() {
        if !has_need(label, needs.at(i), known) {
            return false;
        }
    }
    true
}

fn add_rule(
    rules: &[Local],
    place: usize,
    label: &ClassSet,
    next: &mut Gathered,
) -> Result<(), NoMemory>
    ensures ok { OnOk result (next.new ≡ union_of next.old (at_place (given_in label.now) rules.now place)) }
    ensures err { OnErr result (IsBetween next.old (union_of next.old (at_place (given_in label.now) rules.now place)) next.new) }
{
    if let Some(rule) = rules.get(place) {
        if has_each(label, &rule.needs) {
            next.add(rule.gives)?;
        }
    }
    Ok(())
}

fn add_rules(
    rules: &[Local],
    row: &[usize],
    label: &ClassSet,
    next: &mut Gathered,
) -> Result<(), NoMemory>
    ensures ok { OnOk result (next.new ≡ union_of next.old (at_row (given_in label.now) rules.now row.now)) }
    ensures err { OnErr result (IsBetween next.old (union_of next.old (at_row (given_in label.now) rules.now row.now)) next.new) }
{
    let mut rest = row;
    'places: while let Some((place, others)) = rest.split_first() {
        add_rule(rules, *place, label, next)?;
        rest = others;
    }
    Ok(())
}

fn add_rule_by(
    rules: &[Local],
    place: usize,
    label: &ClassSet,
    known: Atom,
    next: &mut Gathered,
) -> Result<(), NoMemory>
    requires { Contains label.now known }
    ensures ok { OnOk result (next.new ≡ union_of next.old (at_place (given_in label.now) rules.now place)) }
    ensures err { OnErr result (IsBetween next.old (union_of next.old (at_place (given_in label.now) rules.now place)) next.new) }
{
    if let Some(rule) = rules.get(place) {
        if has_others(label, &rule.needs, known) {
            next.add(rule.gives)?;
        }
    }
    Ok(())
}

// The same as `add_rules`, for a label that has the atom `known`.
fn add_rules_by(
    rules: &[Local],
    row: &[usize],
    label: &ClassSet,
    known: Atom,
    next: &mut Gathered,
) -> Result<(), NoMemory>
    requires { Contains label.now known }
    ensures ok { OnOk result (next.new ≡ union_of next.old (at_row (given_in label.now) rules.now row.now)) }
    ensures err { OnErr result (IsBetween next.old (union_of next.old (at_row (given_in label.now) rules.now row.now)) next.new) }
{
    let mut rest = row;
    'places: while let Some((place, others)) = rest.split_first() {
        add_rule_by(rules, *place, label, known, next)?;
        rest = others;
    }
    Ok(())
}

// Whether each atom of the label is fresh. Constant where the two lengths differ, else linear in them.
fn are_all_fresh(label: &ClassSet, fresh: &ClassSet) -> bool
    ensures { IsTrue result → All (Contains fresh.now) label.now }
{
    label.len() == fresh.len() && label.within(fresh)
}

// Adds what the rules give that the index has at one of the fresh atoms.
fn add_by_each(
    rules: &[Local],
    index: &Index,
    label: &ClassSet,
    fresh: &ClassSet,
    next: &mut Gathered,
) -> Result<(), NoMemory>
    ensures ok { OnOk result (next.new ≡ union_of next.old (by_label (given_in label.now) rules.now index.now (λ a. a + 1) fresh.now)) }
    ensures err { OnErr result (IsBetween next.old (union_of next.old (by_label (given_in label.now) rules.now index.now (λ a. a + 1) fresh.now)) next.new) }
{
    for i in 0..fresh.len() {
        let atom = fresh.at(i);
        add_rules(rules, index.of(atom.0 as usize + 1), label, next)?;
    }
    Ok(())
}

// The same for fresh atoms with their first rounds, which the label has.
fn add_by_firsts(
    rules: &[Local],
    index: &Index,
    label: &ClassSet,
    fresh: &[First],
    next: &mut Gathered,
) -> Result<(), NoMemory>
    requires { (f : First) → Contains fresh.now f → Contains label.now f.atom }
    ensures ok { OnOk result (next.new ≡ union_of next.old (by_label (given_in label.now) rules.now index.now (λ a. a + 1) (map (λ f. f.atom) fresh.now))) }
    ensures err { OnErr result (IsBetween next.old (union_of next.old (by_label (given_in label.now) rules.now index.now (λ a. a + 1) (map (λ f. f.atom) fresh.now))) next.new) }
{
    let mut rest = fresh;
    'firsts: while let Some((first, others)) = rest.split_first() {
        let atom = first.atom;
        add_rules_by(rules, index.of(atom.0 as usize + 1), label, atom, next)?;
        rest = others;
    }
    Ok(())
}

fn add_by_needs(
    rules: &[Local],
    index: &Index,
    label: &ClassSet,
    fresh: &ClassSet,
    next: &mut Gathered,
) -> Result<(), NoMemory>
    requires { AreFound rules.now index.now label.now fresh.now }
    ensures ok { OnOk result (IsMore label.now (given_by_rules rules.now label.now) next.old next.new) }
    ensures err { OnErr result (IsBetween next.old (union_of next.old (given_by_rules rules.now label.now)) next.new) }
{
    add_rules(rules, index.of(0), label, next)?;
    add_by_each(rules, index, label, fresh, next)?;
    Ok(())
}

fn add_link(links: &[Link], place: usize, next: &mut Gathered) -> Result<(), NoMemory>
    ensures ok { OnOk result (next.new ≡ union_of next.old (at_place to_of links.now place)) }
    ensures err { OnErr result (IsBetween next.old (union_of next.old (at_place to_of links.now place)) next.new) }
{
    if let Some(link) = links.get(place) {
        next.add(link.to)?;
    }
    Ok(())
}

fn add_links(links: &[Link], row: &[usize], next: &mut Gathered) -> Result<(), NoMemory>
    ensures ok { OnOk result (next.new ≡ union_of next.old (at_row to_of links.now row.now)) }
    ensures err { OnErr result (IsBetween next.old (union_of next.old (at_row to_of links.now row.now)) next.new) }
{
    let mut rest = row;
    'places: while let Some((place, others)) = rest.split_first() {
        add_link(links, *place, next)?;
        rest = others;
    }
    Ok(())
}

fn add_linked_by(
    links: &[Link],
    index: &Index,
    atom: Atom,
    next: &mut Gathered,
) -> Result<(), NoMemory>
    requires index { AreLinksAt links.now index.now }
    requires rises { IsStrictlyIncreasing next.old }
    ensures ok { OnOk result (next.new ≡ union_of next.old (given_by_links links.now (atom ∷ []))) }
    ensures err { OnErr result (IsBetween next.old (union_of next.old (given_by_links links.now (atom ∷ []))) next.new) }
{
    add_links(links, index.of(atom.0 as usize), next)?;
    Ok(())
}

fn add_linked(
    links: &[Link],
    index: &Index,
    label: &ClassSet,
    next: &mut Gathered,
) -> Result<(), NoMemory>
    requires index { AreLinksAt links.now index.now }
    requires rises { IsStrictlyIncreasing next.old }
    ensures ok { OnOk result (next.new ≡ union_of next.old (given_by_links links.now label.now)) }
    ensures err { OnErr result (IsBetween next.old (union_of next.old (given_by_links links.now label.now)) next.new) }
{
    for i in 0..label.len() {
        let atom = label.at(i);
        add_links(links, index.of(atom.0 as usize), next)?;
    }
    Ok(())
}

fn add_spawn(spawns: &[Spawn], place: usize, kinds: &mut Vec<u32>) -> Result<(), NoMemory>
    ensures { OnOk result (kinds.new.items ≡ kinds.old.items ++ at_place kind_of spawns.now place) }
{
    if let Some(spawn) = spawns.get(place) {
        kinds.push(spawn.kind)?;
    }
    Ok(())
}

fn add_spawns(spawns: &[Spawn], row: &[usize], kinds: &mut Vec<u32>) -> Result<(), NoMemory>
    ensures { OnOk result (kinds.new.items ≡ kinds.old.items ++ at_row kind_of spawns.now row.now) }
{
    let mut rest = row;
    'places: while let Some((place, others)) = rest.split_first() {
        add_spawn(spawns, *place, kinds)?;
        rest = others;
    }
    Ok(())
}

fn add_spawned(
    spawns: &[Spawn],
    index: &Index,
    label: &ClassSet,
    kinds: &mut Vec<u32>,
) -> Result<(), NoMemory>
    ensures { OnOk result (kinds.new.items ≡ kinds.old.items ++ by_label kind_of spawns.now index.now (λ a. a) label.now) }
{
    for i in 0..label.len() {
        let atom = label.at(i);
        add_spawns(spawns, index.of(atom.0 as usize), kinds)?;
    }
    Ok(())
}
