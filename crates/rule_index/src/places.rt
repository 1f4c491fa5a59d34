//! Indexes of rules, by the atoms that the rules look at. They hold places in the list of rules.
ghost use Rattle.std.specs.Prelude.{◌≡◌, ◌⊎◌, ◌<◌, length, Contains, IfOk, OnOk};
ghost use Rattle.rule_index.specs.Indexes.{IsRuleNoted, AreNeedsNoted, IsOneKey, AreLocalsAt, AreRareAt, AreLinksAt, AreSpawnsAt};

use row_index::Index;
use simple_core::{Link, Local, Spawn};
use std::alloc::Global;
use tp_base::{Atom, ClassSet, NoMemory};

/// The index of local rules by each atom that they need. The key is one more than the atom's number, and 0 for rules without
/// needs. Linear in the needs and the largest atom.
pub(crate) fn locals_at(alloc: Global, rules: &[Local]) -> Result<Index, NoMemory>
    ensures { IfOk result (λ t. AreLocalsAt rules.now t) }
{
    let mut index = Index::new(alloc);
    for i in 0..rules.len() {
        let rule = &rules[i];
        note_rule(&mut index, alloc, &rule.needs, i)?;
    }
    Ok(index)
}

// Notes a rule's place at each atom that it needs.
fn note_rule(
    index: &mut Index,
    alloc: Global,
    needs: &ClassSet,
    place: usize,
) -> Result<(), NoMemory>
    ensures { OnOk result (IsRuleNoted index.old index.new needs.now place) }
{
    if needs.len() == 0 {
        index.note(alloc, 0, place)?;
        return Ok(());
    }
    note_needs(index, alloc, needs, place)?;
    Ok(())
}

fn note_needs(
    index: &mut Index,
    alloc: Global,
    needs: &ClassSet,
    place: usize,
) -> Result<(), NoMemory>
    ensures { OnOk result (AreNeedsNoted index.old index.new needs.now place) }
{
    for i in 0..needs.len() {
        let atom = needs.at(i);
        index.note(alloc, atom.0 as usize + 1, place)?;
    }
    Ok(())
}

/// The index of local rules by the rarest atom that each needs: the one that the fewest rules need, and the largest of several.
/// The key is one more than the atom's number, and 0 for rules without needs. Linear in the needs and the largest atom.
pub(crate) fn rarest_at(alloc: Global, rules: &[Local], local: &Index) -> Result<Index, NoMemory>
    ensures { IfOk result (λ t. AreRareAt rules.now t) }
{
    let mut rare = Index::new(alloc);
    for i in 0..rules.len() {
        let rule = &rules[i];
        let key = rarest_key(local, &rule.needs);
        rare.note(alloc, key, i)?;
    }
    Ok(rare)
}

// One more than the number of the rarest of these atoms, and 0 if there is none.
fn rarest_key(local: &Index, needs: &ClassSet) -> usize
    ensures { IsOneKey needs.now result }
{
    if needs.len() == 0 {
        return 0;
    }
    let atom = rarest(local, needs);
    atom.0 as usize + 1
}

// The atom that the fewest rules need, and the largest of several. The system's own atoms have the largest numbers, and no
// label of a page has them at first. The choice matters for time alone.
fn rarest(local: &Index, needs: &ClassSet) -> Atom
    requires { 0 < length needs.now }
    ensures { Contains needs.now result }
{
    let mut best = needs.at(0);
    for i in 1..needs.len() {
        best = rarer(local, best, needs.at(i));
    }
    best
}

// The one of two atoms that fewer rules need, the second if neither is.
fn rarer(local: &Index, first: Atom, second: Atom) -> Atom
    ensures { (result ≡ first) ⊎ (result ≡ second) }
{
    if rules_at(local, second) <= rules_at(local, first) {
        second
    } else {
        first
    }
}

// How many rules need the atom.
fn rules_at(local: &Index, atom: Atom) -> usize {
    local.of(atom.0 as usize + 1).len()
}

/// The index of links by the atom that they look at. Linear in the links and the largest of these atoms.
pub(crate) fn links_at(alloc: Global, links: &[Link]) -> Result<Index, NoMemory>
    ensures { IfOk result (λ t. AreLinksAt links.now t) }
{
    let mut index = Index::new(alloc);
    for i in 0..links.len() {
        let link = &links[i];
        let from = link.from;
        index.note(alloc, from.0 as usize, i)?;
    }
    Ok(index)
}

/// The index of spawns by the atom that they need. Linear in the spawns and the largest of these atoms.
pub(crate) fn spawns_at(alloc: Global, spawns: &[Spawn]) -> Result<Index, NoMemory>
    ensures { IfOk result (λ t. AreSpawnsAt spawns.now t) }
{
    let mut index = Index::new(alloc);
    for i in 0..spawns.len() {
        let spawn = &spawns[i];
        let needs = spawn.needs;
        index.note(alloc, needs.0 as usize, i)?;
    }
    Ok(index)
}
