//! Whether a system is sound.
ghost use Rattle.std.specs.Prelude.{◌≡◌, ◌<◌, ◌≤◌, ◌↔◌, [], ℕ, map, All, IfSome, IsTrue, Some, slice_get};
ghost use Rattle.simple_core.specs.declared.rules.Kind.{Kind};
ghost use Rattle.simple_core.specs.declared.system.TheConstants.{MOST_KINDS};
ghost use Rattle.tp_base.specs.Classes.{union_of};
ghost use Rattle.simple_core.specs.Systems.{IsAtom, IsSound};

use simple_core::{Kind, Link, Local, MOST_KINDS, Spawn, System};
use tp_base::{Atom, ClassSet, MOST_ATOMS};

fn is_atom(atom: Atom) -> bool
    ensures { IsTrue result ↔ IsAtom atom }
{
    atom.0 < MOST_ATOMS
}

#[tactic(auto, using(crate::proofs::SoundLemmas::atoms_more, crate::proofs::SoundLemmas::atoms_all))]
fn are_atoms(set: &ClassSet) -> bool
    ensures { IsTrue result → All IsAtom set.now }
{
    let mut i = 0;
    'atoms: while i < set.len() {
        if !is_atom(set.at(i)) {
            return false;
        }
        i += 1;
    }
    true
}

fn is_local(rule: &Local) -> bool
    ensures { IsTrue result → IsAtom rule.now.gives × All IsAtom rule.now.needs }
{
    is_atom(rule.gives) && are_atoms(&rule.needs)
}

fn are_locals(rules: &[Local]) -> bool
    ensures { IsTrue result → All (λ r. IsAtom r.gives × All IsAtom r.needs) rules.now }
{
    rules.iter().all(|rule| is_local(rule))
}

fn is_link(link: &Link) -> bool
    ensures { IsTrue result → IsAtom link.now.from × IsAtom link.now.to }
{
    is_atom(link.from) && is_atom(link.to)
}

fn are_links(links: &[Link]) -> bool
    ensures { IsTrue result → All (λ l. IsAtom l.from × IsAtom l.to) links.now }
{
    links.iter().all(|link| is_link(link))
}

fn is_spawn(spawn: &Spawn, count: usize) -> bool
    ensures { IsTrue result → (spawn.now.kind < count) × IsAtom spawn.now.needs }
{
    (spawn.kind as usize) < count && is_atom(spawn.needs)
}

fn are_spawns(spawns: &[Spawn], count: usize) -> bool
    ensures { IsTrue result → All (λ c. (c.kind < count) × IsAtom c.needs) spawns.now }
{
    spawns.iter().all(|spawn| is_spawn(spawn, count))
}

fn is_kind(kind: &Kind) -> bool
    ensures siblings { IsTrue result → (kind.now.number < kind.now.siblings) × (kind.now.siblings ≤ MOST_KINDS) }
    ensures atoms { IsTrue result → All IsAtom kind.now.label }
{
    kind.number < kind.siblings && kind.siblings <= MOST_KINDS && are_atoms(&kind.label)
}

fn are_kinds(kinds: &[Kind]) -> bool
    ensures { IsTrue result → All (λ k. ((k.number < k.siblings) × (k.siblings ≤ MOST_KINDS)) × All IsAtom k.label) kinds.now }
{
    kinds.iter().all(|kind| is_kind(kind))
}

fn is_below(above: Option<u32>, i: usize) -> bool
    ensures { IsTrue result → IfSome above (λ j. j < i) }
{
    match above {
        Some(j) => (j as usize) < i,
        None => true,
    }
}

#[tactic(auto, using(crate::proofs::SoundLemmas::above_more))]
fn are_above(kinds: &[Kind]) -> bool
    ensures { IsTrue result → (i : ℕ) (k : Kind) → slice_get kinds.now i ≡ Some k → IfSome k.above (λ j. j < i) }
{
    let mut i = 0;
    'kinds: while i < kinds.len() {
        let kind = &kinds[i];
        if !is_below(kind.above, i) {
            return false;
        }
        i += 1;
    }
    true
}

/// Whether the numbers in the rules and kinds of a system fit one another.
#[tactic(auto, using(crate::proofs::SoundLemmas::sound_by))]
pub fn is_sound(system: &System) -> bool
    requires { system.now.visible ≡ union_of [] (map (λ l. l.from) system.now.up) }
    ensures { IsTrue result → IsSound system.now }
{
    let kinds = system.kinds.items();
    let count = kinds.len();
    if count > MOST_KINDS as usize {
        return false;
    }
    if !are_spawns(system.child.items(), count) {
        return false;
    }
    if !are_above(kinds) {
        return false;
    }
    if !are_kinds(kinds) {
        return false;
    }
    if !are_locals(system.local.items()) {
        return false;
    }
    if !are_links(system.up.items()) {
        return false;
    }
    are_links(system.down.items())
}
