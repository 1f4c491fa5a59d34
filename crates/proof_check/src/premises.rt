//! Whether the premises of an item are proved before it.
ghost use Rattle.std.specs.Prelude.{◌≡◌, ◌==◌, ◌&&◌, slice_get};
ghost use Rattle.proof_check.specs.Checks.{is_some_and, is_inside};
ghost use Rattle.proof_check.specs.Firsts.{first_in, all_known, named_by, below_by, spawn_by, grown_by, alone_at};

use crate::firsts::Firsts;
use crate::proofs::{Entries, Entry};
use simple_core::{Kind, Link, Spawn, System};
use tp_base::{Atom, ClassSet};

/// Where an item stands: the node's number in a table of known atoms, its kind, and the entries below `lower` with their atoms.
#[derive(Clone, Copy)]
pub struct Stand<'a> {
    pub system: &'a System,
    pub entries: &'a Entries,
    pub inside: &'a Firsts,
    pub known: &'a Firsts,
    pub node: u64,
    pub kind: Option<u32>,
    pub lower: u64,
}

// A spawn rule, and the kind of the node that it adds.
#[derive(Clone, Copy)]
struct Spawned<'a> {
    spawn: &'a Spawn,
    kind: &'a Kind,
}

/// Whether all atoms of the set are known of the node.
pub fn all_first(known: &Firsts, node: u64, atoms: &ClassSet) -> bool
    ensures { result ≡ all_known (first_in known.now node) atoms.now }
{
    for n in 0..atoms.len() {
        if known.get(node, atoms.at(n)).is_none() {
            return false;
        }
    }
    true
}

/// Whether the rule gives the atom, with what it needs known of the node.
pub fn local_known(system: &System, rule: u64, atom: Atom, known: &Firsts, node: u64) -> bool
    ensures { result ≡ is_some_and (λ r. r.gives == atom && all_known (first_in known.now node) r.needs) (slice_get system.now.local rule) }
{
    match system.local.items().get(rule as usize) {
        Some(rule) => rule.gives == atom && all_first(known, node, &rule.needs),
        None => false,
    }
}

/// Whether the link gives the atom, with the entry below the item's node by the spawn rule.
pub fn grown_known(stand: &Stand<'_>, link: u64, atom: Atom, spawn: u64, entry: u32) -> bool
    ensures { result ≡ grown_by stand.now.system.now stand.now.entries.now (alone_at stand.now) atom link spawn entry }
{
    match stand.system.down.items().get(link as usize) {
        Some(link) => link.to == atom && spawn_known(stand, link.from, spawn, entry),
        None => false,
    }
}

fn spawn_known(stand: &Stand<'_>, from: Atom, spawn: u64, entry: u32) -> bool
    ensures { result ≡ is_some_and (spawn_by stand.now.system.now stand.now.entries.now (alone_at stand.now) from entry) (slice_get stand.now.system.now.child spawn) }
{
    match stand.system.child.items().get(spawn as usize) {
        Some(spawn) => kind_known(stand, from, spawn, entry),
        None => false,
    }
}

fn kind_known(stand: &Stand<'_>, from: Atom, spawn: &Spawn, entry: u32) -> bool
    ensures { result ≡ spawn_by stand.now.system.now stand.now.entries.now (alone_at stand.now) from entry spawn.now }
{
    let Some(kind) = stand.system.kinds.items().get(spawn.kind as usize) else {
        return false;
    };
    match stand.entries.items().get(entry as usize) {
        Some(named) => below_known(stand, from, &Spawned { spawn, kind }, entry, named),
        None => false,
    }
}

fn below_known(
    stand: &Stand<'_>,
    from: Atom,
    spawned: &Spawned<'_>,
    entry: u32,
    named: &Entry,
) -> bool
    ensures { result ≡ below_by (alone_at stand.now) from spawned.now.spawn.now spawned.now.kind.now entry named.now }
{
    u64::from(entry) < stand.lower
        && named.kind == spawned.spawn.kind
        && stand.inside.get(u64::from(entry), from).is_some()
        && all_first(stand.known, stand.node, &named.parent)
        && stand.known.get(stand.node, spawned.spawn.needs).is_some()
        && is_inside(spawned.kind.above, stand.kind)
        && is_named(stand, spawned.spawn.needs, spawned.kind)
}

// An inner kind stands below a node of the kind above it.
fn is_inside(above: Option<u32>, kind: Option<u32>) -> bool
    ensures { result ≡ is_inside above kind }
{
    match (above, kind) {
        (None, _) => true,
        (Some(j), Some(i)) => i == j,
        (Some(_), None) => false,
    }
}

// For a top kind that comes beside a child, the child is named.
fn is_named(stand: &Stand<'_>, needs: Atom, kind: &Kind) -> bool
    ensures { result ≡ named_by (alone_at stand.now) needs kind.now }
{
    kind.above.is_some() || !kind.beside || stand.known.get(stand.node, needs).unwrap_or(false)
}
