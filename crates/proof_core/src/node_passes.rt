//! The items of the page that were passed, and the walk from each of them to a match.
ghost use Rattle.std.specs.Prelude.{◌≡◌, ◌≤◌, ◌++◌, ℕ, List, Some, None, nat_lt, if◌then◌else◌, option_and_then, reverse, IfOk, OnOk};
ghost use Rattle.proof_core.specs.NodePasses.{Seen, seen_one, all_seen, way_on, passed_to, seen_at, turns};
ghost use Rattle.proof_core.specs.Passes.{passed_of};
ghost use Rattle.proof_check.specs.Unfolding as spec;

use crate::keyed_list::{Keyed, KeyedList};
use crate::passes::{Pass, plain};
use std::alloc::Global;
use tp_base::{Atom, NoMemory, Path};

/// An item that was passed at the node with this number. Where its own way ends, the walk goes on from the item `on`, which was
/// passed before it.
#[derive(Drop)]
pub struct NodePass {
    pub node: usize,
    pub pass: Pass,
    pub on: Option<usize>,
}

/// An atom at the node with this number.
#[derive(Clone, Copy, Debug, PartialEq, Eq, Hash)]
pub struct NodeAtom {
    pub node: usize,
    pub atom: Atom,
}

impl Keyed for NodePass {
    type Key = NodeAtom;

    ghost key_of = { λ p. record { node = p.node; atom = p.pass.atom } };

    fn key(&self) -> NodeAtom {
        NodeAtom {
            node: self.node,
            atom: self.pass.atom,
        }
    }
}

/// The passed items of the page, in their order, with a look-up by atom and node.
pub type NodePasses = KeyedList<NodePass>;

/// The child that the first item with the atom at the node names. Constant on average.
pub fn child_for(here: &NodePasses, at: NodeAtom) -> u32
    ensures { (v : List ℕ) → result ≡ spec.child_for at.atom (seen_at here.now at.node v) }
{
    match here.first(at) {
        Some(p) => p.pass.child.unwrap_or(0),
        None => 0,
    }
}

/// The path to the end of the walk from an item. Linear in its length and in the items on it.
pub fn walk_from(items: &[NodePass], from: Option<usize>, alloc: Global) -> Result<Path, NoMemory>
    ensures { IfOk result (λ p. p ≡ way_on (all_seen items.now) from) }
{
    let mut path = Path::root(alloc);
    let mut next = from;
    'items: while let Some(place) = next {
        let on = go_from(items, place, &mut path, alloc)?;
        next = on;
    }
    Ok(path)
}

// The item's own way, and the item from which the walk goes on.
fn go_from(
    items: &[NodePass],
    place: usize,
    path: &mut Path,
    alloc: Global,
) -> Result<Option<usize>, NoMemory>
    ensures whole { IfOk result (λ next. path.new ++ way_on (all_seen items.now) next ≡ path.old ++ way_on (all_seen items.now) (Some place)) }
    ensures turns { IfOk result (λ next. turns next ≤ place) }
{
    let Some(item) = items.get(place) else {
        return Ok(None);
    };
    go_down(path, &item.pass.way, alloc)?;
    Ok(earlier(item.on, place))
}

// A number, if it is below another.
fn earlier(on: Option<usize>, place: usize) -> Option<usize>
    ensures value { result ≡ option_and_then (λ n. if nat_lt n place then Some n else None) on }
    ensures turns { turns result ≤ place }
{
    match on {
        Some(n) if n < place => Some(n),
        _ => None,
    }
}

// Goes down a way whose last step stands first.
fn go_down(path: &mut Path, way: &[u32], alloc: Global) -> Result<(), NoMemory>
    ensures { OnOk result (path.new ≡ path.old ++ reverse way.now) }
{
    let mut rest = Vec::from_slice(alloc, way)?;
    'steps: while let Some(k) = rest.pop() {
        path.push(k)?;
    }
    Ok(())
}

/// An item that names no child, at the node with this number. Constant.
pub fn stays(node: usize, atom: Atom, alloc: Global) -> NodePass
    ensures node { result.node ≡ node }
    ensures pass { (before : List Seen) (v : List ℕ) → passed_to v (seen_one before result) ≡ record { atom = atom; child = None; end = v } }
{
    let pass = plain(alloc, atom);
    NodePass {
        node,
        pass,
        on: None,
    }
}

/// An item whose walk ends with its own way. Constant.
pub fn alone(node: usize, pass: Pass) -> NodePass
    ensures node { result.node ≡ node }
    ensures pass { (before : List Seen) (v : List ℕ) → passed_to v (seen_one before result) ≡ passed_of v pass }
{
    NodePass {
        node,
        pass,
        on: None,
    }
}
