//! The items that were passed at one node.
ghost use Rattle.std.specs.Prelude.{◌≡◌, ◌∷◌, ◌++◌, [], Some, None, IfOk};
ghost use Rattle.proof_core.specs.Passes.{way_for, named_for};

use crate::keyed_list::{Keyed, KeyedList};
use std::alloc::Global;
use tp_base::{Atom, NoMemory};

/// An item that was passed: its atom, the child that it names, if it names one, and a way. The way leads down from its node to the
/// node where the walk for a match ends, last step first.
#[derive(Drop)]
pub struct Pass {
    pub atom: Atom,
    pub child: Option<u32>,
    pub way: Vec<u32>,
}

impl Keyed for Pass {
    type Key = Atom;

    ghost key_of = { λ p. p.atom };

    fn key(&self) -> Atom {
        self.atom
    }
}

/// Passed items, in their order, with a look-up by atom.
pub type Passes = KeyedList<Pass>;

/// The child that the first item with the atom names. Constant on average.
pub fn child_for(here: &Passes, atom: Atom) -> u32
    ensures { result ≡ named_for atom here.now }
{
    match here.first(atom) {
        Some(p) => p.child.unwrap_or(0),
        None => 0,
    }
}

/// The way of the first item with the atom, or the empty way without one. The items are dropped. Linear in their number.
pub fn way_from(here: Passes, atom: Atom) -> Vec<u32>
    ensures { result.items ≡ way_for atom here }
{
    let alloc = here.allocator();
    match here.into_first(atom) {
        Some(p) => p.way,
        None => Vec::new(alloc),
    }
}

/// An item that names no child. Constant.
pub fn plain(alloc: Global, atom: Atom) -> Pass
    ensures atom { result.atom ≡ atom }
    ensures child { result.child ≡ None }
    ensures way { result.way.items ≡ [] }
{
    Pass {
        atom,
        child: None,
        way: Vec::new(alloc),
    }
}

/// An item that names the child k. Its way goes to this child and then on by `way`. Constant on average.
pub fn down(atom: Atom, k: u32, way: Vec<u32>) -> Result<Pass, NoMemory>
    ensures atom { IfOk result (λ p. p.atom ≡ atom) }
    ensures child { IfOk result (λ p. p.child ≡ Some k) }
    ensures way { IfOk result (λ p. p.way.items ≡ way.items ++ k ∷ []) }
{
    let mut way = way;
    way.push(k)?;
    Ok(Pass {
        atom,
        child: Some(k),
        way,
    })
}
