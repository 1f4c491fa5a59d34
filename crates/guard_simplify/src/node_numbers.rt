//! The numbers of forest nodes: their kinds, and the atoms of those that have children.
ghost use Rattle.std.specs.Prelude.{◌≡◌, ◌+◌, ◌≤◌, length, map};
ghost use Rattle.tp_base.specs.declared.atoms.TheConstants.{MOST_ATOMS};
ghost use Rattle.simple_core.specs.declared.system.TheConstants.{MOST_KINDS};
ghost use Rattle.guard_simplify.specs.Firsts.{place_of};
ghost use Rattle.guard_simplify.specs.Auxiliaries.{same_place};
ghost use Rattle.guard_simplify.specs.ForestRules.{placed, kind_among, own_among};

use crate::forest_nodes::ForestNode;
use indexmap::IndexSet;
use tp_base::Atom;

/// The nodes of all forests, those of them that have children, and the number of the first atom of the latter. There
/// are few enough of them for kinds and atoms.
#[derive(Drop)]
pub(crate) struct NodeNumbers {
    pub nodes: IndexSet<ForestNode>,
    pub owners: IndexSet<ForestNode>,
    pub first_owner: usize,
    ghost kinds: { length nodes.keys ≤ MOST_KINDS },
    ghost atoms: { first_owner + length owners.keys ≤ MOST_ATOMS },
}

// The place of a node among these; their count where it isn't there.
fn place_in(nodes: &IndexSet<ForestNode>, node: &ForestNode) -> usize
    ensures place { result ≡ place_of same_place (placed node.now) (map placed nodes.now.keys) }
    ensures within { result ≤ length nodes.now.keys }
{
    match nodes.get_index_of(node) {
        Some(place) => place,
        None => nodes.len(),
    }
}

impl NodeNumbers {
    ghost use Rattle.guard_simplify.specs.Forests.{nodes_in, owners_in};

    /// The number of a node's kind. A look-up, which costs the length of the node's path.
    pub(crate) fn kind(&self, node: &ForestNode) -> u32
        ensures { result ≡ kind_among (nodes_in self.now) (placed node.now) }
    {
        place_in(&self.nodes, node) as u32
    }

    /// The own atom of a node that has children. A look-up, which costs the length of the node's path.
    pub(crate) fn own_atom(&self, node: &ForestNode) -> Atom
        ensures { result ≡ own_among (owners_in self.now) self.now.first_owner (placed node.now) }
    {
        Atom((self.first_owner + place_in(&self.owners, node)) as u32)
    }
}
