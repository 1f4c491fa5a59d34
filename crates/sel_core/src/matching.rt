//! Matching a selector from right to left. Compounds that `>` joins stand one above the other, so they form one group. Each
//! group takes the nearest place that fits.
ghost use Rattle.std.specs.Prelude.{◌≡◌, ◌<◌, ◌+◌, ◌↔◌, length, IsTrue, IfNone, IfSome};
ghost use Rattle.tp_base.specs.Classes.{all_among};
ghost use Rattle.tree_sem.specs.Nodes.{HasAtoms};
ghost use Rattle.sel_core.specs.Selectors.{Matches};
ghost use Rattle.sel_text.specs.Parts.{selector_from};
ghost use Rattle.sel_core.specs.Places.{MatchesNode, IsLeft, Leaves};
ghost use Rattle.sel_text.specs.Views.{selector_of};

use sel_text::{Compound, Join, Selector};
use tp_base::{Atom, ClassSet, Path};
use tree_sem::{Node, Tree};

/// Whether the selector matches the node at the path; false where no node is there. Each node above is tried for one group
/// at most. So at most as many compounds are tested as the path's nodes times the longest group. Each test takes the time of
/// its atoms times the logarithm of a label's.
pub fn matches(tree: &Tree, at: &Path, s: &Selector) -> bool
    ensures { IsTrue result ↔ Matches tree.now at.now (selector_of s.now) }
{
    let Some(node) = tree.node(at) else {
        return false;
    };
    let Some(mut left) = placed(node, s.parts.items(), s.joins.items()) else {
        return false;
    };
    'groups: while !left.parts.is_empty() {
        match nearest(&left.node, left.parts, left.joins) {
            None => return false,
            Some(further) => left = further,
        }
    }
    true
}

// What of a selector is still to be placed above a node. Without parts it is nothing.
#[derive(Drop)]
struct Left<'t, 'a> {
    node: Node<'t>,
    parts: &'a [Compound],
    joins: &'a [Join],
}

// What is left where the last group of a selector is at the nearest node above that fits.
fn nearest<'t, 'a>(
    node: &Node<'t>,
    parts: &'a [Compound],
    joins: &'a [Join],
) -> Option<Left<'t, 'a>>
    requires between { length parts.now ≡ length joins.now + 1 }
    ensures none { IfNone result (IsLeft node.now parts.now joins.now → ⊥) }
    ensures same { IfSome result (λ l. IsLeft node.now parts.now joins.now ↔ IsLeft l.node l.parts.now l.joins.now) }
    ensures between { IfSome result (λ l. 0 < length l.parts.now → length l.parts.now ≡ length l.joins.now + 1) }
    ensures fewer { IfSome result (λ l. length l.parts.now < length parts.now) }
{
    let mut above = node.parent();
    'nodes: while let Some(next) = above {
        above = next.parent();
        if let Some(left) = placed(next, parts, joins) {
            return Some(left);
        }
    }
    None
}

// What is left where the last compound of a selector is at this node, and those before it up to a join that is
// no `>` are above it, parent by parent.
fn placed<'t, 'a>(node: Node<'t>, parts: &'a [Compound], joins: &'a [Join]) -> Option<Left<'t, 'a>>
    requires between { length parts.now ≡ length joins.now + 1 }
    ensures none { IfNone result (MatchesNode node.entry (selector_from parts.now joins.now) → ⊥) }
    ensures some { IfSome result (λ l. Leaves node.entry (selector_from parts.now joins.now) l.node l.parts.now l.joins.now) }
    ensures between { IfSome result (λ l. 0 < length l.parts.now → length l.parts.now ≡ length l.joins.now + 1) }
    ensures fewer { IfSome result (λ l. length l.parts.now < length parts.now) }
{
    let mut left = Left { node, parts, joins };
    'children: while let Some((last, parts)) = left.parts.split_last() {
        if !fits_here(&left.node, last) {
            return None;
        }
        match left.joins.split_last() {
            None => return Some(Left {
                node: left.node,
                parts,
                joins: left.joins,
            }),
            Some((Join::Inside, joins)) => return Some(Left {
                node: left.node,
                parts,
                joins,
            }),
            Some((Join::Child, joins)) => {
                let node = left.node.parent()?;
                left = Left { node, parts, joins };
            }
        }
    }
    None
}

/// Whether the node at the path has each atom of the compound; false where no node is there. Linear in the path's
/// length, and in the compound's times the logarithm of the label's.
pub fn fits(tree: &Tree, at: &Path, c: &Compound) -> bool
    ensures { IsTrue result ↔ HasAtoms tree.now at.now c.now.atoms }
{
    match tree.label(at) {
        None => false,
        Some(label) => has_all(label, c.atoms.items()),
    }
}

// Whether the node has each atom of the compound.
fn fits_here(node: &Node<'_>, compound: &Compound) -> bool
    ensures { IsTrue result ↔ HasAtoms node.now.tree node.now.path compound.now.atoms }
{
    has_all(node.label(), compound.atoms.items())
}

fn has_all(label: &ClassSet, atoms: &[Atom]) -> bool
    ensures { result ≡ all_among atoms.now label.now }
{
    atoms.iter().all(|atom| label.has(*atom))
}
