//! The steps of the items of a page.
ghost use Rattle.std.specs.Prelude.{◌≡◌, ◌∷◌, ◌++◌, ◌≤◌, ℕ, List, [], Some, true, is_some, length, unwrap_or, if◌then◌else◌, bytes_eq, IfOk, OnOk};
ghost use Rattle.tree_sem.specs.Trees.{children_at};
ghost use Rattle.tree_sem.specs.declared.tree_fault.TheConstants.{MOST_NODES};
ghost use Rattle.proof_check.specs.Nodes.{number_in, HasAll};
ghost use Rattle.proof_core.specs.NodePasses.{all_seen, seen_one, passed_to, way_on};
ghost use Rattle.proof_core.specs.PagePasses.{seen_in, item_seen, unfold_at};
ghost use Rattle.proof_core.specs.Trails.{progress_of};
ghost use Rattle.proof_check.specs.Unfolding.{end_for, unfold_entry, unfold_page};
ghost use Rattle.proof_core.specs.declared.unfolded.TheConstants.{MOST_LISTED};

use crate::node_passes::{NodeAtom, NodePass, NodePasses, alone, child_for, stays};
use crate::passes::{down, way_from};
use crate::trails::Trail;
use crate::walks::entry_passed;
use crate::worlds::{GrownChild, World, after_local, from_of, needed_by, spawned};
use proof_check::{Below, Nodes, PageItem, ProofItem, Reason, steps_of};
use std::alloc::Global;
use tp_base::{Atom, NoMemory, Path};
use tree_sem::Tree;

/// The page, with the numbers of its nodes.
#[derive(Clone, Copy)]
pub struct NumberedPage<'a> {
    pub tree: &'a Tree,
    pub nodes: &'a Nodes,
}

/// A node of the page with its number, the number of its children, and the items that were passed before.
#[derive(Clone, Copy)]
pub struct PageNode<'a> {
    pub at: &'a Path,
    pub number: usize,
    pub base: u32,
    pub nodes: &'a Nodes,
    pub here: &'a NodePasses,
}

/// Passes the items of the page, one after another.
pub fn page_passed(
    items: &[PageItem],
    page: &NumberedPage<'_>,
    world: &World<'_>,
    trail: &mut Trail,
) -> Result<NodePasses, NoMemory>
    requires all { HasAll page.now.nodes.now items.now }
    requires short { length (unfold_page world.now.system.now (unfold_entry world.now.system.now world.now.entries.now (length world.now.entries.now)) page.now.tree.now items.now (λ q. []) (progress_of trail.old)).0.steps ≤ MOST_LISTED }
    ensures trail { OnOk result (progress_of trail.new ≡ (unfold_page world.now.system.now (unfold_entry world.now.system.now world.now.entries.now (length world.now.entries.now)) page.now.tree.now items.now (λ q. []) (progress_of trail.old)).0) }
    ensures here { IfOk result (λ here. seen_in page.now.nodes.now here ≡ (unfold_page world.now.system.now (unfold_entry world.now.system.now world.now.entries.now (length world.now.entries.now)) page.now.tree.now items.now (λ q. []) (progress_of trail.old)).1) }
{
    let mut here = NodePasses::new(trail.allocator());
    for i in items {
        item_passed_at(i, page, &mut here, world, trail)?;
    }
    Ok(here)
}

// Passes one more item of the page.
fn item_passed_at(
    item: &PageItem,
    page: &NumberedPage<'_>,
    here: &mut NodePasses,
    world: &World<'_>,
    trail: &mut Trail,
) -> Result<(), NoMemory>
    requires numbered { is_some (number_in page.now.nodes.now item.now.at) ≡ true }
    requires short { length (item_seen world.now.system.now world.now.entries.now page.now.tree.now item.now (seen_in page.now.nodes.now here.old) (progress_of trail.old)).0.steps ≤ MOST_LISTED }
    ensures trail { OnOk result (progress_of trail.new ≡ (item_seen world.now.system.now world.now.entries.now page.now.tree.now item.now (seen_in page.now.nodes.now here.old) (progress_of trail.old)).0) }
    ensures here { OnOk result ((q : List ℕ) → seen_in page.now.nodes.now here.new q ≡ (if bytes_eq item.now.at q
        then seen_in page.now.nodes.now here.old q ++ (item_seen world.now.system.now world.now.entries.now page.now.tree.now item.now (seen_in page.now.nodes.now here.old) (progress_of trail.old)).1 ∷ []
        else seen_in page.now.nodes.now here.old q)) }
{
    let path = steps_of(trail.allocator(), &item.at)?;
    let number = number_of(page.nodes, &path);
    let base = base_of(page.tree, &item.at);
    let node = PageNode {
        at: &item.at,
        number,
        base,
        nodes: page.nodes,
        here,
    };
    let pass = item_passed(&item.item, &node, world, trail)?;
    here.push(pass)?;
    Ok(())
}

fn number_of(nodes: &Nodes, path: &[u32]) -> usize
    requires { is_some (number_in nodes.now path.now) ≡ true }
    ensures { number_in nodes.now path.now ≡ Some result }
{
    match nodes.get(path) {
        Some(n) => n,
        None => 0,
    }
}

// The number of a node's children. It is less than the number of the tree's nodes.
fn base_of(page: &Tree, at: &Path) -> u32
    ensures base { result ≡ unwrap_or (children_at at.now page.now) 0 }
    ensures few { result ≤ MOST_NODES }
{
    match page.node(at) {
        Some(node) => node.children(),
        None => 0,
    }
}

fn item_passed(
    item: &ProofItem,
    node: &PageNode<'_>,
    world: &World<'_>,
    trail: &mut Trail,
) -> Result<NodePass, NoMemory>
    requires base { node.now.base ≤ MOST_NODES }
    requires short { length (unfold_at world.now.system.now world.now.entries.now item.now node.now (progress_of trail.old)).0.steps ≤ MOST_LISTED }
    ensures trail { OnOk result (progress_of trail.new ≡ (unfold_at world.now.system.now world.now.entries.now item.now node.now (progress_of trail.old)).0) }
    ensures pass { IfOk result (λ p. passed_to node.now.at.now (seen_one (all_seen node.now.here.now) p) ≡ (unfold_at world.now.system.now world.now.entries.now item.now node.now (progress_of trail.old)).1) }
    ensures node { IfOk result (λ p. p.node ≡ node.now.number) }
{
    let alloc = trail.allocator();
    match item.reason {
        Reason::Start => Ok(stays(node.number, item.atom, alloc)),
        Reason::Up(_) => Ok(stays(node.number, item.atom, alloc)),
        Reason::Local(l) => {
            after_local(world.system, l, node.at, trail)?;
            Ok(stays(node.number, item.atom, alloc))
        }
        Reason::Down(link, Below::Real(k)) => {
            let from = from_of(world.system, link);
            let pass = child_passed(item.atom, k, from, node, alloc)?;
            Ok(pass)
        }
        Reason::Down(link, Below::Grown(spawn, entry)) => {
            let grown = GrownChild { link, spawn, entry };
            grown_passed(item, grown, node, world, trail)
        }
    }
}

// Passes an item for this atom. Its reason is a link from the atom `from` at the node's child k.
fn child_passed(
    atom: Atom,
    k: u32,
    from: Atom,
    node: &PageNode<'_>,
    alloc: Global,
) -> Result<NodePass, NoMemory>
    ensures pass { IfOk result (λ p. passed_to node.now.at.now (seen_one (all_seen node.now.here.now) p)
        ≡ record { atom = atom; child = Some k; end = end_for from (seen_in node.now.nodes.now node.now.here.now (node.now.at.now ++ k ∷ [])) (node.now.at.now ++ k ∷ []) }) }
    ensures node { IfOk result (λ p. p.node ≡ node.now.number) }
{
    let mut child = steps_of(alloc, node.at)?;
    child.push(k)?;
    let on = place_at(node.nodes, node.here, &child, from);
    let pass = down(atom, k, Vec::new(alloc))?;
    Ok(NodePass {
        node: node.number,
        pass,
        on,
    })
}

fn grown_passed(
    item: &ProofItem,
    grown: GrownChild,
    node: &PageNode<'_>,
    world: &World<'_>,
    trail: &mut Trail,
) -> Result<NodePass, NoMemory>
    requires base { node.now.base ≤ MOST_NODES }
    requires short { length (unfold_at world.now.system.now world.now.entries.now item.now node.now (progress_of trail.old)).0.steps ≤ MOST_LISTED }
    requires reason { item.now.reason ≡ Reason.Down grown.link (Below.Grown grown.spawn grown.entry) }
    ensures trail { OnOk result (progress_of trail.new ≡ (unfold_at world.now.system.now world.now.entries.now item.now node.now (progress_of trail.old)).0) }
    ensures pass { IfOk result (λ p. passed_to node.now.at.now (seen_one (all_seen node.now.here.now) p) ≡ (unfold_at world.now.system.now world.now.entries.now item.now node.now (progress_of trail.old)).1) }
    ensures node { IfOk result (λ p. p.node ≡ node.now.number) }
{
    let Some(kind) = spawned(world.system, grown.spawn) else {
        return Ok(stays(node.number, item.atom, trail.allocator()));
    };
    let needed = NodeAtom {
        node: node.number,
        atom: needed_by(world.system, grown.spawn),
    };
    let child = child_for(node.here, needed);
    let k = trail.bring(kind, node.base, node.at, child)?;
    let at = child_at(node.at, k)?;
    let here = entry_passed(grown.entry, at, world, trail)?;
    let way = way_from(here, from_of(world.system, grown.link));
    let pass = down(item.atom, k, way)?;
    Ok(alone(node.number, pass))
}

fn child_at(at: &Path, k: u32) -> Result<Path, NoMemory>
    ensures { IfOk result (λ p. p ≡ at.now ++ k ∷ []) }
{
    let mut child = at.copy()?;
    child.push(k)?;
    Ok(child)
}

/// The index of the first item with the atom at the node at a path. Linear in the path's length, on average.
pub fn place_at(nodes: &Nodes, here: &NodePasses, path: &[u32], atom: Atom) -> Option<usize>
    ensures { end_for atom (seen_in nodes.now here.now path.now) path.now ≡ path.now ++ way_on (all_seen here.now) result }
{
    match nodes.get(path) {
        Some(n) => here.place_of(NodeAtom { node: n, atom }),
        None => None,
    }
}
