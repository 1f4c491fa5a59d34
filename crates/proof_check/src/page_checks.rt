//! The check of a proof's items at nodes of the page.
ghost use Rattle.std.specs.Prelude.{◌≡◌, ℕ, ◌==◌, ◌&&◌, [], Some, IfOk, length, is_some, slice_get, IsTrue, true, false, unwrap_or};
ghost use Rattle.tp_base.specs.Classes.{has_class};
ghost use Rattle.tree_sem.specs.Trees.{label_at, node_at};
ghost use Rattle.proof_check.specs.Checks.{is_some_and, are_placed, has_atom};
ghost use Rattle.proof_check.specs.Checks as check;
ghost use Rattle.proof_check.specs.Firsts.{first_in, KnowsBelow, sound_by};
ghost use Rattle.proof_check.specs.Nodes.{number_in, HasAll, page_gives, above_gives, near_at_page};
ghost use Rattle.proof_check.specs.Validity.{items_at};

use crate::entry_checks::is_down;
use crate::firsts::Firsts;
use crate::nodes::{Nodes, steps_of};
use crate::premises::{Stand, grown_known, local_known};
use crate::proofs::{Below, Entries, PageItem, Reason};
use simple_core::System;
use tp_base::{Atom, NoMemory, Path};
use tree_sem::Tree;

/// A page and the entries that its items can name.
#[derive(Clone, Copy)]
pub struct Ground<'a> {
    pub system: &'a System,
    pub entries: &'a Entries,
    pub page: &'a Tree,
    pub nodes: &'a Nodes,
    pub inside: &'a Firsts,
}

/// Whether the items hold and give the root the atom.
pub fn page_holds(items: &[PageItem], ground: &Ground<'_>, target: Atom) -> Result<bool, NoMemory>
    requires all { HasAll ground.now.nodes.now items.now }
    requires below { KnowsBelow ground.now.inside.now (length ground.now.entries.now) ground.now.entries.now }
    ensures { IfOk result (λ b. b ≡ (are_placed ground.now.system.now ground.now.entries.now ground.now.page.now [] items.now && has_atom target (items_at [] items.now))) }
{
    let alloc = ground.entries.allocator();
    let mut known = Firsts::new(alloc);
    for i in items {
        if !item_placed(i, ground, &mut known)? {
            return Ok(false);
        }
    }
    let root = Vec::new(alloc);
    Ok(node_gives(ground.nodes, &known, &root, target))
}

/// Whether the item holds after those before it, whose atoms the table has. The table gets its atom, too.
pub fn item_placed(
    item: &PageItem,
    ground: &Ground<'_>,
    known: &mut Firsts,
) -> Result<bool, NoMemory>
    requires numbered { is_some (number_in ground.now.nodes.now item.now.at) ≡ true }
    ensures test { (node : ℕ) → number_in ground.now.nodes.now item.now.at ≡ Some node → IfOk result (λ b. b ≡ (is_some (node_at item.now.at ground.now.page.now)
        && sound_by ground.now.system.now ground.now.entries.now
        (near_at_page ground.now.page.now ground.now.nodes.now ground.now.inside.now known.old (length ground.now.entries.now) item.now.at node) item.now.item.atom item.now.item.reason)) }
    ensures added { (node : ℕ) → number_in ground.now.nodes.now item.now.at ≡ Some node → IfOk result (λ b. IsTrue b
        → first_in known.new node item.now.item.atom ≡ Some (unwrap_or (first_in known.old node item.now.item.atom) (check.is_down item.now.item.reason))) }
    ensures others { (node : ℕ) → number_in ground.now.nodes.now item.now.at ≡ Some node → IfOk result (λ b. IsTrue b
        → (m a : ℕ) → (node == m && item.now.item.atom == a) ≡ false → first_in known.new m a ≡ first_in known.old m a) }
{
    let path = steps_of(ground.entries.allocator(), &item.at)?;
    let Some(node) = ground.nodes.get(&path) else {
        return Ok(false);
    };
    let node = node as u64;
    if !is_there(ground.page, &item.at) || !item_known(item, path, node, ground, known)? {
        return Ok(false);
    }
    known.add(node, item.item.atom, is_down(&item.item.reason))?;
    Ok(true)
}

fn is_there(page: &Tree, at: &Path) -> bool
    ensures { result ≡ is_some (node_at at.now page.now) }
{
    page.children(at).is_some()
}

/// Whether the premises of the item are known, where its path has these steps and its node this number.
pub fn item_known(
    item: &PageItem,
    path: Vec<u32>,
    node: u64,
    ground: &Ground<'_>,
    known: &Firsts,
) -> Result<bool, NoMemory>
    requires { path.items ≡ item.now.at }
    ensures { IfOk result (λ b. b ≡ sound_by ground.now.system.now ground.now.entries.now
        (near_at_page ground.now.page.now ground.now.nodes.now ground.now.inside.now known.now (length ground.now.entries.now) item.now.at node) item.now.item.atom item.now.item.reason) }
{
    let atom = item.item.atom;
    match item.item.reason {
        Reason::Start => Ok(is_labelled(ground.page, &item.at, atom)),
        Reason::Local(l) => Ok(local_known(ground.system, l, atom, known, node)),
        Reason::Up(l) => Ok(up_known(ground, known, l, atom, &path)),
        Reason::Down(l, Below::Real(k)) => {
            let mut child = path;
            child.push(k)?;
            Ok(down_known(ground, known, l, atom, &child))
        }
        Reason::Down(l, Below::Grown(c, e)) => {
            let stand = Stand {
                system: ground.system,
                entries: ground.entries,
                inside: ground.inside,
                known,
                node,
                kind: None,
                lower: ground.entries.items().len() as u64,
            };
            Ok(grown_known(&stand, l, atom, c, e))
        }
    }
}

fn is_labelled(page: &Tree, at: &Path, atom: Atom) -> bool
    ensures { result ≡ has_class atom (unwrap_or (label_at at.now page.now) []) }
{
    match page.label(at) {
        Some(label) => label.has(atom),
        None => false,
    }
}

fn up_known(ground: &Ground<'_>, known: &Firsts, link: u64, atom: Atom, path: &[u32]) -> bool
    ensures { result ≡ is_some_and (λ r. r.to == atom && above_gives ground.now.nodes.now known.now path.now r.from) (slice_get ground.now.system.now.up link) }
{
    match ground.system.up.items().get(link as usize) {
        Some(link) => link.to == atom && parent_gives(ground.nodes, known, path, link.from),
        None => false,
    }
}

fn down_known(ground: &Ground<'_>, known: &Firsts, link: u64, atom: Atom, child: &[u32]) -> bool
    ensures { result ≡ is_some_and (λ r. r.to == atom && page_gives ground.now.nodes.now known.now child.now r.from) (slice_get ground.now.system.now.down link) }
{
    match ground.system.down.items().get(link as usize) {
        Some(link) => link.to == atom && node_gives(ground.nodes, known, child, link.from),
        None => false,
    }
}

fn parent_gives(nodes: &Nodes, known: &Firsts, path: &[u32], atom: Atom) -> bool
    ensures { result ≡ above_gives nodes.now known.now path.now atom }
{
    match path {
        [] => false,
        [above @ .., _] => node_gives(nodes, known, above, atom),
    }
}

fn node_gives(nodes: &Nodes, known: &Firsts, path: &[u32], atom: Atom) -> bool
    ensures { result ≡ page_gives nodes.now known.now path.now atom }
{
    match nodes.get(path) {
        Some(node) => known.get(node as u64, atom).is_some(),
        None => false,
    }
}
