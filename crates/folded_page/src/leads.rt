//! The lead of each node, which is the node that represents it, and its check.
ghost use Rattle.std.specs.Prelude.{◌≡◌, ◌<◌, ℕ, List, map, length, IsTrue, IfOk, IfSome};
ghost use Rattle.tree_sem.specs.Trees.{LabelTree};
ghost use Rattle.node_marks.specs.Numbering.{IsNumbering, AreAbove, parent_number};
ghost use Rattle.folded_page.specs.Leads.{AreLeads, lead_of};
ghost use Rattle.folded_page.specs.Links.{AreLinks};
ghost use Rattle.folded_page.specs.Checks.{IsBelow, IsPlaced, AreAlike, AreMatched, IsPair, IsLed};

use crate::candidates::candidates;
use crate::links::{Links, number_at};
use pair_table::same_atoms;
use std::alloc::Global;
use tp_base::{ClassSet, NoMemory};

// Whether this may be the lead of a node that isn't the root, as far as its parent tells.
fn is_below(parents: &[usize], leads: &[usize], i: usize, lead: usize) -> bool
    ensures { IsTrue result → IsBelow parents.now leads.now i lead }
{
    lead > 0 && number_at(parents, lead) == number_at(leads, number_at(parents, i))
}

// Whether a node's lead stands early enough, for itself, and below the lead of the parent.
fn is_placed(parents: &[usize], leads: &[usize], i: usize) -> bool
    ensures { IsTrue result → IsPlaced parents.now leads.now i }
{
    let lead = number_at(leads, i);
    lead <= i && number_at(leads, lead) == lead && (i == 0 || is_below(parents, leads, i, lead))
}

// Whether two nodes have one label.
fn are_alike(labels: &[&ClassSet], first: usize, second: usize) -> bool
    requires first { first < length labels.now }
    requires second { second < length labels.now }
    ensures { IsTrue result → AreAlike (map (λ b. b.now) labels.now) first second }
{
    same_atoms(labels[first], labels[second])
}

// Whether a node has its lead's label.
fn has_label(labels: &[&ClassSet], leads: &[usize], i: usize) -> bool
    requires { i < length labels.now }
    ensures { IsTrue result → AreAlike (map (λ b. b.now) labels.now) (lead_of leads.now i) i }
{
    let lead = number_at(leads, i);
    lead == i || (lead < i && are_alike(labels, lead, i))
}

// Whether the one is a child of a node, the other one of its lead, and both have one lead.
fn is_pair(parents: &[usize], leads: &[usize], i: usize, own: usize, other: usize) -> bool
    ensures { IsTrue result → IsPair parents.now leads.now i own other }
{
    own > 0
        && own < parents.len()
        && other < parents.len()
        && number_at(parents, own) == i
        && number_at(parents, other) == number_at(leads, i)
        && number_at(leads, own) == number_at(leads, other)
}

// Whether the children of a node and of its lead have the same leads, one by one.
fn are_matched(parents: &[usize], links: &Links, leads: &[usize], i: usize) -> bool
    requires above { AreAbove parents.now }
    requires links { AreLinks parents.now links.now.first.items links.now.next.items }
    ensures { IsTrue result → AreMatched parents.now leads.now i (lead_of leads.now i) }
{
    let mut own = number_at(&links.first, i);
    let mut last = number_at(leads, i);
    let mut other = number_at(&links.first, last);
    'children: while other > last {
        if !is_pair(parents, leads, i, own, other) {
            return false;
        }
        own = number_at(&links.next, own);
        last = other;
        other = number_at(&links.next, other);
    }
    true
}

// Whether each lead below a node's lead stands for a child of the node. Nothing is to be looked at where it is its own lead.
fn is_matched(parents: &[usize], links: &Links, leads: &[usize], i: usize) -> bool
    requires above { AreAbove parents.now }
    requires links { AreLinks parents.now links.now.first.items links.now.next.items }
    ensures { IsTrue result → AreMatched parents.now leads.now i (lead_of leads.now i) }
{
    number_at(leads, i) == i || are_matched(parents, links, leads, i)
}

// Whether all holds that is asked of a node's lead.
fn is_led(parents: &[usize], labels: &[&ClassSet], links: &Links, leads: &[usize], i: usize) -> bool
    requires above { AreAbove parents.now }
    requires within { i < length labels.now }
    requires links { AreLinks parents.now links.now.first.items links.now.next.items }
    ensures { IsTrue result → IsLed parents.now (map (λ b. b.now) labels.now) leads.now i }
{
    is_placed(parents, leads, i)
        && has_label(labels, leads, i)
        && is_matched(parents, links, leads, i)
}

// Whether these are leads.
fn are_leads(parents: &[usize], labels: &[&ClassSet], links: &Links, leads: &[usize]) -> bool
    requires above { AreAbove parents.now }
    requires as_many { length labels.now ≡ length parents.now }
    requires links { AreLinks parents.now links.now.first.items links.now.next.items }
    ensures { IsTrue result → AreLeads parents.now (map (λ b. b.now) labels.now) leads.now }
{
    if leads.len() != parents.len() {
        return false;
    }
    for i in 0..parents.len() {
        if !is_led(parents, labels, links, leads, i) {
            return false;
        }
    }
    true
}

// The candidates, where they are leads.
fn checked(
    parents: &[usize],
    labels: &[&ClassSet],
    links: &Links,
    leads: Vec<usize>,
) -> Option<Vec<usize>>
    requires above { AreAbove parents.now }
    requires as_many { length labels.now ≡ length parents.now }
    requires links { AreLinks parents.now links.now.first.items links.now.next.items }
    ensures { IfSome result (λ v. AreLeads parents.now (map (λ b. b.now) labels.now) v.items) }
{
    if are_leads(parents, labels, links, &leads) {
        Some(leads)
    } else {
        None
    }
}

/// The lead of each node, which is the node that represents it, from the numbers of the nodes' parents and from their
/// labels. The root's parent is of no account. Nothing where subtrees that differ have one hash. Linear in the nodes and
/// their atoms.
pub(crate) fn leads_of(
    alloc: Global,
    parents: &[usize],
    labels: &[&ClassSet],
) -> Result<Option<Vec<usize>>, NoMemory>
    requires { (steps : List ℕ) × (t : LabelTree) × IsNumbering t parents.now steps (map (λ b. b.now) labels.now) }
    ensures { IfOk result (λ o. IfSome o (λ v. AreLeads parents.now (map (λ b. b.now) labels.now) v.items)) }
{
    let links = Links::of(alloc, parents, labels)?;
    let leads = candidates(alloc, parents, &links)?;
    Ok(checked(parents, labels, &links, leads))
}
