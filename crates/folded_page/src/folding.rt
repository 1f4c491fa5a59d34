//! The folded page, where folding removes at least half of the nodes.
ghost use Rattle.std.specs.Prelude.{◌≡◌, ◌≤◌, ◌+◌, map, length, IfOk, IfSome};
ghost use Rattle.tree_sem.specs.Trees.{count_of};
ghost use Rattle.node_marks.specs.Numbering.{IsNumbering};
ghost use Rattle.folded_page.specs.Folding.{IsFolded};
ghost use Rattle.folded_page.specs.Leads.{own_count};

use crate::building::{Folded, built};
use crate::leads::leads_of;
use node_marks::Columns;
use std::alloc::Global;
use tp_base::NoMemory;
use tree_sem::Tree;

/// The page folded, from its columns, where that leaves at most half of its nodes; else nothing, as where hashes of subtrees
/// that differ are the same. Nothing costs time alone. Linear in the page's nodes and their atoms.
pub fn folded(alloc: Global, page: &Tree, columns: &Columns<'_>) -> Result<Option<Folded>, NoMemory>
    requires { IsNumbering page.now columns.now.parents.items columns.now.steps.items (map (λ b. b.now) columns.now.labels.items) }
    ensures folded { IfOk result (λ o. IfSome o (λ f. IsFolded page.now f.tree f.numbers.items)) }
    ensures few { IfOk result (λ o. IfSome o (λ f. count_of f.tree + count_of f.tree ≤ count_of page.now)) }
{
    let Some(leads) = leads_of(alloc, &columns.parents, &columns.labels)? else {
        return Ok(None);
    };
    if own_leads(&leads) > leads.len() / 2 {
        return Ok(None);
    }
    built(alloc, columns, &leads)
}

// How many nodes are their own leads.
fn own_leads(leads: &[usize]) -> usize
    ensures { result ≡ own_count leads.now (length leads.now) }
{
    let mut count = 0;
    for node in 0..leads.len() {
        if leads[node] == node {
            count += 1;
        }
    }
    count
}
