//! The sets that compounds, selectors and calls make, as marks for all nodes of a tree.
ghost use Rattle.std.specs.Prelude.{◌≡◌, ◌↔◌, ℕ, List, map, IfOk};
ghost use Rattle.tree_sem.specs.Nodes.{IsNode};
ghost use Rattle.node_marks.specs.Marks.{IsMarked};
ghost use Rattle.sel_text.specs.Selectors as spec;
ghost use Rattle.sel_core.specs.Selectors.{Matches};
ghost use Rattle.sel_text.specs.Parts.{join_of, and_then, with_parts};
ghost use Rattle.sel_text.specs.Views.{selector_of};
ghost use Rattle.jq_sem.specs.Statements.{FitsOne, MayFit, MatchesOne, IsMade};
ghost use Rattle.jq_sem.specs.Together.{IsUnder};
ghost use Rattle.jq_stmts.specs.Views.{atoms_of, call_of};

use jq_stmts::Call;
use node_marks::{Marks, NumberedTree};
use sel_text::{Compound, Join, Selector};
use tp_base::NoMemory;

/// The set that a call makes from a set. A few steps for each node and each compound and atom of the call.
pub fn of_call(tree: &NumberedTree, call: &Call, marks: &Marks) -> Result<Marks, NoMemory>
    ensures { IfOk result (λ m. (v : List ℕ) → IsMarked tree.now m v ↔ IsMade tree.now (IsMarked tree.now marks.now) (call_of call.now) v) }
{
    match call {
        Call::Find(cs) => {
            let below = tree.far_below(marks)?;
            chosen(tree, cs.items(), &below)
        }
        Call::Children(cs) => {
            let below = tree.below(marks)?;
            narrowed(tree, cs.items(), &below)
        }
        Call::Parent(cs) => {
            let over = tree.over(marks)?;
            narrowed(tree, cs.items(), &over)
        }
        Call::Parents(cs) => {
            let over = tree.far_over(marks)?;
            narrowed(tree, cs.items(), &over)
        }
        Call::Filter(cs) => chosen(tree, cs.items(), marks),
        Call::Has(cs) => {
            let fit = fitting(tree, cs.items())?;
            let over = tree.far_over(&fit)?;
            tree.in_both(marks, &over)
        }
        Call::Around(cs) => {
            let over = tree.far_over(marks)?;
            let around = tree.in_either(marks, &over)?;
            chosen(tree, cs.items(), &around)
        }
        Call::Near(cs) => {
            let over = tree.over(marks)?;
            let near = tree.below(&over)?;
            narrowed(tree, cs.items(), &near)
        }
        Call::Add(selectors) => {
            let matched = matching(tree, selectors.items())?;
            tree.in_either(marks, &matched)
        }
        Call::End => tree.no_node(),
    }
}

/// The nodes that one of the selectors matches. The cost is that of `matched_nodes` for each selector.
pub fn matching(tree: &NumberedTree, selectors: &[Selector]) -> Result<Marks, NoMemory>
    ensures { IfOk result (λ m. (v : List ℕ) → IsMarked tree.now m v ↔ MatchesOne tree.now (map selector_of selectors.now) v) }
{
    let mut marks = tree.no_node()?;
    let mut rest = selectors;
    'selectors: while let Some((first, others)) = rest.split_first() {
        let matched = matched_nodes(tree, first)?;
        let more = tree.in_either(&marks, &matched)?;
        marks = more;
        rest = others;
    }
    Ok(marks)
}

/// The nodes that the selector matches. Its prefixes are matched in turn, from left to right, each by one compound more.
/// A few steps for each node and each compound and atom of the selector.
pub fn matched_nodes(tree: &NumberedTree, s: &Selector) -> Result<Marks, NoMemory>
    ensures { IfOk result (λ m. (v : List ℕ) → IsMarked tree.now m v ↔ Matches tree.now v (selector_of s.now)) }
{
    match s.parts.items().split_first() {
        None => tree.with_atoms(&[]),
        Some((first, parts)) => {
            let marks = tree.with_atoms(first.atoms.items())?;
            with_joined(tree, marks, s.joins.items(), parts)
        }
    }
}

// The nodes that a selector matches which has further compounds on its right, each with its combinator.
fn with_joined(
    tree: &NumberedTree,
    first: Marks,
    joins: &[Join],
    parts: &[Compound],
) -> Result<Marks, NoMemory>
    ensures { IfOk result (λ m. (s : spec.Selector) → ((v : List ℕ) → IsMarked tree.now first v ↔ Matches tree.now v s)
        → (v : List ℕ) → IsMarked tree.now m v ↔ Matches tree.now v (with_parts s joins.now parts.now)) }
{
    let mut marks = first;
    let mut between = joins;
    let mut right = parts;
    'joins: while let Some((join, later)) = between.split_first() {
        let Some((part, others)) = right.split_first() else {
            return Ok(marks);
        };
        marks = joined(tree, &marks, *join, part)?;
        between = later;
        right = others;
    }
    Ok(marks)
}

// The nodes that a selector with one compound more matches.
fn joined(
    tree: &NumberedTree,
    marks: &Marks,
    join: Join,
    part: &Compound,
) -> Result<Marks, NoMemory>
    ensures { IfOk result (λ m. (s : spec.Selector) → ((v : List ℕ) → IsMarked tree.now marks.now v ↔ Matches tree.now v s)
        → (v : List ℕ) → IsMarked tree.now m v ↔ Matches tree.now v (and_then s join part.now)) }
{
    let fit = tree.with_atoms(part.atoms.items())?;
    let under = under(tree, marks, join)?;
    tree.in_both(&fit, &under)
}

// The nodes from which a combinator leads to a marked one.
fn under(tree: &NumberedTree, marks: &Marks, join: Join) -> Result<Marks, NoMemory>
    ensures { IfOk result (λ m. (v : List ℕ) → IsMarked tree.now m v ↔ (IsNode tree.now v × IsUnder (join_of join) (IsMarked tree.now marks.now) v)) }
{
    match join {
        Join::Child => tree.below(marks),
        Join::Inside => tree.far_below(marks),
    }
}

// The marked nodes that one of the compounds fits.
fn chosen(tree: &NumberedTree, compounds: &[Compound], marks: &Marks) -> Result<Marks, NoMemory>
    ensures { IfOk result (λ m. (v : List ℕ) → IsMarked tree.now m v ↔ (FitsOne tree.now (atoms_of compounds.now) v × IsMarked tree.now marks.now v)) }
{
    let fit = fitting(tree, compounds)?;
    tree.in_both(&fit, marks)
}

// The same; all marked nodes, where there are no compounds.
fn narrowed(tree: &NumberedTree, compounds: &[Compound], marks: &Marks) -> Result<Marks, NoMemory>
    ensures { IfOk result (λ m. (v : List ℕ) → IsMarked tree.now m v ↔ (MayFit tree.now (atoms_of compounds.now) v × IsMarked tree.now marks.now v)) }
{
    let may = may_fit(tree, compounds)?;
    tree.in_both(&may, marks)
}

/// The nodes that one of the compounds fits; every node, where there are none. The cost is that of `fitting`.
pub fn may_fit(tree: &NumberedTree, compounds: &[Compound]) -> Result<Marks, NoMemory>
    ensures { IfOk result (λ m. (v : List ℕ) → IsMarked tree.now m v ↔ MayFit tree.now (atoms_of compounds.now) v) }
{
    if compounds.is_empty() {
        return tree.every_node();
    }
    fitting(tree, compounds)
}

/// The nodes that one of the compounds fits. A few steps for each node and each compound and its atoms.
pub fn fitting(tree: &NumberedTree, compounds: &[Compound]) -> Result<Marks, NoMemory>
    ensures { IfOk result (λ m. (v : List ℕ) → IsMarked tree.now m v ↔ FitsOne tree.now (atoms_of compounds.now) v) }
{
    let mut marks = tree.no_node()?;
    let mut rest = compounds;
    'compounds: while let Some((first, others)) = rest.split_first() {
        let fit = tree.with_atoms(first.atoms.items())?;
        let more = tree.in_either(&marks, &fit)?;
        marks = more;
        rest = others;
    }
    Ok(marks)
}
