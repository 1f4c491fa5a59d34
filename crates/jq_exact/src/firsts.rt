//! Evaluation of chains with `first` for all nodes that `this` may name at once. For each node it keeps the least number in
//! the set that the calls make of it.
ghost use Rattle.std.specs.Prelude.{◌≡◌, ◌↔◌, ◌<◌, ◌≤◌, [], ◌∷◌, Some, true, false, length, take, map, get_or, IsTrue, IsNone, IfSome, IfOk};
ghost use Rattle.tree_sem.specs.Trees.{count_of};
ghost use Rattle.tree_sem.specs.Nodes.{IsNode};
ghost use Rattle.node_marks.specs.Marks.{IsSetOf, HasDescendantIn};
ghost use Rattle.node_marks.specs.Ranks.{IsUnder, AreRanked, HasNearestIn};
ghost use Rattle.jq_sem.specs.Statements as call;
ghost use Rattle.jq_sem.specs.Statements.{FitsOne, MayFit};
ghost use Rattle.jq_stmts.specs.Sharp.{plain, closest, siblings, first};
ghost use Rattle.jq_stmts.specs.declared.sharp.SharpKind.TheVariants as sharp;
ghost use Rattle.jq_stmts.specs.SharpViews.{with_kind};
ghost use Rattle.sel_text.specs.Views.{selector_of};
ghost use Rattle.jq_stmts.specs.Views.{atoms_of, call_of};
ghost use Rattle.jq_exact.specs.Firsts as spec;
ghost use Rattle.jq_exact.specs.Firsts.{IsBefore, AreBefore, AreLeastMade, IsFirstMade, IsNoneMade};
ghost use Rattle.jq_exact.specs.Together as together;
ghost use Rattle.jq_exact.specs.Together.{asks_first, numbered, stood};

use crate::evaluation::{MarkedCalls, is_first};
use crate::sets::takes_all;
use jq_sem::{fitting, matching, may_fit};
use jq_stmts::{Call, SharpKind, kind_at};
use node_marks::{Marks, NumberedTree, Ranks};
use sel_text::{Compound, Selector};
use tp_base::NoMemory;

/// The least numbers of the nodes in sets that calls make: of each node, and of no node.
#[derive(Drop)]
pub struct Least {
    pub ranks: Ranks,
    pub of_none: usize,
}

/// The place of the first of the calls that asks for the first node of a set.
pub fn first_ask(calls: &MarkedCalls, numbers: &[usize]) -> Option<usize>
    ensures some { IfSome result (λ p. (p < length numbers.now) × (numbered calls.now.sharp.now calls.now.handler calls.now.calls.now (get_or numbers.now p 0) ≡ first)
        × (asks_first (stood calls.now.sharp.now calls.now.handler calls.now.calls.now (take p numbers.now)) ≡ false)) }
    ensures none { IsNone result → asks_first (stood calls.now.sharp.now calls.now.handler calls.now.calls.now numbers.now) ≡ false }
{
    'calls: for place in 0..numbers.len() {
        if asks(calls, numbers[place]) {
            return Some(place);
        }
    }
    None
}

// Whether the call of this number does.
fn asks(calls: &MarkedCalls, number: usize) -> bool
    ensures yes { IsTrue result → numbered calls.now.sharp.now calls.now.handler calls.now.calls.now number ≡ first }
    ensures no { (result ≡ false) → together.is_first (numbered calls.now.sharp.now calls.now.handler calls.now.calls.now number) ≡ false }
{
    match calls.calls.get(number) {
        None => false,
        Some(call) => {
            let kind = kind_at(calls.sharp, calls.handler, number);
            asks_by(call, kind)
        }
    }
}

// Whether a call does, of which this is kept.
fn asks_by(call: &Call, kind: Option<SharpKind>) -> bool
    ensures yes { IsTrue result → with_kind (call_of call.now) kind ≡ first }
    ensures no { (result ≡ false) → together.is_first (with_kind (call_of call.now) kind) ≡ false }
{
    if !is_first(kind) {
        return false;
    }
    takes_all(call)
}

/// Whether of each of the calls it is known from which nodes it leads where, or it asks for a first node: not of what is judged in
/// the place of `closest` and `siblings`.
pub fn lead_back(calls: &MarkedCalls, numbers: &[usize]) -> bool
    ensures { IsTrue result → spec.parted_or_first (stood calls.now.sharp.now calls.now.handler calls.now.calls.now numbers.now) ≡ true }
{
    'calls: for number in numbers {
        if !leads_back(calls, *number) {
            return false;
        }
    }
    true
}

fn leads_back(calls: &MarkedCalls, number: usize) -> bool
    ensures { IsTrue result → spec.parted_or_first (numbered calls.now.sharp.now calls.now.handler calls.now.calls.now number ∷ []) ≡ true }
{
    match calls.calls.get(number) {
        None => false,
        Some(call) => {
            let kind = kind_at(calls.sharp, calls.handler, number);
            leads_back_by(call, kind)
        }
    }
}

fn leads_back_by(call: &Call, kind: Option<SharpKind>) -> bool
    ensures { IsTrue result → spec.parted_or_first (with_kind (call_of call.now) kind ∷ []) ≡ true }
{
    match call {
        Call::Around(_) => is_closest(kind),
        Call::Near(_) => is_siblings(kind),
        Call::End => false,
        _ => true,
    }
}

fn is_closest(kind: Option<SharpKind>) -> bool
    ensures { IsTrue result → kind ≡ Some sharp.Closest }
{
    matches!(kind, Some(SharpKind::Closest))
}

fn is_siblings(kind: Option<SharpKind>) -> bool
    ensures { IsTrue result → kind ≡ Some sharp.Siblings }
{
    matches!(kind, Some(SharpKind::Siblings))
}

/// Of each node, and of no node, the least number in the set that the calls make of it. It costs a few steps for each node and
/// each call.
pub fn least_made(
    tree: &NumberedTree,
    calls: &MarkedCalls,
    numbers: &[usize],
) -> Result<Least, NoMemory>
    requires { spec.are_parted (stood calls.now.sharp.now calls.now.handler calls.now.calls.now numbers.now) ≡ true }
    ensures { IfOk result (λ m. AreLeastMade tree.now (stood calls.now.sharp.now calls.now.handler calls.now.calls.now numbers.now) m.ranks m.of_none) }
{
    let mut least = own(tree)?;
    let mut left = numbers.len();
    'calls: while left > 0 {
        left -= 1;
        let before = before_number(tree, calls, numbers[left], &least)?;
        least = before;
    }
    Ok(least)
}

// Before the first call.
fn own(tree: &NumberedTree) -> Result<Least, NoMemory>
    ensures { IfOk result (λ m. AreLeastMade tree.now [] m.ranks m.of_none) }
{
    let ranks = tree.own_ranks()?;
    let of_none = tree.count();
    Ok(Least { ranks, of_none })
}

// The least numbers before the call of a number, where these are those behind it.
fn before_number(
    tree: &NumberedTree,
    calls: &MarkedCalls,
    number: usize,
    least: &Least,
) -> Result<Least, NoMemory>
    requires { spec.is_parted (numbered calls.now.sharp.now calls.now.handler calls.now.calls.now number) ≡ true }
    ensures { IfOk result (λ m. AreBefore tree.now (numbered calls.now.sharp.now calls.now.handler calls.now.calls.now number) least.now.ranks least.now.of_none m.ranks m.of_none) }
{
    match calls.calls.get(number) {
        Some(call) => {
            let kind = kind_at(calls.sharp, calls.handler, number);
            before_call(tree, call, kind, least)
        }
        // Nothing leads back from what isn't there.
        None => unreachable!(),
    }
}

// The same of a call, of which this is kept.
fn before_call(
    tree: &NumberedTree,
    call: &Call,
    kind: Option<SharpKind>,
    least: &Least,
) -> Result<Least, NoMemory>
    requires { spec.is_parted (with_kind (call_of call.now) kind) ≡ true }
    ensures { IfOk result (λ m. AreBefore tree.now (with_kind (call_of call.now) kind) least.now.ranks least.now.of_none m.ranks m.of_none) }
{
    match call {
        Call::Add(selectors) => before_add(tree, selectors.items(), least),
        _ => before_back(tree, call, kind, least),
    }
}

// What is added is in each set.
fn before_add(tree: &NumberedTree, selectors: &[Selector], least: &Least) -> Result<Least, NoMemory>
    ensures { IfOk result (λ m. AreBefore tree.now (plain (call.add (map selector_of selectors.now))) least.now.ranks least.now.of_none m.ranks m.of_none) }
{
    let matched = matching(tree, selectors)?;
    let added = tree.ranks_in(&matched, &least.ranks)?;
    let of_none = tree.least_rank(&added).min(least.of_none);
    let ranks = tree.ranks_up_to(&least.ranks, of_none)?;
    Ok(Least { ranks, of_none })
}

// Of no node nothing is made.
fn before_back(
    tree: &NumberedTree,
    call: &Call,
    kind: Option<SharpKind>,
    least: &Least,
) -> Result<Least, NoMemory>
    requires { spec.leads_back (with_kind (call_of call.now) kind) ≡ true }
    ensures { IfOk result (λ m. AreBefore tree.now (with_kind (call_of call.now) kind) least.now.ranks least.now.of_none m.ranks m.of_none) }
{
    let made = ranks_before(tree, call, kind, &least.ranks)?;
    let of_none = least.of_none;
    let ranks = tree.ranks_up_to(&made, of_none)?;
    Ok(Least { ranks, of_none })
}

// Of each node the least of the numbers that nodes have in the set that the call makes of it.
fn ranks_before(
    tree: &NumberedTree,
    call: &Call,
    kind: Option<SharpKind>,
    ranks: &Ranks,
) -> Result<Ranks, NoMemory>
    requires { spec.leads_back (with_kind (call_of call.now) kind) ≡ true }
    ensures { IfOk result (λ m. IsBefore tree.now (with_kind (call_of call.now) kind) ranks.now m) }
{
    match call {
        Call::Around(cs) => before_closest(tree, cs.items(), ranks),
        Call::Near(cs) => before_siblings(tree, cs.items(), ranks),
        _ => before_plain(tree, call, ranks),
    }
}

// The same of a call that is what it says.
fn before_plain(tree: &NumberedTree, call: &Call, ranks: &Ranks) -> Result<Ranks, NoMemory>
    requires { spec.leads_back (plain (call_of call.now)) ≡ true }
    ensures { IfOk result (λ m. IsBefore tree.now (plain (call_of call.now)) ranks.now m) }
{
    match call {
        Call::Find(cs) => before_find(tree, cs.items(), ranks),
        Call::Children(cs) => before_children(tree, cs.items(), ranks),
        Call::Parent(cs) => before_parent(tree, cs.items(), ranks),
        Call::Parents(cs) => before_parents(tree, cs.items(), ranks),
        Call::Filter(cs) => before_filter(tree, cs.items(), ranks),
        Call::Has(cs) => before_has(tree, cs.items(), ranks),
        // No other call leads back.
        Call::Around(_) | Call::Near(_) | Call::Add(_) | Call::End => unreachable!(),
    }
}

fn before_find(
    tree: &NumberedTree,
    compounds: &[Compound],
    ranks: &Ranks,
) -> Result<Ranks, NoMemory>
    ensures { IfOk result (λ m. IsBefore tree.now (plain (call.find (atoms_of compounds.now))) ranks.now m) }
{
    let fit = chosen(tree, compounds, ranks)?;
    tree.ranks_far_over(&fit)
}

fn before_children(
    tree: &NumberedTree,
    compounds: &[Compound],
    ranks: &Ranks,
) -> Result<Ranks, NoMemory>
    ensures { IfOk result (λ m. IsBefore tree.now (plain (call.children (atoms_of compounds.now))) ranks.now m) }
{
    let fit = narrowed(tree, compounds, ranks)?;
    tree.ranks_over(&fit)
}

fn before_parent(
    tree: &NumberedTree,
    compounds: &[Compound],
    ranks: &Ranks,
) -> Result<Ranks, NoMemory>
    ensures { IfOk result (λ m. IsBefore tree.now (plain (call.parent (atoms_of compounds.now))) ranks.now m) }
{
    let fit = narrowed(tree, compounds, ranks)?;
    tree.ranks_below(&fit)
}

fn before_parents(
    tree: &NumberedTree,
    compounds: &[Compound],
    ranks: &Ranks,
) -> Result<Ranks, NoMemory>
    ensures { IfOk result (λ m. IsBefore tree.now (plain (call.parents (atoms_of compounds.now))) ranks.now m) }
{
    let fit = narrowed(tree, compounds, ranks)?;
    tree.ranks_far_below(&fit)
}

fn before_filter(
    tree: &NumberedTree,
    compounds: &[Compound],
    ranks: &Ranks,
) -> Result<Ranks, NoMemory>
    ensures { IfOk result (λ m. IsBefore tree.now (plain (call.filter (atoms_of compounds.now))) ranks.now m) }
{
    chosen(tree, compounds, ranks)
}

fn before_has(tree: &NumberedTree, compounds: &[Compound], ranks: &Ranks) -> Result<Ranks, NoMemory>
    ensures { IfOk result (λ m. IsBefore tree.now (plain (call.has (atoms_of compounds.now))) ranks.now m) }
{
    over_ranks(tree, compounds, ranks)
}

fn before_closest(
    tree: &NumberedTree,
    compounds: &[Compound],
    ranks: &Ranks,
) -> Result<Ranks, NoMemory>
    ensures { IfOk result (λ m. IsBefore tree.now (closest (atoms_of compounds.now)) ranks.now m) }
{
    nearest(tree, compounds, ranks)
}

fn before_siblings(
    tree: &NumberedTree,
    compounds: &[Compound],
    ranks: &Ranks,
) -> Result<Ranks, NoMemory>
    ensures { IfOk result (λ m. IsBefore tree.now (siblings (atoms_of compounds.now)) ranks.now m) }
{
    let fit = narrowed(tree, compounds, ranks)?;
    tree.ranks_beside(&fit)
}

// The numbers of nodes that one of the compounds fits.
fn chosen(tree: &NumberedTree, compounds: &[Compound], ranks: &Ranks) -> Result<Ranks, NoMemory>
    ensures { IfOk result (λ m. AreRanked tree.now m (λ k v. FitsOne tree.now (atoms_of compounds.now) v × IsUnder tree.now k ranks.now v)) }
{
    let fit = fitting(tree, compounds)?;
    tree.ranks_in(&fit, ranks)
}

// The same, where there are compounds.
fn narrowed(tree: &NumberedTree, compounds: &[Compound], ranks: &Ranks) -> Result<Ranks, NoMemory>
    ensures { IfOk result (λ m. AreRanked tree.now m (λ k v. MayFit tree.now (atoms_of compounds.now) v × IsUnder tree.now k ranks.now v)) }
{
    let may = may_fit(tree, compounds)?;
    tree.ranks_in(&may, ranks)
}

// The numbers of nodes that have one below them that one of the compounds fits.
fn over_ranks(tree: &NumberedTree, compounds: &[Compound], ranks: &Ranks) -> Result<Ranks, NoMemory>
    ensures { IfOk result (λ m. AreRanked tree.now m (λ k v. HasDescendantIn (FitsOne tree.now (atoms_of compounds.now)) v × IsUnder tree.now k ranks.now v)) }
{
    let fit = fitting(tree, compounds)?;
    let over = tree.far_over(&fit)?;
    tree.ranks_in(&over, ranks)
}

// The number of the first node from each one upward that one of the compounds fits.
fn nearest(tree: &NumberedTree, compounds: &[Compound], ranks: &Ranks) -> Result<Ranks, NoMemory>
    ensures { IfOk result (λ m. AreRanked tree.now m (λ k v. IsNode tree.now v × HasNearestIn (FitsOne tree.now (atoms_of compounds.now)) (IsUnder tree.now k ranks.now) v)) }
{
    let fit = fitting(tree, compounds)?;
    tree.nearest_ranks(ranks, &fit)
}

/// The first nodes of what the calls make of each marked node, and of no node, where one of the sets is so.
pub fn firsts_of(
    tree: &NumberedTree,
    marks: &Marks,
    none: bool,
    least: &Least,
) -> Result<Marks, NoMemory>
    ensures { IfOk result (λ m. IsSetOf tree.now m (IsFirstMade tree.now least.now.ranks least.now.of_none marks.now none)) }
{
    let reached = tree.reached(marks, &least.ranks)?;
    if is_node(tree, none, least.of_none) {
        let one = tree.node(least.of_none)?;
        return tree.in_either(&reached, &one);
    }
    Ok(reached)
}

/// Whether nothing is made of one of them.
pub fn is_none_made(tree: &NumberedTree, marks: &Marks, none: bool, least: &Least) -> bool
    ensures { IsTrue result ↔ IsNoneMade tree.now least.now.ranks least.now.of_none marks.now none }
{
    if tree.has_unranked(marks, &least.ranks) {
        return true;
    }
    is_no_node(tree, none, least.of_none)
}

// Whether one of the sets is empty, and a number is that of a node, or that of none.
fn is_node(tree: &NumberedTree, none: bool, number: usize) -> bool
    ensures { IsTrue result ↔ ((none ≡ true) × (number < count_of tree.now)) }
{
    none && number < tree.count()
}

fn is_no_node(tree: &NumberedTree, none: bool, number: usize) -> bool
    ensures { IsTrue result ↔ ((none ≡ true) × (count_of tree.now ≤ number)) }
{
    none && number >= tree.count()
}
