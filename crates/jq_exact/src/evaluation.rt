//! Evaluation of chains and statements: for all nodes that `this` may name at once, as one set.
ghost use Rattle.std.specs.Prelude.{◌≡◌, ◌↔◌, ◌⊎◌, ◌+◌, ◌<◌, ℕ, length, take, drop, List, Option, Some, true, false, IfOk, IsTrue};
ghost use Rattle.node_marks.specs.Marks.{IsMarked, path_at};
ghost use Rattle.tree_sem.specs.Trees.{count_of};
ghost use Rattle.jq_stmts.specs.Views.{chain_of, root_of};
ghost use Rattle.jq_stmts.specs.SharpViews.{with_kind, exact_chain, exact_of};
ghost use Rattle.jq_stmts.specs.declared.sharp.SharpKind.TheVariants as sharp;
ghost use Rattle.jq_exact.specs.Exact.{IsMadeExactly, MadeExactly, SelectedExactly};
ghost use Rattle.jq_exact.specs.Standing.{after};
ghost use Rattle.jq_exact.specs.Together as spec;
ghost use Rattle.jq_exact.specs.Together.{NamedBy, InOne};

use crate::firsts::{first_ask, firsts_of, is_none_made, lead_back, least_made};
use crate::sets::of_exact_call;
use crate::standing_calls::standing;
use jq_sem::matching;
use jq_stmts::{Call, Chain, ExactStmt, Root, Sharp, SharpKind, kind_at};
use node_marks::{Marks, NumberedTree};
use std::alloc::Global;
use tp_base::NoMemory;

/// What `this` may name.
#[derive(Drop)]
pub enum Named {
    /// Nothing: outside all handlers.
    Nothing,
    /// One of the marked nodes.
    Nodes(Marks),
}

/// The calls of one of a statement's chains, with the marks of the statement.
#[derive(Clone, Copy)]
pub struct MarkedCalls<'a> {
    pub calls: &'a [Call],
    pub sharp: &'a [Sharp],
    /// The handler whose chain it is, counted from the outermost; none for the statement's own chain.
    pub handler: Option<usize>,
}

/// The nodes that the statement selects exactly.
pub fn selected(alloc: Global, tree: &NumberedTree, s: &ExactStmt) -> Result<Marks, NoMemory>
    ensures { IfOk result (λ m. (v : List ℕ) → IsMarked tree.now m v ↔ SelectedExactly tree.now (exact_of s.now) v) }
{
    let sharp = s.sharp.items();
    let handlers = s.wide.handlers.items();
    let mut named = Named::Nothing;
    'handlers: for number in 0..handlers.len() {
        let marks = of_chain(alloc, tree, &named, &handlers[number], sharp, Some(number))?;
        named = Named::Nodes(marks);
    }
    of_chain(alloc, tree, &named, &s.wide.chain, sharp, None)
}

// The set of a chain, with each of the nodes as `this`.
fn of_chain(
    alloc: Global,
    tree: &NumberedTree,
    named: &Named,
    chain: &Chain,
    sharp: &[Sharp],
    handler: Option<usize>,
) -> Result<Marks, NoMemory>
    ensures { IfOk result (λ m. (v : List ℕ) → IsMarked tree.now m v ↔ InOne tree.now (NamedBy tree.now named.now) (exact_chain sharp.now handler (chain_of chain.now)) v) }
{
    if !names_some(tree, named) {
        return tree.no_node();
    }
    let (emptied, numbers) = standing(alloc, chain.calls.items())?;
    let calls = MarkedCalls {
        calls: chain.calls.items(),
        sharp,
        handler,
    };
    match of_root(tree, emptied, &chain.root)? {
        Some(first) => of_calls(tree, first, &calls, numbers.as_slice()),
        None => of_this(tree, named, &calls, numbers.as_slice()),
    }
}

// Whether there is anything that `this` may name; nothing at all, outside handlers, counts as one.
fn names_some(tree: &NumberedTree, named: &Named) -> bool
    ensures { IsTrue result ↔ ((u : Option (List ℕ)) × NamedBy tree.now named.now u) }
{
    match named {
        Named::Nothing => true,
        Named::Nodes(marks) => tree.is_any(marks),
    }
}

// The set that a chain begins with, where it is left, and is the same whatever `this` names; none for `this`.
fn of_root(tree: &NumberedTree, emptied: bool, root: &Root) -> Result<Option<Marks>, NoMemory>
    ensures { IfOk result (λ first. spec.IsRootSet tree.now (after emptied (root_of root.now)) first) }
{
    if emptied {
        let none = tree.no_node()?;
        return Ok(Some(none));
    }
    match root {
        Root::List(selectors) => Ok(Some(matching(tree, selectors.items())?)),
        Root::This => Ok(None),
    }
}

// What the calls of these numbers make of a set.
fn of_calls(
    tree: &NumberedTree,
    first: Marks,
    calls: &MarkedCalls,
    numbers: &[usize],
) -> Result<Marks, NoMemory>
    ensures { IfOk result (λ m. (v : List ℕ) → IsMarked tree.now m v ↔ MadeExactly tree.now (IsMarked tree.now first) (spec.stood calls.now.sharp.now calls.now.handler calls.now.calls.now numbers.now) v) }
{
    let mut marks = first;
    'calls: for number in numbers {
        marks = of_number(tree, calls, *number, &marks)?;
    }
    Ok(marks)
}

// What the call of a number makes of a set.
fn of_number(
    tree: &NumberedTree,
    calls: &MarkedCalls,
    number: usize,
    marks: &Marks,
) -> Result<Marks, NoMemory>
    ensures { IfOk result (λ m. (v : List ℕ) → IsMarked tree.now m v ↔ IsMadeExactly tree.now (IsMarked tree.now marks.now) (spec.numbered calls.now.sharp.now calls.now.handler calls.now.calls.now number) v) }
{
    match calls.calls.get(number) {
        None => tree.no_node(),
        Some(call) => {
            let kind = kind_at(calls.sharp, calls.handler, number);
            of_exact_call(tree, call, kind, marks)
        }
    }
}

// What they make of the node that `this` names, for each that it may name.
fn of_this(
    tree: &NumberedTree,
    named: &Named,
    calls: &MarkedCalls,
    numbers: &[usize],
) -> Result<Marks, NoMemory>
    requires { (u : Option (List ℕ)) × NamedBy tree.now named.now u }
    ensures { IfOk result (λ m. (v : List ℕ) → IsMarked tree.now m v ↔ spec.FromThis tree.now named.now (spec.stood calls.now.sharp.now calls.now.handler calls.now.calls.now numbers.now) v) }
{
    match named {
        Named::Nothing => {
            let none = tree.no_node()?;
            of_calls(tree, none, calls, numbers)
        }
        Named::Nodes(marks) => {
            if asks_first(calls, numbers) {
                return with_firsts(tree, marks, calls, numbers);
            }
            let copy = marks.copy()?;
            of_calls(tree, copy, calls, numbers)
        }
    }
}

// The same, where a first node is asked for: each time for all nodes at once, by a number for each, and behind the last as one
// set. Where nothing was made of some nodes, a call that adds makes something of it. Where a call isn't parted, it is by each node.
fn with_firsts(
    tree: &NumberedTree,
    named: &Marks,
    calls: &MarkedCalls,
    numbers: &[usize],
) -> Result<Marks, NoMemory>
    requires { (w : List ℕ) × IsMarked tree.now named.now w }
    ensures { IfOk result (λ m. (v : List ℕ) → IsMarked tree.now m v ↔ spec.FromNodes tree.now named.now (spec.stood calls.now.sharp.now calls.now.handler calls.now.calls.now numbers.now) (count_of tree.now) v) }
{
    if !lead_back(calls, numbers) {
        return of_each(tree, named, calls, numbers);
    }
    let mut marks = named.copy()?;
    let mut none = false;
    let mut rest = numbers;
    'firsts: while let Some(place) = first_ask(calls, rest) {
        let block = up_to(rest, place);
        let least = least_made(tree, calls, block)?;
        let firsts = firsts_of(tree, &marks, none, &least)?;
        none = is_none_made(tree, &marks, none, &least);
        marks = firsts;
        rest = behind(rest, place);
    }
    of_calls(tree, marks, calls, rest)
}

// The numbers before a place, and those behind it.
fn up_to(numbers: &[usize], place: usize) -> &[usize]
    requires { place < length numbers.now }
    ensures { result.now ≡ take place numbers.now }
{
    numbers.split_at(place).0
}

fn behind(numbers: &[usize], place: usize) -> &[usize]
    requires { place < length numbers.now }
    ensures { result.now ≡ drop (place + 1) numbers.now }
{
    numbers.split_at(place + 1).1
}

// Whether one of the calls asks for the first node of a set.
fn asks_first(calls: &MarkedCalls, numbers: &[usize]) -> bool
    ensures { (result ≡ false) → spec.asks_first (spec.stood calls.now.sharp.now calls.now.handler calls.now.calls.now numbers.now) ≡ false }
{
    'calls: for number in numbers {
        let kind = kind_at(calls.sharp, calls.handler, *number);
        if is_first(kind) {
            return true;
        }
    }
    false
}

/// Whether a mark says that the first node alone is kept. Constant.
pub fn is_first(kind: Option<SharpKind>) -> bool
    ensures yes { IsTrue result → kind ≡ Some sharp.First }
    ensures no { (result ≡ false) → (c : _) → spec.is_first (with_kind c kind) ≡ false }
{
    matches!(kind, Some(SharpKind::First))
}

// What the calls make of each of the nodes by itself.
fn of_each(
    tree: &NumberedTree,
    marks: &Marks,
    calls: &MarkedCalls,
    numbers: &[usize],
) -> Result<Marks, NoMemory>
    ensures { IfOk result (λ m. (v : List ℕ) → IsMarked tree.now m v ↔ spec.FromNodes tree.now marks.now (spec.stood calls.now.sharp.now calls.now.handler calls.now.calls.now numbers.now) (count_of tree.now) v) }
{
    let mut made = tree.no_node()?;
    'nodes: for number in 0..tree.count() {
        if marks.at(number) {
            made = with_node(tree, made, number, calls, numbers)?;
        }
    }
    Ok(made)
}

// With what the calls make of the node of this number.
fn with_node(
    tree: &NumberedTree,
    made: Marks,
    number: usize,
    calls: &MarkedCalls,
    numbers: &[usize],
) -> Result<Marks, NoMemory>
    requires { number < count_of tree.now }
    ensures { IfOk result (λ m. (v : List ℕ) → IsMarked tree.now m v ↔ (IsMarked tree.now made v ⊎ MadeExactly tree.now (λ w. w ≡ path_at tree.now number) (spec.stood calls.now.sharp.now calls.now.handler calls.now.calls.now numbers.now) v)) }
{
    let alone = tree.node(number)?;
    let more = of_calls(tree, alone, calls, numbers)?;
    tree.in_either(&made, &more)
}
