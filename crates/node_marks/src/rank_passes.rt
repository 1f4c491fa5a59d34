//! Passes over a number for each node: the least one among its ancestors or its descendants. A number past all nodes stands
//! for none.
ghost use Rattle.std.specs.Prelude.{◌≡◌, ◌↔◌, ◌⊎◌, ℕ, ◌<◌, ◌≤◌, nat_lt, min, true, ◌&&◌, length, get_or, replicate, set, if◌then◌else◌, IfOk, IsTrue};
ghost use Rattle.node_marks.specs.Marks.{mark};
ghost use Rattle.node_marks.specs.Numbering.{parent_number, AreAbove};
ghost use Rattle.node_marks.specs.Passes.{AreOver, AreFarOver, AreBehind, AreAhead};
ghost use Rattle.node_marks.specs.Ranks.{rank, under, AreOwn, AreChosen, AreLesser, AreUpTo, AreRanksBelow, AreRanksFarBelow, AreNearest, AreReached};

use crate::passes::{mark_at, number_at};
use std::alloc::Global;
use tp_base::NoMemory;

// The number of a node.
fn rank_at(ranks: &[usize], i: usize, none: usize) -> usize
    ensures { result ≡ rank ranks.now none i }
{
    match ranks.get(i) {
        Some(rank) => *rank,
        None => none,
    }
}

fn least(rank: usize, other: usize) -> usize
    ensures { result ≡ min rank other }
{
    rank.min(other)
}

/// Each node's own number.
pub fn own(alloc: Global, len: usize) -> Result<Vec<usize>, NoMemory>
    ensures { IfOk result (λ m. AreOwn m.items len len) }
{
    let mut made = Vec::new(alloc);
    'nodes: for i in 0..len {
        made.push(i)?;
    }
    Ok(made)
}

/// The numbers of the marked nodes, and none of others.
pub fn chosen(
    alloc: Global,
    len: usize,
    marks: &[bool],
    ranks: &[usize],
) -> Result<Vec<usize>, NoMemory>
    ensures { IfOk result (λ m. AreChosen marks.now ranks.now m.items len len) }
{
    let mut made = Vec::new(alloc);
    'nodes: for i in 0..len {
        made.push(chosen_rank(marks, ranks, i, len))?;
    }
    Ok(made)
}

fn chosen_rank(marks: &[bool], ranks: &[usize], i: usize, none: usize) -> usize
    ensures { result ≡ (if mark marks.now i then rank ranks.now none i else none) }
{
    if mark_at(marks, i) {
        rank_at(ranks, i, none)
    } else {
        none
    }
}

/// The number of each node's parent.
pub fn below(alloc: Global, parents: &[usize], ranks: &[usize]) -> Result<Vec<usize>, NoMemory>
    ensures { IfOk result (λ m. AreRanksBelow parents.now ranks.now m.items (length parents.now) (length parents.now)) }
{
    let mut made = Vec::new(alloc);
    'nodes: for i in 0..parents.len() {
        made.push(rank_below(parents, ranks, i))?;
    }
    Ok(made)
}

fn rank_below(parents: &[usize], ranks: &[usize], i: usize) -> usize
    ensures { result ≡ (if nat_lt 0 i then rank ranks.now (length parents.now) (parent_number parents.now i) else length parents.now) }
{
    if i > 0 {
        rank_at(ranks, number_at(parents, i), parents.len())
    } else {
        parents.len()
    }
}

/// The least number of the nodes above.
pub fn far_below(alloc: Global, parents: &[usize], ranks: &[usize]) -> Result<Vec<usize>, NoMemory>
    requires { AreAbove parents.now }
    ensures { IfOk result (λ m. AreRanksFarBelow parents.now ranks.now m.items (length parents.now) (length parents.now)) }
{
    let mut made = Vec::new(alloc);
    'nodes: for i in 0..parents.len() {
        let rank = least(
            rank_below(parents, ranks, i),
            rank_below(parents, made.as_slice(), i),
        );
        made.push(rank)?;
    }
    Ok(made)
}

/// The number of the first node from each one upward, itself first, that is a stop.
pub fn nearest(
    alloc: Global,
    parents: &[usize],
    ranks: &[usize],
    stops: &[bool],
) -> Result<Vec<usize>, NoMemory>
    requires { AreAbove parents.now }
    ensures { IfOk result (λ m. AreNearest parents.now ranks.now stops.now m.items (length parents.now) (length parents.now)) }
{
    let mut made = Vec::new(alloc);
    'nodes: for i in 0..parents.len() {
        let rank = nearest_rank(parents, ranks, stops, made.as_slice(), i);
        made.push(rank)?;
    }
    Ok(made)
}

fn nearest_rank(
    parents: &[usize],
    ranks: &[usize],
    stops: &[bool],
    made: &[usize],
    i: usize,
) -> usize
    ensures { result ≡ (if mark stops.now i then rank ranks.now (length parents.now) i
        else if nat_lt 0 i then rank made.now (length parents.now) (parent_number parents.now i) else length parents.now) }
{
    if mark_at(stops, i) {
        rank_at(ranks, i, parents.len())
    } else {
        rank_below(parents, made, i)
    }
}

// The number of a node is now at most this.
fn lower(made: &mut Vec<usize>, node: usize, rank: usize)
    requires { node < length made.old.items }
    ensures count { length made.new.items ≡ length made.old.items }
    ensures each { (k i : ℕ) → (mark (under k made.new.items) i ≡ true) ↔ ((mark (under k made.old.items) i ≡ true) ⊎ ((i ≡ node) × (nat_lt rank k ≡ true))) }
{
    let old = rank_at(made.as_slice(), node, 0);
    put(made, node, least(rank, old));
}

// No number for each of the nodes.
fn all_none(alloc: Global, len: usize) -> Result<Vec<usize>, NoMemory>
    ensures { IfOk result (λ m. m.items ≡ replicate len len) }
{
    Ok(vec![in alloc; len; len]?)
}

/// The least number of the children.
pub fn over(alloc: Global, parents: &[usize], ranks: &[usize]) -> Result<Vec<usize>, NoMemory>
    requires { AreAbove parents.now }
    ensures { IfOk result (λ m. (k : ℕ) → k ≤ length parents.now → AreOver parents.now (under k ranks.now) (under k m.items) 0) }
{
    let mut made = all_none(alloc, parents.len())?;
    let mut next = parents.len();
    'nodes: while next > 1 {
        next -= 1;
        let parent = number_at(parents, next);
        let rank = rank_at(ranks, next, parents.len());
        lower(&mut made, parent, rank);
    }
    Ok(made)
}

/// The least number of the nodes below.
pub fn far_over(alloc: Global, parents: &[usize], ranks: &[usize]) -> Result<Vec<usize>, NoMemory>
    requires { AreAbove parents.now }
    ensures { IfOk result (λ m. (k : ℕ) → k ≤ length parents.now → AreFarOver parents.now (under k ranks.now) (under k m.items) 0) }
{
    let mut made = all_none(alloc, parents.len())?;
    let mut next = parents.len();
    'nodes: while next > 1 {
        next -= 1;
        let parent = number_at(parents, next);
        let rank = lowest(ranks, made.as_slice(), next, parent, parents.len());
        put(&mut made, parent, rank);
    }
    Ok(made)
}

// The least of a child's number, of the one of what is below it, and of its parent's so far.
fn lowest(ranks: &[usize], made: &[usize], child: usize, parent: usize, none: usize) -> usize
    ensures { result ≡ min (min (rank ranks.now none child) (rank made.now none child)) (rank made.now none parent) }
{
    let below = least(rank_at(ranks, child, none), rank_at(made, child, none));
    least(below, rank_at(made, parent, none))
}

fn put(made: &mut Vec<usize>, node: usize, rank: usize)
    requires { node < length made.old.items }
    ensures { made.new.items ≡ set made.old.items node rank }
{
    made[node] = rank;
}

/// The least number of the children of the parent before each node.
pub fn behind(alloc: Global, parents: &[usize], ranks: &[usize]) -> Result<Vec<usize>, NoMemory>
    requires { AreAbove parents.now }
    ensures { IfOk result (λ m. (k : ℕ) → k ≤ length parents.now → AreBehind parents.now (under k ranks.now) (under k m.items) (length parents.now)) }
{
    let mut made = Vec::new(alloc);
    let mut seen = all_none(alloc, parents.len())?;
    'nodes: for i in 0..parents.len() {
        let rank = rank_below(parents, seen.as_slice(), i);
        made.push(rank)?;
        see(&mut seen, parents, ranks, i);
    }
    Ok(made)
}

// The number of a parent is now at most that of its child.
fn see(seen: &mut Vec<usize>, parents: &[usize], ranks: &[usize], child: usize)
    requires { 0 < child → get_or parents.now child 0 < length seen.old.items }
    ensures count { length seen.new.items ≡ length seen.old.items }
    ensures each { (k i : ℕ) → (mark (under k seen.new.items) i ≡ true) ↔ ((mark (under k seen.old.items) i ≡ true) ⊎ ((i ≡ parent_number parents.now child) × ((nat_lt 0 child && nat_lt (rank ranks.now (length parents.now) child) k) ≡ true))) }
{
    if child > 0 {
        let rank = rank_at(ranks, child, parents.len());
        let parent = number_at(parents, child);
        lower(seen, parent, rank);
    }
}

/// The least number of the children of the parent behind each node.
pub fn ahead(alloc: Global, parents: &[usize], ranks: &[usize]) -> Result<Vec<usize>, NoMemory>
    requires { AreAbove parents.now }
    ensures { IfOk result (λ m. (k : ℕ) → k ≤ length parents.now → AreAhead parents.now (under k ranks.now) (under k m.items) 0) }
{
    let mut made = all_none(alloc, parents.len())?;
    let mut seen = all_none(alloc, parents.len())?;
    let mut next = parents.len();
    'nodes: while next > 1 {
        next -= 1;
        let parent = number_at(parents, next);
        let rank = rank_at(seen.as_slice(), parent, parents.len());
        put(&mut made, next, rank);
        let own = rank_at(ranks, next, parents.len());
        lower(&mut seen, parent, own);
    }
    Ok(made)
}

/// The lesser of two numbers of each node.
pub fn lesser(
    alloc: Global,
    len: usize,
    ranks: &[usize],
    others: &[usize],
) -> Result<Vec<usize>, NoMemory>
    ensures { IfOk result (λ m. AreLesser ranks.now others.now m.items len len) }
{
    let mut made = Vec::new(alloc);
    'nodes: for i in 0..len {
        let rank = least(rank_at(ranks, i, len), rank_at(others, i, len));
        made.push(rank)?;
    }
    Ok(made)
}

/// The number of each node, where it isn't more than this one.
pub fn up_to(
    alloc: Global,
    len: usize,
    ranks: &[usize],
    most: usize,
) -> Result<Vec<usize>, NoMemory>
    ensures { IfOk result (λ m. AreUpTo ranks.now most m.items len len) }
{
    let mut made = Vec::new(alloc);
    'nodes: for i in 0..len {
        let rank = least(rank_at(ranks, i, len), most);
        made.push(rank)?;
    }
    Ok(made)
}

/// The least number of all nodes.
pub fn least_of(len: usize, ranks: &[usize]) -> usize
    ensures { (k : ℕ) → k ≤ len → (result < k) ↔ ((i : ℕ) × (i < len) × (rank ranks.now len i < k)) }
{
    let mut found = len;
    'nodes: for i in 0..len {
        found = least(found, rank_at(ranks, i, len));
    }
    found
}

/// Whether a marked node has no number.
pub fn is_any_without(len: usize, marks: &[bool], ranks: &[usize]) -> bool
    ensures { IsTrue result ↔ ((i : ℕ) × (i < len) × (mark marks.now i ≡ true) × (len ≤ rank ranks.now len i)) }
{
    'nodes: for i in 0..len {
        let rank = rank_at(ranks, i, len);
        if mark_at(marks, i) && rank >= len {
            return true;
        }
    }
    false
}

/// Marks at the nodes that are the number of a marked one.
pub fn reached(
    alloc: Global,
    len: usize,
    marks: &[bool],
    ranks: &[usize],
) -> Result<Vec<bool>, NoMemory>
    ensures { IfOk result (λ m. AreReached marks.now ranks.now m.items len len) }
{
    let mut made = vec![in alloc; false; len]?;
    'nodes: for i in 0..len {
        let rank = rank_at(ranks, i, len);
        if mark_at(marks, i) && rank < len {
            made[rank] = true;
        }
    }
    Ok(made)
}
