//! Nodes that behave alike: what was computed at one is reused at the next.
ghost use Rattle.std.specs.Prelude.{◌≡◌, ◌<◌, ℕ, suc, List, false, length, get_or, Contains, IfOk, IfSome, IsSome, IsTrue};
ghost use Rattle.tree_sem.specs.Paths.{parent_of};
ghost use Rattle.simple_core.specs.Pairs.{Asks};
ghost use Rattle.closed_page.specs.Gains.{label_in};
ghost use Rattle.closed_page.specs.Gains.{Gain};
ghost use Rattle.closed_page.specs.Labelled.{node_of};
ghost use Rattle.class_adding.specs.Alike.{IsLeaf, IsAlike, AreAlike};
ghost use Rattle.class_adding.specs.Asking.{Went, TellsSpent};
ghost use Rattle.class_adding.specs.Looks.{IsLookAt, MayLook, IsTakenOver, AreLooks};
ghost use Rattle.class_adding.specs.declared.looking.Look.{Look};

use crate::asker::Asker;
use crate::filling::Filling;
use crate::looking::Look;
use closed_page::PageLabels;
use pair_table::same_atoms;
use simple_core::{GainFault, Summaries};
use std::alloc::Global;
use tp_base::NoMemory;

// Whether both are there and the same.
fn are_one(first: Option<usize>, second: Option<usize>) -> bool
    ensures there { IsTrue result → IsSome first }
    ensures same { IsTrue result → first ≡ second }
{
    match (first, second) {
        (Some(first), Some(second)) => first == second,
        _ => false,
    }
}

// Whether both nodes have the same parent.
fn have_one_parent(labels: &PageLabels, first: usize, second: usize) -> bool
    requires first { first < length labels.now.nodes }
    requires second { second < length labels.now.nodes }
    ensures { IsTrue result → parent_of (node_of labels.now first) ≡ parent_of (node_of labels.now second) }
{
    are_one(labels.parent(first), labels.parent(second))
}

// Whether a node has no children.
fn is_leaf(labels: &PageLabels, number: usize) -> bool
    requires { number < length labels.now.nodes }
    ensures { IsTrue result → IsLeaf labels.now.labels (node_of labels.now number) }
{
    let kids = labels.kids(number);
    kids.len() == 0
}

// Whether the nodes have the same label and the same parent, and no children.
fn are_alike(labels: &PageLabels, first: usize, second: usize) -> bool
    requires first { first < length labels.now.nodes }
    requires second { second < length labels.now.nodes }
    ensures { IsTrue result → IsAlike labels.now.labels (node_of labels.now first) (node_of labels.now second) }
{
    if !have_one_parent(labels, first, second) {
        return false;
    }
    if !is_leaf(labels, first) {
        return false;
    }
    if !is_leaf(labels, second) {
        return false;
    }
    same_atoms(labels.own(first), labels.own(second))
}

// Whether a node is alike the one numbered just before it.
fn is_alike(labels: &PageLabels, number: usize) -> bool
    requires { number < length labels.now.nodes }
    ensures { IsTrue result → (i : ℕ) → number ≡ suc i → IsAlike labels.now.labels (node_of labels.now i) (node_of labels.now number) }
{
    if number == 0 {
        return false;
    }
    are_alike(labels, number - 1, number)
}

/// Whether each node is alike the one numbered just before it, so that both have equal labels in every round. It costs a
/// walk along each label.
pub(crate) fn all_alike(alloc: Global, labels: &PageLabels) -> Result<Vec<bool>, NoMemory>
    ensures { IfOk result (λ v. AreAlike labels.now.labels labels.now.nodes v.items) }
{
    let mut alike = Vec::new(alloc);
    let count = labels.count();
    for i in 0..count {
        let mark = is_alike(labels, i);
        alike.push(mark)?;
    }
    Ok(alike)
}

// Whether a node is marked.
fn is_marked(alike: &[bool], number: usize) -> bool
    ensures { IsTrue result → IsTrue (get_or alike.now number false) }
{
    match alike.get(number) {
        Some(mark) => *mark,
        None => false,
    }
}

// Whether the second number is the one after the first.
fn is_next(first: usize, second: usize) -> bool
    ensures { IsTrue result → second ≡ suc first }
{
    if second <= first {
        return false;
    }
    second - first == 1
}

// The same look at another node.
fn moved(look: &Look, number: usize) -> Result<Look, NoMemory>
    ensures { IfOk result (λ l. l ≡ record look.now { number = number }) }
{
    let news = look.news.share()?;
    Ok(Look {
        number,
        news,
        grew: look.grew,
        seen_above: look.seen_above,
        seen_below: look.seen_below,
        wake: look.wake,
    })
}

// The last of these looks.
fn last_of(looks: &[Look]) -> Option<&Look>
    ensures { IfSome result (λ l. Contains looks.now l.now) }
{
    looks.last()
}

// The last of these looks, moved to a node that is alike its own.
fn look_before(filling: &Filling, looks: &[Look], number: usize) -> Result<Option<Look>, NoMemory>
    requires number { number < length filling.now.labels.nodes }
    requires alike { AreAlike filling.now.labels.labels filling.now.labels.nodes filling.now.alike.items }
    ensures { IfOk result (λ o. IfSome o (IsTakenOver filling.now.labels.labels filling.now.labels.nodes looks.now number)) }
{
    if !is_marked(&filling.alike, number) {
        return Ok(None);
    }
    let Some(look) = last_of(looks) else {
        return Ok(None);
    };
    if !is_next(look.number, number) {
        return Ok(None);
    }
    let again = moved(look, number)?;
    Ok(Some(again))
}

impl<'a, 's, S: Summaries> Asker<'a, 's, S> {
    /// What is new at a node, as `look_at` tells it, after these looks. Where the last of them can be taken over, it costs a
    /// few steps.
    pub(crate) fn look_on(
        &mut self,
        filling: &Filling,
        looks: &[Look],
        number: usize,
        k: u64,
    ) -> Result<Look, GainFault>
        requires may { MayLook S.Summaries self.old filling.now k number }
        requires looks { (gains : List Gain) × AreLooks self.old.system.now filling.now.labels.labels k (S.known self.old.sums.now) gains filling.now.labels.nodes looks.now }
        ensures look { IfOk result (IsLookAt self.old.system.now filling.now.labels.labels k (S.known self.new.sums.now) filling.now.labels.nodes number) }
        ensures went { Went S.Summaries (Asks self.old.system.now (label_in filling.now.labels.labels (node_of filling.now.labels number))) self.old self.new }
        ensures spent { TellsSpent S.Summaries result self.old self.new }
    {
        let before = look_before(filling, looks, number)?;
        if let Some(look) = before {
            return Ok(look);
        }
        self.look_at(filling, number, k)
    }
}
