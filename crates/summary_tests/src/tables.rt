ghost use Rattle.std.specs.Prelude.{◌≡◌, [], None, Contains};

use crate::answers::{END, ask, sound_of};
use crate::pages::{nodes_of, nodes_of_rows};
use class_adding::{Closed, close_page};
use need_table::PlainSummaries;
use simple_core::{GainFault, Summaries, System};
use std::alloc::Global;
use std::test::Fail;
use test_building::{NodeRow, Script, path_of, set_of, tree_of};
use tp_base::{Atom, ClassSet, NoMemory, Path};
use tree_sem::{Tree, TreeFault};

// The atoms of a label in order, each with its first round.
type Firsts = &'static [(u32, u64)];

// Whether a label has just these atoms.
fn has_just(label: &ClassSet, firsts: &[(u32, u64)]) -> bool {
    for (atom, _) in firsts {
        if !label.has(Atom(*atom)) {
            return false;
        }
    }
    label.len() == firsts.len()
}

// What is left of the first rounds behind this one, if it is the next.
fn behind(firsts: &[(u32, u64)], atom: u32, round: u64) -> Option<&[(u32, u64)]> {
    match firsts.split_first() {
        Some((first, rest)) if *first == (atom, round) => Some(rest),
        _ => None,
    }
}

// Whether the table tells these first rounds of a pair, and no other.
fn tells(sums: &PlainSummaries, kind: u32, parent: &ClassSet, firsts: &[(u32, u64)]) -> bool
    requires { Contains sums.now.known (kind, parent.now) }
{
    let mut left = firsts;
    for atom in 0..END {
        if let Some(round) = sums.first_round(kind, parent, Atom(atom)) {
            let Some(rest) = behind(left, atom, round) else {
                return false;
            };
            left = rest;
        }
    }
    left.is_empty()
}

// A kind below a label: how many pairs it needs, itself among them, and what comes of it.
type Gain = (Script, u32, &'static [u32], u32, Firsts);

static GAINS: [Gain; 8] = [
    (Script::Boxes, 0, &[], 6, &[(3, 0), (4, 0), (12, 5)]),
    (
        Script::Boxes,
        0,
        &[4],
        5,
        &[(3, 0), (4, 0), (6, 1), (7, 2), (10, 1), (12, 4)],
    ),
    (
        Script::Boxes,
        0,
        &[4, 6, 7],
        5,
        &[
            (3, 0),
            (4, 0),
            (6, 1),
            (7, 2),
            (8, 1),
            (9, 2),
            (10, 1),
            (12, 3),
        ],
    ),
    (Script::List, 0, &[], 2, &[(5, 0), (12, 0)]),
    (
        Script::List,
        0,
        &[4],
        3,
        &[(5, 0), (8, 1), (9, 2), (12, 0), (13, 4)],
    ),
    (
        Script::List,
        1,
        &[9],
        1,
        &[(6, 0), (7, 0), (10, 1), (11, 2), (13, 3)],
    ),
    (Script::Errors, 0, &[], 2, &[(8, 0), (11, 1), (14, 0)]),
    (Script::Errors, 1, &[], 1, &[(9, 0), (10, 0)]),
];

// Whether a table tells what comes of a kind below this label.
fn tells_gain(
    system: &System,
    sums: &mut PlainSummaries,
    parent: &ClassSet,
    row: &Gain,
) -> Result<bool, GainFault>
    requires { sums.old.system ≡ system.now }
{
    let label = ask(system, sums, row.1, parent)?;
    Ok(has_just(&label, row.4) && tells(sums, row.1, parent, row.4))
}

fn tells_row(
    alloc: Global,
    system: &System,
    sums: &mut PlainSummaries,
    row: &Gain,
) -> Result<bool, GainFault>
    requires { sums.old.system ≡ system.now }
{
    let parent = set_of(alloc, row.2)?;
    tells_gain(system, sums, &parent, row)
}

fn gains(alloc: Global, row: &Gain) -> Result<bool, GainFault> {
    let system = sound_of(alloc, row.0)?;
    let mut sums = PlainSummaries::new(alloc, &system, row.3)?;
    tells_row(alloc, &system, &mut sums, row)
}

// Whether a table answers. Where it doesn't, it is spent.
fn answers(
    system: &System,
    sums: &mut PlainSummaries,
    kind: u32,
    parent: &ClassSet,
) -> Result<bool, GainFault>
    requires { sums.old.system ≡ system.now }
    ensures { sums.new.system ≡ system.now }
{
    match ask(system, sums, kind, parent) {
        Ok(_) => Ok(true),
        Err(GainFault::Spent) => Ok(false),
        Err(GainFault::Memory) => Err(GainFault::Memory),
    }
}

fn can_answer(
    alloc: Global,
    system: &System,
    sums: &mut PlainSummaries,
    kind: u32,
    parent: &[u32],
) -> Result<bool, GainFault>
    requires { sums.old.system ≡ system.now }
    ensures { sums.new.system ≡ system.now }
{
    let parent = set_of(alloc, parent)?;
    answers(system, sums, kind, &parent)
}

// Whether a table is spent, and stays so.
fn stays_spent(
    alloc: Global,
    system: &System,
    sums: &mut PlainSummaries,
    row: &Gain,
) -> Result<bool, GainFault>
    requires { sums.old.system ≡ system.now }
{
    let first = can_answer(alloc, system, sums, row.1, row.2)?;
    let second = can_answer(alloc, system, sums, row.1, row.2)?;
    Ok(!first && !second)
}

// Whether a smaller table is too small.
fn is_too_small(alloc: Global, row: &Gain) -> Result<bool, GainFault> {
    let system = sound_of(alloc, row.0)?;
    let mut sums = PlainSummaries::new(alloc, &system, row.3.saturating_sub(1))?;
    stays_spent(alloc, &system, &mut sums, row)
}

#[test]
fn tells_labels_and_rounds(rt: HostRuntime) -> Result<(), Fail> {
    for row in &GAINS {
        assert!(rt; gains(rt.alloc(), row)?);
    }
    Ok(())
}

#[test]
fn is_spent_below_the_count(rt: HostRuntime) -> Result<(), Fail> {
    for row in &GAINS {
        assert!(rt; is_too_small(rt.alloc(), row)?);
    }
    Ok(())
}

// Questions to one table of five pairs, and whether it can answer: a box below a box needs itself and the next four.
// The sixth pair is one too many.
static QUESTIONS: [(&[u32], bool); 7] = [
    (&[4], true),
    (&[4, 6], true),
    (&[4, 6, 7], true),
    (&[4, 6, 8], true),
    (&[4, 6, 7, 8], true),
    (&[], false),
    (&[4], false),
];

fn answers_as_wanted(
    alloc: Global,
    system: &System,
    sums: &mut PlainSummaries,
) -> Result<bool, GainFault>
    requires { sums.old.system ≡ system.now }
{
    'questions: for (parent, wanted) in &QUESTIONS {
        if can_answer(alloc, system, sums, 0, parent)? != *wanted {
            return Ok(false);
        }
    }
    Ok(true)
}

fn boxes_answer_as_wanted(alloc: Global) -> Result<bool, GainFault> {
    let system = sound_of(alloc, Script::Boxes)?;
    let mut sums = PlainSummaries::new(alloc, &system, 5)?;
    answers_as_wanted(alloc, &system, &mut sums)
}

#[test]
fn knows_what_a_question_needs(rt: HostRuntime) -> Result<(), Fail> {
    assert!(rt; boxes_answer_as_wanted(rt.alloc())?);
    Ok(())
}

#[tactic(auto, using(crate::proofs::NothingKnown::keeps_none, crate::proofs::NothingKnown::told_none, need_table::proofs::PlainLemmas::room_unused))]
fn closed_page(
    alloc: Global,
    script: Script,
    page: &Tree,
    pairs: u32,
) -> Result<Closed, GainFault> {
    let system = sound_of(alloc, script)?;
    let mut sums = PlainSummaries::new(alloc, &system, pairs)?;
    close_page(alloc, page, &system, &mut sums)
}

// Whether these first rounds are told of a node, and no other.
fn tells_of_node(closed: &Closed, at: &Path, firsts: &[(u32, u64)]) -> bool {
    let mut left = firsts;
    for atom in 0..END {
        if let Some(round) = closed.first_round(at, Atom(atom)) {
            let Some(rest) = behind(left, atom, round) else {
                return false;
            };
            left = rest;
        }
    }
    left.is_empty()
}

// What comes of a node of the page, and nothing where no node is there.
fn is_closed_at(closed: &Closed, at: &Path, firsts: &[(u32, u64)]) -> bool {
    let same = match closed.label(at) {
        Some(label) => has_just(label, firsts),
        None => firsts.is_empty(),
    };
    same && tells_of_node(closed, at, firsts)
}

// A node, and what comes of it.
type Node = (&'static [u32], Firsts);

fn is_closed(alloc: Global, closed: &Closed, node: &Node) -> Result<bool, NoMemory> {
    let at = path_of(alloc, node.0)?;
    Ok(is_closed_at(closed, &at, node.1))
}

fn are_closed(alloc: Global, closed: &Closed, nodes: &[Node]) -> Result<bool, GainFault> {
    for node in nodes {
        if !is_closed(alloc, closed, node)? {
            return Ok(false);
        }
    }
    Ok(true)
}

// A page, how many pairs it asks and needs, and what comes of its nodes.
type Closing = (Script, u32, &'static [Node]);

static CLOSINGS: [Closing; 3] = [
    (
        Script::Boxes,
        5,
        &[
            (&[], &[(0, 0), (12, 7)]),
            (&[0], &[(1, 0)]),
            (&[1], &[(2, 0), (12, 6)]),
            (&[1, 0], &[(3, 0), (4, 0), (12, 5)]),
            (&[1, 0, 0], &[]),
        ],
    ),
    (
        Script::List,
        3,
        &[
            (&[], &[(0, 0), (13, 7)]),
            (&[1], &[(2, 0), (13, 6)]),
            (&[1, 0], &[(3, 0), (4, 0), (13, 5)]),
        ],
    ),
    (
        Script::Errors,
        2,
        &[
            (&[], &[(0, 0), (11, 5), (15, 9)]),
            (&[0], &[(1, 0)]),
            (&[1], &[(2, 0), (11, 4), (15, 8)]),
            (
                &[1, 0],
                &[(3, 0), (4, 0), (7, 5), (11, 3), (12, 4), (13, 6), (15, 7)],
            ),
            (&[1, 0, 0], &[(5, 0), (6, 0), (11, 2)]),
            (&[1, 1], &[]),
        ],
    ),
];

fn closes_page(alloc: Global, page: &Tree, row: &Closing) -> Result<bool, GainFault> {
    let closed = closed_page(alloc, row.0, page, row.1)?;
    are_closed(alloc, &closed, row.2)
}

fn closes(alloc: Global, nodes: &[NodeRow], row: &Closing) -> Result<bool, TreeFault> {
    let page = tree_of(alloc, &[0], nodes)?;
    Ok(matches!(closes_page(alloc, &page, row), Ok(true)))
}

#[test]
fn closes_pages(rt: HostRuntime) -> Result<(), Fail> {
    for row in &CLOSINGS {
        assert!(rt; closes(rt.alloc(), nodes_of(row.0), row)?);
    }
    Ok(())
}

// Of the page with five nodes alike.
static ROWS: Closing = (
    Script::Boxes,
    5,
    &[
        (&[], &[(0, 0), (12, 7)]),
        (&[0], &[(1, 0)]),
        (&[1], &[(2, 0), (12, 6)]),
        (&[1, 0], &[(3, 0), (4, 0), (12, 5)]),
        (&[1, 1], &[(3, 0), (4, 0), (12, 5)]),
        (&[1, 4], &[(3, 0), (4, 0), (12, 5)]),
        (&[1, 5], &[]),
        (&[1, 0, 0], &[]),
    ],
);

#[test]
fn closes_a_folded_page(rt: HostRuntime) -> Result<(), Fail> {
    assert!(rt; closes(rt.alloc(), nodes_of_rows(), &ROWS)?);
    Ok(())
}

// How many pairs the page needs whose box gets boxes of three classes.
const COUNT: u32 = 176;

// Limits, and whether they are as many as it needs.
static LIMITS: [(u32, bool); 14] = [
    (0, false),
    (1, false),
    (2, false),
    (3, false),
    (4, false),
    (5, false),
    (6, false),
    (7, false),
    (20, false),
    (60, false),
    (174, false),
    (COUNT - 1, false),
    (COUNT, true),
    (COUNT + 1, true),
];

// Whether the page is closed within so many pairs. Where it isn't, the table is spent.
fn is_enough(alloc: Global, page: &Tree, pairs: u32) -> Result<bool, GainFault> {
    match closed_page(alloc, Script::Three, page, pairs) {
        Ok(_) => Ok(true),
        Err(GainFault::Spent) => Ok(false),
        Err(GainFault::Memory) => Err(GainFault::Memory),
    }
}

fn are_limits(alloc: Global, page: &Tree) -> Result<bool, GainFault> {
    for (pairs, wanted) in &LIMITS {
        if is_enough(alloc, page, *pairs)? != *wanted {
            return Ok(false);
        }
    }
    Ok(true)
}

fn is_spent_below_the_need(alloc: Global) -> Result<bool, TreeFault> {
    let page = tree_of(alloc, &[0], nodes_of(Script::Three))?;
    Ok(matches!(are_limits(alloc, &page), Ok(true)))
}

#[test]
fn is_spent_exactly_below_the_count(rt: HostRuntime) -> Result<(), Fail> {
    assert!(rt; is_spent_below_the_need(rt.alloc())?);
    Ok(())
}
