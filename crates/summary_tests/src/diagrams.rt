ghost use Rattle.std.specs.Prelude.{◌≡◌, ◌≤◌, ◌<◌, IfOk};
ghost use Rattle.simple_core.specs.Systems.{IsSound};
ghost use Rattle.limits.specs.declared.budgets.TheConstants.{MOST_BRANCHES};
ghost use Rattle.test_building.specs.declared.nesting.TheConstants.{MOST_CLASSES};

use crate::answers::{answer_alike, ask, sound_of};
use limits::MOST_BRANCHES;
use need_table::PlainSummaries;
use saturation::SharedSummaries;
use simple_core::{GainFault, Summaries, System};
use std::alloc::Global;
use std::test::Fail;
use test_building::{MOST_CLASSES, Script, is_sound, mark, nested, set_of};
use tp_base::{Atom, ClassSet};

// As many as serve each row.
const PAIRS: u32 = 1_000;

// A kind below a label.
type Question = (Script, u32, &'static [u32]);

fn shared_answers_alike(
    alloc: Global,
    system: &System,
    plain: &mut PlainSummaries,
    kind: u32,
    parent: &ClassSet,
) -> Result<bool, GainFault>
    requires sound { IsSound system.now }
    requires made { plain.old.system ≡ system.now }
{
    let mut shared = SharedSummaries::build(alloc, system, PAIRS)?;
    answer_alike(system, plain, &mut shared, kind, parent)
}

fn both_answer_alike(
    alloc: Global,
    system: &System,
    kind: u32,
    parent: &ClassSet,
) -> Result<bool, GainFault>
    requires { IsSound system.now }
{
    let mut plain = PlainSummaries::new(alloc, system, PAIRS)?;
    shared_answers_alike(alloc, system, &mut plain, kind, parent)
}

fn answers_alike(alloc: Global, row: &Question) -> Result<bool, GainFault> {
    let parent = set_of(alloc, row.2)?;
    let system = sound_of(alloc, row.0)?;
    both_answer_alike(alloc, &system, row.1, &parent)
}

static QUESTIONS: [Question; 16] = [
    (Script::Boxes, 0, &[]),
    (Script::Boxes, 0, &[4]),
    (Script::Boxes, 0, &[6]),
    (Script::Boxes, 0, &[4, 6, 7]),
    (Script::Boxes, 0, &[8]),
    (Script::List, 0, &[]),
    (Script::List, 0, &[4]),
    (Script::List, 1, &[]),
    (Script::List, 1, &[9]),
    (Script::List, 1, &[4, 9]),
    (Script::Errors, 0, &[]),
    (Script::Errors, 1, &[]),
    (Script::Three, 0, &[]),
    (Script::Three, 2, &[5, 16]),
    (Script::Three, 3, &[]),
    (Script::Three, 3, &[8, 12, 18]),
];

#[test]
fn tells_what_a_table_of_pairs_tells(rt: HostRuntime) -> Result<(), Fail> {
    for row in &QUESTIONS {
        assert!(rt; answers_alike(rt.alloc(), row)?);
    }
    Ok(())
}

// The system of n classes, which is sound.
fn nested_of(alloc: Global, n: u32) -> Result<System, GainFault>
    requires some { 0 < n }
    requires n { n ≤ MOST_CLASSES }
    ensures { IfOk result (λ s. IsSound s) }
{
    let system = nested(alloc, n)?;
    if !is_sound(&system) {
        return Err(GainFault::Memory);
    }
    Ok(system)
}

fn has_marks(label: &ClassSet, n: u32) -> bool
    requires { n ≤ MOST_CLASSES }
{
    for i in 0..n + 1 {
        if !label.has(Atom(mark(n, i))) {
            return false;
        }
    }
    true
}

// A box of the first class below nothing: each selector matches somewhere below it. Where the long one matches is known
// of a z after three rounds, and of each box round it one round later.
fn tells_all<S: Summaries>(
    alloc: Global,
    system: &System,
    sums: &mut S,
    n: u32,
) -> Result<bool, GainFault>
    requires system { S.system sums.old ≡ system.now }
    requires n { n ≤ MOST_CLASSES }
{
    let none = ClassSet::new(alloc);
    let label = ask(system, sums, 0, &none)?;
    let last = sums.first_round(0, &none, Atom(mark(n, n)));
    Ok(has_marks(&label, n) && last == Some(u64::from(n) + 3))
}

fn built_tells_all(alloc: Global, system: &System, n: u32, nodes: u32) -> Result<bool, GainFault>
    requires sound { IsSound system.now }
    requires n { n ≤ MOST_CLASSES }
    requires nodes { nodes ≤ MOST_BRANCHES }
{
    let mut sums = SharedSummaries::build(alloc, system, nodes)?;
    tells_all(alloc, system, &mut sums, n)
}

// Why nothing is built in so many branches, if nothing is.
fn refusal(alloc: Global, system: &System, nodes: u32) -> Option<GainFault>
    requires sound { IsSound system.now }
    requires nodes { nodes ≤ MOST_BRANCHES }
{
    match SharedSummaries::build(alloc, system, nodes) {
        Ok(_) => None,
        Err(fault) => Some(fault),
    }
}

// A number of classes, and a budget.
type Boxes = (u32, u32);

fn boxes_tell_all(alloc: Global, row: &Boxes) -> Result<bool, GainFault> {
    let (n, nodes) = *row;
    if n == 0 || n > MOST_CLASSES || nodes > MOST_BRANCHES {
        return Ok(false);
    }
    let system = nested_of(alloc, n)?;
    built_tells_all(alloc, &system, n, nodes)
}

fn boxes_are_spent(alloc: Global, row: &Boxes) -> Result<bool, GainFault> {
    let (n, nodes) = *row;
    if n == 0 || n > MOST_CLASSES || nodes > MOST_BRANCHES {
        return Ok(false);
    }
    let system = nested_of(alloc, n)?;
    Ok(refusal(alloc, &system, nodes) == Some(GainFault::Spent))
}

// As many branches as all that is worked out has. A table would need a pair for each set of the 32 classes.
static ENOUGH: [Boxes; 3] = [(3, 19), (8, 59), (32, 251)];

#[test]
fn tells_of_boxes_of_many_classes(rt: HostRuntime) -> Result<(), Fail> {
    for row in &ENOUGH {
        assert!(rt; boxes_tell_all(rt.alloc(), row)?);
    }
    Ok(())
}

// The last cells have 10, 30 and 126 branches.
static TOO_FEW: [Boxes; 4] = [(3, 2), (3, 9), (8, 29), (32, 125)];

#[test]
fn is_spent_where_the_last_cells_have_more(rt: HostRuntime) -> Result<(), Fail> {
    for row in &TOO_FEW {
        assert!(rt; boxes_are_spent(rt.alloc(), row)?);
    }
    Ok(())
}

// Nothing is visible there, so each cell is a leaf.
fn errors_need_no_branch(alloc: Global) -> Result<bool, GainFault> {
    let system = sound_of(alloc, Script::Errors)?;
    Ok(refusal(alloc, &system, 0).is_none())
}

#[test]
fn needs_no_branch_where_nothing_is_visible(rt: HostRuntime) -> Result<(), Fail> {
    assert!(rt; errors_need_no_branch(rt.alloc())?);
    Ok(())
}
