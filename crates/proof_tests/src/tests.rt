use crate::building::{are_few, proof_of};
use crate::long::{DEPTH, chain, chain_system, twice};
use crate::rows::{INVALID, ProofRow, StepRow, VALID, WantRow, rules_of};
use proof_core::{Proof, UnfoldFault, Unfolded, check, steps, unfold};
use simple_core::System;
use std::alloc::Global;
use std::test::Fail;
use test_building::{is_path, set_of, system_of, tree_of};
use tp_base::{Atom, NoMemory, Path};
use tree_sem::{Step, Tree, TreeFault};

// How many steps a proof has, and what it unfolds to within a limit.
type Told = (u64, Result<Unfolded, UnfoldFault>);

// Nothing where the proof isn't valid.
fn told(
    proof: &Proof,
    system: &System,
    page: &Tree,
    target: u32,
    limit: u64,
) -> Result<Option<Told>, NoMemory> {
    let target = Atom(target);
    let alloc = proof.entries.allocator();
    if !check(alloc, proof, system, page, target)?
        || !are_few(system.kinds.items())
        || limit > 1_000_000
    {
        return Ok(None);
    }
    let count = steps(proof, system);
    Ok(Some((count, unfold(alloc, proof, system, page, target, limit))))
}

fn told_on_page(
    alloc: Global,
    row: &ProofRow,
    limit: u64,
    proof: &Proof,
    system: &System,
) -> Result<Option<Told>, TreeFault> {
    let page = tree_of(alloc, &[0], row.page)?;
    Ok(told(proof, system, &page, row.target, limit)?)
}

fn told_by(
    alloc: Global,
    row: &ProofRow,
    limit: u64,
    proof: &Proof,
) -> Result<Option<Told>, TreeFault> {
    let system = system_of(alloc, rules_of(row.script))?;
    told_on_page(alloc, row, limit, proof, &system)
}

fn told_of(alloc: Global, row: &ProofRow, limit: u64) -> Result<Option<Told>, TreeFault> {
    let proof = proof_of(alloc, row)?;
    told_by(alloc, row, limit, &proof)
}

fn are_steps(steps: &[Step], rows: &[StepRow]) -> bool {
    steps.len() == rows.len()
        && steps.iter().zip(rows).all(|(step, row)| step.stmt == row.0 && is_path(&step.at, row.1))
}

fn is_told(told: &Option<Told>, want: &WantRow) -> bool {
    match told {
        Some((count, Ok(u))) => {
            *count == want.0.len() as u64
                && are_steps(u.steps.items(), want.0)
                && is_path(&u.at, want.1)
        }
        _ => false,
    }
}

fn is_over(told: &Option<Told>, want: u64) -> bool {
    match told {
        Some((count, Err(UnfoldFault::OverLimit))) => *count == want,
        _ => false,
    }
}

fn is_whole(alloc: Global, row: &ProofRow, want: &WantRow) -> Result<bool, TreeFault> {
    let whole = told_of(alloc, row, want.0.len() as u64)?;
    Ok(is_told(&whole, want))
}

fn is_short(alloc: Global, row: &ProofRow, want: &WantRow) -> Result<bool, TreeFault> {
    let count = want.0.len() as u64;
    let short = told_of(alloc, row, count.saturating_sub(1))?;
    Ok(is_over(&short, count))
}

// With a limit of its steps a proof is unfolded, with one less it isn't.
fn is_right(alloc: Global, row: &ProofRow, want: &WantRow) -> Result<bool, TreeFault> {
    Ok(is_whole(alloc, row, want)? && is_short(alloc, row, want)?)
}

#[test]
fn unfolds_valid_proofs(rt: HostRuntime) -> Result<(), Fail> {
    for (row, want) in &VALID {
        assert!(rt; is_right(rt.alloc(), row, want)?);
    }
    Ok(())
}

fn is_refused(alloc: Global, row: &ProofRow) -> Result<bool, TreeFault> {
    Ok(told_of(alloc, row, 1_000)?.is_none())
}

#[test]
fn refuses_invalid_proofs(rt: HostRuntime) -> Result<(), Fail> {
    for row in &INVALID {
        assert!(rt; is_refused(rt.alloc(), row)?);
    }
    Ok(())
}

// How many entries a proof has each of which stands below the next twice, and its steps: one, and twice as many and two for
// each further entry.
static TWICE: [(u32, u64); 5] = [
    (1, 1),
    (9, 511),
    (63, 9_223_372_036_854_775_807),
    (64, 18_446_744_073_709_551_615),
    (65, 18_446_744_073_709_551_615),
];

// A proof on a page of one node.
fn told_on_node(alloc: Global, proof: &Proof, system: &System) -> Result<Option<Told>, TreeFault> {
    let page = Tree::new(alloc, set_of(alloc, &[0])?)?;
    Ok(told(proof, system, &page, 1, 1_000)?)
}

// The same over the system of chains.
fn told_long(alloc: Global, proof: &Proof) -> Result<Option<Told>, TreeFault> {
    let system = chain_system(alloc)?;
    told_on_node(alloc, proof, &system)
}

fn has_steps(told: &Option<Told>, want: u64) -> bool {
    match told {
        Some((steps, Ok(u))) => *steps == want && u.steps.items().len() as u64 == want,
        _ => is_over(told, want),
    }
}

fn is_counted(alloc: Global, count: u32, want: u64) -> Result<bool, TreeFault> {
    let proof = twice(alloc, count)?;
    let told = told_long(alloc, &proof)?;
    Ok(has_steps(&told, want))
}

#[test]
fn counts_each_use(rt: HostRuntime) -> Result<(), Fail> {
    for (count, want) in &TWICE {
        assert!(rt; is_counted(rt.alloc(), *count, *want)?);
    }
    Ok(())
}

// Whether the path goes to the first child so many times.
fn is_deep(path: &Path, len: usize) -> bool {
    path.len() == len && (0..path.len()).all(|i| path.at(i) == 0)
}

// A step brings a node of the first kind, and those of the further kinds below it.
fn is_chain(u: &Unfolded, count: usize) -> bool {
    let steps = u.steps.items();
    steps.len() == count.div_ceil(DEPTH as usize)
        && steps.iter().enumerate().all(|(i, step)| {
            step.stmt == 0 && is_deep(&step.at, i.saturating_mul(DEPTH as usize))
        })
        && is_deep(&u.at, count)
}

fn has_chain(told: &Option<Told>, count: u32, want: u64) -> bool {
    match told {
        Some((steps, Ok(u))) => *steps == want && is_chain(u, count as usize),
        _ => false,
    }
}

fn is_unfolded(alloc: Global, count: u32, want: u64) -> Result<bool, TreeFault> {
    let proof = chain(alloc, count)?;
    let told = told_long(alloc, &proof)?;
    Ok(has_chain(&told, count, want))
}

#[test]
fn unfolds_a_long_chain(rt: HostRuntime) -> Result<(), Fail> {
    assert!(rt; is_unfolded(rt.alloc(), 3, 1)?);
    assert!(rt; is_unfolded(rt.alloc(), 100_000, 25)?);
    Ok(())
}
