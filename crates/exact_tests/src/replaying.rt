use crate::building::{C, Piece, page, statement};
use jq_exact::{ReplayFault, replay_exact};
use jq_stmts::ExactStmt;
use std::alloc::Global;
use std::test::Fail;
use test_building::path_of;
use tp_base::NoMemory;
use tree_sem::{Step, Tree, TreeFault};

fn step(alloc: Global, numbers: &[u32]) -> Result<Step, NoMemory> {
    let at = path_of(alloc, numbers)?;
    Ok(Step { stmt: 0, at })
}

fn statements(alloc: Global) -> Result<Vec<ExactStmt>, NoMemory> {
    let mut stmts = Vec::new(alloc);
    stmts.push(statement(alloc, &[], &[Piece::Matched(C), Piece::First])?)?;
    Ok(stmts)
}

// A step at the first node of a class, and one at the next.
fn both_steps(alloc: Global) -> Result<Vec<Step>, NoMemory> {
    let mut steps = Vec::new(alloc);
    steps.push(step(alloc, &[0, 0, 0])?)?;
    steps.push(step(alloc, &[0, 1])?)?;
    Ok(steps)
}

fn taken(alloc: Global, tree: &mut Tree) -> Result<Result<(), ReplayFault>, NoMemory> {
    let stmts = statements(alloc)?;
    let steps = both_steps(alloc)?;
    Ok(replay_exact(alloc, &stmts, tree, &steps))
}

// The first stays the first, so that the second step isn't legal.
fn stops(alloc: Global) -> Result<bool, TreeFault> {
    let mut tree = page(alloc)?;
    let result = taken(alloc, &mut tree)?;
    Ok(result == Err(ReplayFault::IllegalStep(1)))
}

#[test]
fn replays_exact_steps(rt: HostRuntime) -> Result<(), Fail> {
    assert!(rt; stops(rt.alloc())?);
    Ok(())
}
