//! Answers from short rows.
use proof_check::{Entries, PageItems, Proof, Steps, Unfolded};
use std::alloc::Global;
use test_building::path_of;
use tp_base::NoMemory;
use tree_sem::Step;
use usage_report::Answer;

/// What is said of an item or of a probe: it is used by these steps, each a statement counted from 0 and a node, and matches at
/// that node; or it isn't.
pub enum Said {
    Used(&'static [(u32, &'static [u32])], &'static [u32]),
    NotListed(u64),
    Unshown,
    Unused,
    Spent,
}

// Reports don't look at it.
fn no_proof(alloc: Global) -> Proof {
    Proof {
        entries: Entries::new(Vec::new(alloc)),
        page: PageItems::new(Vec::new(alloc)),
    }
}

fn steps_of(alloc: Global, rows: &[(u32, &'static [u32])]) -> Result<Steps, NoMemory> {
    let mut steps = Vec::new(alloc);
    for (stmt, numbers) in rows {
        steps.push(Step {
            stmt: *stmt,
            at: path_of(alloc, numbers)?,
        })?;
    }
    Ok(Steps::new(steps))
}

fn unfolded(
    alloc: Global,
    rows: &[(u32, &'static [u32])],
    numbers: &[u32],
) -> Result<Unfolded, NoMemory> {
    let steps = steps_of(alloc, rows)?;
    let at = path_of(alloc, numbers)?;
    Ok(Unfolded { steps, at })
}

fn answer(alloc: Global, said: &Said) -> Result<Answer, NoMemory> {
    match said {
        Said::Used(steps, at) => Ok(Answer::Used {
            proof: no_proof(alloc),
            steps: steps.len() as u64,
            shown: Some(unfolded(alloc, steps, at)?),
        }),
        Said::NotListed(steps) => Ok(Answer::Used {
            proof: no_proof(alloc),
            steps: *steps,
            shown: None,
        }),
        Said::Unshown => Ok(Answer::UsedUnshown),
        Said::Unused => Ok(Answer::Unused),
        Said::Spent => Ok(Answer::Spent),
    }
}

pub fn answers(alloc: Global, rows: &[Said]) -> Result<Vec<Answer>, NoMemory> {
    let mut items = Vec::new(alloc);
    for said in rows {
        items.push(answer(alloc, said)?)?;
    }
    Ok(items)
}
