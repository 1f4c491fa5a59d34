//! Copies of answers.
ghost use Rattle.std.specs.Prelude.{◌≡◌, IfOk};
ghost use Rattle.usage_report.specs.Answers.{used, maybe};
ghost use Rattle.usage_report.specs.Views.{answer_of};

use proof_core::{Entries, Entry, PageItem, PageItems, Proof, ProofItems, Steps, Unfolded};
use std::alloc::Global;
use tp_base::NoMemory;
use tree_sem::Step;
use usage_report::Answer;

fn copy_entry(alloc: Global, entry: &Entry) -> Result<Entry, NoMemory>
    ensures { IfOk result (λ e. e ≡ entry.now) }
{
    let parent = entry.parent.copy()?;
    let items = Vec::from_slice(alloc, entry.items.items())?;
    Ok(Entry {
        kind: entry.kind,
        parent,
        items: ProofItems::new(items),
        steps: entry.steps,
    })
}

fn copy_entries(alloc: Global, entries: &[Entry]) -> Result<Entries, NoMemory>
    ensures { IfOk result (λ e. e ≡ entries.now) }
{
    let mut copied = Vec::new(alloc);
    let mut rest = entries;
    'entries: while let Some((entry, others)) = rest.split_first() {
        copied.push(copy_entry(alloc, entry)?)?;
        rest = others;
    }
    Ok(Entries::new(copied))
}

fn copy_page(alloc: Global, items: &[PageItem]) -> Result<PageItems, NoMemory>
    ensures { IfOk result (λ p. p ≡ items.now) }
{
    let mut copied = Vec::new(alloc);
    let mut rest = items;
    'items: while let Some((item, others)) = rest.split_first() {
        copied.push(PageItem {
            at: item.at.copy()?,
            item: item.item,
        })?;
        rest = others;
    }
    Ok(PageItems::new(copied))
}

fn copy_proof(alloc: Global, proof: &Proof) -> Result<Proof, NoMemory>
    ensures { IfOk result (λ p. p ≡ proof.now) }
{
    let entries = copy_entries(alloc, proof.entries.items())?;
    let page = copy_page(alloc, proof.page.items())?;
    Ok(Proof { entries, page })
}

fn copy_steps(alloc: Global, steps: &[Step]) -> Result<Steps, NoMemory>
    ensures { IfOk result (λ s. s ≡ steps.now) }
{
    let mut copied = Vec::new(alloc);
    let mut rest = steps;
    'steps: while let Some((step, others)) = rest.split_first() {
        copied.push(Step {
            stmt: step.stmt,
            at: step.at.copy()?,
        })?;
        rest = others;
    }
    Ok(Steps::new(copied))
}

fn copy_unfolded(alloc: Global, unfolded: &Unfolded) -> Result<Unfolded, NoMemory>
    ensures { IfOk result (λ u. u ≡ unfolded.now) }
{
    let steps = copy_steps(alloc, unfolded.steps.items())?;
    let at = unfolded.at.copy()?;
    Ok(Unfolded { steps, at })
}

fn copy_shown(alloc: Global, shown: &Option<Unfolded>) -> Result<Option<Unfolded>, NoMemory>
    ensures { IfOk result (λ s. s ≡ shown.now) }
{
    match shown {
        Some(unfolded) => Ok(Some(copy_unfolded(alloc, unfolded)?)),
        None => Ok(None),
    }
}

/// A copy of the answer. Linear in its proof and its steps.
pub(crate) fn copy_answer(alloc: Global, answer: &Answer) -> Result<Answer, NoMemory>
    ensures { IfOk result (λ a. answer_of a ≡ answer_of answer.now) }
{
    match answer {
        Answer::Used {
            proof,
            steps,
            shown,
        } => copy_used(alloc, proof, *steps, shown),
        Answer::Maybe {
            proof,
            steps,
            shown,
            broken,
        } => copy_maybe(alloc, proof, *steps, shown, *broken),
        Answer::UsedUnshown => Ok(Answer::UsedUnshown),
        Answer::Unused => Ok(Answer::Unused),
        Answer::Skipped(cause, at) => Ok(Answer::Skipped(*cause, *at)),
        Answer::Spent => Ok(Answer::Spent),
    }
}

fn copy_used(
    alloc: Global,
    proof: &Proof,
    steps: u64,
    shown: &Option<Unfolded>,
) -> Result<Answer, NoMemory>
    ensures { IfOk result (λ a. answer_of a ≡ used proof.now steps shown.now) }
{
    let proof = copy_proof(alloc, proof)?;
    let shown = copy_shown(alloc, shown)?;
    Ok(Answer::Used {
        proof,
        steps,
        shown,
    })
}

fn copy_maybe(
    alloc: Global,
    proof: &Proof,
    steps: u64,
    shown: &Option<Unfolded>,
    broken: Option<usize>,
) -> Result<Answer, NoMemory>
    ensures { IfOk result (λ a. answer_of a ≡ maybe proof.now steps shown.now broken) }
{
    let proof = copy_proof(alloc, proof)?;
    let shown = copy_shown(alloc, shown)?;
    Ok(Answer::Maybe {
        proof,
        steps,
        shown,
        broken,
    })
}
