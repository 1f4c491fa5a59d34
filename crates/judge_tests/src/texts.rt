//! Answers as text.
use judge::JudgeFault;
use proof_core::Unfolded;
use std::alloc::{AllocError, Global};
use std::test::Fail;
use tp_base::Path;
use tree_sem::Step;
use usage_report::Answer;

fn put_path(text: &mut String, at: &Path) -> Result<(), AllocError> {
    for i in 0..at.len() {
        let number = at.at(i);
        write!(text, "/{number}")?;
    }
    Ok(())
}

fn put_step(text: &mut String, step: &Step) -> Result<(), AllocError> {
    let number = u64::from(step.stmt) + 1;
    write!(text, "{number} on ")?;
    put_path(text, &step.at)?;
    text.push_str(", ")
}

// The steps, with statements counted from 1, and the match.
fn put_trace(text: &mut String, trace: &Unfolded) -> Result<(), AllocError> {
    for step in trace.steps.items() {
        put_step(text, step)?;
    }
    text.push_str("match ")?;
    put_path(text, &trace.at)
}

fn put_used(text: &mut String, steps: u64, shown: &Option<Unfolded>) -> Result<(), AllocError> {
    write!(text, "used {steps}")?;
    match shown {
        None => Ok(()),
        Some(trace) => {
            text.push_str(" (")?;
            put_trace(text, trace)?;
            text.push_str(")")
        }
    }
}

fn put_answer(text: &mut String, answer: &Answer) -> Result<(), AllocError> {
    match answer {
        Answer::Used { steps, shown, .. } => put_used(text, *steps, shown),
        Answer::Maybe { steps, .. } => write!(text, "maybe {steps}"),
        Answer::UsedUnshown => text.push_str("used-unshown"),
        Answer::Unused => text.push_str("unused"),
        Answer::Skipped(cause, at) => write!(text, "skipped {cause:?} {at}"),
        Answer::Spent => text.push_str("spent"),
    }
}

// The answers, with commas between them.
fn put_answers(text: &mut String, answers: &[Answer]) -> Result<(), AllocError> {
    for answer in answers {
        if !text.is_empty() {
            text.push_str(", ")?;
        }
        put_answer(text, answer)?;
    }
    Ok(())
}

fn put_found(text: &mut String, found: &Result<Vec<Answer>, JudgeFault>) -> Result<(), AllocError> {
    match found {
        Ok(answers) => put_answers(text, answers),
        Err(fault) => write!(text, "{fault:?}"),
    }
}

/// The answers as text.
pub fn answers_text(alloc: Global, answers: &[Answer]) -> Result<String, AllocError> {
    let mut text = String::new(alloc);
    put_answers(&mut text, answers)?;
    Ok(text)
}

/// The answers as text, or the fault.
pub fn text_of(alloc: Global, found: &Result<Vec<Answer>, JudgeFault>) -> Result<String, Fail> {
    let mut text = String::new(alloc);
    put_found(&mut text, found)?;
    Ok(text)
}
