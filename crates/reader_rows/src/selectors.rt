//! One selector of a sheet, and a script's list of selectors: how each is written, or why it isn't read.
use sel_text::{SelFault, Selector, Skip, read_selector, read_strict_list, write_selector};
use std::alloc::{AllocError, Global};
use tp_base::{AtomTable, NoMemory};

pub(crate) fn selector(alloc: Global, text: &[u8]) -> Result<String, AllocError> {
    let mut out = String::new(alloc);
    let answer = push_one(alloc, &mut out, text);
    push_fault(alloc, &mut out, answer)?;
    Ok(out)
}

pub(crate) fn list(alloc: Global, text: &[u8]) -> Result<String, AllocError> {
    let mut out = String::new(alloc);
    let answer = push_list(alloc, &mut out, text);
    push_fault(alloc, &mut out, answer)?;
    Ok(out)
}

fn push_one(alloc: Global, out: &mut String, text: &[u8]) -> Result<(), SelFault> {
    let mut atoms = AtomTable::new(alloc);
    let selector = read_selector(alloc, text, 0, text.len(), &mut atoms)?;
    out.push_str("\n  ")?;
    push_selector(alloc, out, &selector, &atoms)?;
    Ok(())
}

fn push_list(alloc: Global, out: &mut String, text: &[u8]) -> Result<(), SelFault> {
    let mut atoms = AtomTable::new(alloc);
    let selectors = read_strict_list(alloc, text, &mut atoms)?;
    push_all(alloc, out, &selectors, &atoms)?;
    Ok(())
}

fn push_all(
    alloc: Global,
    out: &mut String,
    selectors: &[Selector],
    atoms: &AtomTable,
) -> Result<(), NoMemory> {
    for selector in selectors {
        out.push_str("\n  ")?;
        push_selector(alloc, out, selector, atoms)?;
    }
    Ok(())
}

pub(crate) fn push_selector(
    alloc: Global,
    out: &mut String,
    selector: &Selector,
    atoms: &AtomTable,
) -> Result<(), NoMemory> {
    let text = write_selector(alloc, selector, atoms)?;
    row_text::push_pictured(out, &text)?;
    Ok(())
}

pub(crate) fn push_skip(
    alloc: Global,
    out: &mut String,
    why: &Skip,
    at: usize,
) -> Result<(), AllocError> {
    let text = format!(in alloc; "{why:?} at {at}")?;
    out.push_str(&text)
}

fn push_fault(
    alloc: Global,
    out: &mut String,
    answer: Result<(), SelFault>,
) -> Result<(), AllocError> {
    match answer {
        Ok(()) => Ok(()),
        Err(SelFault::Skipped(why, at)) => {
            out.push_str("\n  ")?;
            push_skip(alloc, out, &why, at)
        }
        Err(fault) => {
            let text = format!(in alloc; "\n  {fault:?}")?;
            out.push_str(&text)
        }
    }
}
