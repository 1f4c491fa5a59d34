//! A sheet: where each selector stands, its rule and how it is written, or why it is skipped and where; then where the rules
//! stand.
use crate::selectors::{push_selector, push_skip};
use css_read::{Outcome, Range, Sheet, SheetItem, read_sheet};
use std::alloc::{AllocError, Global};
use tp_base::{AtomTable, NoMemory};

pub(crate) fn sheet(alloc: Global, text: &[u8]) -> Result<String, AllocError> {
    let mut atoms = AtomTable::new(alloc);
    match read_sheet(alloc, text, &mut atoms) {
        Ok(sheet) => written(alloc, &sheet, &atoms),
        Err(fault) => format!(in alloc; "\n  {fault:?}"),
    }
}

fn written(alloc: Global, sheet: &Sheet, atoms: &AtomTable) -> Result<String, AllocError> {
    let mut out = String::new(alloc);
    push_items(alloc, &mut out, sheet.items.items(), atoms)?;
    push_rules(alloc, &mut out, sheet.rules.items())?;
    Ok(out)
}

fn push_items(
    alloc: Global,
    out: &mut String,
    items: &[SheetItem],
    atoms: &AtomTable,
) -> Result<(), AllocError> {
    for item in items {
        push_item(alloc, out, item, atoms)?;
    }
    Ok(())
}

fn push_item(
    alloc: Global,
    out: &mut String,
    item: &SheetItem,
    atoms: &AtomTable,
) -> Result<(), AllocError> {
    let place = format!(in alloc; "\n  {}-{} of rule {}: ", item.from, item.to, item.rule)?;
    out.push_str(&place)?;
    push_outcome(alloc, out, &item.outcome, atoms)
}

fn push_outcome(
    alloc: Global,
    out: &mut String,
    outcome: &Outcome,
    atoms: &AtomTable,
) -> Result<(), AllocError> {
    match outcome {
        Outcome::Judged(selector) => match push_selector(alloc, out, selector, atoms) {
            Ok(()) => Ok(()),
            Err(NoMemory) => out.push_str("no memory"),
        },
        Outcome::Skipped(why, at) => push_skip(alloc, out, why, *at),
    }
}

fn push_rules(alloc: Global, out: &mut String, rules: &[Range]) -> Result<(), AllocError> {
    for (number, rule) in rules.iter().enumerate() {
        push_rule(alloc, out, number, rule)?;
    }
    Ok(())
}

fn push_rule(
    alloc: Global,
    out: &mut String,
    number: usize,
    rule: &Range,
) -> Result<(), AllocError> {
    let text = format!(in alloc; "\n  rule {number}: {}-{}", rule.from, rule.to)?;
    out.push_str(&text)
}
