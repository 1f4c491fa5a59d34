//! A sheet as it is read: its selectors, and the rules that have them.
use sel_text::{Selector, Skip};
use tp_base::Items;

/// The bytes of a file from the offset `from` up to, but without, the offset `to`.
#[derive(Clone, Copy, Debug, PartialEq, Eq)]
pub struct Range {
    pub from: usize,
    pub to: usize,
}

/// How a selector is judged, or the cause for which it is skipped and the offset of the byte that is the cause.
#[derive(Debug, Drop)]
pub enum Outcome {
    Judged(Selector),
    Skipped(Skip, usize),
}

/// A selector of a sheet: its bytes, the number of its rule, counted from 0, and its outcome.
#[derive(Debug, Drop)]
pub struct SheetItem {
    pub from: usize,
    pub to: usize,
    pub rule: u32,
    pub outcome: Outcome,
}

/// The selectors of a sheet, in the file's order. A contract sees the list of them.
pub type SheetItems = Items<SheetItem>;

/// Byte ranges of a file. A contract sees the list of them.
pub type Ranges = Items<Range>;

/// The selectors and the rules of a sheet. The range of a rule goes from the first byte of its list of selectors to the end of
/// its block.
#[derive(Debug, Drop)]
pub struct Sheet {
    pub items: SheetItems,
    pub rules: Ranges,
}
