//! Holders: the at-rules whose block holds rules, and which of them are around each rule.
use tp_base::Items;

/// A holder: an at-rule whose block holds rules. The offsets are those of its `@`, of its `{`, and of the byte behind its end.
#[derive(Clone, Copy, Debug, PartialEq, Eq)]
pub struct Holder {
    pub from: usize,
    pub brace: usize,
    pub to: usize,
    /// The number, counted from 0, of the innermost holder around it.
    pub inside: Option<u32>,
    /// Whether it is `@media`, `@supports` or `@container`, which have no effect when they hold no rule.
    pub loose: bool,
    /// Whether its block has only white space, comments, rules and holders.
    pub bare: bool,
}

/// Holders of a file, in the order of their `@`. A contract sees the list of them.
pub type HolderList = Items<Holder>;

/// For each rule the number of the innermost holder around it, if there is one. A contract sees the list of them.
pub type Owners = Items<Option<u32>>;

/// The holders of a file, and for each rule the innermost one around it.
#[derive(Debug, Drop)]
pub struct Holders {
    pub holders: HolderList,
    pub of_rule: Owners,
}
