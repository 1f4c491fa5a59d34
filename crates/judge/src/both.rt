//! Answers for a sheet and for further guards.
use simple_core::System;
use tp_base::Items;
use usage_report::Answer;

/// A list of answers. A contract sees the list.
pub type Answers = Items<Answer>;

/// An answer for each item of a sheet and for each further guard, both in order, and the system of their proofs.
#[derive(Drop)]
pub struct Both {
    pub items: Answers,
    pub extra: Answers,
    pub system: System,
}
