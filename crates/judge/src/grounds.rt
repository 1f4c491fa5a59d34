//! The question, and the ground from which its answers are read.
use class_adding::Closed;
use guard_simplify::Simplified;
use limits::Limits;
use simple_core::{AllGivers, System};
use std::alloc::Global;
use tree_sem::Tree;

/// The question which of the seen atoms a system brings to the root of a page, within limits, and by which proofs.
#[derive(Clone, Copy)]
pub(crate) struct Question<'a> {
    pub(crate) alloc: Global,
    pub(crate) page: &'a Tree,
    pub(crate) made: &'a Simplified,
    pub(crate) limits: &'a Limits,
}

/// The ground of all answers: a page, a system with an index of its rules, and the page closed by the system.
#[derive(Clone, Copy)]
pub(crate) struct Ground<'a> {
    pub(crate) alloc: Global,
    pub(crate) page: &'a Tree,
    pub(crate) system: &'a System,
    pub(crate) rules: &'a AllGivers,
    pub(crate) closed: &'a Closed,
    pub(crate) limits: &'a Limits,
}
