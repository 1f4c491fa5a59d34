//! The state of the parser at a place: its scope, its output and what is left to read.
use jq_cursor::{Cursor, Reader};
use jq_parts::{Grown, Scope, Stated};
use std::rc::Rc;

/// A script that is read, up to a place: its words from there on, what was read before it, and what is seen there.
#[derive(Drop)]
pub(crate) struct Reading<'r, 'a> {
    pub(crate) reader: Reader<'r>,
    pub(crate) words: Cursor<'r, 'a>,
    pub(crate) scope: Scope<'a>,
    pub(crate) grown: Grown,
    pub(crate) statements: Vec<Stated>,
    /// The places of the handlers round the last declaration of a chain.
    pub(crate) places: Rc<Vec<usize>>,
}
