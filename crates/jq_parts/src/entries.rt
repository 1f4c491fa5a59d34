//! A declaration with the link to the one that it hides.
use crate::values::Declaration;

/// A declaration, and the index of the one that it hides, if it hides one.
#[derive(Drop)]
pub(crate) struct Entry<'a> {
    pub(crate) declaration: Declaration<'a>,
    /// A `u32` saves memory, since a script can have millions of declarations.
    pub(crate) hides: Option<u32>,
}
