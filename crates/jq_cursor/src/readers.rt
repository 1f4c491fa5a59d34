//! The context of a reader: what stays the same while a script is read.
ghost use Rattle.std.specs.Prelude.{◌≤◌, length};
ghost use Rattle.tp_base.specs.declared.places.TheConstants.{MOST_BYTES};

use std::alloc::Global;

/// A file that is read, and how.
#[derive(Clone, Copy)]
pub struct Reader<'r> {
    pub alloc: Global,
    /// Whether calls may stand that are sharper than what is judged in their place.
    pub exact: bool,
    pub text: &'r [u8],
    /// The functions that the script declares.
    pub declared: &'r [&'r [u8]],
    ghost in_limit: { length text.now ≤ MOST_BYTES },
}
