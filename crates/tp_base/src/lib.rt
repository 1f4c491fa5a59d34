//! Atoms and the table of their names, class sets, paths, places in a text, and lists that contracts can see. Also lists inside
//! types, which contracts see as lists.
#![tactic(auto)]

mod atom_table;
mod atoms;
mod class_set;
mod cursor;
mod items;
mod names;
mod no_memory;
mod paths;
mod places;

pub use atom_table::{AtomFault, AtomTable};
pub use atoms::{Atom, AtomKind, MOST_ATOMS};
pub use class_set::ClassSet;
pub use cursor::Cursor;
pub use items::{Items, Shared};
pub use no_memory::{NoMemory, OutOfMemory};
pub use paths::Path;
pub use places::{MOST_BYTES, Place, place_of};
