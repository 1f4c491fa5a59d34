//! The stack of open elements: what a tag closes, what it implies, where its element goes.
#![tactic(auto)]

mod elements;
mod name_notes;
mod name_places;
mod nearest;
mod open_elements;
mod scopes;
mod stack;

pub use elements::{Element, Kind};
pub use name_notes::NameNotes;
pub use name_places::lowered;
pub use open_elements::{
    Ending, Implied, Place, behind_item, behind_paragraph, behind_term, end_tag, is_opened,
    place_for,
};
pub use scopes::Scope;
pub use stack::OpenElements;
