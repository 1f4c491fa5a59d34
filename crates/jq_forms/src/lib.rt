//! Which form a statement has, by its first words.
#![tactic(auto)]

mod forms;
mod heads;
mod list_parts;
mod openings;
mod value_chains;

pub use forms::StatementForm;
pub use heads::{handed_other, pass_comma, pass_document, pass_name, want_function};
pub use list_parts::{and_list, called_with, condition, list_in, list_statement, returned, set};
pub use openings::form_of;
pub use value_chains::is_chain;
