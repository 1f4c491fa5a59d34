//! Pages, scripts and statements from their texts, for tests.
#![tactic(auto)]

mod labels;
mod reading;

pub use labels::{has_class, label_text, put, put_atom, put_label};
pub use reading::{PAGE, Twist, page_of, script_of, statement_of, twisted};
