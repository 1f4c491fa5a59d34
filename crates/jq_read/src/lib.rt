//! The parser of scripts: functions, chains, declarations, statements.
#![tactic(auto)]

mod arguments;
mod bodies;
mod bound_names;
mod calls;
mod chains;
mod declarations;
mod readings;
mod script;
mod sequences;
mod statements;
mod values;

pub use jq_words::{MOST_CALLS, MOST_FOREST_NODES, MOST_OPEN, MOST_STATEMENTS, ScriptFault};
pub use script::{read_exact, read_script};
