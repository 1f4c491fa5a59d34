//! The syntax tree of a script: chains, handlers, actions, and calls that are judged by wider ones.
#![tactic(auto)]

mod chains;
mod sharp;
mod stmts;

pub use chains::{Call, Calls, Chain, Root, Selectors, SharedCompounds};
pub use sharp::{ExactStmt, Sharp, SharpKind, Sharps, kind_at};
pub use stmts::{Chains, Stmt};
