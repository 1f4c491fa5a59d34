//! The semantics of statements: what they select, legal steps, reachability, losses, whole runs.
#![tactic(auto)]

mod actions;
mod evaluation;
mod laws;
mod marked_nodes;
mod runs;
mod selection;
mod sets;
mod standing_calls;

pub use actions::act;
pub use jq_stmts::{
    Call, Calls, Chain, Chains, ExactStmt, Root, Selectors, SharedCompounds, Sharp, SharpKind,
    Sharps, Stmt, kind_at,
};
pub use laws::{
    events_are_steps, losses_reach_nothing_more, match_is_kept, runs_are_steps, runs_make_no_less,
    runs_reach_the_same, selection_is_kept, steps_are_events, steps_keep_selection,
};
pub use runs::{run_whole, run_within};
pub use selection::selects;
pub use sets::{fitting, matched_nodes, matching, may_fit, of_call};
pub use standing_calls::standing;
