//! Laws: code that does nothing but edits reaches no selector that statements on all nodes don't reach.
#![tactic(auto)]

mod laws;

pub use laws::{
    any_value_comes_by_edits, covered_statements_make_edits, covered_statements_reach_nothing_more,
    edits_embed_into_steps, edits_reach_nothing_more, star_selects_all, steps_are_edits,
};
