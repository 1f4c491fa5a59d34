//! From statements and selectors to answers: translation, fixpoint, proofs, and the laws that tie them.
#![tactic(auto)]

mod answering;
mod both;
mod closing;
mod copying;
mod dealing;
mod engines;
mod grounds;
mod judging;
mod laws;
mod memo;
mod proving;
mod simplifying;

pub use both::{Answers, Both};
pub use guard_simplify::SimplifyFault as JudgeFault;
pub use judging::{judge, judge_more};
pub use laws::{
    engines_agree, forests_are_kept, one_answer, one_guard, proof_shows, reached_at_root,
};
pub use limits::Limits;
pub use proof_core::MOST_LISTED;
