//! `closest`, `siblings` and `first`, exactly, and the replay of traces by them.
#![tactic(auto)]

mod evaluation;
mod firsts;
mod laws;
mod marks;
mod replays;
mod selection;
mod sets;
mod settling;
mod sharp_proofs;
mod sharp_statements;
mod standing_calls;

pub use laws::{
    exact_is_narrower, exact_reach_is_less, exact_steps_are_steps, plain_is_exact,
    plain_steps_are_exact, used_is_exact,
};
pub use marks::{Script, any_marked, joined, parted};
pub use replays::replay_exact;
pub use selection::selects_exact;
pub use settling::settle;
pub use sharp_proofs::has_sharp_step;
pub use tree_sem::ReplayFault;
