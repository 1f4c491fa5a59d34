//! Trees and simple systems from short lists, for tests.
#![tactic(auto)]

mod building;
mod nesting;
mod scripts;
mod soundness;
mod trees;

pub use building::{KIND, KindRow, LocalRow, Rules, links, system_of};
pub use nesting::{MOST_CLASSES, mark, nested};
pub use scripts::{Script, rules_of};
pub use soundness::is_sound;
pub use trees::{NodeRow, add_child, is_path, path_of, set_of, tree_of};
