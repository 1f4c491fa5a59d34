//! The value that a call leaves for the rest of its chain, and what the call does.
ghost use Rattle.std.specs.Prelude.{◌≡◌, None};
ghost use Rattle.jq_parts.specs.Views.{value_of};
ghost use Rattle.jq_read.specs.Views.{done_of};

use jq_chains::SharedChain;
use jq_parts::Value;
use tree_sem::Action;

/// The chain's value, and what the call does.
#[derive(Drop)]
pub(crate) struct Done {
    pub(crate) reached: Value,
    pub(crate) effect: Option<(SharedChain, Action)>,
}

impl Done {
    /// This value, and no action. Constant.
    pub(crate) fn nothing(reached: Value) -> Self
        ensures { done_of result ≡ (value_of reached, None) }
    {
        Done {
            reached,
            effect: None,
        }
    }
}
