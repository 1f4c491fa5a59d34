//! Scopes, bound names, what a chain begins with, where a call may stand, markup in strings.
#![tactic(auto)]

mod arguments;
mod calls;
mod declarations;
mod entries;
mod functions;
mod markup;
mod parameter_lists;
mod placing;
mod roots;
mod scopes;
mod stating;
mod targets;
mod values;

pub use arguments::markup_argument;
pub use calls::{admitted, below, dot_name, elements, ended, first_call, made, with_call};
pub use declarations::Declarations;
pub use functions::{count_seen, enter, leave};
pub use markup::{Grown, forest};
pub use parameter_lists::parameters;
pub use placing::{Stated, placed};
pub use roots::{jquery_argument, root};
pub use scopes::{Handler, Scope, is_bound, same_places, used};
pub use stating::stated;
pub use targets::target;
pub use values::{Bound, Declaration, Value, matched, this_chain};
