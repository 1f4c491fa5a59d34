//! What a selector asks of a node, and whether it matches.
#![tactic(auto)]

mod matching;

pub use matching::{fits, matches};
pub use sel_text::{
    Atoms, Compound, Compounds, Join, Joins, MOST_PARTS, SelFault, Selector, Skip, behind_close,
    behind_gap, is_word, name_len, read_selector, read_strict_list, write_selector,
};
