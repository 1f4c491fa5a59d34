//! What ids come to.
ghost use Rattle.std.specs.Prelude.{◌≡◌, ◌++◌, Some, option_map, OnOk};
ghost use Rattle.gifts.specs.Given.{assumes as assumes_one};
ghost use Rattle.gifts.specs.Ids as spec;

use crate::given::{Given, Kind, What};
use sheet_asks::Asked;
use tp_base::NoMemory;

/// Adds an assumption. Constant.
pub(crate) fn push_kind(givens: &mut Vec<Given>, at: usize, kind: Kind) -> Result<(), NoMemory>
    ensures { OnOk result (givens.new.items ≡ givens.old.items ++ assumes_one at kind) }
{
    givens.push(Given {
        at,
        what: What::Assumes(kind),
    })?;
    Ok(())
}

/// Adds an assumption where any id is asked for. Constant.
pub fn give_any_id(givens: &mut Vec<Given>, asked: &Asked, at: usize) -> Result<(), NoMemory>
    ensures { OnOk result (givens.new.items ≡ givens.old.items ++ spec.any_id asked.now at) }
{
    if asked.ids().is_empty() {
        Ok(())
    } else {
        push_kind(givens, at, Kind::Id)
    }
}

fn text_id(givens: &mut Vec<Given>, asked: &Asked, at: usize, text: &[u8]) -> Result<(), NoMemory>
    ensures { OnOk result (givens.new.items ≡ givens.old.items ++ spec.id asked.now at (Some text.now)) }
{
    if asked.has_id(text) {
        push_kind(givens, at, Kind::Id)
    } else {
        Ok(())
    }
}

/// Adds an assumption where an id that is asked for may be given: a text, or one that isn't known. Linear in the text, on average.
pub fn give_id(
    givens: &mut Vec<Given>,
    asked: &Asked,
    at: usize,
    value: Option<&[u8]>,
) -> Result<(), NoMemory>
    ensures { OnOk result (givens.new.items ≡ givens.old.items ++ spec.id asked.now at (option_map (λ t. t.now) value.entry)) }
{
    match value {
        Some(text) => text_id(givens, asked, at, text),
        None => give_any_id(givens, asked, at),
    }
}
