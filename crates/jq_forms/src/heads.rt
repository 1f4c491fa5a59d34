//! What stands before the block of a function, and between the arguments of a call.
ghost use Rattle.std.specs.Prelude.{◌≡◌, true, drop, OnOk};
ghost use Rattle.jq_words.specs.Results.{Leaves, InFile, IsRest, IsBehind};
ghost use Rattle.jq_forms.specs.Heads as spec;
ghost use Rattle.jq_forms.specs.Readers.{rules_from};

use crate::list_parts::list_in;
use jq_cursor::{Cursor, Reader};
use jq_words::{ScriptFault, begins_any_name, begins_name, begins_name_among, place};

/// Passes `function`, which is wanted. Constant.
#[tactic(auto, unfolding(crate::specs::Heads::want_function))]
pub fn want_function(words: &mut Cursor<'_, '_>) -> Result<(), ScriptFault>
    ensures gives { Leaves words.new.words result (spec.want_function words.old.size words.old.words) }
    ensures rest { OnOk result (InFile IsBehind words.old words.new) }
{
    if !begins_name(words.words(), b"function") {
        return Err(ScriptFault::UnknownForm(place(words.words())));
    }
    words.pass();
    Ok(())
}

/// Passes the name of a function, where it has one. Constant.
#[tactic(auto, unfolding(crate::specs::Heads::behind_name), using(jq_words::proofs::Files::itself, jq_words::proofs::Files::is_rest))]
pub fn pass_name(words: &mut Cursor<'_, '_>)
    ensures gives { words.new.words ≡ spec.behind_name words.old.words }
    ensures rest { InFile IsRest words.old words.new }
{
    if begins_any_name(words.words()) {
        words.pass();
    }
}

/// Passes what is handed over that is no function: a list, where one may stand, or else the name of a function of the script. Linear in
/// it but for look-ups.
#[tactic(auto, unfolding(crate::specs::Heads::handed_other))]
pub fn handed_other(
    reader: Reader<'_>,
    lists: bool,
    has_this: bool,
    room: usize,
    words: &mut Cursor<'_, '_>,
) -> Result<(), ScriptFault>
    ensures gives { Leaves words.new.words result (spec.handed_other lists words.old.size (rules_from reader.entry has_this true room) words.old.words) }
    ensures rest { OnOk result (InFile IsBehind words.old words.new) }
{
    if lists {
        return list_in(reader, has_this, true, room, words);
    }
    if !begins_name_among(words.words(), reader.declared) {
        return Err(ScriptFault::UnknownForm(place(words.words())));
    }
    words.pass();
    Ok(())
}

/// Passes a comma behind one of several arguments, where others follow. Constant.
#[tactic(auto, unfolding(crate::specs::Heads::behind_one), using(jq_words::proofs::Files::itself, jq_words::proofs::Files::is_rest))]
pub fn pass_comma(others: usize, words: &mut Cursor<'_, '_>) -> Result<(), ScriptFault>
    ensures gives { Leaves words.new.words result (spec.behind_one words.old.size others words.old.words) }
    ensures rest { OnOk result (InFile IsRest words.old words.new) }
{
    if others == 0 {
        return Ok(());
    }
    words.want(b",")?;
    Ok(())
}

/// Passes J and `(document).ready`. Constant.
#[tactic(auto, unfolding(crate::specs::Heads::behind_document), using(jq_words::proofs::Files::behind_rest))]
pub fn pass_document(room: usize, words: &mut Cursor<'_, '_>) -> Result<(), ScriptFault>
    ensures gives { Leaves words.new.words result (spec.behind_document words.old.size room (drop 1 words.old.words)) }
    ensures rest { OnOk result (InFile IsBehind words.old words.new) }
{
    words.pass();
    words.want_open(room, b"(")?;
    words.pass_all(4);
    Ok(())
}
