//! Parts of statements that are lists of expressions without effect.
ghost use Rattle.std.specs.Prelude.{false, OnOk};
ghost use Rattle.jq_words.specs.FreeLists.{free};
ghost use Rattle.jq_words.specs.Results.{Leaves, InFile, IsRest, IsBehind};
ghost use Rattle.jq_forms.specs.ListParts as spec;
ghost use Rattle.jq_forms.specs.Readers.{rules_from};

use crate::openings::begins_setting;
use jq_cursor::{Cursor, Reader};
use jq_words::{Rules, ScriptFault, begins, end_fits, place};

/// Passes a list of any expressions, in which so many brackets may be opened; whether `this` names a node there, and whether braces may
/// stand outside other brackets. Linear in it but for look-ups.
pub fn list_in(
    reader: Reader<'_>,
    has_this: bool,
    braces: bool,
    room: usize,
    words: &mut Cursor<'_, '_>,
) -> Result<(), ScriptFault>
    ensures gives { Leaves words.new.words result (free words.old.size (rules_from reader.entry has_this braces room) words.old.words) }
    ensures rest { OnOk result (InFile IsBehind words.old words.new) }
{
    let rules = Rules {
        exact: reader.exact,
        declared: reader.declared,
        has_this,
        braces,
        room,
    };
    words.free(reader.alloc, rules)
}

/// A list, as a statement. Linear in it but for look-ups.
#[tactic(auto, unfolding(crate::specs::ListParts::list_statement), using(jq_words::proofs::Files::behind_rest))]
pub fn list_statement(
    reader: Reader<'_>,
    has_this: bool,
    room: usize,
    words: &mut Cursor<'_, '_>,
) -> Result<(), ScriptFault>
    ensures gives { Leaves words.new.words result (spec.list_statement words.old.size (rules_from reader.entry has_this false room) words.old.words) }
    ensures rest { OnOk result (InFile IsBehind words.old words.new) }
{
    list_in(reader, has_this, false, room, words)?;
    words.end()?;
    Ok(())
}

/// Behind `return`. Linear in what is returned but for look-ups.
#[tactic(auto, unfolding(crate::specs::ListParts::returned), using(jq_words::proofs::Files::is_rest))]
pub fn returned(
    reader: Reader<'_>,
    has_this: bool,
    room: usize,
    words: &mut Cursor<'_, '_>,
) -> Result<(), ScriptFault>
    ensures gives { Leaves words.new.words result (spec.returned words.old.size (rules_from reader.entry has_this false room) words.old.words) }
    ensures rest { OnOk result (InFile IsRest words.old words.new) }
{
    if end_fits(words.words()) {
        return words.end();
    }
    list_statement(reader, has_this, room, words)?;
    Ok(())
}

/// A name, which may be bound to a chain, that gets another value; no chain may. Linear in the value but for look-ups.
#[tactic(auto, unfolding(crate::specs::ListParts::set), using(jq_words::proofs::Rests::two_passed, jq_words::proofs::Files::passed_rest, jq_words::proofs::Files::is_rest))]
pub fn set(
    reader: Reader<'_>,
    bound: bool,
    has_this: bool,
    room: usize,
    words: &mut Cursor<'_, '_>,
) -> Result<(), ScriptFault>
    ensures gives { Leaves words.new.words result (spec.set words.old.size bound (rules_from reader.entry has_this false room) words.old.words) }
    ensures rest { OnOk result (InFile IsBehind words.old words.new) }
{
    if bound {
        return Err(ScriptFault::UnknownForm(place(words.words())));
    }
    words.pass();
    if begins_setting(words.words()) {
        words.pass();
        list_statement(reader, has_this, room, words)?;
        return Ok(());
    }
    words.pass();
    words.end()?;
    Ok(())
}

/// Passes `if` and its condition. Linear in it but for look-ups.
#[tactic(auto, unfolding(crate::specs::ListParts::condition), using(jq_words::proofs::Files::passed, jq_words::proofs::Files::behind_behind))]
pub fn condition(
    reader: Reader<'_>,
    has_this: bool,
    room: usize,
    words: &mut Cursor<'_, '_>,
) -> Result<(), ScriptFault>
    ensures gives { Leaves words.new.words result (spec.condition words.old.size (rules_from reader.entry has_this false room) words.old.words) }
    ensures rest { OnOk result (InFile IsBehind words.old words.new) }
{
    words.pass();
    words.want_open(room, b"(")?;
    list_in(reader, has_this, false, room - 1, words)?;
    words.want(b")")?;
    Ok(())
}

// Passes a list, unless a closing bracket stands there.
#[tactic(auto, unfolding(crate::specs::ListParts::given), using(jq_words::proofs::Files::itself, jq_words::proofs::Files::is_rest))]
fn given(
    reader: Reader<'_>,
    has_this: bool,
    room: usize,
    words: &mut Cursor<'_, '_>,
) -> Result<(), ScriptFault>
    ensures gives { Leaves words.new.words result (spec.given words.old.size (rules_from reader.entry has_this false room) words.old.words) }
    ensures rest { OnOk result (InFile IsRest words.old words.new) }
{
    if begins(words.words(), b")") {
        return Ok(());
    }
    list_in(reader, has_this, false, room, words)?;
    Ok(())
}

/// Passes what a function is called with where it stands. Linear in it but for look-ups.
#[tactic(auto, unfolding(crate::specs::ListParts::called_with))]
pub fn called_with(
    reader: Reader<'_>,
    has_this: bool,
    room: usize,
    words: &mut Cursor<'_, '_>,
) -> Result<(), ScriptFault>
    ensures gives { Leaves words.new.words result (spec.called_with words.old.size (rules_from reader.entry has_this false room) words.old.words) }
    ensures rest { OnOk result (InFile IsBehind words.old words.new) }
{
    words.want_open(room, b"(")?;
    given(reader, has_this, room - 1, words)?;
    words.want(b")")?;
    Ok(())
}

/// Passes a comma and a list, where a comma stands. Linear in it but for look-ups.
#[tactic(auto, unfolding(crate::specs::ListParts::and_list), using(jq_words::proofs::Files::itself, jq_words::proofs::Files::passed_behind))]
pub fn and_list(
    reader: Reader<'_>,
    has_this: bool,
    braces: bool,
    room: usize,
    words: &mut Cursor<'_, '_>,
) -> Result<(), ScriptFault>
    ensures gives { Leaves words.new.words result (spec.and_list words.old.size (rules_from reader.entry has_this braces room) words.old.words) }
    ensures rest { OnOk result (InFile IsRest words.old words.new) }
{
    if !begins(words.words(), b",") {
        return Ok(());
    }
    words.pass();
    list_in(reader, has_this, braces, room, words)?;
    Ok(())
}
