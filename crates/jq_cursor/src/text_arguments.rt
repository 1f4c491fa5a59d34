//! Arguments as words, and arguments that are string literals.
ghost use Rattle.std.specs.Prelude.{◌≡◌, IfOk, OnOk};
ghost use Rattle.jq_words.specs.Words.{place};
ghost use Rattle.jq_words.specs.Results.{Finds, Turns, InFile, IsBehind};
ghost use Rattle.jq_cursor.specs.TextArguments as spec;

use crate::cursors::Cursor;
use jq_words::{ScriptFault, Words, argument_len, joined_texts, place};
use std::alloc::Global;

/// Lends the words of an argument, of which there has to be something, and passes them. Linear in them.
#[tactic(auto, unfolding(crate::specs::TextArguments::some_argument), using(jq_words::proofs::ArgumentSteps::none_given, jq_words::proofs::ArgumentSteps::some_given, jq_words::proofs::Rests::itself))]
pub fn some_argument<'a>(
    alloc: Global,
    words: &mut Cursor<'_, 'a>,
) -> Result<Words<'a>, ScriptFault>
    ensures gives { Finds (λ w. w.words) words.new.words result (spec.some_argument words.old.size words.old.words) }
    ensures size { IfOk result (λ w. w.size ≡ words.old.size) }
    ensures rest { OnOk result (InFile IsBehind words.old words.new) }
{
    let count = argument_len(alloc, true, words.words())?;
    if count == 0 {
        return Err(ScriptFault::UnknownForm(place(words.words())));
    }
    let given = words.words().front(count);
    words.pass_all(count);
    Ok(given)
}

/// Passes Texts that are an argument, and gives their letters. Linear in the argument.
#[tactic(auto, unfolding(crate::specs::TextArguments::text_argument))]
pub fn text_argument(alloc: Global, words: &mut Cursor<'_, '_>) -> Result<Vec<u8>, ScriptFault>
    ensures gives { Turns (λ l. l.items) (place words.old.size words.old.words) words.new.words result (spec.text_argument words.old.size words.old.words) }
    ensures rest { OnOk result (InFile IsBehind words.old words.new) }
{
    let count = argument_len(alloc, true, words.words())?;
    let given = words.words().front(count);
    if given.first().is_none() {
        return Err(ScriptFault::UnknownForm(place(words.words())));
    }
    let Some(letters) = joined_texts(alloc, &given)? else {
        return Err(ScriptFault::ComplexArgument(place(words.words())));
    };
    words.pass_all(count);
    Ok(letters)
}
