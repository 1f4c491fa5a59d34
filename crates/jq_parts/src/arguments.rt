//! Arguments that are markup. J stands for `$` or `jQuery`.
ghost use Rattle.std.specs.Prelude.{◌≡◌, ◌≤◌, option_map, IfOk, IfErr, OnOk};
ghost use Rattle.sel_text.specs.Results.{IsFront};
ghost use Rattle.jq_words.specs.Words.{place};
ghost use Rattle.jq_words.specs.Results.{Finds};
ghost use Rattle.jq_words.specs.declared.faults.ScriptFault.TheVariants.{Memory};
ghost use Rattle.jq_words.specs.declared.faults.TheConstants.{MOST_FOREST_NODES};
ghost use Rattle.jq_parts.specs.Arguments as spec;
ghost use Rattle.jq_parts.specs.ScopeViews.{grown_of};

use crate::markup::{Grown, forest};
use jq_cursor::{Reader, begins_jquery, is_jquery_call};
use jq_words::{ScriptFault, Words, closed_texts, is_markup, joined_texts, place, want_open};
use std::alloc::Global;
use tree_sem::Forest;

// The letters of the markup, where the words are J with markup in its brackets and nothing else.
#[tactic(auto, unfolding(crate::specs::Arguments::wrapped))]
fn wrapped(alloc: Global, words: &Words<'_>) -> Result<Option<Vec<u8>>, ScriptFault>
    ensures gives { IfOk result (λ v. spec.wrapped words.now.words ≡ option_map (λ l. l.items) v) }
    ensures only_memory { IfErr result (λ e. e ≡ Memory) }
{
    if !is_jquery_call(words) {
        return Ok(None);
    }
    let Some(letters) = closed_texts(alloc, &words.behind().behind())? else {
        return Ok(None);
    };
    if !is_markup(&letters) {
        return Ok(None);
    }
    Ok(Some(letters))
}

// The trees of the markup in the brackets of J. At most `room` brackets may still be opened.
fn wrapped_forest(
    reader: Reader<'_>,
    room: usize,
    words: &Words<'_>,
    grown: &mut Grown,
) -> Result<Forest, ScriptFault>
    ensures gives { Finds (λ f. f.tops) (grown_of grown.new) result (spec.wrapped_forest words.now.size room words.now.words (grown_of grown.old) (spec.wrapped words.now.words)) }
    ensures few { OnOk result (grown.new.nodes ≤ MOST_FOREST_NODES) }
    ensures front { IsFront grown.old.atoms grown.new.atoms }
{
    let Some(letters) = wrapped(reader.alloc, words)? else {
        return Err(ScriptFault::UnknownForm(place(words)));
    };
    let mut inside = words.behind();
    want_open(room, b"(", &mut inside)?;
    forest(reader.alloc, place(&inside), &letters, grown)
}

/// The trees of an argument that is markup. At most `room` brackets may still be opened. Linear in the argument, besides look-ups
/// of names.
#[tactic(auto, unfolding(crate::specs::Arguments::markup_argument), using(html_subset::proofs::Fronts::front_itself))]
pub fn markup_argument(
    reader: Reader<'_>,
    room: usize,
    words: &Words<'_>,
    grown: &mut Grown,
) -> Result<Forest, ScriptFault>
    ensures gives { Finds (λ f. f.tops) (grown_of grown.new) result (spec.markup_argument words.now.size room words.now.words (grown_of grown.old)) }
    ensures few { OnOk result (grown.new.nodes ≤ MOST_FOREST_NODES) }
    ensures front { IsFront grown.old.atoms grown.new.atoms }
{
    if let Some(letters) = joined_texts(reader.alloc, words)? {
        return forest(reader.alloc, place(words), &letters, grown);
    }
    if !begins_jquery(words) {
        return Err(ScriptFault::DynamicMarkup(place(words)));
    }
    wrapped_forest(reader, room, words, grown)
}
