//! What is known of arguments.
ghost use Rattle.std.specs.Prelude.{◌≡◌, ◌++◌, drop, OnOk};
ghost use Rattle.code_values.specs.Texts.{is_texts as are_texts};
ghost use Rattle.gifts.specs.Classes.{classes as classes_of};
ghost use Rattle.code_gifts.specs.Values as spec;
ghost use Rattle.code_gifts.specs.Words.{begins_name as begins_one};

use crate::script::Script;
use crate::words::{begins_name, tokens_at};
use code_scan::Token;
use code_values::{Span, is_spread, is_texts, joined_texts};
use gifts::{Given, give_any_class, give_classes};
use tp_base::NoMemory;

const NO_CLASSES: [&[u8]; 4] = [b"true", b"false", b"null", b"undefined"];

#[tactic(auto, unfolding(crate::specs::Values::any_spread))]
fn any_spread(script: &Script<'_, '_>, spans: &[Span]) -> bool
    ensures { spec.any_spread script.now.text.now script.now.code.now spans.now ≡ result }
{
    let mut left = spans;
    'spans: while let Some((first, others)) = left.split_first() {
        if is_spread(&script.of_values(), *first) {
            return true;
        }
        left = others;
    }
    false
}

#[tactic(auto, using(crate::proofs::Names::same_no_classes))]
fn begins_no_class(text: &[u8], tokens: &[Token]) -> bool
    ensures { result ≡ begins_one text.now spec.no_classes tokens.now }
{
    begins_name(text, &NO_CLASSES, tokens)
}

fn is_nothing(script: &Script<'_, '_>, span: Span) -> bool
    ensures { result ≡ spec.is_nothing script.now.text.now script.now.code.now span }
{
    span.to.saturating_sub(span.from) == 1
        && begins_no_class(script.text, tokens_at(script.code, span.from))
}

fn give_text(
    givens: &mut Vec<Given>,
    script: &Script<'_, '_>,
    from: usize,
    span: Span,
) -> Result<(), NoMemory>
    ensures { OnOk result (givens.new.items ≡ givens.old.items ++ classes_of script.now.asked.now from (spec.text_in script.now.code.now span (are_texts script.now.text.now script.now.code.now span))) }
{
    if is_texts(&script.of_values(), span) {
        let text = joined_texts(*givens.allocator(), script.code, span)?;
        give_classes(givens, script.asked, from, Some(text.items()))
    } else {
        give_any_class(givens, from)
    }
}

fn give_value(
    givens: &mut Vec<Given>,
    script: &Script<'_, '_>,
    from: usize,
    span: Span,
) -> Result<(), NoMemory>
    ensures { OnOk result (givens.new.items ≡ givens.old.items ++ spec.value_classes script.now.asked.now from script.now.text.now script.now.code.now span) }
{
    if is_nothing(script, span) {
        Ok(())
    } else {
        give_text(givens, script, from, span)
    }
}

fn give_first(
    givens: &mut Vec<Given>,
    script: &Script<'_, '_>,
    from: usize,
    spans: &[Span],
) -> Result<(), NoMemory>
    ensures { OnOk result (givens.new.items ≡ givens.old.items ++ spec.first_classes script.now.asked.now from script.now.text.now script.now.code.now spans.now) }
{
    match spans.split_first() {
        None => give_any_class(givens, from),
        Some((first, _)) => give_value(givens, script, from, *first),
    }
}

fn spans_from(spans: &[Span], from: usize) -> &[Span]
    ensures { result.now ≡ drop from spans.now }
{
    match spans.split_at_checked(from) {
        Some((_, behind)) => behind,
        None => &[],
    }
}

/// Adds the classes of one argument, by its number. Linear in it, on average.
pub(crate) fn give_argument(
    givens: &mut Vec<Given>,
    script: &Script<'_, '_>,
    from: usize,
    number: usize,
    spans: &[Span],
) -> Result<(), NoMemory>
    ensures { OnOk result (givens.new.items ≡ givens.old.items ++ spec.argument_classes script.now.asked.now from script.now.text.now script.now.code.now number spans.now) }
{
    if any_spread(script, spans) {
        give_any_class(givens, from)
    } else {
        give_first(givens, script, from, spans_from(spans, number))
    }
}

#[tactic(auto, unfolding(crate::specs::Values::all_classes))]
fn give_all(
    givens: &mut Vec<Given>,
    script: &Script<'_, '_>,
    from: usize,
    spans: &[Span],
) -> Result<(), NoMemory>
    ensures { OnOk result (givens.new.items ≡ givens.old.items ++ spec.all_classes script.now.asked.now from script.now.text.now script.now.code.now spans.now) }
{
    let mut left = spans;
    'spans: while let Some((first, others)) = left.split_first() {
        give_value(givens, script, from, *first)?;
        left = others;
    }
    Ok(())
}

/// Adds the classes of all arguments. Linear in them, on average.
pub(crate) fn give_arguments(
    givens: &mut Vec<Given>,
    script: &Script<'_, '_>,
    from: usize,
    spans: &[Span],
) -> Result<(), NoMemory>
    ensures { OnOk result (givens.new.items ≡ givens.old.items ++ spec.arguments_classes script.now.asked.now from script.now.text.now script.now.code.now spans.now) }
{
    if any_spread(script, spans) {
        give_any_class(givens, from)
    } else {
        give_all(givens, script, from, spans)
    }
}
