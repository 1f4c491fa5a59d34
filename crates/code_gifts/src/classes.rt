//! What calls that give classes come to.
ghost use Rattle.std.specs.Prelude.{◌≡◌, ◌<◌, ◌++◌, ◌+◌, ◌^◌, OnOk};
ghost use Rattle.text_bytes.specs.Attributes.{is_among as stands_among};
ghost use Rattle.code_gifts.specs.Classes as spec;
ghost use Rattle.code_gifts.specs.Values.{argument_classes as argument_given, arguments_classes as arguments_given};
ghost use Rattle.code_values.specs.Arguments.{arguments as arguments_of};
ghost use Rattle.code_gifts.specs.Words.{begins_name as begins_one};

use crate::script::Script;
use crate::values::{give_argument, give_arguments};
use crate::words::{begins_name, first_place, first_words, is_among, tokens_at};
use code_places::{Place, Use, place_at};
use code_scan::Token;
use code_values::arguments;
use gifts::{Given, give_any_class};
use tp_base::NoMemory;

const FIRST_NAMES: [&[u8]; 2] = [b"addClass", b"toggleClass"];

const SECOND_NAMES: [&[u8]; 1] = [b"switchClass"];

const FUNCTIONS: [&[u8]; 2] = [b"function", b"async"];

const EACH_NAMES: [&[u8]; 2] = [b"add", b"replace"];

const TOGGLE_NAMES: [&[u8]; 1] = [b"toggle"];

const QUIET_NAMES: [&[u8]; 10] = [
    b"remove",
    b"contains",
    b"item",
    b"forEach",
    b"length",
    b"value",
    b"keys",
    b"values",
    b"entries",
    b"toString",
];

const LIST_NAMES: [&[u8]; 1] = [b"classList"];

// ---- calls of jQuery

#[tactic(auto, using(crate::proofs::Names::same_first_names))]
fn is_first_name(name: &[u8]) -> bool
    ensures { result ≡ stands_among spec.first_names name.now }
{
    is_among(&FIRST_NAMES, name)
}

#[tactic(auto, using(crate::proofs::Names::same_second_names))]
fn is_second_name(name: &[u8]) -> bool
    ensures { result ≡ stands_among spec.second_names name.now }
{
    is_among(&SECOND_NAMES, name)
}

fn is_class_call(name: &[u8]) -> bool
    ensures { result ≡ spec.is_class_call name.now }
{
    is_first_name(name) || is_second_name(name)
}

fn argument_of(name: &[u8]) -> usize
    ensures { result ≡ spec.argument_of name.now }
{
    if is_second_name(name) { 1 } else { 0 }
}

#[tactic(auto, using(crate::proofs::Names::same_functions))]
fn begins_function(text: &[u8], tokens: &[Token]) -> bool
    ensures { result ≡ begins_one text.now spec.functions tokens.now }
{
    begins_name(text, &FUNCTIONS, tokens)
}

/// A name at the token of a number, and the byte at which it stands.
#[derive(Clone, Copy)]
pub(crate) struct Spot<'n> {
    pub from: usize,
    pub at: usize,
    pub name: &'n [u8],
}

fn give_argument_at(
    givens: &mut Vec<Given>,
    script: &Script<'_, '_>,
    spot: &Spot<'_>,
    number: usize,
) -> Result<(), NoMemory>
    requires within { spot.now.at + 1 < 2 ^ 64 }
    ensures { OnOk result (givens.new.items ≡ givens.old.items ++ argument_given script.now.asked.now spot.now.from script.now.text.now script.now.code.now number (arguments_of script.now.text.now script.now.code.now (spot.now.at + 1))) }
{
    let spans = arguments(*givens.allocator(), &script.of_values(), spot.at + 1)?;
    give_argument(givens, script, spot.from, number, spans.items())
}

fn give_arguments_at(
    givens: &mut Vec<Given>,
    script: &Script<'_, '_>,
    spot: &Spot<'_>,
) -> Result<(), NoMemory>
    requires within { spot.now.at + 1 < 2 ^ 64 }
    ensures { OnOk result (givens.new.items ≡ givens.old.items ++ arguments_given script.now.asked.now spot.now.from script.now.text.now script.now.code.now (arguments_of script.now.text.now script.now.code.now (spot.now.at + 1))) }
{
    let spans = arguments(*givens.allocator(), &script.of_values(), spot.at + 1)?;
    give_arguments(givens, script, spot.from, spans.items())
}

fn give_key(
    givens: &mut Vec<Given>,
    script: &Script<'_, '_>,
    spot: &Spot<'_>,
) -> Result<(), NoMemory>
    requires within { spot.now.at + 2 < 2 ^ 64 }
    ensures { OnOk result (givens.new.items ≡ givens.old.items ++ spec.key_gifts spot.now.from script.now.text.now script.now.code.now spot.now.at) }
{
    if begins_function(script.text, tokens_at(script.code, spot.at + 2)) {
        Ok(())
    } else {
        give_any_class(givens, spot.from)
    }
}

fn give_call(
    givens: &mut Vec<Given>,
    script: &Script<'_, '_>,
    spot: &Spot<'_>,
    place: Place,
) -> Result<(), NoMemory>
    requires within { spot.now.at + 2 < 2 ^ 64 }
    ensures { OnOk result (givens.new.items ≡ givens.old.items ++ spec.call_gifts script.now.asked.now spot.now.from script.now.text.now script.now.code.now spot.now.at spot.now.name.now place) }
{
    match place {
        Place::Member(Use::Called) => {
            give_argument_at(givens, script, spot, argument_of(spot.name))
        }
        Place::Name(Use::Called) => Ok(()),
        Place::Member(_) | Place::Name(_) => give_any_class(givens, spot.from),
        Place::Key => give_key(givens, script, spot),
        _ => Ok(()),
    }
}

// ---- lists of classes

#[tactic(auto, using(crate::proofs::Names::same_each_names))]
fn is_each_name(name: &[u8]) -> bool
    ensures { result ≡ stands_among spec.each_names name.now }
{
    is_among(&EACH_NAMES, name)
}

#[tactic(auto, using(crate::proofs::Names::same_toggle_names))]
fn is_toggle_name(name: &[u8]) -> bool
    ensures { result ≡ stands_among spec.toggle_names name.now }
{
    is_among(&TOGGLE_NAMES, name)
}

#[tactic(auto, using(crate::proofs::Names::same_quiet_names))]
fn is_quiet_name(name: &[u8]) -> bool
    ensures { result ≡ stands_among spec.quiet_names name.now }
{
    is_among(&QUIET_NAMES, name)
}

#[tactic(auto, using(crate::proofs::Names::same_list_names))]
fn is_list_name(name: &[u8]) -> bool
    ensures { result ≡ stands_among spec.list_names name.now }
{
    is_among(&LIST_NAMES, name)
}

fn give_quiet(givens: &mut Vec<Given>, spot: &Spot<'_>) -> Result<(), NoMemory>
    ensures { OnOk result (givens.new.items ≡ givens.old.items ++ spec.quiet_gifts spot.now.from spot.now.name.now) }
{
    if is_quiet_name(spot.name) {
        Ok(())
    } else {
        give_any_class(givens, spot.from)
    }
}

fn give_asked_call(
    givens: &mut Vec<Given>,
    script: &Script<'_, '_>,
    spot: &Spot<'_>,
) -> Result<(), NoMemory>
    requires within { spot.now.at + 1 < 2 ^ 64 }
    ensures { OnOk result (givens.new.items ≡ givens.old.items ++ spec.asked_call_gifts script.now.asked.now spot.now.from script.now.text.now script.now.code.now spot.now.at spot.now.name.now) }
{
    if is_each_name(spot.name) {
        give_arguments_at(givens, script, spot)
    } else if is_toggle_name(spot.name) {
        give_argument_at(givens, script, spot, 0)
    } else {
        give_quiet(givens, spot)
    }
}

fn give_asked(
    givens: &mut Vec<Given>,
    script: &Script<'_, '_>,
    spot: &Spot<'_>,
    place: Place,
) -> Result<(), NoMemory>
    requires within { spot.now.at + 1 < 2 ^ 64 }
    ensures { OnOk result (givens.new.items ≡ givens.old.items ++ spec.asked_gifts script.now.asked.now spot.now.from script.now.text.now script.now.code.now spot.now.at spot.now.name.now place) }
{
    match place {
        Place::Member(Use::Called) => give_asked_call(givens, script, spot),
        Place::Member(Use::Read) => give_quiet(givens, spot),
        _ => give_any_class(givens, spot.from),
    }
}

fn give_list(
    givens: &mut Vec<Given>,
    script: &Script<'_, '_>,
    from: usize,
    at: usize,
) -> Result<(), NoMemory>
    requires within { at + 3 < 2 ^ 64 }
    ensures { OnOk result (givens.new.items ≡ givens.old.items ++ spec.list_gifts script.now.asked.now from script.now.text.now script.now.code.now script.now.brackets.now at) }
{
    let spot = Spot {
        from,
        at: at + 2,
        name: first_words(script.text, tokens_at(script.code, at + 2)),
    };
    let place = place_at(&script.of_places(), script.brackets, at + 2);
    give_asked(givens, script, &spot, place)
}

// ---- both

fn stands(place: Place) -> bool
    ensures { result ≡ spec.stands place }
{
    !matches!(
        place,
        Place::Declared | Place::Word | Place::Text | Place::Other
    )
}

/// Adds the classes that the token of a number gives, if it is a name that gives some. Linear in what it is called with, on average.
#[tactic(auto, unfolding(crate::specs::Classes::class_gifts))]
pub fn class_gifts(
    givens: &mut Vec<Given>,
    script: &Script<'_, '_>,
    at: usize,
) -> Result<(), NoMemory>
    requires within { at + 3 < 2 ^ 64 }
    ensures { OnOk result (givens.new.items ≡ givens.old.items ++ spec.class_gifts script.now.asked.now script.now.text.now script.now.code.now script.now.brackets.now at) }
{
    let tokens = tokens_at(script.code, at);
    let spot = Spot {
        from: first_place(tokens),
        at,
        name: first_words(script.text, tokens),
    };
    let place = place_at(&script.of_places(), script.brackets, at);
    if is_class_call(spot.name) {
        give_call(givens, script, &spot, place)
    } else if is_list_name(spot.name) && stands(place) {
        give_list(givens, script, spot.from, at)
    } else {
        Ok(())
    }
}
