//! The grammar of a selector's text. `to` is the offset of the text's end.
ghost use Rattle.std.specs.Prelude.{◌≡◌, ◌≤◌, ◌<◌, length, map, option_map, IfSome, IfOk, IsSome};
ghost use Rattle.std.specs.List.{prefix_len};
ghost use Rattle.std.specs.Char.{to_ascii_lowercase};
ghost use Rattle.text_bytes.specs.Rests.{IsRest};
ghost use Rattle.sel_text.specs.Grammar as spec;
ghost use Rattle.sel_text.specs.Results.{Gives, begun_of, left_of, IsShorter, part_view, front_view, join_view};

use crate::bytes::{begins_name, begins_with, behind_gap, name_len};
use crate::faults::{SelFault, Skip};
use crate::selectors::Join;
use text_bytes::{is_blank, is_set_apart};
use tp_base::AtomKind;

fn cause_of(at: &[u8]) -> Skip
    ensures { result ≡ spec.cause_of at.now }
{
    match at {
        [b'+' | b'~', ..] => Skip::Sibling,
        [b':', ..] => Skip::Pseudo,
        [b'[', ..] => Skip::Attribute,
        [b'\\', ..] => Skip::Escape,
        _ => Skip::Bad,
    }
}

/// The fault of a text that leaves the grammar at some bytes; the end's place is before the gap that leads to it.
#[tactic(auto, unfolding(crate::specs::Grammar::left_at))]
pub(crate) fn left_at(to: usize, before: &[u8], at: &[u8]) -> SelFault
    requires before { length before.now ≤ to }
    requires at { length at.now ≤ to }
    ensures { result ≡ spec.left_at to before.now at.now }
{
    let place = if at.is_empty() {
        to - before.len()
    } else {
        to - at.len()
    };
    SelFault::Skipped(cause_of(at), place)
}

/// Whether a name is a word, without regard to ASCII case. Linear in the shorter one.
#[tactic(auto, using(crate::proofs::WordLemmas::is_word_by))]
pub fn is_word(name: &[u8], word: &[u8]) -> bool
    ensures { result ≡ spec.is_word name.now (map to_ascii_lowercase word.now) }
{
    name.eq_ignore_ascii_case(word)
}

#[tactic(auto, unfolding(crate::specs::Grammar::is_dropped_element))]
fn is_dropped_element(name: &[u8]) -> bool
    ensures { result ≡ spec.is_dropped_element name.now }
{
    is_word(name, b"before") || is_word(name, b"after")
}

#[tactic(auto, unfolding(crate::specs::Grammar::is_dropped_class))]
fn is_dropped_class(name: &[u8]) -> bool
    ensures { result ≡ spec.is_dropped_class name.now }
{
    is_word(name, b"hover")
        || is_word(name, b"active")
        || is_word(name, b"focus")
        || is_word(name, b"visited")
        || is_word(name, b"link")
}

// A name at the end of a pseudo part, which no `(` follows: the text behind it, where the part is dropped.
#[tactic(auto, unfolding(crate::specs::Grammar::behind_word), using(text_bytes::proofs::Rests::dropped))]
fn behind_word(two: bool, text: &[u8]) -> Option<&[u8]>
    ensures gives { spec.behind_word two text.now ≡ option_map (λ r. r.now) result }
    ensures rest { IfSome result (λ r. IsRest text.now r.now) }
{
    let (name, rest) = text.split_at(name_len(text));
    let is_dropped = is_dropped_element(name) || !two && is_dropped_class(name);
    if is_dropped && !begins_with(b'(', behind_gap(false, rest)) {
        Some(rest)
    } else {
        None
    }
}

// Behind the first colon of a pseudo part: the text behind it, where the part is dropped.
#[tactic(auto, unfolding(crate::specs::Grammar::behind_dropped), using(text_bytes::proofs::Rests::of_rest, text_bytes::proofs::Rests::dropped))]
fn behind_dropped(text: &[u8]) -> Option<&[u8]>
    ensures gives { spec.behind_dropped text.now ≡ option_map (λ r. r.now) result }
    ensures rest { IfSome result (λ r. IsRest text.now r.now) }
{
    let at = behind_gap(false, text);
    match at {
        [b':', behind @ ..] => behind_word(true, behind_gap(false, at.split_at(1).1)),
        _ => behind_word(false, at),
    }
}

/// A name as it is written, with its kind.
#[derive(Clone, Copy)]
pub(crate) enum Word<'a> {
    Named(AtomKind, &'a [u8]),
    /// That of an attribute, and the value that is asked for, if one is.
    Asked(&'a [u8], Option<&'a [u8]>),
}

/// A part that begins.
#[derive(Clone, Copy)]
pub(crate) enum Begun<'a> {
    /// The word that it gives, if it gives one, and the text behind it.
    Whole(Option<Word<'a>>, &'a [u8]),
    /// A name of this kind is wanted from here on.
    Wanting(AtomKind, &'a [u8]),
}

fn quotable_len(quote: u8, text: &[u8]) -> usize
    ensures gives { result ≡ prefix_len (spec.in_quotes quote) text.now }
    ensures within { result ≤ length text.now }
{
    text.iter()
        .take_while(|b| !(**b == quote || **b == b'\\' || **b == b'\n'))
        .count()
}

// A string from behind its opening quote on, and the text behind it.
#[tactic(auto, unfolding(crate::specs::Grammar::quoted), using(text_bytes::proofs::Rests::of_rest, text_bytes::proofs::Rests::behind_first, text_bytes::proofs::Rests::dropped))]
fn quoted(quote: u8, text: &[u8]) -> Option<(&[u8], &[u8])>
    ensures gives { spec.quoted quote text.now ≡ option_map (λ r. (r.0.now, r.1.now)) result }
    ensures rest { IfSome result (λ r. IsRest text.now r.1.now) }
{
    let (value, rest) = text.split_at(quotable_len(quote, text));
    let (closing, behind) = rest.split_first()?;
    if *closing == quote {
        Some((value, behind))
    } else {
        None
    }
}

// The name that a text begins with, and the text behind it.
#[tactic(auto, unfolding(crate::specs::Grammar::name_front), using(text_bytes::proofs::Rests::dropped))]
fn name_front(text: &[u8]) -> Option<(&[u8], &[u8])>
    ensures gives { spec.name_front text.now ≡ option_map (λ r. (r.0.now, r.1.now)) result }
    ensures rest { IfSome result (λ r. IsRest text.now r.1.now) }
{
    let len = name_len(text);
    if len == 0 {
        return None;
    }
    Some(text.split_at(len))
}

// The value behind `=`, and the text behind it.
#[tactic(auto, unfolding(crate::specs::Grammar::value_at), using(text_bytes::proofs::Rests::of_rest, text_bytes::proofs::Rests::behind_first))]
fn value_at(text: &[u8]) -> Option<(&[u8], &[u8])>
    ensures gives { spec.value_at text.now ≡ option_map (λ r. (r.0.now, r.1.now)) result }
    ensures rest { IfSome result (λ r. IsRest text.now r.1.now) }
{
    let (first, behind) = text.split_first()?;
    if *first == b'"' || *first == b'\'' {
        return quoted(*first, behind);
    }
    name_front(text)
}

// The text behind the `]` that ends an attribute part.
#[tactic(auto, unfolding(crate::specs::Grammar::behind_bracket), using(text_bytes::proofs::Rests::of_rest, text_bytes::proofs::Rests::behind_first))]
fn behind_bracket(text: &[u8]) -> Option<&[u8]>
    ensures gives { spec.behind_bracket text.now ≡ option_map (λ r. r.now) result }
    ensures rest { IfSome result (λ r. IsRest text.now r.now) }
{
    match behind_gap(true, text).split_first() {
        Some((b']', behind)) => Some(behind),
        _ => None,
    }
}

// An attribute part from behind the attribute's name on, and the text behind it.
#[tactic(auto, unfolding(crate::specs::Grammar::behind_name), using(text_bytes::proofs::Rests::of_rest, text_bytes::proofs::Rests::behind_first))]
fn behind_name<'a>(name: &'a [u8], text: &'a [u8]) -> Option<(Word<'a>, &'a [u8])>
    ensures gives { spec.behind_name name.now text.now ≡ front_view result }
    ensures rest { IfSome result (λ r. IsRest text.now r.1.now) }
{
    let at = behind_gap(true, text);
    let (first, behind) = at.split_first()?;
    if *first == b'=' {
        let (value, rest) = value_at(behind_gap(true, behind))?;
        return Some((Word::Asked(name, Some(value)), behind_bracket(rest)?));
    }
    Some((Word::Asked(name, None), behind_bracket(at)?))
}

/// An attribute part from behind its `[` on, and the text behind it. Linear in what is read.
#[tactic(auto, unfolding(crate::specs::Grammar::attribute_part), using(text_bytes::proofs::Rests::of_rest))]
pub(crate) fn attribute_part(text: &[u8]) -> Option<(Word<'_>, &[u8])>
    ensures gives { spec.attribute_part text.now ≡ front_view result }
    ensures rest { IfSome result (λ r. IsRest text.now r.1.now) }
{
    let (name, rest) = name_front(behind_gap(true, text))?;
    if is_set_apart(name) {
        return None;
    }
    behind_name(name, rest)
}

/// A part that may stand anywhere in a compound.
#[tactic(auto, unfolding(crate::specs::Grammar::any_part), using(text_bytes::proofs::Rests::of_rest, text_bytes::proofs::Rests::behind_first))]
pub(crate) fn any_part(drops: bool, text: &[u8]) -> Option<Begun<'_>>
    ensures gives { spec.any_part drops text.now ≡ option_map begun_of result }
    ensures rest { IfSome result (λ b. IsRest text.now (left_of b)) }
    ensures shorter { IfSome result (IsShorter text.now) }
{
    let (first, behind) = text.split_first()?;
    match *first {
        b'.' => Some(Begun::Wanting(AtomKind::Class, behind)),
        b'#' => Some(Begun::Wanting(AtomKind::Ident, behind)),
        b'[' => {
            let (word, rest) = attribute_part(behind)?;
            Some(Begun::Whole(Some(word), rest))
        }
        b':' if drops => Some(Begun::Whole(None, behind_dropped(behind)?)),
        _ => None,
    }
}

/// A part at the beginning of a compound.
#[tactic(auto, unfolding(crate::specs::Grammar::first_part), using(text_bytes::proofs::Rests::behind_first, text_bytes::proofs::Rests::itself))]
pub(crate) fn first_part(drops: bool, text: &[u8]) -> Option<Begun<'_>>
    ensures gives { spec.first_part drops text.now ≡ option_map begun_of result }
    ensures rest { IfSome result (λ b. IsRest text.now (left_of b)) }
    ensures shorter { IfSome result (IsShorter text.now) }
{
    let (first, behind) = text.split_first()?;
    if *first == b'*' {
        Some(Begun::Whole(None, behind))
    } else if begins_name(text) {
        Some(Begun::Wanting(AtomKind::Element, text))
    } else {
        any_part(drops, text)
    }
}

// A name, which has to stand behind comments, and the text behind it.
#[tactic(auto, unfolding(crate::specs::Grammar::name_at), using(text_bytes::proofs::Rests::of_rest, text_bytes::proofs::Rests::dropped))]
fn name_at(to: usize, kind: AtomKind, text: &[u8]) -> Result<(Option<Word<'_>>, &[u8]), SelFault>
    requires { length text.now ≤ to }
    ensures gives { Gives part_view result (spec.name_at to kind text.now) }
    ensures rest { IfOk result (λ p. IsRest text.now p.1.now) }
    ensures shorter { IfOk result (λ p. length p.1.now < length text.now) }
{
    let at = behind_gap(false, text);
    let len = name_len(at);
    if len == 0 {
        return Err(left_at(to, text, at));
    }
    let (name, rest) = at.split_at(len);
    Ok((Some(Word::Named(kind, name)), rest))
}

/// The whole of a part that began in some text: its name, if it has one, and the text behind it.
#[tactic(auto, using(text_bytes::proofs::Rests::of_rest))]
pub(crate) fn part_of<'a>(
    to: usize,
    begun: Begun<'a>,
    text: &'a [u8],
) -> Result<(Option<Word<'a>>, &'a [u8]), SelFault>
    requires within { length text.now ≤ to }
    requires rest { IsRest text.now (left_of begun) }
    requires shorter { IsShorter text.now begun }
    ensures gives { Gives part_view result (spec.part_of to (begun_of begun.entry)) }
    ensures rest { IfOk result (λ p. IsRest text.now p.1.now) }
    ensures shorter { IfOk result (λ p. length p.1.now < length text.now) }
{
    match begun {
        Begun::Whole(word, rest) => Ok((word, rest)),
        Begun::Wanting(kind, name) => name_at(to, kind, name),
    }
}

// Behind `>`: the next compound.
#[tactic(auto, unfolding(crate::specs::Grammar::behind_child), using(crate::proofs::WordLemmas::is_empty_by))]
fn behind_child(to: usize, text: &[u8]) -> Result<(Option<Join>, &[u8]), SelFault>
    requires { length text.now ≤ to }
    ensures gives { Gives join_view result (spec.behind_child to text.now) }
    ensures rest { IfOk result (λ j. IsRest text.now j.1.now) }
{
    let at = behind_gap(true, text);
    if at.is_empty() {
        return Err(left_at(to, text, at));
    }
    Ok((Some(Join::Child), at))
}

// Behind white space that follows a compound.
#[tactic(auto, unfolding(crate::specs::Grammar::behind_space), using(text_bytes::proofs::Rests::of_rest, text_bytes::proofs::Rests::behind_first, text_bytes::proofs::Rests::itself))]
fn behind_space(to: usize, text: &[u8]) -> Result<(Option<Join>, &[u8]), SelFault>
    requires { length text.now ≤ to }
    ensures gives { Gives join_view result (spec.behind_space to text.now) }
    ensures rest { IfOk result (λ j. IsRest text.now j.1.now) }
{
    match text.split_first() {
        None => Ok((None, text)),
        Some((b'>', behind)) => behind_child(to, behind),
        Some(_) => Ok((Some(Join::Inside), text)),
    }
}

// Behind a part and the comments that follow it.
#[tactic(auto, unfolding(crate::specs::Grammar::behind_near), using(text_bytes::proofs::Rests::of_rest, text_bytes::proofs::Rests::behind_first, text_bytes::proofs::Rests::itself))]
fn behind_near(to: usize, text: &[u8]) -> Result<(Option<Join>, &[u8]), SelFault>
    requires { length text.now ≤ to }
    ensures gives { Gives join_view result (spec.behind_near to text.now) }
    ensures rest { IfOk result (λ j. IsRest text.now j.1.now) }
    ensures shorter { IfOk result (λ j. IsSome j.0 → length j.1.now < length text.now) }
{
    let Some((first, behind)) = text.split_first() else {
        return Ok((None, text));
    };
    if is_blank(*first) {
        behind_space(to, behind_gap(true, behind))
    } else if *first == b'>' {
        behind_child(to, behind)
    } else {
        Ok((None, text))
    }
}

/// Behind a part: the join that stands there, if one does, and the text behind it; without text it is the end.
#[tactic(auto, unfolding(crate::specs::Grammar::join_at), using(text_bytes::proofs::Rests::of_rest))]
pub(crate) fn join_at(to: usize, text: &[u8]) -> Result<(Option<Join>, &[u8]), SelFault>
    requires { length text.now ≤ to }
    ensures gives { Gives join_view result (spec.join_at to text.now) }
    ensures rest { IfOk result (λ j. IsRest text.now j.1.now) }
    ensures shorter { IfOk result (λ j. IsSome j.0 → length j.1.now < length text.now) }
{
    behind_near(to, behind_gap(false, text))
}
