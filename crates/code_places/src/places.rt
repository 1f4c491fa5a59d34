//! What stands at each token.
ghost use Rattle.std.specs.Prelude.{◌≡◌};
ghost use Rattle.text_bytes.specs.Attributes.{is_among as stands_among};
ghost use Rattle.code_places.specs.Places as spec;

use crate::brackets::{Brackets, number_at};
use crate::patterns::is_index;
use crate::place::Place;
use crate::script::Script;
use crate::uses::use_at;
use crate::words::{
    begins, begins_dot, begins_name, is_among, is_number, tokens_at, tokens_behind,
};
use code_scan::{Token, TokenKind, spelling};

const RESERVED: [&[u8]; 32] = [
    b"break",
    b"case",
    b"catch",
    b"class",
    b"const",
    b"continue",
    b"debugger",
    b"default",
    b"delete",
    b"do",
    b"else",
    b"export",
    b"extends",
    b"finally",
    b"for",
    b"function",
    b"if",
    b"in",
    b"instanceof",
    b"new",
    b"return",
    b"switch",
    b"throw",
    b"try",
    b"typeof",
    b"var",
    b"void",
    b"while",
    b"with",
    b"yield",
    b"await",
    b"let",
];

const DECLARING: [&[u8]; 2] = [b"function", b"class"];

const GENERATOR: [&[u8]; 1] = [b"function"];

// ---- names

#[tactic(auto, using(crate::proofs::Marks::same_reserved))]
fn is_reserved(spelling: &[u8]) -> bool
    ensures { result ≡ stands_among spec.reserved spelling.now }
{
    is_among(&RESERVED, spelling)
}

#[tactic(auto, unfolding(crate::specs::Places::is_declared), using(crate::proofs::Marks::same_declaring, crate::proofs::Marks::same_generator))]
fn is_declared(script: &Script<'_>, at: usize) -> bool
    ensures { spec.is_declared script.now.text.now script.now.code.now at ≡ result }
{
    let before = tokens_at(script.code, at.saturating_sub(1));
    let second = tokens_at(script.code, at.saturating_sub(2));
    begins_name(script.text, &DECLARING, before)
        || begins(script.text, b"*", before) && begins_name(script.text, &GENERATOR, second)
}

#[tactic(auto, unfolding(crate::specs::Places::any_name_at, crate::specs::Places::name_at))]
fn any_name_at(script: &Script<'_>, brackets: &Brackets, at: usize, spelling: &[u8]) -> Place
    ensures { spec.any_name_at script.now.text.now script.now.code.now brackets.now at spelling.now ≡ result }
{
    if begins_dot(script.text, tokens_at(script.code, at.saturating_sub(1))) {
        Place::Member(use_at(script, brackets, at, at))
    } else if begins(script.text, b":", tokens_behind(script.code, at)) {
        Place::Key
    } else if is_reserved(spelling) {
        Place::Word
    } else if is_declared(script, at) {
        Place::Declared
    } else {
        Place::Name(use_at(script, brackets, at, at))
    }
}

// ---- members that are computed

#[tactic(auto, unfolding(crate::specs::Places::begins_number))]
fn begins_number(tokens: &[Token]) -> bool
    ensures { spec.begins_number tokens.now ≡ result }
{
    match tokens.split_first() {
        None => false,
        Some((first, _)) => is_number(&first.kind),
    }
}

#[tactic(auto, unfolding(crate::specs::Places::mark_at))]
fn mark_at(script: &Script<'_>, brackets: &Brackets, at: usize) -> Place
    ensures { spec.mark_at script.now.text.now script.now.code.now brackets.now at ≡ result }
{
    if !is_index(script, at) {
        return Place::Other;
    }
    match number_at(script.code.others.items(), at) {
        None => Place::Other,
        Some(to) => {
            let counted = begins_number(tokens_behind(script.code, at));
            if counted && to >= at && to - at == 2 {
                Place::Other
            } else {
                Place::Index(use_at(script, brackets, at, to))
            }
        }
    }
}

// ---- places

#[tactic(auto, unfolding(crate::specs::Places::text_at))]
fn text_at(script: &Script<'_>, at: usize) -> Place
    ensures { spec.text_at script.now.text.now script.now.code.now at ≡ result }
{
    if begins(script.text, b":", tokens_behind(script.code, at)) {
        Place::Key
    } else {
        Place::Text
    }
}

/// What stands at the token of a number. Constant.
#[tactic(auto, unfolding(crate::specs::Places::place_in))]
pub fn place_at(script: &Script<'_>, brackets: &Brackets, at: usize) -> Place
    ensures { spec.place_at script.now.text.now script.now.code.now brackets.now at ≡ result }
{
    let Some((first, _)) = tokens_at(script.code, at).split_first() else {
        return Place::Other;
    };
    match &first.kind {
        TokenKind::Name => any_name_at(script, brackets, at, spelling(script.text, first)),
        TokenKind::Member(_) => Place::Member(use_at(script, brackets, at, at)),
        TokenKind::Text(_) => text_at(script, at),
        TokenKind::Mark => mark_at(script, brackets, at),
        _ => Place::Other,
    }
}
