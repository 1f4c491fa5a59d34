//! Patterns, as in `[e.className] = list`: brackets that may hand values to what stands in them.
ghost use Rattle.std.specs.Prelude.{◌≡◌, get_or, None, IfOk};
ghost use Rattle.text_bytes.specs.Attributes.{is_among as stands_among};
ghost use Rattle.code_places.specs.Enclosing.{enclosing as brackets_around};
ghost use Rattle.code_places.specs.Patterns as spec;
ghost use Rattle.code_places.specs.Words.{begins_mark as begins_one, begins_name as begins_one_name};

use crate::brackets::{Brackets, flag_at, number_at};
use crate::script::Script;
use crate::words::{
    begins, begins_dot, begins_mark, begins_name, is_among, tokens_at, tokens_behind,
};
use crate::writes::write_of;
use code_scan::{Before, Token, TokenKind, behind_word, spelling};
use std::alloc::Global;
use tp_base::NoMemory;

const VALUE_ENDS: [&[u8]; 3] = [b")", b"]", b"}"];

const STATEMENT_ENDS: [&[u8]; 2] = [b")", b"}"];

const LOOP_NAMES: [&[u8]; 2] = [b"of", b"in"];

const PART_ENDS: [&[u8]; 4] = [b",", b"]", b"}", b")"];

// ---- what a bracket is behind

fn is_value(before: Before) -> bool
    ensures { result ≡ spec.is_value before }
{
    matches!(before, Before::Value)
}

#[tactic(auto, using(crate::proofs::Marks::same_value_ends))]
fn is_value_end(spelling: &[u8]) -> bool
    ensures { result ≡ stands_among spec.value_ends spelling.now }
{
    is_among(&VALUE_ENDS, spelling)
}

fn ends_value(dotted: bool, kind: &TokenKind, spelling: &[u8]) -> bool
    ensures { result ≡ spec.ends_value dotted kind.now spelling.now }
{
    match kind {
        TokenKind::Name => dotted || is_value(behind_word(spelling)),
        TokenKind::Text(_) | TokenKind::Member(_) => true,
        TokenKind::Mark => is_value_end(spelling),
        _ => false,
    }
}

#[tactic(auto, unfolding(crate::specs::Patterns::begins_value_end))]
fn begins_value_end(text: &[u8], dotted: bool, tokens: &[Token]) -> bool
    ensures { spec.begins_value_end text.now dotted tokens.now ≡ result }
{
    match tokens.split_first() {
        None => false,
        Some((first, _)) => ends_value(dotted, &first.kind, spelling(text, first)),
    }
}

fn is_behind_value(script: &Script<'_>, at: usize) -> bool
    ensures { result ≡ spec.is_behind_value script.now.text.now script.now.code.now at }
{
    let dotted = begins_dot(script.text, tokens_at(script.code, at.saturating_sub(2)));
    at != 0
        && begins_value_end(
            script.text,
            dotted,
            tokens_at(script.code, at.saturating_sub(1)),
        )
}

/// Whether the token of a number is a `[` that may ask for a member. Constant.
#[tactic(auto, unfolding(crate::specs::Patterns::is_index))]
pub(crate) fn is_index(script: &Script<'_>, at: usize) -> bool
    ensures { spec.is_index script.now.text.now script.now.code.now at ≡ result }
{
    begins(script.text, b"[", tokens_at(script.code, at)) && is_behind_value(script, at)
}

// ---- lists

#[tactic(auto, unfolding(crate::specs::Patterns::is_list), using(crate::proofs::Marks::same_statement_ends))]
fn is_list(script: &Script<'_>, at: usize) -> bool
    ensures { spec.is_list script.now.text.now script.now.code.now at ≡ result }
{
    begins(script.text, b"[", tokens_at(script.code, at))
        && (!is_behind_value(script, at)
            || begins_mark(
                script.text,
                &STATEMENT_ENDS,
                tokens_at(script.code, at.saturating_sub(1)),
            ))
}

// ---- patterns

/// Whether tokens begin with a word of a loop. Constant.
#[tactic(auto, using(crate::proofs::Marks::same_loop_names))]
pub(crate) fn begins_loop(text: &[u8], tokens: &[Token]) -> bool
    ensures { result ≡ begins_one_name text.now spec.loop_names tokens.now }
{
    begins_name(text, &LOOP_NAMES, tokens)
}

/// Whether tokens are behind a part of a pattern, if there is one. Constant.
#[tactic(auto, using(crate::proofs::Marks::same_part_ends))]
pub(crate) fn begins_part_end(text: &[u8], tokens: &[Token]) -> bool
    ensures { result ≡ begins_one text.now spec.part_ends tokens.now }
{
    begins_mark(text, &PART_ENDS, tokens)
}

fn may_hand(script: &Script<'_>, at: usize) -> bool
    ensures { result ≡ spec.may_hand script.now.text.now script.now.code.now at }
{
    let tokens = tokens_at(script.code, at);
    begins(script.text, b"{", tokens) || begins(script.text, b"(", tokens) || is_list(script, at)
}

#[tactic(auto, unfolding(crate::specs::Patterns::hands))]
fn hands(script: &Script<'_>, at: usize, behind: &[Token]) -> bool
    ensures { spec.hands script.now.text.now script.now.code.now at behind.now ≡ result }
{
    begins(script.text, b"=", behind)
        || begins_loop(script.text, behind)
        || begins(script.text, b"(", tokens_at(script.code, at))
            && write_of(script.text, behind).is_some()
}

fn is_handed(script: &Script<'_>, at: usize, inner: bool) -> bool
    ensures { result ≡ spec.is_handed script.now.text.now script.now.code.now at inner (get_or script.now.code.now.others at None) }
{
    match number_at(script.code.others.items(), at) {
        None => false,
        Some(other) => {
            let behind = tokens_behind(script.code, other);
            hands(script, at, behind) || inner && begins_part_end(script.text, behind)
        }
    }
}

fn known_pattern(known: &[bool], bracket: Option<usize>) -> bool
    ensures { result ≡ spec.known_pattern known.now bracket }
{
    match bracket {
        None => false,
        Some(bracket) => flag_at(known, bracket),
    }
}

#[tactic(auto, unfolding(crate::specs::Patterns::begins_pattern))]
fn begins_pattern(
    script: &Script<'_>,
    enclosing: &[Option<usize>],
    known: &[bool],
    at: usize,
) -> bool
    ensures { spec.begins_pattern script.now.text.now script.now.code.now enclosing.now known.now at ≡ result }
{
    may_hand(script, at) && is_handed(script, at, known_pattern(known, number_at(enclosing, at)))
}

/// For each token whether it begins a pattern. Linear in the code.
#[tactic(auto, unfolding(crate::specs::Patterns::patterns_from))]
pub(crate) fn patterns(
    alloc: Global,
    script: &Script<'_>,
    enclosing: &[Option<usize>],
) -> Result<Vec<bool>, NoMemory>
    requires around { enclosing.now ≡ brackets_around script.now.code.now }
    ensures { IfOk result (λ v. v.items ≡ spec.patterns script.now.text.now script.now.code.now) }
{
    let mut known = Vec::new(alloc);
    let mut rest = script.code.tokens.items();
    'tokens: while let Some((_, behind)) = rest.split_first() {
        let begins = begins_pattern(script, enclosing, &known, known.len());
        known.push(begins)?;
        rest = behind;
    }
    Ok(known)
}

/// Whether the token of a number stands in a pattern. Constant.
pub(crate) fn in_pattern(brackets: &Brackets, at: usize) -> bool
    ensures { result ≡ spec.in_pattern brackets.now at }
{
    known_pattern(
        brackets.patterns.items(),
        number_at(brackets.enclosing.items(), at),
    )
}
