//! What is read of words without their names.
ghost use Rattle.std.specs.Prelude.{length, IfOk};
ghost use Rattle.js_scan.specs.Tokens.{InOrder};
ghost use Rattle.js_scan.specs.Utf8.{AreTexts};

use jq_words::{
    Rules, ScriptFault, Words, argument_len, closed_texts, declared_in, free, joined_texts, place,
};
use js_scan::{Token, scan};
use std::alloc::{AllocError, Global};

#[derive(Clone, Copy)]
pub(crate) enum OfWords {
    BehindList,
    Joined,
    Closed,
    Declared,
    Lengths,
}

pub(crate) fn tokens_of(alloc: Global, text: &[u8]) -> Result<Vec<Token>, ScriptFault>
    ensures in_order { IfOk result (λ v. InOrder 0 (length text.now) v.items) }
    ensures text { IfOk result (λ v. AreTexts text.now v.items) }
{
    match scan(alloc, text) {
        Ok(tokens) => Ok(tokens),
        Err(fault) => Err(ScriptFault::Scan(fault)),
    }
}

/// What is read of a text.
pub(crate) fn of_words(alloc: Global, case: OfWords, text: &[u8]) -> Result<String, ScriptFault> {
    let tokens = tokens_of(alloc, text)?;
    let words = Words::new(text, &tokens);
    answer(alloc, case, words)
}

fn answer(alloc: Global, case: OfWords, words: Words<'_>) -> Result<String, ScriptFault> {
    match case {
        OfWords::BehindList => behind_list(alloc, words),
        OfWords::Joined => joined(alloc, &words),
        OfWords::Closed => closed(alloc, &words),
        OfWords::Declared => declared(alloc, &words),
        OfWords::Lengths => lengths(alloc, &words),
    }
}

fn letters_or_none(letters: &Option<Vec<u8>>) -> &str {
    match letters {
        None => "none",
        Some(letters) => str::from_utf8(letters).unwrap_or("not utf-8"),
    }
}

pub(crate) fn lettered(alloc: Global, letters: Option<Vec<u8>>) -> Result<String, ScriptFault> {
    Ok(String::from_str(alloc, letters_or_none(&letters))?)
}

// Where the words behind a list of expressions stand.
fn behind_list(alloc: Global, mut words: Words<'_>) -> Result<String, ScriptFault> {
    let rules = Rules {
        exact: false,
        declared: &[],
        has_this: false,
        braces: false,
        room: 2,
    };
    free(alloc, rules, &mut words)?;
    Ok(format!(in alloc; "{}", place(&words))?)
}

// The letters of strings joined.
fn joined(alloc: Global, words: &Words<'_>) -> Result<String, ScriptFault> {
    lettered(alloc, joined_texts(alloc, words)?)
}

// The letters of strings joined before a closing bracket.
fn closed(alloc: Global, words: &Words<'_>) -> Result<String, ScriptFault> {
    lettered(alloc, closed_texts(alloc, words)?)
}

fn push_name(out: &mut String, name: &[u8]) -> Result<(), AllocError> {
    out.push_str(str::from_utf8(name).unwrap_or("not utf-8"))?;
    out.push_str(" ")
}

fn spaced(alloc: Global, names: &[&[u8]]) -> Result<String, AllocError> {
    let mut out = String::new(alloc);
    for name in names {
        push_name(&mut out, name)?;
    }
    Ok(out)
}

// The functions that a text declares.
fn declared(alloc: Global, words: &Words<'_>) -> Result<String, ScriptFault> {
    let names = declared_in(alloc, words)?;
    Ok(spaced(alloc, &names)?)
}

// How many words the first argument has, and all of them.
fn lengths(alloc: Global, words: &Words<'_>) -> Result<String, ScriptFault> {
    let first = argument_len(alloc, true, words)?;
    let all = argument_len(alloc, false, words)?;
    Ok(format!(in alloc; "{first} {all}")?)
}
