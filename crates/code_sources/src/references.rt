//! Character references in a value.
ghost use Rattle.std.specs.Prelude.{◌≡◌, ◌≤◌, ◌<◌, ◌++◌, ◌&&◌, ◌-◌, zero, length, map, get_or, IfSome, IfOk, OnOk};
ghost use Rattle.std.specs.Option.{option_map};
ghost use Rattle.text_bytes.specs.Rests.{IsRest};
ghost use Rattle.code_sources.specs.References as spec;
ghost use Rattle.code_sources.specs.Views.{bytes_of, part_of, said_of};

use std::alloc::Global;
use tp_base::{Items, NoMemory};

// What the numbers from 0x80 to 0x9F mean.
const WINDOWS_1252: [char; 32] = [
    '\u{20AC}', '\u{81}', '\u{201A}', '\u{192}', '\u{201E}', '\u{2026}', '\u{2020}', '\u{2021}',
    '\u{2C6}', '\u{2030}', '\u{160}', '\u{2039}', '\u{152}', '\u{8D}', '\u{17D}', '\u{8F}',
    '\u{90}', '\u{2018}', '\u{2019}', '\u{201C}', '\u{201D}', '\u{2022}', '\u{2013}', '\u{2014}',
    '\u{2DC}', '\u{2122}', '\u{161}', '\u{203A}', '\u{153}', '\u{9D}', '\u{17E}', '\u{178}',
];

// The names that are known, with their characters.
const KNOWN_NAMES: [(&[u8], char); 8] = [
    (b"quot;", '"'),
    (b"apos;", '\''),
    (b"lt;", '<'),
    (b"gt;", '>'),
    (b"amp;", '&'),
    (b"Tab;", '\t'),
    (b"NewLine;", '\n'),
    (b"colon;", ':'),
];

/// What a front of a value stands for.
#[derive(Clone, Copy)]
pub(crate) enum Letter {
    Byte(u8),
    /// The bytes of its UTF-8.
    Char(char),
}

/// What a front of a value stands for, the bytes behind it, and whether that is sure.
#[derive(Clone, Copy)]
pub(crate) struct Part<'a> {
    pub(crate) letter: Letter,
    pub(crate) rest: &'a [u8],
    pub(crate) is_sure: bool,
}

/// What a value says, and whether that is sure.
#[derive(Drop)]
pub(crate) struct Said {
    pub(crate) text: Items<u8>,
    pub(crate) is_sure: bool,
}

fn capped(code: u32) -> u32
    ensures value { result ≡ spec.capped code }
    ensures small { result ≤ 1114112 }
{
    code.min(0x110000)
}

// The number that digits of a base write at the front, and the bytes behind them. Linear in them.
#[tactic(auto, unfolding(crate::specs::References::number), using(text_bytes::proofs::Rests::of_rest, text_bytes::proofs::Rests::behind_first))]
fn number(base: u32, text: &[u8]) -> (u32, &[u8])
    requires least { 2 ≤ base }
    requires most { base ≤ 16 }
    ensures gives { spec.number base zero text.now ≡ (result.0, result.1.now) }
    ensures rest { IsRest text.now result.1.now }
{
    let mut code: u32 = 0;
    let mut rest = text;
    'digits: while let Some((first, behind)) = rest.split_first() {
        let Some(digit) = char::from(*first).to_digit(base) else {
            return (code, rest);
        };
        code = capped(base * code + digit);
        rest = behind;
    }
    (code, rest)
}

#[tactic(auto, using(crate::proofs::ReferenceSteps::windows_at))]
fn of_windows(code: u32) -> char
    requires least { 128 ≤ code }
    requires most { code ≤ 159 }
    ensures { result ≡ get_or spec.windows_1252 (code - 128) 0 }
{
    WINDOWS_1252[(code - 0x80) as usize]
}

#[tactic(auto, unfolding(crate::specs::References::character))]
fn character(code: u32) -> char
    ensures { result ≡ spec.character code }
{
    if code == 0 {
        '\u{FFFD}'
    } else if matches!(code, 0x80..=0x9F) {
        of_windows(code)
    } else {
        char::from_u32(code).unwrap_or('\u{FFFD}')
    }
}

fn past_semicolon(text: &[u8]) -> &[u8]
    ensures gives { result.now ≡ spec.past_semicolon text.now }
    ensures rest { IsRest text.now result.now }
{
    if text.starts_with(b";") {
        text.split_at(1).1
    } else {
        text
    }
}

#[tactic(auto, unfolding(crate::specs::References::numeric), using(text_bytes::proofs::Rests::of_rest))]
fn numeric(base: u32, text: &[u8]) -> Option<(char, &[u8])>
    requires least { 2 ≤ base }
    requires most { base ≤ 16 }
    ensures gives { spec.numeric base text.now ≡ option_map (λ r. (r.0, r.1.now)) result }
    ensures rest { IfSome result (λ r. IsRest text.now r.1.now) }
{
    let (code, rest) = number(base, text);
    if rest.len() == text.len() {
        return None;
    }
    Some((character(code), past_semicolon(rest)))
}

// Behind `&#`.
#[tactic(auto, using(text_bytes::proofs::Rests::of_rest, text_bytes::proofs::Rests::dropped))]
fn of_number(text: &[u8]) -> Option<(char, &[u8])>
    ensures gives { spec.of_number text.now ≡ option_map (λ r. (r.0, r.1.now)) result }
    ensures rest { IfSome result (λ r. IsRest text.now r.1.now) }
{
    if text.starts_with(b"x") || text.starts_with(b"X") {
        numeric(16, text.split_at(1).1)
    } else {
        numeric(10, text)
    }
}

// One of these names at the front, and the bytes behind it. Linear in the names.
#[tactic(auto, using(text_bytes::proofs::Rests::dropped))]
fn of_name<'a>(names: &[(&[u8], char)], text: &'a [u8]) -> Option<(char, &'a [u8])>
    ensures gives { spec.of_name (map (λ n. (n.0.now, n.1)) names.now) text.now ≡ option_map (λ r. (r.0, r.1.now)) result }
    ensures rest { IfSome result (λ r. IsRest text.now r.1.now) }
{
    let mut left = names;
    'names: while let [first, others @ ..] = left {
        if text.starts_with(first.0) {
            return Some((first.1, text.split_at(first.0.len()).1));
        }
        left = others;
    }
    None
}

// Behind `&`.
#[tactic(auto, unfolding(crate::specs::References::reference), using(crate::proofs::ReferenceSteps::names_are, text_bytes::proofs::Rests::of_rest, text_bytes::proofs::Rests::dropped))]
fn reference(text: &[u8]) -> Option<(char, &[u8])>
    ensures gives { spec.reference text.now ≡ option_map (λ r. (r.0, r.1.now)) result }
    ensures rest { IfSome result (λ r. IsRest text.now r.1.now) }
{
    if text.starts_with(b"#") {
        of_number(text.split_at(1).1)
    } else {
        of_name(&KNOWN_NAMES, text)
    }
}

fn begins_letter(text: &[u8]) -> bool
    ensures { result ≡ spec.begins_letter text.now }
{
    match text {
        [] => false,
        [first, ..] => first.is_ascii_alphabetic(),
    }
}

// What a byte stands for that has these behind it.
#[tactic(auto, unfolding(crate::specs::References::part), using(text_bytes::proofs::Rests::itself))]
fn read_part(first: u8, behind: &[u8]) -> Part<'_>
    ensures gives { spec.part first behind.now ≡ part_of result }
    ensures rest { IsRest behind.now result.rest.now }
{
    if first != b'&' {
        return Part {
            letter: Letter::Byte(first),
            rest: behind,
            is_sure: true,
        };
    }
    match reference(behind) {
        Some((letter, rest)) => Part {
            letter: Letter::Char(letter),
            rest,
            is_sure: true,
        },
        None => Part {
            letter: Letter::Byte(first),
            rest: behind,
            is_sure: !begins_letter(behind),
        },
    }
}

fn push(letters: &mut Vec<u8>, letter: Letter) -> Result<(), NoMemory>
    ensures { OnOk result (letters.new.items ≡ letters.old.items ++ bytes_of letter) }
{
    match letter {
        Letter::Byte(b) => letters.push(b)?,
        Letter::Char(c) => {
            let mut buffer = [0; 4];
            letters.extend_from_slice(c.encode_utf8(&mut buffer).as_bytes())?;
        }
    }
    Ok(())
}

fn both(first: bool, second: bool) -> bool
    ensures { result ≡ (first && second) }
{
    first && second
}

/// What a value says. Linear in it.
#[tactic(auto, using(crate::proofs::ReferenceSteps::goes_on, crate::proofs::ReferenceSteps::ends, text_bytes::proofs::Rests::of_rest, text_bytes::proofs::Rests::behind_first))]
pub(crate) fn read_value(alloc: Global, value: &[u8]) -> Result<Said, NoMemory>
    ensures { IfOk result (λ s. said_of s ≡ spec.read_value value.now) }
{
    let mut letters = Vec::new(alloc);
    let mut is_sure = true;
    let mut rest = value;
    'parts: while let Some((first, behind)) = rest.split_first() {
        let part = read_part(*first, behind);
        push(&mut letters, part.letter)?;
        is_sure = both(is_sure, part.is_sure);
        rest = part.rest;
    }
    Ok(Said {
        text: Items::new(letters),
        is_sure,
    })
}
