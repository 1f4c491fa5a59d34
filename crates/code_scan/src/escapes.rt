//! Escapes in a text, all that JavaScript has.
ghost use Rattle.std.specs.Prelude.{◌≡◌, ◌+◌, ◌≤◌, ◌<◌, zero, length, IfSome};
ghost use Rattle.std.specs.Option.{option_map};
ghost use Rattle.text_bytes.specs.Rests.{IsRest};
ghost use Rattle.code_scan.specs.Escapes as spec;
ghost use Rattle.js_scan.specs.Escapes.{escape as js_escape};
ghost use Rattle.js_scan.specs.Views.{bytes_of};
ghost use Rattle.code_scan.specs.Views.{part_of_escape};

use js_scan::{Meaning, escape, hex_value};

/// What an escape stands for, its length with the backslash, and whether it is surely meant so.
#[derive(Clone, Copy)]
pub(crate) struct Escape {
    pub meaning: Meaning,
    pub len: usize,
    pub sure: bool,
}

fn unsure(len: usize) -> Escape
    ensures value { part_of_escape result ≡ spec.unsure len }
    ensures long { result.len ≡ len }
{
    Escape {
        meaning: Meaning::Nothing,
        len,
        sure: false,
    }
}

fn sure(meaning: Meaning, len: usize) -> Escape
    ensures value { part_of_escape result ≡ spec.sure_part (bytes_of meaning) len }
    ensures long { result.len ≡ len }
{
    Escape {
        meaning,
        len,
        sure: true,
    }
}

// The digit at the front, below 8.
#[tactic(auto, unfolding(crate::specs::Escapes::octal_digit))]
fn octal_digit(text: &[u8]) -> Option<u8>
    ensures gives { spec.octal_digit text.now ≡ result }
    ensures small { IfSome result (λ digit. digit < 8) }
    ensures within { IfSome result (λ _. 1 ≤ length text.now) }
{
    match text {
        [digit @ b'0'..=b'7', ..] => Some(*digit - b'0'),
        _ => None,
    }
}

fn third_digit(value: u8, text: &[u8]) -> (u8, usize)
    requires { value < 64 }
    ensures gives { spec.third_digit value (spec.octal_digit text.now) ≡ result }
    ensures within { (3 ≤ result.1) × (result.1 ≤ length text.now + 3) }
{
    match octal_digit(text) {
        Some(digit) if value < 32 => (value * 8 + digit, 4),
        _ => (value, 3),
    }
}

// The number that digits below 8 write behind the first one, and their length with a backslash.
#[tactic(auto, unfolding(crate::specs::Escapes::octal))]
fn octal(first: u8, text: &[u8]) -> (u8, usize)
    requires { first < 8 }
    ensures gives { spec.octal first text.now ≡ result }
    ensures within { (2 ≤ result.1) × (result.1 ≤ length text.now + 2) }
{
    match octal_digit(text) {
        Some(digit) => third_digit(first * 8 + digit, text.split_at(1).1),
        None => (first, 2),
    }
}

fn octal_escape(first: u8, text: &[u8]) -> Escape
    requires { first < 8 }
    ensures gives { spec.octal_part (spec.octal first text.now) ≡ part_of_escape result }
    ensures within { (1 ≤ result.len) × (result.len ≤ length text.now + 2) }
{
    let (code, len) = octal(first, text);
    sure(Meaning::Char(char::from(code)), len)
}

fn capped(code: u32) -> u32
    ensures value { result ≡ spec.capped code }
    ensures small { result ≤ 1114112 }
{
    code.min(0x110000)
}

// The number that hex digits write up to a `}`, and the bytes behind that.
#[tactic(auto, unfolding(crate::specs::Escapes::braced), using(text_bytes::proofs::Rests::of_rest, text_bytes::proofs::Rests::behind_first))]
fn braced(text: &[u8]) -> Option<(u32, &[u8])>
    ensures gives { spec.braced zero text.now ≡ option_map (λ b. (b.0, b.1.now)) result }
    ensures rest { IfSome result (λ b. IsRest text.now b.1.now) }
{
    let mut code: u32 = 0;
    let mut rest = text;
    'digits: while let Some((first, behind)) = rest.split_first() {
        if *first == b'}' {
            return Some((code, behind));
        }
        if !first.is_ascii_hexdigit() {
            return None;
        }
        code = capped(code * 16 + hex_value(*first) as u32);
        rest = behind;
    }
    None
}

// `\u{`, whose bytes behind the brace are given.
fn braced_escape(text: &[u8]) -> Escape
    ensures gives { spec.braced_part text.now (spec.braced zero text.now) ≡ part_of_escape result }
    ensures within { (1 ≤ result.len) × (result.len ≤ length text.now + 3) }
{
    match braced(text) {
        None => unsure(2),
        Some((code, rest)) => match char::from_u32(code) {
            Some(c) => sure(Meaning::Char(c), 3 + text.len() - rest.len()),
            None => unsure(2),
        },
    }
}

fn other_escape(text: &[u8]) -> Escape
    ensures gives { spec.other_part (js_escape text.now) ≡ part_of_escape result }
    ensures within { (1 ≤ result.len) × (result.len ≤ length text.now + 1) }
{
    match escape(text) {
        Some((meaning, len)) => sure(meaning, len),
        None => unsure(1),
    }
}

fn line_escape(text: &[u8]) -> Escape
    ensures gives { spec.line_part text.now ≡ part_of_escape result }
    ensures within { (1 ≤ result.len) × (result.len ≤ length text.now + 2) }
{
    let len = if text.starts_with(b"\n") { 3 } else { 2 };
    sure(Meaning::Nothing, len)
}

/// What a backslash and the bytes behind it stand for. Linear in the escape.
#[tactic(auto, unfolding(crate::specs::Escapes::wide_escape))]
pub(crate) fn wide_escape(text: &[u8]) -> Escape
    ensures gives { spec.wide_escape text.now ≡ part_of_escape result }
    ensures within { (1 ≤ result.len) × (result.len ≤ length text.now + 1) }
{
    let Some((first, behind)) = text.split_first() else {
        return unsure(1);
    };
    if *first == b'\r' {
        line_escape(behind)
    } else if *first == b'u' && behind.starts_with(b"{") {
        braced_escape(behind.split_at(1).1)
    } else if matches!(*first, b'0'..=b'7') {
        octal_escape(*first - b'0', behind)
    } else if *first == b'8' || *first == b'9' {
        sure(Meaning::Byte(*first), 2)
    } else {
        other_escape(text)
    }
}
