//! The notation of the tables of examples. What a line of a table of worked examples stands for, so that each such table is text.
//!
//! A control byte stands as its picture (`␊` is a line feed, `␉` a tab); `⟨EF BB BF⟩` are bytes, and `⟨⟩` is nothing;
//! `⟨512×<div>⟩` is a text so many times, and a `№` in it is the number of its turn, from 1 on.
#![tactic(auto)]

mod names;

pub use names::push_names;
use std::alloc::{AllocError, Global};

/// The bytes that a line stands for, in time linear in their number.
pub fn bytes_of(alloc: Global, line: &str) -> Result<Vec<u8>, AllocError> {
    let mut bytes = Vec::new(alloc);
    for part in line.split('⟨') {
        push_part(&mut bytes, part)?;
    }
    Ok(bytes)
}

// What stands between one opening bracket and the next.
fn push_part(bytes: &mut Vec<u8>, part: &str) -> Result<(), AllocError> {
    match part.split_once('⟩') {
        Some((inside, behind)) => {
            push_bracket(bytes, inside)?;
            push_letters(bytes, behind)
        }
        None => push_letters(bytes, part),
    }
}

fn push_bracket(bytes: &mut Vec<u8>, inside: &str) -> Result<(), AllocError> {
    match inside.split_once('×') {
        Some((count, piece)) => push_repeated(bytes, count.parse().unwrap_or(0), piece),
        None => push_hexadecimal(bytes, inside),
    }
}

fn push_hexadecimal(bytes: &mut Vec<u8>, words: &str) -> Result<(), AllocError> {
    for word in words.split_whitespace() {
        bytes.push(u8::from_str_radix(word, 16).unwrap_or(0))?;
    }
    Ok(())
}

fn push_repeated(bytes: &mut Vec<u8>, count: u32, piece: &str) -> Result<(), AllocError> {
    match piece.split_once('№') {
        Some((front, end)) => push_numbered(bytes, count, front, end),
        None => push_same(bytes, count, piece),
    }
}

fn push_same(bytes: &mut Vec<u8>, count: u32, piece: &str) -> Result<(), AllocError> {
    let mut same = Vec::new(*bytes.allocator());
    push_letters(&mut same, piece)?;
    for _ in 0..count {
        bytes.extend_from_slice(&same)?;
    }
    Ok(())
}

fn push_numbered(
    bytes: &mut Vec<u8>,
    count: u32,
    front: &str,
    end: &str,
) -> Result<(), AllocError> {
    for number in 1..=count {
        push_turn(bytes, number, front, end)?;
    }
    Ok(())
}

fn push_turn(bytes: &mut Vec<u8>, number: u32, front: &str, end: &str) -> Result<(), AllocError> {
    let digits = number.to_string(*bytes.allocator())?;
    push_letters(bytes, front)?;
    bytes.extend_from_slice(digits.as_bytes())?;
    push_letters(bytes, end)
}

fn push_letters(bytes: &mut Vec<u8>, text: &str) -> Result<(), AllocError> {
    for letter in text.chars() {
        push_letter(bytes, letter)?;
    }
    Ok(())
}

// The pictures of the control bytes stand in their order.
fn push_letter(bytes: &mut Vec<u8>, letter: char) -> Result<(), AllocError> {
    match letter {
        '\u{2400}'..='\u{241f}' => {
            bytes.push((u32::from(letter) & 0x1f) as u8)?;
            Ok(())
        }
        _ => {
            let mut place = [0; 4];
            bytes.extend_from_slice(letter.encode_utf8(&mut place).as_bytes())
        }
    }
}

/// Puts a text behind a line, with pictures for its control bytes.
pub fn push_pictured(line: &mut String, text: &[u8]) -> Result<(), AllocError> {
    for letter in str::from_utf8(text).unwrap_or("not utf-8").chars() {
        line.push(picture_of(letter))?;
    }
    Ok(())
}

fn picture_of(letter: char) -> char {
    let code = u32::from(letter);
    if code < 0x20 {
        char::from_u32(0x2400 + code).unwrap_or(letter)
    } else {
        letter
    }
}
