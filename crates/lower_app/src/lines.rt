//! The output, line by line.
ghost use Rattle.std.specs.Prelude.{◌≡◌, ◌≤◌, ◌++◌, length, map, IfOk, OnOk};
ghost use Rattle.std.specs.Fmt.{decimal};
ghost use Rattle.std.specs.List.{prefix_len};
ghost use Rattle.premise_finds.specs.Details.{in_line};
ghost use Rattle.lower_app.specs.Lines as spec;

use crate::given::Kind;
use itoa::Buffer;
use premise_finds::shown_of;
use std::alloc::Global;
use tp_base::{NoMemory, Place};

/// The first line.
pub const HEADER: &[u8] = b"// lowered 1\n";

fn shown_byte(byte: u8) -> u8
    ensures { result ≡ spec.shown_byte byte }
{
    if byte < 32 || byte == 127 { b'?' } else { byte }
}

fn push_word(line: &mut Vec<u8>, word: &[u8]) -> Result<(), NoMemory>
    ensures { OnOk result (line.new.items ≡ line.old.items ++ map spec.shown_byte word.now) }
{
    'bytes: for byte in word {
        line.push(shown_byte(*byte))?;
    }
    Ok(())
}

/// Puts a number behind a line.
pub(crate) fn push_count(line: &mut Vec<u8>, number: usize) -> Result<(), NoMemory>
    ensures { OnOk result (line.new.items ≡ line.old.items ++ decimal number) }
{
    let mut digits = Buffer::new();
    line.extend_from_slice(digits.format(number).as_bytes())?;
    Ok(())
}

fn push_number(line: &mut Vec<u8>, number: u32) -> Result<(), NoMemory>
    ensures { OnOk result (line.new.items ≡ line.old.items ++ decimal number) }
{
    let mut digits = Buffer::new();
    line.extend_from_slice(digits.format(number).as_bytes())?;
    Ok(())
}

#[tactic(auto, unfolding(crate::specs::Lines::origin_text), using(crate::proofs::LineSteps::five))]
fn push_origin(line: &mut Vec<u8>, word: &[u8], place: Place) -> Result<(), NoMemory>
    ensures { OnOk result (line.new.items ≡ line.old.items ++ spec.origin_text word.now place) }
{
    push_word(line, word)?;
    line.extend_from_slice(b" ")?;
    push_number(line, place.line)?;
    line.extend_from_slice(b":")?;
    push_number(line, place.column)?;
    Ok(())
}

/// The word of an assumption.
pub(crate) fn kind_word(kind: Kind) -> &'static [u8]
    ensures { result.now ≡ spec.kind_word kind }
{
    match kind {
        Kind::Source => b"source",
        Kind::Call => b"call",
        Kind::Computed => b"computed",
        Kind::Code => b"code",
        Kind::Markup => b"markup",
        Kind::Moved => b"moved",
        Kind::Hole => b"hole",
        Kind::Id => b"id",
        Kind::Unread => b"unread",
    }
}

fn line_len(text: &[u8]) -> usize
    ensures gives { result ≡ prefix_len in_line text.now }
    ensures within { result ≤ length text.now }
{
    text.iter()
        .take_while(|b| !(**b == b'\n' || **b == b'\r'))
        .count()
}

#[tactic(auto, unfolding(crate::specs::Lines::detail), using(crate::proofs::LineSteps::two, crate::proofs::LineSteps::one))]
fn push_detail(line: &mut Vec<u8>, rest: &[u8]) -> Result<(), NoMemory>
    ensures { OnOk result (line.new.items ≡ line.old.items ++ spec.detail rest.now) }
{
    let shown = shown_of(rest);
    line.extend_from_slice(shown)?;
    if shown.len() != line_len(rest) {
        line.extend_from_slice(b"..")?;
    }
    Ok(())
}

/// The line of an assumption, in a file with this word, at a place where these bytes begin. Linear in them up to the end of their line.
#[tactic(auto, unfolding(crate::specs::Lines::assumption_line))]
pub fn assumption_line(
    alloc: Global,
    word: &[u8],
    place: Place,
    rest: &[u8],
    kind: Kind,
) -> Result<Vec<u8>, NoMemory>
    ensures { IfOk result (λ line. line.items ≡ spec.assumption_line word.now place rest.now kind) }
{
    let mut line = Vec::from_slice(alloc, b"// ")?;
    push_origin(&mut line, word, place)?;
    line.extend_from_slice(b" ")?;
    line.extend_from_slice(kind_word(kind))?;
    line.extend_from_slice(b": ")?;
    push_detail(&mut line, rest)?;
    line.extend_from_slice(b"\n")?;
    Ok(line)
}

#[tactic(auto, using(crate::proofs::LineSteps::one))]
fn push_name_note(line: &mut Vec<u8>, is_any_name: bool) -> Result<(), NoMemory>
    ensures { OnOk result (line.new.items ≡ line.old.items ++ spec.name_note is_any_name) }
{
    if is_any_name {
        line.extend_from_slice(b" any name")?;
    }
    Ok(())
}

/// The line of a statement with this call, from a place in a file with this word. Linear in it.
#[tactic(auto, unfolding(crate::specs::Lines::statement_line))]
pub fn statement_line(
    alloc: Global,
    word: &[u8],
    place: Place,
    call: &[u8],
    is_any_name: bool,
) -> Result<Vec<u8>, NoMemory>
    ensures { IfOk result (λ line. line.items ≡ spec.statement_line word.now place call.now is_any_name) }
{
    let mut line = Vec::from_slice(alloc, b"$('*').")?;
    line.extend_from_slice(call)?;
    line.extend_from_slice(b"; // ")?;
    push_origin(&mut line, word, place)?;
    push_name_note(&mut line, is_any_name)?;
    line.extend_from_slice(b"\n")?;
    Ok(line)
}
