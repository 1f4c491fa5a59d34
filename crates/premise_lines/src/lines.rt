//! The lines of findings.
ghost use Rattle.std.specs.Prelude.{◌≡◌, ◌++◌, ◌-◌, ◌≤◌, length, take, drop, slice_range, IfOk, OnOk};
ghost use Rattle.std.specs.Fmt.{decimal};
ghost use Rattle.premise_finds.specs.Details.{found_text, shown_of};
ghost use Rattle.tp_base.specs.Cursor.{IsAt};
ghost use Rattle.tp_base.specs.declared.places.TheConstants.{MOST_BYTES};
ghost use Rattle.premise_lines.specs.Lines as spec;

use crate::stops::Part;
use itoa::Buffer;
use premise_finds::{Finding, MOST_SHOWN, shown_of};
use std::alloc::Global;
use tp_base::{Cursor, NoMemory, Place};

/// The first line.
pub(crate) const HEADER: &[u8] = b"premises 1\n";

fn put_number(line: &mut Vec<u8>, number: u32) -> Result<(), NoMemory>
    ensures { OnOk result (line.new.items ≡ line.old.items ++ decimal number) }
{
    let mut digits = Buffer::new();
    line.extend_from_slice(digits.format(number).as_bytes())?;
    Ok(())
}

/// Puts a place behind a line.
#[tactic(auto, using(std::proofs::Common::append_assoc))]
pub(crate) fn put_place(line: &mut Vec<u8>, place: Place) -> Result<(), NoMemory>
    ensures { OnOk result (line.new.items ≡ line.old.items ++ spec.place_text place) }
{
    put_number(line, place.line)?;
    line.extend_from_slice(b":")?;
    put_number(line, place.column)
}

// The bytes of a text that a finding has. Constant.
#[tactic(auto, using(crate::proofs::TextLemmas::range_within))]
fn text_of<'a>(text: &'a [u8], finding: &Finding) -> &'a [u8]
    ensures { result.now ≡ found_text text.now finding.now }
{
    let behind = text.split_at(finding.from.min(text.len())).1;
    let len = finding.to.saturating_sub(finding.from);
    behind.split_at(len.min(behind.len())).0
}

// What is shown of a finding with this text. Constant: no more is looked at than may be shown, and the byte behind it.
#[tactic(auto, using(crate::proofs::TextLemmas::shown_of_front))]
fn shown(found: &[u8]) -> &[u8]
    ensures { result.now ≡ shown_of found.now }
{
    shown_of(found.split_at((MOST_SHOWN + 1).min(found.len())).0)
}

#[tactic(auto, unfolding(crate::specs::Lines::detail), using(std::proofs::Common::append_assoc))]
fn put_detail(line: &mut Vec<u8>, found: &[u8]) -> Result<(), NoMemory>
    ensures { OnOk result (line.new.items ≡ line.old.items ++ spec.detail found.now) }
{
    let shown = shown(found);
    line.extend_from_slice(shown)?;
    if shown.len() != found.len() {
        line.extend_from_slice(b"..")?;
    }
    Ok(())
}

/// The line of a finding in a file with this text. The cursor goes on in it. Linear in what the cursor passes.
#[tactic(auto, unfolding(crate::specs::Lines::line_of), using(std::proofs::Common::append_assoc))]
pub(crate) fn line_of(
    alloc: Global,
    part: Part,
    text: &[u8],
    finding: &Finding,
    cursor: &mut Cursor,
) -> Result<Vec<u8>, NoMemory>
    requires here { IsAt text.now cursor.old }
    requires in_limit { length text.now ≤ MOST_BYTES }
    ensures line { IfOk result (λ line. line.items ≡ spec.line_of part text.now finding.now) }
    ensures here { IsAt text.now cursor.new }
{
    let place = cursor.place_at(text, finding.from);
    let mut line = Vec::from_slice(alloc, part.text())?;
    line.extend_from_slice(b" ")?;
    put_place(&mut line, place)?;
    line.extend_from_slice(b" ")?;
    line.extend_from_slice(finding.name.text())?;
    line.extend_from_slice(b": ")?;
    put_detail(&mut line, text_of(text, finding))?;
    line.extend_from_slice(b"\n")?;
    Ok(line)
}
