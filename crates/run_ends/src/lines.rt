//! The line of a run that ends without its report.
ghost use Rattle.std.specs.Prelude.{◌≡◌, ◌++◌, codes, IfOk, OnOk};
ghost use Rattle.run_ends.specs.Stops as spec;

use crate::refusals::{Fault, JudgeRefusal, Part, Refusal};
use crate::stops::Stop;
use std::alloc::Global;
use tp_base::NoMemory;
use usage_report::Piece;

impl Stop {
    /// What is said on standard error.
    pub(crate) fn line(&self, alloc: Global) -> Result<Vec<u8>, NoMemory>
        ensures { IfOk result (λ line. line.items ≡ spec.line_of self.now) }
    {
        match self {
            Stop::Unread(refusal) => refusal_line(alloc, refusal),
            Stop::TooLarge(part) => part_line(alloc, *part, b": too large\n"),
            Stop::ReadFault(part) => part_line(alloc, *part, b": read fault\n"),
            _ => Ok(Vec::from_slice(alloc, self.fixed_line())?),
        }
    }

    /// The line of a stop that has neither a place nor a number.
    pub(crate) fn fixed_line(&self) -> &'static [u8]
        ensures { spec.IsFixed self.now → result.now ≡ spec.line_of self.now }
    {
        match self {
            Stop::Words => {
                b"usage: treeped [--plain] [--pairs N] [--nodes N] [--entries N] [--list N] PAGE SHEET SCRIPT | --gen N\n"
            }
            Stop::TooLarge(_) | Stop::ReadFault(_) | Stop::Unread(_) => b"",
            Stop::Judging(JudgeRefusal::TooManyAtoms) => b"treeped: judge: too many atoms\n",
            Stop::Judging(JudgeRefusal::TooManyVisible) => {
                b"treeped: judge: too many visible atoms\n"
            }
            Stop::WriteFault => b"treeped: write fault\n",
            Stop::NoMemory => b"treeped: no memory\n",
        }
    }
}

// `treeped: page: too deep at 1:2556`, say.
#[tactic(auto, unfolding(usage_report::specs::Lines::place_text), using(std::proofs::Common::append_assoc))]
fn refusal_line(alloc: Global, refusal: &Refusal) -> Result<Vec<u8>, NoMemory>
    ensures { IfOk result (λ line. line.items ≡ spec.refusal_line refusal.now) }
{
    let mut piece = Piece::new(alloc);
    piece.put(b"treeped: ")?;
    put_part(&mut piece, refusal.part)?;
    piece.put(b": ")?;
    piece.put(fault_text(&refusal.fault))?;
    piece.put(name_in(&refusal.fault))?;
    piece.put(b" at ")?;
    piece.place(refusal.place)?;
    piece.put(b"\n")?;
    Ok(piece.bytes)
}

// `treeped: page 2: too large`, say.
#[tactic(auto, using(std::proofs::Common::append_assoc))]
fn part_line(alloc: Global, part: Part, what: &[u8]) -> Result<Vec<u8>, NoMemory>
    ensures { IfOk result (λ line. line.items ≡ codes "treeped: " ++ spec.part_text part ++ what.now) }
{
    let mut piece = Piece::new(alloc);
    piece.put(b"treeped: ")?;
    put_part(&mut piece, part)?;
    piece.put(what)?;
    Ok(piece.bytes)
}

#[tactic(auto, using(std::proofs::Common::append_assoc))]
fn put_part(piece: &mut Piece, part: Part) -> Result<(), NoMemory>
    ensures { OnOk result (piece.new.bytes.items ≡ piece.old.bytes.items ++ spec.part_text part) }
{
    piece.put(part_name(part))?;
    match number_in(part) {
        None => Ok(()),
        Some(number) => {
            piece.put(b" ")?;
            piece.number(u64::from(number))
        }
    }
}

fn part_name(part: Part) -> &'static [u8]
    ensures { result.now ≡ spec.part_name part }
{
    match part {
        Part::Page(_) => b"page",
        Part::Sheet => b"sheet",
        Part::Script(_) => b"script",
    }
}

fn number_in(part: Part) -> Option<u32>
    ensures { result ≡ spec.number_in part }
{
    match part {
        Part::Page(number) | Part::Script(number) => number,
        Part::Sheet => None,
    }
}

// What is wrong, up to a name.
fn fault_text(fault: &Fault) -> &'static [u8]
    ensures { result.now ≡ spec.fault_text fault.now }
{
    match fault {
        Fault::NotUtf8 => b"not utf-8",
        Fault::TooDeep => b"too deep",
        Fault::TooManyNodes => b"too many nodes",
        Fault::TooManyAtoms => b"too many atoms",
        Fault::TooManySelectors => b"too many selectors",
        Fault::BadString => b"bad string",
        Fault::Regexp => b"regular expression",
        Fault::Template => b"template",
        Fault::BadByte => b"bad byte",
        Fault::UnknownForm => b"unknown form",
        Fault::ComplexArgument => b"complex argument",
        Fault::DynamicMarkup => b"dynamic markup",
        Fault::ThisOutside => b"this outside a handler",
        Fault::UnboundName(_) => b"unbound name ",
        Fault::UnknownCall(_) => b"unknown call ",
        Fault::TooLong => b"too long",
        Fault::TooManyStatements => b"too many statements",
        Fault::TooManyForestNodes => b"too many forest nodes",
    }
}

// The name that it has.
fn name_in(fault: &Fault) -> &[u8]
    ensures { result.now ≡ spec.name_in fault.now }
{
    match fault {
        Fault::UnboundName(name) => name.items(),
        Fault::UnknownCall(name) => name.items(),
        _ => b"",
    }
}
