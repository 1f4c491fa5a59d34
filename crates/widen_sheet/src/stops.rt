//! How a run of the command ends.
ghost use Rattle.std.specs.Prelude.{◌≡◌, ◌≤◌, ◌++◌, codes, length, IfOk, OnOk};
ghost use Rattle.std.specs.Fmt.{decimal};
ghost use Rattle.tp_base.specs.declared.places.TheConstants.{MOST_BYTES};
ghost use Rattle.widen_sheet.specs.Command as spec;

use crate::faults::{BackFault, WidenFault};
use crate::widening::put;
use crate::words::WordsFault;
use css_read::SheetFault;
use itoa::Buffer;
use std::alloc::Global;
use tp_base::{Cursor, NoMemory, Place};

/// How a run ended.
#[derive(Clone, Copy, Debug, PartialEq, Eq)]
pub enum Status {
    /// The text is written, and nothing is widened or put back.
    Same,
    /// The text is written, and something is.
    Changed,
    /// The words aren't of the command's form.
    Words,
    /// The file is refused.
    Refused,
    /// The file couldn't be loaded.
    ReadFault,
    /// Standard output or standard error took no more.
    WriteFault,
    /// No memory was to be had.
    NoMemory,
}

impl Status {
    /// The number that the process ends with.
    pub fn code(self) -> u8
        ensures { result ≡ spec.code_of self }
    {
        match self {
            Status::Same => 0,
            Status::Changed => 1,
            Status::Words => 2,
            Status::Refused => 3,
            Status::ReadFault => 4,
            Status::WriteFault => 5,
            Status::NoMemory => 6,
        }
    }
}

/// What is wrong with a sheet at a place.
#[derive(Clone, Copy, Debug, PartialEq, Eq)]
pub enum Wrong {
    NotUtf8,
    TooManySelectors,
    TooManyAtoms,
    /// A `/*~` that is there already, or that is in no mark.
    Mark,
}

/// Why a run ends without its whole text.
#[derive(Clone, Copy, Debug, PartialEq, Eq)]
pub enum Stop {
    Words,
    TooLarge,
    ReadFault,
    Unread(Wrong, Place),
    WriteFault,
    NoMemory,
}

impl From<NoMemory> for Stop {
    ghost use Rattle.std.specs.Prelude.{◌≡◌};
    ghost use Rattle.widen_sheet.specs.declared.stops.Stop.TheVariants as stop;

    ghost from_gives = { λ _ e. e ≡ stop.NoMemory };

    fn from(_error: NoMemory) -> Stop {
        Stop::NoMemory
    }
}

impl From<WordsFault> for Stop {
    ghost use Rattle.std.specs.Prelude.{◌≡◌};
    ghost use Rattle.widen_sheet.specs.Command.{words_stop};

    ghost from_gives = { λ e f. f ≡ words_stop e };

    fn from(error: WordsFault) -> Stop {
        match error {
            WordsFault::Words => Stop::Words,
            WordsFault::Memory => Stop::NoMemory,
        }
    }
}

fn stop_at(wrong: Wrong, text: &[u8], at: usize) -> Stop
    requires { length text.now ≤ MOST_BYTES }
    ensures { result ≡ spec.stop_at wrong text.now at }
{
    Stop::Unread(wrong, Cursor::new().place_at(text, at))
}

fn sheet_stop(text: &[u8], fault: SheetFault) -> Stop
    requires { length text.now ≤ MOST_BYTES }
    ensures { result ≡ spec.sheet_stop text.now fault }
{
    match fault {
        SheetFault::NotUtf8(at) => stop_at(Wrong::NotUtf8, text, at),
        SheetFault::TooManySelectors(at) => stop_at(Wrong::TooManySelectors, text, at),
        SheetFault::TooManyAtoms(at) => stop_at(Wrong::TooManyAtoms, text, at),
        SheetFault::Memory => Stop::NoMemory,
    }
}

/// Why a run stops at a sheet of this text that isn't widened. Linear in the text.
pub(crate) fn widen_stop(text: &[u8], fault: WidenFault) -> Stop
    requires { length text.now ≤ MOST_BYTES }
    ensures { result ≡ spec.widen_stop text.now fault }
{
    match fault {
        WidenFault::OfSheet(fault) => sheet_stop(text, fault),
        WidenFault::HasMark(at) => stop_at(Wrong::Mark, text, at),
        WidenFault::TooLarge => Stop::TooLarge,
        WidenFault::Memory => Stop::NoMemory,
    }
}

/// Why a run stops at a text that isn't put back. Linear in the text.
pub(crate) fn back_stop(text: &[u8], fault: BackFault) -> Stop
    requires { length text.now ≤ MOST_BYTES }
    ensures { result ≡ spec.back_stop text.now fault }
{
    match fault {
        BackFault::NoMark(at) => stop_at(Wrong::Mark, text, at),
        BackFault::Memory => Stop::NoMemory,
    }
}

fn wrong_text(wrong: Wrong) -> &'static [u8]
    ensures { result.now ≡ spec.wrong_text wrong }
{
    match wrong {
        Wrong::NotUtf8 => b"not utf-8",
        Wrong::TooManySelectors => b"too many selectors",
        Wrong::TooManyAtoms => b"too many atoms",
        Wrong::Mark => b"mark",
    }
}

fn put_number(line: &mut Vec<u8>, number: u32) -> Result<(), NoMemory>
    ensures { OnOk result (line.new.items ≡ line.old.items ++ decimal number) }
{
    let mut digits = Buffer::new();
    put(line, digits.format(u64::from(number)).as_bytes())
}

#[tactic(auto, using(std::proofs::Common::append_assoc))]
fn unread_line(alloc: Global, wrong: Wrong, place: Place) -> Result<Vec<u8>, NoMemory>
    ensures { IfOk result (λ line. line.items ≡ spec.unread_line wrong place) }
{
    let mut line = Vec::new(alloc);
    put(&mut line, b"widen: sheet: ")?;
    put(&mut line, wrong_text(wrong))?;
    put(&mut line, b" at ")?;
    put_number(&mut line, place.line)?;
    put(&mut line, b":")?;
    put_number(&mut line, place.column)?;
    put(&mut line, b"\n")?;
    Ok(line)
}

impl Stop {
    /// The status of a run that ends so.
    pub fn status(self) -> Status
        ensures { result ≡ spec.status_of_stop self }
    {
        match self {
            Stop::Words => Status::Words,
            Stop::TooLarge | Stop::Unread(..) => Status::Refused,
            Stop::ReadFault => Status::ReadFault,
            Stop::WriteFault => Status::WriteFault,
            Stop::NoMemory => Status::NoMemory,
        }
    }

    /// What is said on standard error.
    pub(crate) fn line(self, alloc: Global) -> Result<Vec<u8>, NoMemory>
        ensures { IfOk result (λ line. line.items ≡ spec.line_of self) }
    {
        match self {
            Stop::Unread(wrong, place) => unread_line(alloc, wrong, place),
            _ => Ok(Vec::from_slice(alloc, self.fixed_line())?),
        }
    }

    /// The line of a stop that has no place.
    pub(crate) fn fixed_line(self) -> &'static [u8]
        ensures { spec.IsFixed self → result.now ≡ spec.line_of self }
    {
        match self {
            Stop::Words => b"usage: widen [--back] SHEET\n",
            Stop::TooLarge => b"widen: sheet: too large\n",
            Stop::ReadFault => b"widen: sheet: read fault\n",
            Stop::Unread(..) => b"",
            Stop::WriteFault => b"widen: write fault\n",
            Stop::NoMemory => b"widen: no memory\n",
        }
    }
}
