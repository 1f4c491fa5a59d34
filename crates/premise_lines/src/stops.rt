//! How a run of the command ends.
ghost use Rattle.std.specs.Prelude.{◌≡◌, IfOk};
ghost use Rattle.premise_lines.specs.Lines.{part_text};
ghost use Rattle.premise_lines.specs.Stops as spec;

use crate::lines::put_place;
use crate::words::WordsFault;
use std::alloc::Global;
use tp_base::{NoMemory, Place};

/// A file of the run.
#[derive(Clone, Copy, Debug, PartialEq, Eq)]
pub enum Part {
    Page,
    Sheet,
}

impl Part {
    /// The word that stands for it.
    pub(crate) fn text(self) -> &'static [u8]
        ensures { result.now ≡ part_text self }
    {
        match self {
            Part::Page => b"page",
            Part::Sheet => b"sheet",
        }
    }
}

/// How a run ended.
#[derive(Clone, Copy, Debug, PartialEq, Eq)]
pub enum Status {
    /// The lines are written, and nothing is found.
    Clear,
    /// The lines are written, and something is found.
    Found,
    /// The words aren't of the command's form.
    Words,
    /// A file is refused.
    Refused,
    /// A file couldn't be loaded.
    ReadFault,
    /// Standard output or standard error took no more.
    WriteFault,
    /// No memory was to be had.
    NoMemory,
}

impl Status {
    /// The number that the process ends with.
    pub fn code(self) -> u8
        ensures { result ≡ spec.code_of self }
    {
        match self {
            Status::Clear => 0,
            Status::Found => 1,
            Status::Words => 2,
            Status::Refused => 3,
            Status::ReadFault => 4,
            Status::WriteFault => 5,
            Status::NoMemory => 6,
        }
    }
}

/// Why a run ends without all its lines.
#[derive(Clone, Copy, Debug, PartialEq, Eq)]
pub enum Stop {
    Words,
    TooLarge(Part),
    ReadFault(Part),
    NotUtf8(Part, Place),
    WriteFault,
    NoMemory,
}

impl From<NoMemory> for Stop {
    ghost use Rattle.std.specs.Prelude.{◌≡◌};
    ghost use Rattle.premise_lines.specs.declared.stops.Stop.TheVariants as stop;

    ghost from_gives = { λ _ e. e ≡ stop.NoMemory };

    fn from(_error: NoMemory) -> Stop {
        Stop::NoMemory
    }
}

impl From<WordsFault> for Stop {
    ghost use Rattle.std.specs.Prelude.{◌≡◌};
    ghost use Rattle.premise_lines.specs.Stops.{words_stop};

    ghost from_gives = { λ e f. f ≡ words_stop e };

    fn from(error: WordsFault) -> Stop {
        match error {
            WordsFault::Words => Stop::Words,
            WordsFault::Memory => Stop::NoMemory,
        }
    }
}

// `premises: page: not utf-8 at 2:7`, say.
#[tactic(auto, using(std::proofs::Common::append_assoc))]
fn refused_line(alloc: Global, part: Part, place: Place) -> Result<Vec<u8>, NoMemory>
    ensures { IfOk result (λ line. line.items ≡ spec.stop_line (Stop.NotUtf8 part place)) }
{
    let mut line = Vec::from_slice(alloc, b"premises: ")?;
    line.extend_from_slice(part.text())?;
    line.extend_from_slice(b": not utf-8 at ")?;
    put_place(&mut line, place)?;
    line.extend_from_slice(b"\n")?;
    Ok(line)
}

impl Stop {
    /// The status of a run that ends so.
    pub fn status(self) -> Status
        ensures { result ≡ spec.status_of_stop self }
    {
        match self {
            Stop::Words => Status::Words,
            Stop::TooLarge(_) | Stop::NotUtf8(..) => Status::Refused,
            Stop::ReadFault(_) => Status::ReadFault,
            Stop::WriteFault => Status::WriteFault,
            Stop::NoMemory => Status::NoMemory,
        }
    }

    /// What is said on standard error.
    pub(crate) fn line(self, alloc: Global) -> Result<Vec<u8>, NoMemory>
        ensures { IfOk result (λ line. line.items ≡ spec.stop_line self) }
    {
        match self {
            Stop::NotUtf8(part, place) => refused_line(alloc, part, place),
            _ => Ok(Vec::from_slice(alloc, self.fixed_line())?),
        }
    }

    /// The line of a stop that has no place.
    pub(crate) fn fixed_line(self) -> &'static [u8]
        ensures { spec.IsFixed self → result.now ≡ spec.stop_line self }
    {
        match self {
            Stop::Words => b"usage: premises { --except NAME } PAGE SHEET\n",
            Stop::TooLarge(Part::Page) => b"premises: page: too large\n",
            Stop::TooLarge(Part::Sheet) => b"premises: sheet: too large\n",
            Stop::ReadFault(Part::Page) => b"premises: page: read fault\n",
            Stop::ReadFault(Part::Sheet) => b"premises: sheet: read fault\n",
            Stop::NotUtf8(..) => b"",
            Stop::WriteFault => b"premises: write fault\n",
            Stop::NoMemory => b"premises: no memory\n",
        }
    }
}
