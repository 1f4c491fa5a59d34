//! Why a run ends without its report.
ghost use Rattle.std.specs.Prelude.{◌≡◌};
ghost use Rattle.run_ends.specs.Stops as spec;

use crate::refusals::{JudgeRefusal, Part, Refusal};
use crate::status::Status;
use command_words::WordsFault;
use tp_base::NoMemory;
use usage_report::ReportFault;

/// Why a run ends without its whole report.
#[derive(Debug, Drop)]
pub enum Stop {
    Words,
    TooLarge(Part),
    ReadFault(Part),
    Unread(Refusal),
    Judging(JudgeRefusal),
    WriteFault,
    NoMemory,
}

impl From<NoMemory> for Stop {
    ghost use Rattle.std.specs.Prelude.{◌≡◌};
    ghost use Rattle.run_ends.specs.declared.stops.Stop.TheVariants as stop;

    ghost from_gives = { λ _ e. e ≡ stop.NoMemory };

    fn from(_error: NoMemory) -> Stop {
        Stop::NoMemory
    }
}

impl From<WordsFault> for Stop {
    ghost use Rattle.std.specs.Prelude.{◌≡◌};
    ghost use Rattle.run_ends.specs.Stops.{words_stop};

    ghost from_gives = { λ e f. f ≡ words_stop e };

    fn from(error: WordsFault) -> Stop {
        match error {
            WordsFault::Words => Stop::Words,
            WordsFault::Memory => Stop::NoMemory,
        }
    }
}

impl From<ReportFault> for Stop {
    ghost use Rattle.std.specs.Prelude.{◌≡◌};
    ghost use Rattle.run_ends.specs.Stops.{stop_of};

    ghost from_gives = { λ e f. f ≡ stop_of e };

    fn from(error: ReportFault) -> Stop {
        match error {
            ReportFault::Write => Stop::WriteFault,
            ReportFault::Memory => Stop::NoMemory,
        }
    }
}

impl Stop {
    /// The status of a run that ends so.
    pub fn status(&self) -> Status
        ensures { result ≡ spec.status_of_stop self.now }
    {
        match self {
            Stop::Words => Status::Words,
            Stop::TooLarge(_) | Stop::Unread(_) | Stop::Judging(_) => Status::Refused,
            Stop::ReadFault(_) => Status::ReadFault,
            Stop::WriteFault => Status::WriteFault,
            Stop::NoMemory => Status::NoMemory,
        }
    }
}
