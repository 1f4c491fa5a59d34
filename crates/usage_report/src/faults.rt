//! Why a report isn't written whole.
use thiserror::Error;
use tp_base::NoMemory;
use tp_io::SinkFault;

/// Why a report is not written whole.
#[derive(Clone, Copy, Debug, PartialEq, Eq, Error)]
pub enum ReportFault {
    #[error("write fault")]
    Write,
    #[error("no memory")]
    Memory,
}

impl From<SinkFault> for ReportFault {
    ghost use Rattle.std.specs.Prelude.{◌≡◌};
    ghost use Rattle.usage_report.specs.Faults.{report_fault_of};

    ghost from_gives = { λ e f. f ≡ report_fault_of e };

    fn from(error: SinkFault) -> ReportFault {
        match error {
            SinkFault::Failed => ReportFault::Write,
            SinkFault::Memory => ReportFault::Memory,
        }
    }
}

impl From<NoMemory> for ReportFault {
    ghost use Rattle.std.specs.Prelude.{◌≡◌};
    ghost use Rattle.usage_report.specs.declared.faults.ReportFault.TheVariants.{Memory};

    ghost from_gives = { λ _ e. e ≡ Memory };

    fn from(_error: NoMemory) -> ReportFault {
        ReportFault::Memory
    }
}
