//! The sheet without the selectors that are unused.
ghost use Rattle.std.specs.Prelude.{◌≡◌, ◌≤◌, length, map, IfOk, OnOk, OnErr};
ghost use Rattle.tp_base.specs.declared.places.TheConstants.{MOST_BYTES};
ghost use Rattle.tp_io.specs.Sinks.{Adds, AddsPrefix, Rose};
ghost use Rattle.css_read.specs.Effects.{AreJudged};
ghost use Rattle.css_read.specs.Pruned.{pruned, with_flags};
ghost use Rattle.css_read.specs.Views.{sheet_of};
ghost use Rattle.usage_report.specs.Views.{answer_of};
ghost use Rattle.treeped_app.specs.MeansParts.{IsLeft, Writes};
ghost use Rattle.treeped_app.specs.Modes as spec;
ghost use Rattle.treeped_app.specs.Runs.{IsSheetOf};

use crate::statuses::is_unused;
use css_prune::prune;
use css_read::Sheet;
use std::alloc::Global;
use tp_base::NoMemory;
use tp_io::{Sink, put_all};
use usage_report::{Answer, ReportFault};

/// Says for each answer whether it is `unused`. Linear in the answers.
pub(crate) fn unused_in(alloc: Global, answers: &[Answer]) -> Result<Vec<bool>, NoMemory>
    ensures { IfOk result (λ v. v.items ≡ map (λ a. spec.is_unused (answer_of a)) answers.now) }
{
    let mut flags = Vec::new(alloc);
    'answers: for answer in answers {
        flags.push(is_unused(answer))?;
    }
    Ok(flags)
}

/// Writes the sheet with this text without the selectors that are flagged, in one piece. The cost is that of `prune`.
pub(crate) fn write_pruned<O: Sink>(
    alloc: Global,
    sheet: &Sheet,
    text: &[u8],
    unused: &[bool],
    out: &mut O,
) -> Result<(), ReportFault>
    requires in_limit { length text.now ≤ MOST_BYTES }
    requires read { IsSheetOf text.now (sheet_of sheet.now) }
    requires count { length unused.now ≡ length sheet.now.items }
    requires judged { AreJudged (with_flags (sheet_of sheet.now).items unused.now) }
    ensures means { OnOk result (Writes (O.written out.old) (O.written out.new) (IsLeft text.now (sheet_of sheet.now) unused.now)) }
    ensures ok { OnOk result (Adds (O.written out.old) (O.written out.new) (pruned text.now (sheet_of sheet.now) unused.now)) }
    ensures err { OnErr result (AddsPrefix (O.written out.old) (O.written out.new) (pruned text.now (sheet_of sheet.now) unused.now)) }
    ensures write { result ≡ Err ReportFault.Write → Rose (O.faults out.old) (O.faults out.new) }
{
    let left = prune(alloc, text, sheet, unused)?;
    put_all(out, &left)?;
    Ok(())
}
