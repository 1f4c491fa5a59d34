//! The text of the pruned sheet.
ghost use Rattle.std.specs.Prelude.{◌≡◌, ◌≤◌, List, Ok, length, IfOk};
ghost use Rattle.tp_base.specs.Names.{Named};
ghost use Rattle.tp_base.specs.declared.places.TheConstants.{MOST_BYTES};
ghost use Rattle.css_read.specs.Effects.{AreJudged};
ghost use Rattle.css_read.specs.Pruned as spec;
ghost use Rattle.css_read.specs.Reading.{read_sheet};
ghost use Rattle.css_read.specs.Views.{sheet_of};

use crate::copying::without;
use crate::cuts::cuts;
use css_read::Sheet;
use std::alloc::Global;
use tp_base::NoMemory;

/// What is left of a sheet's text without the selectors that are unused, and without what holds no other. Linear in
/// the text, in time and in memory.
#[tactic(auto, unfolding(css_read::specs::Pruned::pruned))]
pub fn prune(
    alloc: Global,
    text: &[u8],
    sheet: &Sheet,
    unused: &[bool],
) -> Result<Vec<u8>, NoMemory>
    requires in_limit { length text.now ≤ MOST_BYTES }
    requires read { (names : List Named) × (later : List Named) × (read_sheet text.now names ≡ (later, Ok (sheet_of sheet.now))) }
    requires count { length unused.now ≡ length sheet.now.items }
    requires judged { AreJudged (spec.with_flags (sheet_of sheet.now).items unused.now) }
    ensures { IfOk result (λ v. v.items ≡ spec.pruned text.now (sheet_of sheet.now) unused.now) }
{
    let ranges = cuts(alloc, text, sheet, unused)?;
    without(alloc, text, ranges)
}
