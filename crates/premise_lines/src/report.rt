//! Two texts, and what is found in them.
ghost use Rattle.std.specs.Prelude.{◌≤◌, length};
ghost use Rattle.tp_base.specs.declared.places.TheConstants.{MOST_BYTES};

use premise_finds::Findings;
use tp_base::Items;

/// The texts of a page and a sheet, with what is found in each.
#[derive(Drop)]
pub struct Report {
    pub(crate) page: Items<u8>,
    pub(crate) in_page: Findings,
    pub(crate) sheet: Items<u8>,
    pub(crate) in_sheet: Findings,
    ghost page_in_limit: { length page ≤ MOST_BYTES },
    ghost sheet_in_limit: { length sheet ≤ MOST_BYTES },
}
