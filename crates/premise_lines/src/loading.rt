//! Loading of files, and whether they can be read.
ghost use Rattle.std.specs.Prelude.{◌≡◌, ◌≤◌, length, IfOk};
ghost use Rattle.tp_base.specs.declared.places.TheConstants.{MOST_BYTES};
ghost use Rattle.premise_lines.specs.Runs as spec;

use crate::stops::{Part, Stop};
use crate::words::Order;
use bstr::ByteSlice;
use std::alloc::Global;
use tp_base::Cursor;
use tp_io::{Files, LoadFault};

// Loads a file.
fn load<F: Files>(alloc: Global, part: Part, name: &str, files: &mut F) -> Result<Vec<u8>, Stop>
    ensures same_files { F.told files.new ≡ F.told files.old }
    ensures loaded { spec.OneLoaded (F.told files.old) part name.now (F.loads files.old) (F.loads files.new) (spec.loaded_text result) }
{
    let mut bytes = Vec::new(alloc);
    match files.load(name, &mut bytes) {
        Ok(()) => Ok(bytes),
        Err(LoadFault::Failed) => Err(Stop::ReadFault(part)),
        Err(LoadFault::TooLarge) => Err(Stop::TooLarge(part)),
        Err(LoadFault::Memory) => Err(Stop::NoMemory),
    }
}

/// Loads the page and then the sheet of an order.
pub(crate) fn load_both<F: Files>(
    alloc: Global,
    order: &Order,
    files: &mut F,
) -> Result<(Vec<u8>, Vec<u8>), Stop>
    ensures loaded { spec.BothLoaded (F.told files.old) order.now (F.loads files.old) (F.loads files.new) (spec.loaded_texts result) }
    ensures page { IfOk result (λ t. length t.0.items ≤ MOST_BYTES) }
    ensures sheet { IfOk result (λ t. length t.1.items ≤ MOST_BYTES) }
{
    match load(alloc, Part::Page, order.page.as_str(), files) {
        Ok(page) => match load(alloc, Part::Sheet, order.sheet.as_str(), files) {
            Ok(sheet) => Ok((page, sheet)),
            Err(stop) => Err(stop),
        },
        Err(stop) => Err(stop),
    }
}

// Why a file of this text isn't read, if it isn't. Linear in the text.
#[tactic(auto, using(text_bytes::proofs::Utf8::valid_len))]
fn refusal_of(part: Part, text: &[u8]) -> Option<Stop>
    requires { length text.now ≤ MOST_BYTES }
    ensures { result ≡ spec.refusal_of part text.now }
{
    match text.to_str() {
        Ok(_) => None,
        Err(e) => {
            let place = Cursor::new().place_at(text, e.valid_up_to());
            Some(Stop::NotUtf8(part, place))
        }
    }
}

/// Why a page and a sheet of these texts aren't read, if they aren't. Linear in the texts.
pub(crate) fn refusal_in(page: &[u8], sheet: &[u8]) -> Option<Stop>
    requires page { length page.now ≤ MOST_BYTES }
    requires sheet { length sheet.now ≤ MOST_BYTES }
    ensures { result ≡ spec.refusal_in (page.now, sheet.now) }
{
    match refusal_of(Part::Page, page) {
        Some(stop) => Some(stop),
        None => refusal_of(Part::Sheet, sheet),
    }
}
