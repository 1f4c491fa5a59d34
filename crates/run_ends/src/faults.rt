//! From the fault of a reader to the reason why a run stops.
ghost use Rattle.std.specs.Prelude.{◌≡◌, ◌≤◌, length};
ghost use Rattle.tp_base.specs.declared.places.TheConstants.{MOST_BYTES};
ghost use Rattle.run_ends.specs.Refusals as refusal;

use crate::refusals::{Fault, Part, Refusal};
use crate::stops::Stop;
use css_read::SheetFault;
use html_subset::PageFault;
use jq_words::ScriptFault;
use js_scan::ScanFault;
use tp_base::Cursor;

/// Why a run stops at a page of this text that is not read. Linear in the text.
pub fn page_stop(part: Part, text: &[u8], fault: PageFault) -> Stop
    requires { length text.now ≤ MOST_BYTES }
    ensures { result ≡ refusal.page_stop part text.now fault }
{
    match fault {
        PageFault::NotUtf8(at) => stop_at(part, Fault::NotUtf8, text, at),
        PageFault::TooDeep(at) => stop_at(part, Fault::TooDeep, text, at),
        PageFault::TooManyNodes(at) => stop_at(part, Fault::TooManyNodes, text, at),
        PageFault::TooManyAtoms(at) => stop_at(part, Fault::TooManyAtoms, text, at),
        PageFault::Memory => Stop::NoMemory,
    }
}

/// Why a run stops at a sheet of this text that is not read. Linear in the text.
pub fn sheet_stop(text: &[u8], fault: SheetFault) -> Stop
    requires { length text.now ≤ MOST_BYTES }
    ensures { result ≡ refusal.sheet_stop text.now fault }
{
    match fault {
        SheetFault::NotUtf8(at) => stop_at(Part::Sheet, Fault::NotUtf8, text, at),
        SheetFault::TooManySelectors(at) => stop_at(Part::Sheet, Fault::TooManySelectors, text, at),
        SheetFault::TooManyAtoms(at) => stop_at(Part::Sheet, Fault::TooManyAtoms, text, at),
        SheetFault::Memory => Stop::NoMemory,
    }
}

/// Why a run stops at a script of this text that is not read. Linear in the text.
pub fn script_stop(part: Part, text: &[u8], fault: ScriptFault) -> Stop
    requires { length text.now ≤ MOST_BYTES }
    ensures { result ≡ refusal.script_stop part text.now fault }
{
    match fault {
        ScriptFault::Scan(fault) => scan_stop(part, text, fault),
        ScriptFault::UnknownCall(name, at) => stop_at(part, Fault::UnknownCall(name), text, at),
        ScriptFault::UnknownForm(at) => stop_at(part, Fault::UnknownForm, text, at),
        ScriptFault::ComplexArgument(at) => stop_at(part, Fault::ComplexArgument, text, at),
        ScriptFault::DynamicMarkup(at) => stop_at(part, Fault::DynamicMarkup, text, at),
        ScriptFault::ThisOutside(at) => stop_at(part, Fault::ThisOutside, text, at),
        ScriptFault::UnboundName(name, at) => stop_at(part, Fault::UnboundName(name), text, at),
        ScriptFault::TooLong(at) => stop_at(part, Fault::TooLong, text, at),
        ScriptFault::TooDeep(at) => stop_at(part, Fault::TooDeep, text, at),
        ScriptFault::TooManyStatements(at) => stop_at(part, Fault::TooManyStatements, text, at),
        ScriptFault::TooManyForestNodes(at) => stop_at(part, Fault::TooManyForestNodes, text, at),
        ScriptFault::TooManyAtoms(at) => stop_at(part, Fault::TooManyAtoms, text, at),
        ScriptFault::Memory => Stop::NoMemory,
    }
}

// The same where the tokens of the script can't be told.
fn scan_stop(part: Part, text: &[u8], fault: ScanFault) -> Stop
    requires { length text.now ≤ MOST_BYTES }
    ensures { result ≡ refusal.scan_stop part text.now fault }
{
    match fault {
        ScanFault::NotUtf8(at) => stop_at(part, Fault::NotUtf8, text, at),
        ScanFault::BadString(at) => stop_at(part, Fault::BadString, text, at),
        ScanFault::Regexp(at) => stop_at(part, Fault::Regexp, text, at),
        ScanFault::Template(at) => stop_at(part, Fault::Template, text, at),
        ScanFault::BadByte(at) => stop_at(part, Fault::BadByte, text, at),
        ScanFault::Memory => Stop::NoMemory,
    }
}

fn stop_at(part: Part, fault: Fault, text: &[u8], at: usize) -> Stop
    requires { length text.now ≤ MOST_BYTES }
    ensures { result ≡ refusal.stop_at part fault text.now at }
{
    let place = Cursor::new().place_at(text, at);
    Stop::Unread(Refusal { part, fault, place })
}
