//! Why a script isn't read, and the offset of the place.
use jq_words::ScriptFault;
use js_scan::Letters;
use std::alloc::{AllocError, Global};

fn named(alloc: Global, kind: &str, name: &Letters, at: usize) -> Result<String, AllocError> {
    let name = str::from_utf8(name.items()).unwrap_or("not utf-8");
    format!(in alloc; "{kind} {name} {at}")
}

// The kind of a fault, and its offset, or 0 where it has none.
fn kind_of(fault: &ScriptFault) -> (&'static str, usize) {
    match fault {
        ScriptFault::Scan(_) => ("Scan", 0),
        ScriptFault::UnknownCall(_, at) => ("UnknownCall", *at),
        ScriptFault::UnknownForm(at) => ("UnknownForm", *at),
        ScriptFault::ComplexArgument(at) => ("ComplexArgument", *at),
        ScriptFault::DynamicMarkup(at) => ("DynamicMarkup", *at),
        ScriptFault::ThisOutside(at) => ("ThisOutside", *at),
        ScriptFault::UnboundName(_, at) => ("UnboundName", *at),
        ScriptFault::TooLong(at) => ("TooLong", *at),
        ScriptFault::TooDeep(at) => ("TooDeep", *at),
        ScriptFault::TooManyStatements(at) => ("TooManyStatements", *at),
        ScriptFault::TooManyForestNodes(at) => ("TooManyForestNodes", *at),
        ScriptFault::TooManyAtoms(at) => ("TooManyAtoms", *at),
        ScriptFault::Memory => ("Memory", 0),
    }
}

pub(crate) fn refused(alloc: Global, fault: &ScriptFault) -> Result<String, AllocError> {
    let (kind, at) = kind_of(fault);
    match fault {
        ScriptFault::Scan(fault) => format!(in alloc; "{kind} {fault:?}"),
        ScriptFault::UnknownCall(name, _) => named(alloc, kind, name, at),
        ScriptFault::UnboundName(name, _) => named(alloc, kind, name, at),
        ScriptFault::Memory => String::from_str(alloc, kind),
        _ => format!(in alloc; "{kind} {at}"),
    }
}
