//! The places of statements as a text.
use jq_stmts::{ExactStmt, Stmt};
use std::alloc::{AllocError, Global};
use tp_base::Place;

pub(crate) fn push_place(alloc: Global, out: &mut String, place: &Place) -> Result<(), AllocError> {
    let text = format!(in alloc; "{}:{} ", place.line, place.column)?;
    out.push_str(&text)
}

pub(crate) fn places(alloc: Global, stmts: &[Stmt]) -> Result<String, AllocError> {
    let mut out = String::new(alloc);
    for stmt in stmts {
        push_place(alloc, &mut out, &stmt.place)?;
    }
    Ok(out)
}

/// The same of statements that may have sharp calls.
pub(crate) fn exact_places(alloc: Global, stmts: &[ExactStmt]) -> Result<String, AllocError> {
    let mut out = String::new(alloc);
    for stmt in stmts {
        push_place(alloc, &mut out, &stmt.wide.place)?;
    }
    Ok(out)
}
