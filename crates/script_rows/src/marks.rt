//! Statements of scripts that are read exactly: the place of each, and which of its calls are marked.
use crate::places::push_place;
use jq_stmts::{ExactStmt, Sharp, SharpKind};
use std::alloc::{AllocError, Global};

fn kind_of(kind: SharpKind) -> &'static str {
    match kind {
        SharpKind::Closest => "closest",
        SharpKind::Siblings => "siblings",
        SharpKind::First => "first",
    }
}

// A call, counted from 0, of the statement's own chain or of a handler's.
fn mark_of(alloc: Global, mark: &Sharp) -> Result<String, AllocError> {
    let kind = kind_of(mark.kind);
    match mark.handler {
        None => format!(in alloc; "{kind} {} ", mark.call),
        Some(handler) => format!(in alloc; "{kind} {} in handler {handler} ", mark.call),
    }
}

fn push_marks(alloc: Global, out: &mut String, stmt: &ExactStmt) -> Result<(), AllocError> {
    push_place(alloc, out, &stmt.wide.place)?;
    for mark in stmt.sharp.items() {
        out.push_str(&mark_of(alloc, mark)?)?;
    }
    Ok(())
}

pub(crate) fn marks(alloc: Global, stmts: &[ExactStmt]) -> Result<String, AllocError> {
    let mut out = String::new(alloc);
    for stmt in stmts {
        push_marks(alloc, &mut out, stmt)?;
    }
    Ok(out)
}
