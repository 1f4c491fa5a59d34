//! Scripts: the places of their statements, what each does to a node, and which calls of each are marked.
use crate::marks::marks;
use crate::places::places;
use jq_read::{ScriptFault, read_exact, read_script};
use jq_stmts::Stmt;
use std::alloc::{AllocError, Global};
use tp_base::{AtomTable, MOST_BYTES};
use tree_sem::Action;

#[derive(Clone, Copy)]
pub(crate) enum OfScript {
    Places,
    Actions,
    /// Of a script that is read exactly.
    Marks,
}

pub(crate) fn of_script(alloc: Global, case: OfScript, text: &[u8]) -> Result<String, ScriptFault> {
    if text.len() > MOST_BYTES as usize {
        return Ok(String::from_str(alloc, "too large")?);
    }
    let mut atoms = AtomTable::new(alloc);
    match case {
        OfScript::Marks => Ok(marks(alloc, &read_exact(alloc, text, &mut atoms)?)?),
        OfScript::Places => Ok(places(alloc, &read_script(alloc, text, &mut atoms)?)?),
        OfScript::Actions => acted(alloc, text, &mut atoms),
    }
}

fn acted(alloc: Global, text: &[u8], atoms: &mut AtomTable) -> Result<String, ScriptFault> {
    if text.len() > MOST_BYTES as usize {
        return Err(ScriptFault::Memory);
    }
    let stmts = read_script(alloc, text, atoms)?;
    Ok(actions(alloc, &stmts, atoms)?)
}

fn actions(alloc: Global, stmts: &[Stmt], atoms: &AtomTable) -> Result<String, AllocError> {
    let mut out = String::new(alloc);
    for stmt in stmts {
        push_stmt(alloc, &mut out, stmt, atoms)?;
    }
    Ok(out)
}

fn push_stmt(
    alloc: Global,
    out: &mut String,
    stmt: &Stmt,
    atoms: &AtomTable,
) -> Result<(), AllocError> {
    let place = format!(in alloc; "{}:{} ", stmt.place.line, stmt.place.column)?;
    out.push_str(&place)?;
    push_action(out, &stmt.action, atoms)?;
    out.push_str(" ")
}

fn push_action(out: &mut String, action: &Action, atoms: &AtomTable) -> Result<(), AllocError> {
    match action {
        Action::Classes(classes) => row_text::push_names(out, classes, atoms),
        Action::Inside(_) => out.push_str("inside"),
        Action::Beside(_) => out.push_str("beside"),
    }
}
