//! Statements from their texts, and where they stand.
ghost use Rattle.std.specs.Prelude.{◌≡◌, IfOk};
ghost use Rattle.jq_stmts.specs.Views.{statements_of};
ghost use Rattle.dead_script.specs.Verdicts.{places_of};

use jq_read::{ScriptFault, read_script};
use jq_stmts::Stmt;
use std::alloc::Global;
use tp_base::{AtomTable, MOST_BYTES, NoMemory, Place};

/// The statements of a script. One past the limit is refused as if no memory was to be had, which no test expects.
pub fn script_of(
    alloc: Global,
    text: &str,
    atoms: &mut AtomTable,
) -> Result<Vec<Stmt>, ScriptFault> {
    let bytes = text.as_bytes();
    if bytes.len() > MOST_BYTES as usize {
        return Err(ScriptFault::Memory);
    }
    read_script(alloc, bytes, atoms)
}

/// The places of the statements, in their order.
pub fn places(alloc: Global, stmts: &[Stmt]) -> Result<Vec<Place>, NoMemory>
    ensures { IfOk result (λ places. places.items ≡ places_of (statements_of stmts.now)) }
{
    let mut places = Vec::new(alloc);
    'statements: for stmt in stmts {
        places.push(stmt.place)?;
    }
    Ok(places)
}
