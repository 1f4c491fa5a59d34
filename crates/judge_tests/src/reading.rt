//! Statements from their texts.
use jq_read::{ScriptFault, read_script};
use jq_stmts::Stmt;
use std::alloc::Global;
use tp_base::{AtomTable, MOST_BYTES};

/// The statements of a script. One past the limit is refused as if no memory was to be had, which no test expects.
pub fn script_of(
    alloc: Global,
    text: &str,
    atoms: &mut AtomTable,
) -> Result<Vec<Stmt>, ScriptFault> {
    let bytes = text.as_bytes();
    if bytes.len() > MOST_BYTES as usize {
        return Err(ScriptFault::Memory);
    }
    read_script(alloc, bytes, atoms)
}
