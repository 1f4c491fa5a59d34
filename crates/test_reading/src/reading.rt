//! Pages and statements from their texts.
use html_subset::{PageFault, read_page};
use jq_read::{ScriptFault, read_script};
use jq_stmts::{Call, Calls, Chains, Root, Selectors, Stmt};
use std::alloc::Global;
use tp_base::{AtomTable, MOST_BYTES, NoMemory};
use tree_sem::Tree;

/// A page of fourteen nodes, html, head and body among them.
pub const PAGE: &str =
    "<div class=a><div class=b><div class=c></div><div class='a b'></div></div><div class=c><div></div></div></div><div class=b><div class=a><div class=c></div></div><div class=c></div></div><div class=d></div>";

/// The tree of a page.
pub fn page_of(alloc: Global, text: &str, atoms: &mut AtomTable) -> Result<Tree, PageFault> {
    read_page(alloc, text.as_bytes(), atoms)
}

/// The statements of a script. One past the limit is refused as if no memory was to be had, which no test expects.
pub fn script_of(
    alloc: Global,
    text: &str,
    atoms: &mut AtomTable,
) -> Result<Vec<Stmt>, ScriptFault> {
    let bytes = text.as_bytes();
    if bytes.len() > MOST_BYTES as usize {
        return Err(ScriptFault::Memory);
    }
    read_script(alloc, bytes, atoms)
}

/// The last statement of a script, where there is one.
pub fn statement_of(alloc: Global, text: &str, atoms: &mut AtomTable) -> Result<Stmt, ScriptFault> {
    let mut stmts = script_of(alloc, text, atoms)?;
    match stmts.pop() {
        Some(stmt) => Ok(stmt),
        None => Err(ScriptFault::Memory),
    }
}

/// What is made of a statement that was read, where no script has the one that is wanted.
#[derive(Clone, Copy)]
pub enum Twist {
    AsRead,
    /// `end` before its calls.
    EndFirst,
    /// `end` behind its calls.
    EndLast,
    /// No selectors at the front of its chain.
    NoSelectors,
    /// No handlers, though it has `this`.
    NoHandlers,
}

fn with_end(alloc: Global, calls: &[Call], first: bool) -> Result<Calls, NoMemory> {
    let mut items = Vec::new(alloc);
    if first {
        items.push(Call::End)?;
    }
    for call in calls {
        items.push(call.copy()?)?;
    }
    if !first {
        items.push(Call::End)?;
    }
    Ok(Calls::new(items))
}

fn twist_it(alloc: Global, stmt: &mut Stmt, twist: Twist) -> Result<(), NoMemory> {
    match twist {
        Twist::AsRead => {}
        Twist::EndFirst => stmt.chain.calls = with_end(alloc, stmt.chain.calls.items(), true)?,
        Twist::EndLast => stmt.chain.calls = with_end(alloc, stmt.chain.calls.items(), false)?,
        Twist::NoSelectors => stmt.chain.root = Root::List(Selectors::new(Vec::new(alloc))?),
        Twist::NoHandlers => stmt.handlers = Chains::new(Vec::new(alloc)),
    }
    Ok(())
}

/// The last statement of a script, with that twist.
pub fn twisted(
    alloc: Global,
    twist: Twist,
    text: &str,
    atoms: &mut AtomTable,
) -> Result<Stmt, ScriptFault> {
    let mut stmt = statement_of(alloc, text, atoms)?;
    twist_it(alloc, &mut stmt, twist)?;
    Ok(stmt)
}
