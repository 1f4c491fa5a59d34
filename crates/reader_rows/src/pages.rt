//! A page, or markup that is added, as a tree: each node by its names, and its children in brackets.
use html_subset::{PageFault, read_forest, read_page};
use std::alloc::{AllocError, Global};
use tp_base::{AtomTable, Path};
use tree_sem::{Tree, go_on};

pub(crate) fn page(alloc: Global, text: &[u8]) -> Result<String, AllocError> {
    let mut out = String::new(alloc);
    let answer = push_page(alloc, &mut out, text);
    push_fault(alloc, &mut out, answer)?;
    Ok(out)
}

pub(crate) fn forest(alloc: Global, text: &[u8]) -> Result<String, AllocError> {
    let mut out = String::new(alloc);
    let answer = push_forest(alloc, &mut out, text);
    push_fault(alloc, &mut out, answer)?;
    Ok(out)
}

fn push_fault(
    alloc: Global,
    out: &mut String,
    answer: Result<(), PageFault>,
) -> Result<(), AllocError> {
    match answer {
        Ok(()) => Ok(()),
        Err(fault) => {
            let text = format!(in alloc; "\n  {fault:?}")?;
            out.push_str(&text)
        }
    }
}

fn push_page(alloc: Global, out: &mut String, text: &[u8]) -> Result<(), PageFault> {
    let mut atoms = AtomTable::new(alloc);
    let tree = read_page(alloc, text, &mut atoms)?;
    out.push_str("\n  ")?;
    push_tree(alloc, out, &tree, &atoms)
}

fn push_forest(alloc: Global, out: &mut String, text: &[u8]) -> Result<(), PageFault> {
    let mut atoms = AtomTable::new(alloc);
    let forest = read_forest(alloc, text, &mut atoms)?;
    push_trees(alloc, out, forest.tops.items(), &atoms)
}

// A line for each tree.
fn push_trees(
    alloc: Global,
    out: &mut String,
    trees: &[Tree],
    atoms: &AtomTable,
) -> Result<(), PageFault> {
    for tree in trees {
        out.push_str("\n  ")?;
        push_tree(alloc, out, tree, atoms)?;
    }
    Ok(())
}

// The nodes in document order, with brackets between them.
fn push_tree(
    alloc: Global,
    out: &mut String,
    tree: &Tree,
    atoms: &AtomTable,
) -> Result<(), PageFault> {
    let mut at = Path::root(alloc);
    let mut depth = 0;
    'nodes: loop {
        push_brackets(out, depth, at.len())?;
        push_label(out, tree, &at, atoms)?;
        depth = at.len();
        if !go_on(tree, &mut at)? {
            push_closing(out, depth)?;
            return Ok(());
        }
    }
}

// What stands before a node of this depth, behind one of another.
fn push_brackets(out: &mut String, before: usize, depth: usize) -> Result<(), AllocError> {
    if before < depth {
        return out.push_str("(");
    }
    push_closing(out, before - depth)?;
    if depth > 0 { out.push_str(" ") } else { Ok(()) }
}

fn push_closing(out: &mut String, count: usize) -> Result<(), AllocError> {
    for _ in 0..count {
        out.push_str(")")?;
    }
    Ok(())
}

fn push_label(
    out: &mut String,
    tree: &Tree,
    at: &Path,
    atoms: &AtomTable,
) -> Result<(), AllocError> {
    match tree.label(at) {
        Some(label) => row_text::push_names(out, label, atoms),
        None => out.push_str("no node"),
    }
}
