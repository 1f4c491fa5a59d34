//! Names as a selector writes them: a class with a dot, an id with a hash, an attribute in brackets.
use std::alloc::AllocError;
use tp_base::{AtomKind, AtomTable, ClassSet};

/// Puts the names of a label behind a line, in the order of their atoms.
pub fn push_names(
    line: &mut String,
    label: &ClassSet,
    atoms: &AtomTable,
) -> Result<(), AllocError> {
    for i in 0..label.len() {
        if let Some((kind, name)) = atoms.name_of(label.at(i)) {
            push_name(line, kind, name)?;
        }
    }
    Ok(())
}

fn push_name(line: &mut String, kind: AtomKind, name: &[u8]) -> Result<(), AllocError> {
    let (front, end) = marks_of(kind);
    line.push_str(front)?;
    line.push_str(str::from_utf8(name).unwrap_or("not utf-8"))?;
    line.push_str(end)
}

fn marks_of(kind: AtomKind) -> (&'static str, &'static str) {
    match kind {
        AtomKind::Element => ("", ""),
        AtomKind::Ident => ("#", ""),
        AtomKind::Class => (".", ""),
        AtomKind::Attr => ("[", "]"),
        AtomKind::Aux => ("?", ""),
    }
}
