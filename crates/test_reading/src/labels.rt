//! Labels as texts, with the names of a table.
use std::alloc::Global;
use tp_base::{Atom, AtomKind, AtomTable, ClassSet, NoMemory};

/// Puts a text behind.
pub fn put(out: &mut Vec<u8>, text: &[u8]) -> Result<(), NoMemory> {
    out.extend_from_slice(text)?;
    Ok(())
}

/// The name with the mark of its kind, as a selector has it.
pub fn put_atom(out: &mut Vec<u8>, atoms: &AtomTable, atom: Atom) -> Result<(), NoMemory> {
    let Some((kind, name)) = atoms.name_of(atom) else {
        return put(out, b"?");
    };
    match kind {
        AtomKind::Class => put(out, b".")?,
        AtomKind::Ident => put(out, b"#")?,
        _ => {}
    }
    put(out, name)
}

/// The names of a label, each behind a space.
pub fn put_label(out: &mut Vec<u8>, atoms: &AtomTable, label: &ClassSet) -> Result<(), NoMemory> {
    for i in 0..label.len() {
        put(out, b" ")?;
        put_atom(out, atoms, label.at(i))?;
    }
    Ok(())
}

fn is_class(atom: Atom, name: &str, atoms: &AtomTable) -> bool {
    match atoms.name_of(atom) {
        Some((AtomKind::Class, text)) => text == name.as_bytes(),
        _ => false,
    }
}

/// Whether a label has the class of this name.
pub fn has_class(label: &ClassSet, name: &str, atoms: &AtomTable) -> bool {
    for i in 0..label.len() {
        if is_class(label.at(i), name, atoms) {
            return true;
        }
    }
    false
}

/// The names of a label in the order of the table, each behind a space.
pub fn label_text(alloc: Global, label: &ClassSet, atoms: &AtomTable) -> Result<Vec<u8>, NoMemory> {
    let mut out = Vec::new(alloc);
    put_label(&mut out, atoms, label)?;
    Ok(out)
}
