//! A sheet at the limits on selectors and on names.
use css_read::{MOST_SELECTORS, SheetFault, read_sheet};
use std::alloc::{AllocError, Global};
use std::test::Fail;
use tp_base::{AtomFault, AtomKind, AtomTable};

// A text so many times.
fn times(alloc: Global, count: usize, text: &[u8]) -> Result<Vec<u8>, AllocError> {
    let mut out = Vec::new(alloc);
    for _ in 0..count {
        out.extend_from_slice(text)?;
    }
    Ok(out)
}

fn intern_number(alloc: Global, atoms: &mut AtomTable, number: u32) -> Result<(), AtomFault> {
    let name = number.to_string(alloc)?;
    atoms.intern(AtomKind::Attr, name.as_bytes())?;
    Ok(())
}

// A table with room for so many names.
fn almost_full(alloc: Global, room: u32) -> Result<AtomTable, AtomFault> {
    let mut atoms = AtomTable::new(alloc);
    for number in room..tp_base::MOST_ATOMS {
        intern_number(alloc, &mut atoms, number)?;
    }
    Ok(atoms)
}

fn fault_of(alloc: Global, text: &[u8], atoms: &mut AtomTable) -> Option<SheetFault> {
    read_sheet(alloc, text, atoms).err()
}

// The last selector that is read, and one more.
fn refuses_one_more(alloc: Global, atoms: &mut AtomTable) -> Result<bool, AllocError> {
    let mut text = times(alloc, MOST_SELECTORS, b"a{}")?;
    let most = fault_of(alloc, &text, atoms);
    text.extend_from_slice(b"b{}")?;
    let fault = fault_of(alloc, &text, atoms);
    Ok(most.is_none() && fault == Some(SheetFault::TooManySelectors(60_000)))
}

fn counts(alloc: Global) -> Result<bool, AllocError> {
    let mut atoms = AtomTable::new(alloc);
    let refused = refuses_one_more(alloc, &mut atoms)?;
    Ok(refused && atoms.count() == 1)
}

fn refuses_names(alloc: Global) -> Result<bool, AtomFault> {
    let mut atoms = almost_full(alloc, 1)?;
    let fault = fault_of(alloc, b".a{} .a, .b.c{}", &mut atoms);
    Ok(fault == Some(SheetFault::TooManyAtoms(9)) && atoms.count() == tp_base::MOST_ATOMS)
}

#[test]
fn limits(rt: HostRuntime) -> Result<(), Fail> {
    assert!(rt; counts(rt.alloc())?);
    assert!(rt; refuses_names(rt.alloc())?);
    Ok(())
}
