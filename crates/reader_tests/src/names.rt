//! Each public call once, with ample memory.
use std::alloc::Global;
use std::test::Fail;
use tp_base::{Atom, AtomFault, AtomKind, AtomTable, ClassSet, NoMemory, Path, Place, place_of};

// A name, and its number.
static NAMES: [(AtomKind, &str, u32); 4] = [
    (AtomKind::Class, "a", 0),
    (AtomKind::Ident, "a", 1),
    (AtomKind::Class, "a", 0),
    (AtomKind::Class, "b", 2),
];

// An atom, and whether the set grows by it.
static ADDED: [(u32, bool); 3] = [(3, true), (1, true), (3, false)];

// A place of the text, and its line and column.
static PLACES: [(usize, u32, u32); 3] = [(0, 1, 1), (3, 2, 1), (5, 2, 3)];

fn has_atom(set: &ClassSet, i: usize, atom: u32) -> bool {
    i < set.len() && set.at(i) == Atom(atom)
}

fn is_set(set: &ClassSet, want: &[u32]) -> bool {
    for (i, atom) in want.iter().enumerate() {
        if !has_atom(set, i, *atom) {
            return false;
        }
    }
    set.len() == want.len()
}

fn has_child(path: &Path, i: usize, child: u32) -> bool {
    i < path.len() && path.at(i) == child
}

fn is_path(path: &Path, want: &[u32]) -> bool {
    for (i, child) in want.iter().enumerate() {
        if !has_child(path, i, *child) {
            return false;
        }
    }
    path.len() == want.len()
}

fn interns(table: &mut AtomTable) -> Result<bool, AtomFault> {
    for (kind, name, number) in &NAMES {
        if table.intern(*kind, name.as_bytes())? != Atom(*number) {
            return Ok(false);
        }
    }
    Ok(true)
}

fn is_named(table: &AtomTable) -> bool {
    table.count() == 3
        && table.name_of(Atom(1)) == Some((AtomKind::Ident, b"a".as_slice()))
        && table.name_of(Atom(3)).is_none()
}

fn are_names(alloc: Global) -> Result<bool, AtomFault> {
    let mut table = AtomTable::new(alloc);
    let interned = interns(&mut table)?;
    Ok(interned && is_named(&table))
}

fn set_of(alloc: Global, atoms: &[u32]) -> Result<ClassSet, NoMemory> {
    let mut set = ClassSet::new(alloc);
    for atom in atoms {
        set.add(Atom(*atom))?;
    }
    Ok(set)
}

fn adds(set: &mut ClassSet) -> Result<bool, NoMemory> {
    for (atom, grew) in &ADDED {
        if set.add(Atom(*atom))? != *grew {
            return Ok(false);
        }
    }
    Ok(true)
}

fn is_added(alloc: Global) -> Result<bool, NoMemory> {
    let mut set = ClassSet::new(alloc);
    let added = adds(&mut set)?;
    Ok(added && is_set(&set, &[1, 3]))
}

fn joins(set: &ClassSet, other: &ClassSet, both: &mut ClassSet) -> Result<bool, NoMemory> {
    let grew = both.union(other)?;
    let joined = is_set(both, &[1, 2, 3]);
    let again = both.union(set)?;
    Ok(grew && joined && !again)
}

fn is_within(set: &ClassSet, both: &ClassSet) -> bool {
    set.within(both) && !both.within(set) && both.has(Atom(2))
}

fn cuts(both: &mut ClassSet, other: &ClassSet) -> bool {
    both.cut(other);
    is_set(both, &[1, 2])
}

fn is_joined(set: &ClassSet, other: &ClassSet) -> Result<bool, NoMemory> {
    let mut both = set.copy()?;
    let joined = joins(set, other, &mut both)?;
    Ok(joined && is_within(set, &both) && cuts(&mut both, other))
}

fn are_joined(alloc: Global) -> Result<bool, NoMemory> {
    let set = set_of(alloc, &[1, 3])?;
    let other = set_of(alloc, &[1, 2])?;
    is_joined(&set, &other)
}

fn path_of(alloc: Global) -> Result<Path, NoMemory> {
    let mut path = Path::root(alloc);
    path.push(1)?;
    path.push(0)?;
    Ok(path)
}

fn goes_down_and_up(child: &mut Path) -> Result<bool, NoMemory> {
    child.push(4)?;
    let down = is_path(child, &[1, 0, 4]);
    let last = child.pop();
    Ok(down && last == Some(4) && is_path(child, &[1, 0]))
}

fn are_paths(alloc: Global) -> Result<bool, NoMemory> {
    let path = path_of(alloc)?;
    let mut child = path.copy()?;
    goes_down_and_up(&mut child)
}

fn is_place(at: usize, line: u32, column: u32) -> bool {
    let text = b"ab\ncd";
    at <= text.len() && place_of(text, at) == Place { line, column }
}

fn are_places() -> bool {
    for (at, line, column) in &PLACES {
        if !is_place(*at, *line, *column) {
            return false;
        }
    }
    true
}

#[test]
fn worked_examples(rt: HostRuntime) -> Result<(), Fail> {
    assert!(rt; are_names(rt.alloc())?);
    assert!(rt; is_added(rt.alloc())?);
    assert!(rt; are_joined(rt.alloc())?);
    assert!(rt; are_paths(rt.alloc())?);
    assert!(rt; are_places());
    Ok(())
}
