use sel_core::{fits, matches};
use sel_text::{SelFault, Selector, Skip, read_selector, read_strict_list, write_selector};
use std::alloc::Global;
use std::test::Fail;
use test_building::{NodeRow, path_of, tree_of};
use tp_base::{AtomKind, AtomTable, NoMemory, Path};
use tree_sem::Tree;

type Text = (&'static str, Result<&'static str, (Skip, usize)>);

// A text, and how the selector that it is reads when it is written; or the cause and the place where it is none.
static TEXTS: [Text; 32] = [
    ("a:hover", Ok("a")),
    ("LI.Item#Top", Ok("li.Item#Top")),
    ("  ul >li  .x:AFTER /* all */", Ok("ul > li .x")),
    ("*::before", Ok("*")),
    (":hover", Ok("*")),
    ("a/**/.b/**/>/**/c", Ok("a.b > c")),
    ("a /**/ b", Ok("a b")),
    ("./**/a", Ok(".a")),
    (":/**/hover", Ok("*")),
    ("--x._-y", Ok("--x._-y")),
    ("a + b", Err((Skip::Sibling, 2))),
    ("li:first-child", Err((Skip::Pseudo, 2))),
    ("a:hover(", Err((Skip::Pseudo, 1))),
    ("a::hover", Err((Skip::Pseudo, 1))),
    ("a:ho/**/ver", Err((Skip::Pseudo, 1))),
    (".a[b]", Ok(".a[b]")),
    ("[data-K=V]", Ok("[data-k=\"v\"]")),
    ("[ A = 'x\"y' ]", Ok("[a='x\"y']")),
    ("a[href^='#']", Err((Skip::Attribute, 1))),
    ("[class]", Err((Skip::Attribute, 0))),
    ("a\\b", Err((Skip::Escape, 1))),
    ("a/**/b", Err((Skip::Bad, 5))),
    ("a*", Err((Skip::Bad, 1))),
    (".1", Err((Skip::Bad, 1))),
    (".-1", Err((Skip::Bad, 1))),
    (".:hover", Err((Skip::Pseudo, 1))),
    ("a > ", Err((Skip::Bad, 3))),
    ("a > > b", Err((Skip::Bad, 4))),
    ("> a", Err((Skip::Bad, 0))),
    ("", Err((Skip::Bad, 0))),
    (" /**/ ", Err((Skip::Bad, 6))),
    ("a, b", Err((Skip::Bad, 1))),
];

type Match = (&'static str, &'static [u32], bool, bool);

// A selector, a node of the tree below, whether it matches there, and whether its last compound fits.
static MATCHES: [Match; 10] = [
    ("c", &[0, 0, 0], true, true),
    ("c", &[0, 0], false, false),
    ("*", &[], true, true),
    ("*", &[1], false, false),
    ("a > c", &[0, 0, 0], true, true),
    ("b > c", &[0, 0, 0], false, true),
    ("b c", &[0, 0, 0], true, true),
    ("a > b a > c", &[0, 0, 0], true, true),
    ("a a a c", &[0, 0, 0], false, true),
    ("b > b c", &[0, 0, 0], false, true),
];

// A tree of one branch: a, then b, a and c, which are the atoms 0, 1 and 2.
static BRANCH: [NodeRow; 3] = [(&[], &[1]), (&[0], &[0]), (&[0, 0], &[2])];

fn enter_names(atoms: &mut AtomTable) -> Result<(), SelFault> {
    for name in [b"a", b"b", b"c"] {
        atoms.intern(AtomKind::Element, name)?;
    }
    Ok(())
}

fn subject_fits(tree: &Tree, at: &Path, selector: &Selector) -> bool {
    match selector.parts.items().last() {
        None => false,
        Some(compound) => fits(tree, at, compound),
    }
}

// Whether the selector matches at the node, and so does a copy of it, and whether its last compound fits there.
fn matches_at(tree: &Tree, at: &Path, selector: &Selector) -> Result<(bool, bool, bool), SelFault> {
    let copy = selector.copy()?;
    let copied = matches(tree, at, &copy);
    Ok((
        matches(tree, at, selector),
        copied,
        subject_fits(tree, at, &copy),
    ))
}

fn is_match(
    alloc: Global,
    tree: &Tree,
    selector: &Selector,
    row: &Match,
) -> Result<bool, SelFault> {
    let at = path_of(alloc, row.1)?;
    Ok(matches_at(tree, &at, selector)? == (row.2, row.2, row.3))
}

fn is_right(
    alloc: Global,
    tree: &Tree,
    atoms: &mut AtomTable,
    row: &Match,
) -> Result<bool, SelFault> {
    let selector = read_selector(alloc, row.0.as_bytes(), 0, row.0.len(), atoms)?;
    is_match(alloc, tree, &selector, row)
}

fn is_written(
    alloc: Global,
    selector: &Selector,
    atoms: &AtomTable,
    wanted: &str,
) -> Result<bool, SelFault> {
    let text = write_selector(alloc, selector, atoms)?;
    Ok(text.as_slice() == wanted.as_bytes())
}

// Whether the selector that the text is, and a copy of it, read so when they are written.
fn reads(alloc: Global, text: &str, atoms: &mut AtomTable, wanted: &str) -> Result<bool, SelFault> {
    let selector = read_selector(alloc, text.as_bytes(), 0, text.len(), atoms)?;
    let copy = selector.copy()?;
    Ok(is_written(alloc, &selector, atoms, wanted)? && is_written(alloc, &copy, atoms, wanted)?)
}

fn is_refused(alloc: Global, text: &str, atoms: &mut AtomTable, cause: Skip, at: usize) -> bool {
    let fault = read_selector(alloc, text.as_bytes(), 0, text.len(), atoms).err();
    fault == Some(SelFault::Skipped(cause, at))
}

fn is_read(alloc: Global, atoms: &mut AtomTable, row: &Text) -> Result<bool, SelFault> {
    match row.1 {
        Ok(wanted) => reads(alloc, row.0, atoms, wanted),
        Err((cause, at)) => Ok(is_refused(alloc, row.0, atoms, cause, at)),
    }
}

// Whether a list's second selector is read, and a list with a name that a strict list refuses is refused.
fn reads_lists(alloc: Global, atoms: &mut AtomTable) -> Result<bool, SelFault> {
    let refused = read_strict_list(alloc, b"a, b:hover", atoms).err();
    let list = read_strict_list(alloc, b"a.b , /*,*/ #c > d", atoms)?;
    match list.as_slice() {
        [_, second] => Ok(
            refused == Some(SelFault::Skipped(Skip::Pseudo, 4))
                && is_written(alloc, second, atoms, "#c > d")?,
        ),
        _ => Ok(false),
    }
}

#[test]
fn selectors_read_and_write(rt: HostRuntime) -> Result<(), Fail> {
    let mut atoms = AtomTable::new(rt.alloc());
    for row in &TEXTS {
        assert!(rt; is_read(rt.alloc(), &mut atoms, row)?);
    }
    assert!(rt; reads_lists(rt.alloc(), &mut atoms)?);
    Ok(())
}

fn are_right(alloc: Global, tree: &Tree, atoms: &mut AtomTable) -> Result<bool, SelFault> {
    for row in &MATCHES {
        if !is_right(alloc, tree, atoms, row)? {
            return Ok(false);
        }
    }
    Ok(true)
}

fn all_match(alloc: Global, atoms: &mut AtomTable) -> Result<bool, Fail> {
    enter_names(atoms)?;
    let tree = tree_of(alloc, &[0], &BRANCH)?;
    Ok(are_right(alloc, &tree, atoms)?)
}

#[test]
fn selectors_match(rt: HostRuntime) -> Result<(), Fail> {
    let mut atoms = AtomTable::new(rt.alloc());
    assert!(rt; all_match(rt.alloc(), &mut atoms)?);
    Ok(())
}
