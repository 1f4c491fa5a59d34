//! Guards and rules as texts, with the names of a table.
use guard_sem::{Guard, GuardNode, Rule};
use std::alloc::Global;
use test_reading::{put, put_atom, put_label};
use tp_base::{AtomTable, NoMemory, Path};
use tree_sem::{Action, Forest, Tree};

// A word, and in brackets the guard.
#[cycle(writing)]
fn put_inner(out: &mut Vec<u8>, atoms: &AtomTable, word: &[u8], g: &Guard) -> Result<(), NoMemory> {
    put(out, word)?;
    put(out, b"(")?;
    put_guard(out, atoms, g)?;
    put(out, b")")
}

// A word, and in brackets the guards, each behind a space.
#[cycle(writing)]
fn put_all(
    out: &mut Vec<u8>,
    atoms: &AtomTable,
    word: &[u8],
    guards: &[Guard],
) -> Result<(), NoMemory> {
    put(out, word)?;
    put(out, b"(")?;
    'guards: for g in guards {
        put(out, b" ")?;
        put_guard(out, atoms, g)?;
    }
    put(out, b" )")
}

#[cycle(writing)]
fn put_guard(out: &mut Vec<u8>, atoms: &AtomTable, g: &Guard) -> Result<(), NoMemory> {
    match &g.node {
        GuardNode::True => put(out, b"true"),
        GuardNode::Atom(a) => put_atom(out, atoms, *a),
        GuardNode::All(guards) => put_all(out, atoms, b"all", guards.items()),
        GuardNode::Any(guards) => put_all(out, atoms, b"any", guards.items()),
        GuardNode::Parent(g) => put_inner(out, atoms, b"parent", g),
        GuardNode::Ancestor(g) => put_inner(out, atoms, b"ancestor", g),
        GuardNode::Child(g) => put_inner(out, atoms, b"child", g),
        GuardNode::Descendant(g) => put_inner(out, atoms, b"descendant", g),
        GuardNode::Somewhere(g) => put_inner(out, atoms, b"somewhere", g),
        GuardNode::AtOrBelow(g) => put_inner(out, atoms, b"at_or_below", g),
    }
}

// The label of the tree's root, and two dots where there are more nodes.
fn put_tree(
    out: &mut Vec<u8>,
    atoms: &AtomTable,
    tree: &Tree,
    root: &Path,
) -> Result<(), NoMemory> {
    if let Some(label) = tree.label(root) {
        put_label(out, atoms, label)?;
    }
    if tree.count() > 1 {
        put(out, b"..")?;
    }
    Ok(())
}

fn put_forest(out: &mut Vec<u8>, atoms: &AtomTable, forest: &Forest) -> Result<(), NoMemory> {
    let root = Path::root(*out.allocator());
    for tree in forest.tops.items() {
        put_tree(out, atoms, tree, &root)?;
    }
    Ok(())
}

fn put_action(out: &mut Vec<u8>, atoms: &AtomTable, action: &Action) -> Result<(), NoMemory> {
    match action {
        Action::Classes(classes) => {
            put(out, b" adds")?;
            put_label(out, atoms, classes)
        }
        Action::Inside(forest) => {
            put(out, b" inside")?;
            put_forest(out, atoms, forest)
        }
        Action::Beside(forest) => {
            put(out, b" beside")?;
            put_forest(out, atoms, forest)
        }
    }
}

/// The text of a guard.
pub fn guard_text(alloc: Global, g: &Guard, atoms: &AtomTable) -> Result<Vec<u8>, NoMemory> {
    let mut out = Vec::new(alloc);
    put_guard(&mut out, atoms, g)?;
    Ok(out)
}

/// The text of a rule: where it acts, and what it does there.
pub fn rule_text(alloc: Global, rule: &Rule, atoms: &AtomTable) -> Result<Vec<u8>, NoMemory> {
    let mut out = guard_text(alloc, &rule.guard, atoms)?;
    put_action(&mut out, atoms, &rule.action)?;
    Ok(out)
}
