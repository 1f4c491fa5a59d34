use std::alloc::Global;
use std::test::Fail;
use test_building::{NodeRow, add_child, path_of, set_of, tree_of};
use tp_base::{Atom, ClassSet, NoMemory, Path};
use tree_sem::{Action, Forest, Tree, TreeFault, Trees, go_on};

const CLASS: Atom = Atom(7);

// Whether each call answers that the label grew the first time, and not again.
fn grows_once(tree: &mut Tree, at: &Path, both: &ClassSet) -> Result<bool, TreeFault> {
    let new = tree.add_class(at, CLASS)?;
    let again = tree.add_class(at, CLASS)?;
    let one_new = tree.add_classes(at, both)?;
    let none_new = tree.add_classes(at, both)?;
    Ok(new && !again && one_new && !none_new)
}

fn first_grows_once(alloc: Global, tree: &mut Tree) -> Result<bool, TreeFault> {
    let first = path_of(alloc, &[0])?;
    let both = set_of(alloc, &[8, 7])?;
    grows_once(tree, &first, &both)
}

// A root with two children, where the first has two classes and one child, and whether each call answered as it should.
fn build(alloc: Global) -> Result<(Tree, bool), TreeFault> {
    let mut tree = Tree::new(alloc, ClassSet::new(alloc))?;
    let outer = add_child(alloc, &mut tree, &[], &[])?;
    let grew = first_grows_once(alloc, &mut tree)?;
    let next = add_child(alloc, &mut tree, &[], &[])?;
    let inner = add_child(alloc, &mut tree, &[0], &[])?;
    Ok((tree, grew && outer == 0 && next == 1 && inner == 0))
}

// Whether no child is added where no node is, and then one at the root.
fn adds_a_first_child(alloc: Global) -> Result<bool, TreeFault> {
    let mut tree = Tree::new(alloc, ClassSet::new(alloc))?;
    let refused = add_child(alloc, &mut tree, &[5], &[]);
    let before = tree.count();
    let number = add_child(alloc, &mut tree, &[], &[])?;
    Ok(refused == Err(TreeFault::NoSuchNode) && before == 1 && number == 0 && tree.count() == 2)
}

// How many children are there, and whether the label there and the one of the first `len` numbers have the class.
fn seen(tree: &Tree, at: &Path, len: usize) -> (Option<u32>, Option<bool>, Option<bool>) {
    let here = tree
        .label(at)
        .map(|label| label.has(CLASS) && label.has(Atom(8)));
    let above = tree.label_above(at, len).map(|label| label.has(CLASS));
    (tree.children(at), here, above)
}

type Read = (
    &'static [u32],
    usize,
    (Option<u32>, Option<bool>, Option<bool>),
);

// A path and a length, how many children and which labels are seen.
static READS: [Read; 6] = [
    (&[], 0, (Some(2), Some(false), Some(false))),
    (&[], 1, (Some(2), Some(false), None)),
    (&[0], 0, (Some(1), Some(true), Some(false))),
    (&[0, 0], 1, (Some(0), Some(false), Some(true))),
    (&[1], 1, (Some(0), Some(false), Some(false))),
    (&[1, 0], 1, (None, None, Some(false))),
];

fn shows(alloc: Global, tree: &Tree, row: &Read) -> Result<bool, NoMemory> {
    let at = path_of(alloc, row.0)?;
    Ok(seen(tree, &at, row.1) == row.2)
}

// Whether each path shows what it should.
fn reads_well(alloc: Global, tree: &Tree) -> Result<bool, NoMemory> {
    for row in &READS {
        if !shows(alloc, tree, row)? {
            return Ok(false);
        }
    }
    Ok(true)
}

static FAMILY: [NodeRow; 6] = [
    (&[], &[2]),
    (&[], &[3, 13]),
    (&[], &[4]),
    (&[1], &[5]),
    (&[1], &[6]),
    (&[1, 0], &[7]),
];

/// A tree of seven nodes, each with a class or two: the root with 1, its children with 2, with 3 and 13 and with 4,
/// those of the second with 5 and 6, and one of 5 with 7.
pub(crate) fn family(alloc: Global) -> Result<Tree, TreeFault> {
    tree_of(alloc, &[1], &FAMILY)
}

fn leaf(alloc: Global, class: u32) -> Result<Tree, TreeFault> {
    Ok(Tree::new(alloc, set_of(alloc, &[class])?)?)
}

fn with_child(alloc: Global) -> Result<Tree, TreeFault> {
    tree_of(alloc, &[1], &[(&[], &[2])])
}

// Two trees: one of a node with the class 1 and a child with the class 2, and one of a node with the class 3.
fn two_trees(alloc: Global) -> Result<Trees, TreeFault> {
    let first = with_child(alloc)?;
    let second = leaf(alloc, 3)?;
    Ok(in_a_row(alloc, first, second)?)
}

fn in_a_row(alloc: Global, first: Tree, second: Tree) -> Result<Trees, NoMemory> {
    Ok(Trees::new(vec![in alloc; first, second]?))
}

fn paths_of(alloc: Global, rows: &[&[u32]]) -> Result<Vec<Path>, NoMemory> {
    let mut paths = Vec::new(alloc);
    for steps in rows {
        paths.push(path_of(alloc, steps)?)?;
    }
    Ok(paths)
}

// What is added to the nodes at some paths of a root with two leaves below it: the two trees, or the class 5.
struct Addition {
    trees: bool,
    at: &'static [&'static [u32]],
    fault: Option<TreeFault>,
    // The nodes after it in the order of the document, each by the length of its path, the number of its children,
    // and its last class, where 9 stands for none.
    after: &'static [(usize, u32, u32)],
}

static ADDITIONS: [Addition; 9] = [
    Addition {
        trees: true,
        at: &[],
        fault: None,
        after: &[(0, 2, 9), (1, 0, 9), (1, 0, 9)],
    },
    Addition {
        trees: true,
        at: &[&[]],
        fault: None,
        after: &[
            (0, 4, 9),
            (1, 0, 9),
            (1, 0, 9),
            (1, 1, 1),
            (2, 0, 2),
            (1, 0, 3),
        ],
    },
    Addition {
        trees: true,
        at: &[&[0]],
        fault: None,
        after: &[
            (0, 2, 9),
            (1, 2, 9),
            (2, 1, 1),
            (3, 0, 2),
            (2, 0, 3),
            (1, 0, 9),
        ],
    },
    Addition {
        trees: true,
        at: &[&[1], &[], &[1]],
        fault: None,
        after: &[
            (0, 4, 9),
            (1, 0, 9),
            (1, 4, 9),
            (2, 1, 1),
            (3, 0, 2),
            (2, 0, 3),
            (2, 1, 1),
            (3, 0, 2),
            (2, 0, 3),
            (1, 1, 1),
            (2, 0, 2),
            (1, 0, 3),
        ],
    },
    Addition {
        trees: true,
        at: &[&[2]],
        fault: Some(TreeFault::NoSuchNode),
        after: &[(0, 2, 9), (1, 0, 9), (1, 0, 9)],
    },
    Addition {
        trees: true,
        at: &[&[0], &[0, 0]],
        fault: Some(TreeFault::NoSuchNode),
        after: &[(0, 2, 9), (1, 0, 9), (1, 0, 9)],
    },
    Addition {
        trees: false,
        at: &[&[1], &[], &[1]],
        fault: None,
        after: &[(0, 2, 5), (1, 0, 9), (1, 0, 5)],
    },
    Addition {
        trees: false,
        at: &[],
        fault: None,
        after: &[(0, 2, 9), (1, 0, 9), (1, 0, 9)],
    },
    Addition {
        trees: false,
        at: &[&[0], &[2]],
        fault: Some(TreeFault::NoSuchNode),
        after: &[(0, 2, 9), (1, 0, 9), (1, 0, 9)],
    },
];

pub(crate) fn last_class(label: &ClassSet) -> u32 {
    if label.len() == 0 {
        9
    } else {
        label.at(label.len() - 1).0
    }
}

fn push_nodes(
    alloc: Global,
    tree: &Tree,
    nodes: &mut Vec<(usize, u32, u32)>,
) -> Result<(), NoMemory> {
    let mut at = Path::root(alloc);
    for _ in 0..20 {
        let Some(label) = tree.label(&at) else {
            break;
        };
        nodes.push((at.len(), tree.children(&at).unwrap_or(0), last_class(label)))?;
        if !go_on(tree, &mut at)? {
            break;
        }
    }
    Ok(())
}

/// Whether the nodes of a tree are as the rows have them.
pub(crate) fn has_shape(
    alloc: Global,
    tree: &Tree,
    rows: &[(usize, u32, u32)],
) -> Result<bool, NoMemory> {
    let mut nodes = Vec::new(alloc);
    push_nodes(alloc, tree, &mut nodes)?;
    Ok(nodes.as_slice() == rows)
}

fn two_leaves(alloc: Global) -> Result<Tree, TreeFault> {
    tree_of(alloc, &[], &[(&[], &[]), (&[], &[])])
}

fn add_class(alloc: Global, tree: &mut Tree, at: &[Path]) -> Result<(), TreeFault> {
    let class = set_of(alloc, &[5])?;
    tree.add_classes_to_each(at, &class)
}

fn add_trees(alloc: Global, tree: &mut Tree, at: &[Path]) -> Result<(), TreeFault> {
    let trees = two_trees(alloc)?;
    match at {
        [one] => tree.add_trees(one, trees.items()),
        _ => tree.add_trees_to_each(at, trees.items()),
    }
}

fn add(alloc: Global, tree: &mut Tree, row: &Addition) -> Result<(), TreeFault> {
    let at = paths_of(alloc, row.at)?;
    if row.trees {
        add_trees(alloc, tree, &at)
    } else {
        add_class(alloc, tree, &at)
    }
}

// Whether the call answers as its row says, and the tree is then as it says.
fn adds(alloc: Global, row: &Addition) -> Result<bool, TreeFault> {
    let mut tree = two_leaves(alloc)?;
    let answer = add(alloc, &mut tree, row);
    Ok(answer.err() == row.fault && has_shape(alloc, &tree, row.after)?)
}

#[test]
fn adds_to_each_node_or_to_none(rt: HostRuntime) -> Result<(), Fail> {
    for row in &ADDITIONS {
        assert!(rt; adds(rt.alloc(), row)?);
    }
    Ok(())
}

// How many trees and nodes an action adds at the top, and how many classes.
fn amounts(action: &Action) -> (usize, u32, usize) {
    match action {
        Action::Classes(classes) => (0, 0, classes.len()),
        Action::Inside(forest) => (forest.tops.items().len(), first_count(forest), 0),
        Action::Beside(forest) => (forest.tops.items().len(), first_count(forest), 1),
    }
}

fn first_count(forest: &Forest) -> u32 {
    match forest.tops.items().first() {
        None => 0,
        Some(top) => top.count(),
    }
}

fn amounts_of_copy(action: &Action) -> Result<(usize, u32, usize), NoMemory> {
    let copy = action.copy()?;
    Ok(amounts(&copy))
}

fn copied_classes(alloc: Global) -> Result<(usize, u32, usize), NoMemory> {
    let classes = Action::Classes(set_of(alloc, &[4, 6])?);
    amounts_of_copy(&classes)
}

fn copied_inside(alloc: Global) -> Result<(usize, u32, usize), TreeFault> {
    let tops = two_trees(alloc)?;
    Ok(amounts_of_copy(&Action::Inside(Forest { tops }))?)
}

fn copied_beside(alloc: Global) -> Result<(usize, u32, usize), TreeFault> {
    let tops = two_trees(alloc)?;
    Ok(amounts_of_copy(&Action::Beside(Forest { tops }))?)
}

#[test]
fn copies_are_the_same(rt: HostRuntime) -> Result<(), Fail> {
    assert!(rt; copied_classes(rt.alloc())? == (0, 0, 2));
    assert!(rt; copied_inside(rt.alloc())? == (2, 2, 0));
    assert!(rt; copied_beside(rt.alloc())? == (2, 2, 1));
    Ok(())
}

fn reads_and_walks(alloc: Global, tree: &Tree) -> Result<bool, NoMemory> {
    let rows = [(0, 2, 9), (1, 1, 8), (2, 0, 9), (1, 0, 9)];
    Ok(reads_well(alloc, tree)? && has_shape(alloc, tree, &rows)?)
}

// Whether the tree is built as it should, and it and its copy are read so.
fn is_built(alloc: Global) -> Result<bool, TreeFault> {
    let (tree, right) = build(alloc)?;
    let copy = tree.copy()?;
    Ok(right && reads_and_walks(alloc, &tree)? && reads_and_walks(alloc, &copy)?)
}

#[test]
fn builds_reads_and_walks_a_tree(rt: HostRuntime) -> Result<(), Fail> {
    assert!(rt; adds_a_first_child(rt.alloc())?);
    assert!(rt; is_built(rt.alloc())?);
    Ok(())
}
