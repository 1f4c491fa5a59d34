use crate::trees::{family, has_shape};
use std::alloc::Global;
use std::test::Fail;
use test_building::{add_child, path_of, set_of};
use tp_base::{Atom, NoMemory};
use tree_sem::{Tree, TreeFault};

// A class that is taken from the node at a path, what the call answers, and what it answers once more.
// The nodes after it stand as in rows of shapes.
struct Loss {
    at: &'static [u32],
    class: u32,
    answers: (Option<bool>, Option<bool>),
    after: &'static [(usize, u32, u32)],
}

static LOSSES: [Loss; 5] = [
    Loss {
        at: &[1],
        class: 13,
        answers: (Some(true), Some(false)),
        after: &[
            (0, 3, 1),
            (1, 0, 2),
            (1, 2, 3),
            (2, 1, 5),
            (3, 0, 7),
            (2, 0, 6),
            (1, 0, 4),
        ],
    },
    Loss {
        at: &[1, 0, 0],
        class: 7,
        answers: (Some(true), Some(false)),
        after: &[
            (0, 3, 1),
            (1, 0, 2),
            (1, 2, 13),
            (2, 1, 5),
            (3, 0, 9),
            (2, 0, 6),
            (1, 0, 4),
        ],
    },
    Loss {
        at: &[],
        class: 1,
        answers: (Some(true), Some(false)),
        after: &[
            (0, 3, 9),
            (1, 0, 2),
            (1, 2, 13),
            (2, 1, 5),
            (3, 0, 7),
            (2, 0, 6),
            (1, 0, 4),
        ],
    },
    Loss {
        at: &[1],
        class: 5,
        answers: (Some(false), Some(false)),
        after: &[
            (0, 3, 1),
            (1, 0, 2),
            (1, 2, 13),
            (2, 1, 5),
            (3, 0, 7),
            (2, 0, 6),
            (1, 0, 4),
        ],
    },
    Loss {
        at: &[1, 2],
        class: 5,
        answers: (None, None),
        after: &[
            (0, 3, 1),
            (1, 0, 2),
            (1, 2, 13),
            (2, 1, 5),
            (3, 0, 7),
            (2, 0, 6),
            (1, 0, 4),
        ],
    },
];

// What the call answers, once and again.
fn take_twice(
    alloc: Global,
    tree: &mut Tree,
    row: &Loss,
) -> Result<(Option<bool>, Option<bool>), NoMemory> {
    let at = path_of(alloc, row.at)?;
    let first = tree.take_class(&at, Atom(row.class));
    Ok((first, tree.take_class(&at, Atom(row.class))))
}

fn loses(alloc: Global, row: &Loss) -> Result<bool, TreeFault> {
    let mut tree = family(alloc)?;
    let answers = take_twice(alloc, &mut tree, row)?;
    Ok(answers == row.answers && has_shape(alloc, &tree, row.after)?)
}

#[test]
fn takes_a_class_from_one_node(rt: HostRuntime) -> Result<(), Fail> {
    for row in &LOSSES {
        assert!(rt; loses(rt.alloc(), row)?);
    }
    Ok(())
}

// A node that is cut off, whether it was, how many nodes are left, and the tree's nodes where then one with the
// class 8 is added below the root, and one with 10 below its first child.
struct Cut {
    at: &'static [u32],
    was: bool,
    count: u32,
    after: &'static [(usize, u32, u32)],
}

static CUTS: [Cut; 7] = [
    Cut {
        at: &[],
        was: false,
        count: 7,
        after: &[
            (0, 4, 1),
            (1, 1, 2),
            (2, 0, 10),
            (1, 2, 13),
            (2, 1, 5),
            (3, 0, 7),
            (2, 0, 6),
            (1, 0, 4),
            (1, 0, 8),
        ],
    },
    Cut {
        at: &[1, 2],
        was: false,
        count: 7,
        after: &[
            (0, 4, 1),
            (1, 1, 2),
            (2, 0, 10),
            (1, 2, 13),
            (2, 1, 5),
            (3, 0, 7),
            (2, 0, 6),
            (1, 0, 4),
            (1, 0, 8),
        ],
    },
    Cut {
        at: &[3, 0],
        was: false,
        count: 7,
        after: &[
            (0, 4, 1),
            (1, 1, 2),
            (2, 0, 10),
            (1, 2, 13),
            (2, 1, 5),
            (3, 0, 7),
            (2, 0, 6),
            (1, 0, 4),
            (1, 0, 8),
        ],
    },
    Cut {
        at: &[1],
        was: true,
        count: 3,
        after: &[(0, 3, 1), (1, 1, 2), (2, 0, 10), (1, 0, 4), (1, 0, 8)],
    },
    Cut {
        at: &[0],
        was: true,
        count: 6,
        after: &[
            (0, 3, 1),
            (1, 3, 13),
            (2, 1, 5),
            (3, 0, 7),
            (2, 0, 6),
            (2, 0, 10),
            (1, 0, 4),
            (1, 0, 8),
        ],
    },
    Cut {
        at: &[1, 0],
        was: true,
        count: 5,
        after: &[
            (0, 4, 1),
            (1, 1, 2),
            (2, 0, 10),
            (1, 1, 13),
            (2, 0, 6),
            (1, 0, 4),
            (1, 0, 8),
        ],
    },
    Cut {
        at: &[1, 0, 0],
        was: true,
        count: 6,
        after: &[
            (0, 4, 1),
            (1, 1, 2),
            (2, 0, 10),
            (1, 2, 13),
            (2, 0, 5),
            (2, 0, 6),
            (1, 0, 4),
            (1, 0, 8),
        ],
    },
];

fn cut_at(alloc: Global, tree: &mut Tree, at: &[u32]) -> Result<bool, NoMemory> {
    let at = path_of(alloc, at)?;
    Ok(tree.cut(&at))
}

// Whether the call answers as its row says, and the tree is as it says after both additions.
fn cuts(alloc: Global, row: &Cut) -> Result<bool, TreeFault> {
    let mut tree = family(alloc)?;
    let was = cut_at(alloc, &mut tree, row.at)?;
    let count = tree.count();
    add_child(alloc, &mut tree, &[], &[8])?;
    add_child(alloc, &mut tree, &[0], &[10])?;
    Ok(was == row.was && count == row.count && has_shape(alloc, &tree, row.after)?)
}

#[test]
fn cuts_a_node_off_and_uses_its_place_again(rt: HostRuntime) -> Result<(), Fail> {
    for row in &CUTS {
        assert!(rt; cuts(rt.alloc(), row)?);
    }
    Ok(())
}
