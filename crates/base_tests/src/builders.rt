use crate::trees::has_shape;
use std::alloc::Global;
use std::test::Fail;
use test_building::{is_path, path_of, set_of};
use tp_base::ClassSet;
use tree_sem::{Tree, TreeBuilder, TreeFault};

// What is done with a builder: it goes down to a child or up some levels, gives the current node or the one at a path a
// child with one class, or the node at a path a class.
enum Turn {
    Down(u32),
    Up(usize),
    Child(u32),
    ChildAt(&'static [u32], u32),
    ClassAt(&'static [u32], u32),
}

struct TurnRow {
    turn: Turn,
    // The child's number, where one is added, and else 0.
    answer: Result<u32, TreeFault>,
    // The current node's path after it.
    at: &'static [u32],
}

static TURNS: [TurnRow; 15] = [
    TurnRow {
        turn: Turn::Child(1),
        answer: Ok(0),
        at: &[],
    },
    TurnRow {
        turn: Turn::Down(1),
        answer: Err(TreeFault::NoSuchNode),
        at: &[],
    },
    TurnRow {
        turn: Turn::Down(0),
        answer: Ok(0),
        at: &[0],
    },
    TurnRow {
        turn: Turn::Child(2),
        answer: Ok(0),
        at: &[0],
    },
    TurnRow {
        turn: Turn::Child(3),
        answer: Ok(1),
        at: &[0],
    },
    TurnRow {
        turn: Turn::Down(1),
        answer: Ok(0),
        at: &[0, 1],
    },
    TurnRow {
        turn: Turn::Child(4),
        answer: Ok(0),
        at: &[0, 1],
    },
    TurnRow {
        turn: Turn::ChildAt(&[], 5),
        answer: Ok(1),
        at: &[0, 1],
    },
    TurnRow {
        turn: Turn::ChildAt(&[2], 6),
        answer: Err(TreeFault::NoSuchNode),
        at: &[0, 1],
    },
    TurnRow {
        turn: Turn::ClassAt(&[1], 8),
        answer: Ok(0),
        at: &[0, 1],
    },
    TurnRow {
        turn: Turn::ClassAt(&[0, 5], 8),
        answer: Err(TreeFault::NoSuchNode),
        at: &[0, 1],
    },
    TurnRow {
        turn: Turn::Up(1),
        answer: Ok(0),
        at: &[0],
    },
    TurnRow {
        turn: Turn::Child(7),
        answer: Ok(2),
        at: &[0],
    },
    TurnRow {
        turn: Turn::Up(3),
        answer: Ok(0),
        at: &[],
    },
    TurnRow {
        turn: Turn::Child(2),
        answer: Ok(2),
        at: &[],
    },
];

fn done(alloc: Global, builder: &mut TreeBuilder, turn: &Turn) -> Result<u32, TreeFault> {
    match turn {
        Turn::Down(step) => builder.go_down(*step).map(|_| 0),
        Turn::Up(levels) => {
            builder.go_up(*levels);
            Ok(0)
        }
        Turn::Child(class) => builder.add_child(set_of(alloc, &[*class])?),
        Turn::ChildAt(at, class) => {
            builder.add_child_at(&path_of(alloc, at)?, set_of(alloc, &[*class])?)
        }
        Turn::ClassAt(at, class) => {
            let at = path_of(alloc, at)?;
            builder
                .add_classes_at(&at, &set_of(alloc, &[*class])?)
                .map(|_| 0)
        }
    }
}

// Whether each turn answers and ends as its row says.
fn turns(alloc: Global, builder: &mut TreeBuilder) -> bool {
    let mut right = true;
    for row in &TURNS {
        let answer = done(alloc, builder, &row.turn);
        right = right && answer == row.answer && is_path(builder.path(), row.at);
    }
    right
}

static BUILT: [(usize, u32, u32); 8] = [
    (0, 3, 9),
    (1, 3, 1),
    (2, 0, 2),
    (2, 1, 3),
    (3, 0, 4),
    (2, 0, 7),
    (1, 0, 8),
    (1, 0, 2),
];

// Whether each turn is right, and so is what is built then.
fn builds(alloc: Global) -> Result<bool, TreeFault> {
    let root = Tree::new(alloc, ClassSet::new(alloc))?;
    let mut builder = TreeBuilder::new(root);
    let right = turns(alloc, &mut builder);
    let tree = builder.finish();
    Ok(right && has_shape(alloc, &tree, &BUILT)?)
}

#[test]
fn a_builder_grows_where_it_stands(rt: HostRuntime) -> Result<(), Fail> {
    assert!(rt; builds(rt.alloc())?);
    Ok(())
}
