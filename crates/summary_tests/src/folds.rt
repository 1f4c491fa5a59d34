use folded_page::{Folded, folded};
use node_marks::NumberedTree;
use std::alloc::Global;
use std::test::Fail;
use test_building::{NodeRow, tree_of};
use tp_base::NoMemory;
use tree_sem::{Tree, TreeFault};

// Four rows with three cells each; the third row has another last cell.
static ROWS: [NodeRow; 16] = [
    (&[], &[2]),
    (&[0], &[3]),
    (&[0], &[3]),
    (&[0], &[4]),
    (&[], &[2]),
    (&[1], &[3]),
    (&[1], &[3]),
    (&[1], &[4]),
    (&[], &[2]),
    (&[2], &[3]),
    (&[2], &[3]),
    (&[2], &[5]),
    (&[], &[2]),
    (&[3], &[3]),
    (&[3], &[3]),
    (&[3], &[4]),
];

// The number of each node where they are folded: the second and the fourth row are folded into the first one.
static NUMBERS: [usize; 17] = [0, 1, 2, 2, 3, 1, 2, 2, 3, 4, 5, 5, 6, 1, 2, 2, 3];

// Nodes of which, with the root, half stay.
static HALF: [NodeRow; 3] = [(&[], &[2]), (&[], &[2]), (&[], &[2])];

// Nodes of which more than half stay.
static OTHERS: [NodeRow; 3] = [(&[], &[2]), (&[0], &[3]), (&[0], &[3])];

fn has_numbers(made: &Folded) -> bool {
    if made.numbers.len() != NUMBERS.len() || made.tree.count() != 7 {
        return false;
    }
    for i in 0..NUMBERS.len() {
        if made.numbers[i] != NUMBERS[i] {
            return false;
        }
    }
    true
}

// The page folded, where that is worth it.
fn fold(alloc: Global, page: &Tree) -> Result<Option<Folded>, NoMemory> {
    let columns = NumberedTree::new(alloc, page)?.into_columns();
    folded(alloc, page, &columns)
}

fn folds(alloc: Global, page: &Tree) -> Result<bool, NoMemory> {
    match fold(alloc, page)? {
        None => Ok(false),
        Some(made) => Ok(has_numbers(&made)),
    }
}

// Whether the rows and the half are folded, and the others aren't.
fn folds_rows(alloc: Global) -> Result<bool, TreeFault> {
    let rows = folds(alloc, &tree_of(alloc, &[1], &ROWS)?)?;
    let half = fold(alloc, &tree_of(alloc, &[1], &HALF)?)?.is_some();
    let others = tree_of(alloc, &[1], &OTHERS)?;
    let none = fold(alloc, &others)?.is_none();
    Ok(rows && half && none)
}

#[test]
fn equal_rows_are_folded(rt: HostRuntime) -> Result<(), Fail> {
    assert!(rt; folds_rows(rt.alloc())?);
    Ok(())
}
