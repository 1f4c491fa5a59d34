use crate::building::{A, B, C, D, Piece, page, statement};
use jq_exact::selects_exact;
use jq_stmts::ExactStmt;
use std::alloc::Global;
use std::test::Fail;
use tp_base::{NoMemory, Path};
use tree_sem::{Tree, TreeFault, go_on};

// The pieces of a handler, or none, those of a chain, and the numbers of the nodes that are selected.
type Row = (&'static [Piece], &'static [Piece], &'static [u32]);

static ROWS: [Row; 24] = [
    (&[], &[Piece::Matched(C), Piece::Closest(B)], &[2, 7]),
    (&[], &[Piece::Matched(C), Piece::Closest(A)], &[1, 8]),
    (&[], &[Piece::Matched(B), Piece::Closest(B)], &[2, 4, 7]),
    (&[], &[Piece::Matched(A), Piece::Siblings], &[3, 7, 10, 11]),
    (&[], &[Piece::Matched(C), Piece::SiblingsOf(B)], &[2, 4]),
    (&[], &[Piece::Matched(B), Piece::SiblingsOf(B)], &[]),
    (&[], &[Piece::Matched(C), Piece::First], &[3]),
    (
        &[],
        &[Piece::Matched(B), Piece::Find(C), Piece::First],
        &[3],
    ),
    (
        &[Piece::Matched(B)],
        &[Piece::This, Piece::Find(C), Piece::First],
        &[3, 9],
    ),
    (
        &[Piece::Matched(C)],
        &[Piece::This, Piece::Siblings, Piece::First],
        &[2, 4, 8],
    ),
    (
        &[Piece::Matched(A)],
        &[Piece::This, Piece::Children, Piece::First, Piece::Siblings],
        &[5],
    ),
    (
        &[],
        &[
            Piece::Matched(C),
            Piece::Closest(B),
            Piece::First,
            Piece::End,
            Piece::ChildrenOf(A),
        ],
        &[4, 8],
    ),
    (
        &[Piece::Matched(D)],
        &[Piece::This, Piece::Add(C), Piece::First],
        &[3],
    ),
    (
        &[Piece::Matched(C), Piece::Closest(A)],
        &[Piece::This, Piece::Find(C), Piece::First, Piece::Closest(B)],
        &[2, 7],
    ),
    (
        &[Piece::Matched(B), Piece::First],
        &[Piece::Matched(C), Piece::First],
        &[3],
    ),
    (
        &[Piece::Matched(B)],
        &[Piece::This, Piece::SiblingsOf(C), Piece::First],
        &[3, 5],
    ),
    (
        &[Piece::Matched(A)],
        &[Piece::This, Piece::Siblings, Piece::First],
        &[3, 7, 10],
    ),
    (
        &[Piece::Matched(B)],
        &[Piece::This, Piece::Siblings, Piece::Siblings, Piece::First],
        &[1, 2, 4],
    ),
    (
        &[Piece::Matched(A), Piece::Siblings],
        &[Piece::This, Piece::Children, Piece::Siblings, Piece::First],
        &[8],
    ),
    (
        &[Piece::Matched(C)],
        &[Piece::This, Piece::Add(B), Piece::First],
        &[2],
    ),
    (
        &[Piece::Matched(A)],
        &[Piece::This, Piece::Add(B), Piece::First],
        &[1, 2],
    ),
    (
        &[Piece::Matched(B)],
        &[
            Piece::This,
            Piece::SiblingsOf(C),
            Piece::Add(D),
            Piece::First,
        ],
        &[3, 5, 11],
    ),
    (
        &[Piece::Matched(B)],
        &[
            Piece::This,
            Piece::SiblingsOf(C),
            Piece::First,
            Piece::Add(D),
            Piece::First,
            Piece::Siblings,
        ],
        &[1, 2, 4, 7],
    ),
    (
        &[Piece::Matched(A)],
        &[
            Piece::This,
            Piece::Add(B),
            Piece::ChildrenOf(C),
            Piece::First,
        ],
        &[3],
    ),
];

// The numbers of the nodes that are selected exactly, in the order of the document.
fn add_selected(
    alloc: Global,
    s: &ExactStmt,
    tree: &Tree,
    numbers: &mut Vec<u32>,
) -> Result<(), NoMemory> {
    let mut at = Path::root(alloc);
    for number in 0..tree.count() {
        if selects_exact(alloc, s, tree, &at)? {
            numbers.push(number)?;
        }
        if tree.label(&at).is_none() || !go_on(tree, &mut at)? {
            break;
        }
    }
    Ok(())
}

fn selected(alloc: Global, tree: &Tree, row: &Row) -> Result<Vec<u32>, NoMemory> {
    let s = statement(alloc, row.0, row.1)?;
    let mut numbers = Vec::new(alloc);
    add_selected(alloc, &s, tree, &mut numbers)?;
    Ok(numbers)
}

fn is_right(alloc: Global, tree: &Tree, row: &Row) -> Result<bool, NoMemory> {
    let numbers = selected(alloc, tree, row)?;
    Ok(numbers.as_slice() == row.2)
}

fn are_right(alloc: Global, tree: &Tree) -> Result<bool, NoMemory> {
    for row in &ROWS {
        if !is_right(alloc, tree, row)? {
            return Ok(false);
        }
    }
    Ok(true)
}

fn all_right(alloc: Global) -> Result<bool, TreeFault> {
    let tree = page(alloc)?;
    Ok(are_right(alloc, &tree)?)
}

#[test]
fn selects_exactly(rt: HostRuntime) -> Result<(), Fail> {
    assert!(rt; all_right(rt.alloc())?);
    Ok(())
}
