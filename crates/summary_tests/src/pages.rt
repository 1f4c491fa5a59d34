//! The pages of the scripts.
use test_building::{NodeRow, Script};

/// The nodes of a script's page but the root, whose label is html 0. Each page has head 1, body 2 and a div or form 3 with a class 4.
pub fn nodes_of(script: Script) -> &'static [NodeRow] {
    match script {
        Script::Errors => &FORM,
        _ => &ONE,
    }
}

// A body with one node.
static ONE: [NodeRow; 3] = [(&[], &[1]), (&[], &[2]), (&[1], &[3, 4])];

// A body with a form, and a box in it.
static FORM: [NodeRow; 4] = [
    (&[], &[1]),
    (&[], &[2]),
    (&[1], &[3, 4]),
    (&[1, 0], &[5, 6]),
];

/// The nodes but the root of a page whose body has five nodes alike.
pub fn nodes_of_rows() -> &'static [NodeRow] {
    &ROWS
}

static ROWS: [NodeRow; 7] = [
    (&[], &[1]),
    (&[], &[2]),
    (&[1], &[3, 4]),
    (&[1], &[3, 4]),
    (&[1], &[3, 4]),
    (&[1], &[3, 4]),
    (&[1], &[3, 4]),
];
