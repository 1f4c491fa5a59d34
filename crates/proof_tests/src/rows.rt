//! Proofs, as tables: those that hold, with what they unfold to, and the same with one thing wrong.
use crate::systems::{BESIDE, BOXES, ERRORS, LISTS, SHARED};
use proof_core::Below::{Grown, Real};
use proof_core::Reason::{self, Down, Local, Start, Up};
use test_building::{NodeRow, Rules};

/// Which system a proof is over.
#[derive(Clone, Copy)]
pub enum Script {
    Boxes,
    Errors,
    Lists,
    Shared,
    Beside,
}

pub fn rules_of(script: Script) -> &'static Rules {
    match script {
        Script::Boxes => &BOXES,
        Script::Errors => &ERRORS,
        Script::Lists => &LISTS,
        Script::Shared => &SHARED,
        Script::Beside => &BESIDE,
    }
}

/// An item: its atom, and its reason.
pub type ItemRow = (u32, Reason);

/// An item of the page: its node's path, its atom, and its reason.
pub type PageItemRow = (&'static [u32], u32, Reason);

pub struct EntryRow {
    pub kind: u32,
    pub parent: &'static [u32],
    pub items: &'static [ItemRow],
    pub steps: u64,
}

pub struct ProofRow {
    pub script: Script,
    pub page: &'static [NodeRow],
    pub entries: &'static [EntryRow],
    pub items: &'static [PageItemRow],
    pub target: u32,
}

/// A step: its statement, and its node.
pub type StepRow = (u32, &'static [u32]);

/// The steps of a proof, and the node at which they end.
pub type WantRow = (&'static [StepRow], &'static [u32]);

/// Each page has html, head and body, which are 0, 1 and 2.
pub static VALID: [(ProofRow, WantRow); 5] = [
    (
        ProofRow {
            script: Script::Boxes,
            page: &[(&[], &[1]), (&[], &[2]), (&[1], &[3, 4])],
            entries: &[
                EntryRow {
                    kind: 0,
                    parent: &[6],
                    items: &[(4, Start), (7, Up(2)), (8, Local(1)), (9, Local(2))],
                    steps: 0,
                },
                EntryRow {
                    kind: 0,
                    parent: &[4],
                    items: &[
                        (4, Start),
                        (5, Up(0)),
                        (6, Local(0)),
                        (9, Down(0, Grown(0, 0))),
                    ],
                    steps: 1,
                },
            ],
            items: &[
                (&[1, 0], 4, Start),
                (&[1, 0], 9, Down(0, Grown(0, 1))),
                (&[1], 9, Down(0, Real(0))),
                (&[], 9, Down(0, Real(1))),
            ],
            target: 9,
        },
        (&[(0, &[1, 0]), (0, &[1, 0, 0])], &[1, 0, 0, 0]),
    ),
    (
        ProofRow {
            script: Script::Errors,
            page: &[
                (&[], &[1]),
                (&[], &[2]),
                (&[1], &[3, 4]),
                (&[1, 0], &[5, 6]),
            ],
            entries: &[
                EntryRow {
                    kind: 1,
                    parent: &[],
                    items: &[(10, Start)],
                    steps: 0,
                },
                EntryRow {
                    kind: 0,
                    parent: &[],
                    items: &[(14, Start), (11, Down(0, Grown(1, 0)))],
                    steps: 0,
                },
            ],
            items: &[
                (&[1, 0], 3, Start),
                (&[1, 0, 0], 6, Start),
                (&[1, 0, 0], 11, Down(1, Grown(0, 1))),
                (&[1, 0], 11, Down(1, Real(0))),
                (&[1, 0], 12, Local(0)),
                (&[1, 0], 7, Local(2)),
                (&[1, 0], 13, Local(1)),
                (&[1, 0], 15, Local(3)),
                (&[1], 15, Down(2, Real(0))),
                (&[], 15, Down(2, Real(1))),
            ],
            target: 15,
        },
        (&[(0, &[1, 0, 0]), (1, &[1, 0])], &[1, 0]),
    ),
    (
        ProofRow {
            script: Script::Lists,
            page: &[(&[], &[1]), (&[], &[2]), (&[1], &[3, 4])],
            entries: &[EntryRow {
                kind: 0,
                parent: &[4],
                items: &[
                    (5, Start),
                    (7, Start),
                    (8, Up(0)),
                    (9, Local(0)),
                    (6, Local(2)),
                    (10, Local(1)),
                    (11, Local(3)),
                ],
                steps: 1,
            }],
            items: &[
                (&[1, 0], 4, Start),
                (&[1, 0], 11, Down(0, Grown(0, 0))),
                (&[1], 11, Down(0, Real(0))),
                (&[], 11, Down(0, Real(1))),
            ],
            target: 11,
        },
        (&[(0, &[1, 0]), (1, &[1, 0, 0])], &[1, 0, 0]),
    ),
    // The inner node /1/0/0/0 is entered by two entries: the second goes on where the first one stopped.
    (
        ProofRow {
            script: Script::Shared,
            page: &[(&[], &[1]), (&[], &[2]), (&[1], &[3, 4])],
            entries: &[
                EntryRow {
                    kind: 2,
                    parent: &[],
                    items: &[(10, Start), (13, Local(3))],
                    steps: 1,
                },
                EntryRow {
                    kind: 1,
                    parent: &[],
                    items: &[(8, Start), (15, Down(0, Grown(2, 0)))],
                    steps: 2,
                },
                EntryRow {
                    kind: 3,
                    parent: &[],
                    items: &[(12, Start), (14, Local(4))],
                    steps: 1,
                },
                EntryRow {
                    kind: 1,
                    parent: &[],
                    items: &[(8, Start), (17, Down(2, Grown(3, 2)))],
                    steps: 2,
                },
                EntryRow {
                    kind: 0,
                    parent: &[],
                    items: &[
                        (5, Start),
                        (20, Start),
                        (15, Down(1, Grown(1, 1))),
                        (17, Down(3, Grown(1, 3))),
                        (16, Local(0)),
                        (18, Local(1)),
                        (6, Local(5)),
                        (19, Local(2)),
                        (21, Local(6)),
                    ],
                    steps: 5,
                },
            ],
            items: &[
                (&[1, 0], 4, Start),
                (&[1, 0], 21, Down(4, Grown(0, 4))),
                (&[1], 21, Down(4, Real(0))),
                (&[], 21, Down(4, Real(1))),
            ],
            target: 21,
        },
        (
            &[
                (0, &[1, 0]),
                (1, &[1, 0, 0, 0]),
                (3, &[1, 0, 0, 0, 0]),
                (2, &[1, 0, 0, 0]),
                (4, &[1, 0, 0, 0, 1]),
                (5, &[1, 0, 0]),
            ],
            &[1, 0, 0],
        ),
    ),
    // The new nodes come behind the page's child, two at a time, from a step at the child that asks for them.
    (
        ProofRow {
            script: Script::Beside,
            page: &[(&[], &[1]), (&[], &[2]), (&[1], &[3, 4]), (&[1, 0], &[5])],
            entries: &[
                EntryRow {
                    kind: 0,
                    parent: &[],
                    items: &[(9, Start)],
                    steps: 0,
                },
                EntryRow {
                    kind: 1,
                    parent: &[],
                    items: &[(7, Start)],
                    steps: 0,
                },
                EntryRow {
                    kind: 1,
                    parent: &[6],
                    items: &[(7, Start), (16, Up(0)), (17, Local(0)), (18, Local(2))],
                    steps: 0,
                },
            ],
            items: &[
                (&[1, 0], 4, Start),
                (&[1, 0], 13, Down(0, Grown(0, 0))),
                (&[1, 0], 14, Down(1, Grown(1, 1))),
                (&[1, 0], 6, Local(1)),
                (&[1, 0], 18, Down(2, Grown(1, 2))),
                (&[1], 18, Down(2, Real(0))),
                (&[], 18, Down(2, Real(1))),
            ],
            target: 18,
        },
        (
            &[(0, &[1, 0]), (1, &[1, 0, 1]), (2, &[1, 0]), (1, &[1, 0, 1])],
            &[1, 0, 4],
        ),
    ),
];

/// Each of these is one of those above but for one thing, which the comment names.
pub static INVALID: [ProofRow; 10] = [
    // an item before its premise, in an entry
    ProofRow {
        script: Script::Lists,
        page: &[(&[], &[1]), (&[], &[2]), (&[1], &[3, 4])],
        entries: &[EntryRow {
            kind: 0,
            parent: &[4],
            items: &[
                (5, Start),
                (7, Start),
                (9, Local(0)),
                (8, Up(0)),
                (6, Local(2)),
                (10, Local(1)),
                (11, Local(3)),
            ],
            steps: 1,
        }],
        items: &[
            (&[1, 0], 4, Start),
            (&[1, 0], 11, Down(0, Grown(0, 0))),
            (&[1], 11, Down(0, Real(0))),
            (&[], 11, Down(0, Real(1))),
        ],
        target: 11,
    },
    // an item before its premise, on the page
    ProofRow {
        script: Script::Lists,
        page: &[(&[], &[1]), (&[], &[2]), (&[1], &[3, 4])],
        entries: &[EntryRow {
            kind: 0,
            parent: &[4],
            items: &[
                (5, Start),
                (7, Start),
                (8, Up(0)),
                (9, Local(0)),
                (6, Local(2)),
                (10, Local(1)),
                (11, Local(3)),
            ],
            steps: 1,
        }],
        items: &[
            (&[1, 0], 4, Start),
            (&[1], 11, Down(0, Real(0))),
            (&[1, 0], 11, Down(0, Grown(0, 0))),
            (&[], 11, Down(0, Real(1))),
        ],
        target: 11,
    },
    // an entry of a higher number
    ProofRow {
        script: Script::Boxes,
        page: &[(&[], &[1]), (&[], &[2]), (&[1], &[3, 4])],
        entries: &[
            EntryRow {
                kind: 0,
                parent: &[4],
                items: &[
                    (4, Start),
                    (5, Up(0)),
                    (6, Local(0)),
                    (9, Down(0, Grown(0, 1))),
                ],
                steps: 1,
            },
            EntryRow {
                kind: 0,
                parent: &[6],
                items: &[(4, Start), (7, Up(2)), (8, Local(1)), (9, Local(2))],
                steps: 0,
            },
        ],
        items: &[
            (&[1, 0], 4, Start),
            (&[1, 0], 9, Down(0, Grown(0, 0))),
            (&[1], 9, Down(0, Real(0))),
            (&[], 9, Down(0, Real(1))),
        ],
        target: 9,
    },
    // a kept count of one too many
    ProofRow {
        script: Script::Lists,
        page: &[(&[], &[1]), (&[], &[2]), (&[1], &[3, 4])],
        entries: &[EntryRow {
            kind: 0,
            parent: &[4],
            items: &[
                (5, Start),
                (7, Start),
                (8, Up(0)),
                (9, Local(0)),
                (6, Local(2)),
                (10, Local(1)),
                (11, Local(3)),
            ],
            steps: 2,
        }],
        items: &[
            (&[1, 0], 4, Start),
            (&[1, 0], 11, Down(0, Grown(0, 0))),
            (&[1], 11, Down(0, Real(0))),
            (&[], 11, Down(0, Real(1))),
        ],
        target: 11,
    },
    // an inner kind below a node of the page, which has what asks for it
    ProofRow {
        script: Script::Errors,
        page: &[
            (&[], &[1]),
            (&[], &[2]),
            (&[1], &[3, 4]),
            (&[1, 0], &[5, 6, 14]),
        ],
        entries: &[EntryRow {
            kind: 1,
            parent: &[],
            items: &[(10, Start)],
            steps: 0,
        }],
        items: &[
            (&[1, 0], 3, Start),
            (&[1, 0, 0], 14, Start),
            (&[1, 0, 0], 11, Down(0, Grown(1, 0))),
            (&[1, 0], 11, Down(1, Real(0))),
            (&[1, 0], 12, Local(0)),
            (&[1, 0], 7, Local(2)),
            (&[1, 0], 13, Local(1)),
            (&[1, 0], 15, Local(3)),
            (&[1], 15, Down(2, Real(0))),
            (&[], 15, Down(2, Real(1))),
        ],
        target: 15,
    },
    // an inner kind below a kind that isn't the one above it
    ProofRow {
        script: Script::Errors,
        page: &[
            (&[], &[1]),
            (&[], &[2]),
            (&[1], &[3, 4]),
            (&[1, 0], &[5, 6]),
        ],
        entries: &[
            EntryRow {
                kind: 1,
                parent: &[],
                items: &[(10, Start)],
                steps: 0,
            },
            EntryRow {
                kind: 2,
                parent: &[],
                items: &[(14, Start), (11, Down(0, Grown(1, 0)))],
                steps: 0,
            },
        ],
        items: &[
            (&[1, 0], 3, Start),
            (&[1, 0, 0], 6, Start),
            (&[1, 0, 0], 11, Down(1, Grown(2, 1))),
            (&[1, 0], 11, Down(1, Real(0))),
            (&[1, 0], 12, Local(0)),
            (&[1, 0], 7, Local(2)),
            (&[1, 0], 13, Local(1)),
            (&[1, 0], 15, Local(3)),
            (&[1], 15, Down(2, Real(0))),
            (&[], 15, Down(2, Real(1))),
        ],
        target: 15,
    },
    // no child asks for what comes beside it: the node has the atom from the start
    ProofRow {
        script: Script::Beside,
        page: &[
            (&[], &[1]),
            (&[], &[2]),
            (&[1], &[3, 4, 13]),
            (&[1, 0], &[5]),
        ],
        entries: &[
            EntryRow {
                kind: 0,
                parent: &[],
                items: &[(9, Start)],
                steps: 0,
            },
            EntryRow {
                kind: 1,
                parent: &[],
                items: &[(7, Start)],
                steps: 0,
            },
            EntryRow {
                kind: 1,
                parent: &[6],
                items: &[(7, Start), (16, Up(0)), (17, Local(0)), (18, Local(2))],
                steps: 0,
            },
        ],
        items: &[
            (&[1, 0], 4, Start),
            (&[1, 0], 13, Start),
            (&[1, 0], 14, Down(1, Grown(1, 1))),
            (&[1, 0], 6, Local(1)),
            (&[1, 0], 18, Down(2, Grown(1, 2))),
            (&[1], 18, Down(2, Real(0))),
            (&[], 18, Down(2, Real(1))),
        ],
        target: 18,
    },
    // a rule whose needs aren't met, in the first item
    ProofRow {
        script: Script::Boxes,
        page: &[(&[], &[1]), (&[], &[2]), (&[1], &[3, 4])],
        entries: &[
            EntryRow {
                kind: 0,
                parent: &[6],
                items: &[(4, Start), (7, Up(2)), (8, Local(1)), (9, Local(2))],
                steps: 0,
            },
            EntryRow {
                kind: 0,
                parent: &[4],
                items: &[
                    (4, Start),
                    (5, Up(0)),
                    (6, Local(0)),
                    (9, Down(0, Grown(0, 0))),
                ],
                steps: 1,
            },
        ],
        items: &[
            (&[1, 0], 4, Local(1)),
            (&[1, 0], 9, Down(0, Grown(0, 1))),
            (&[1], 9, Down(0, Real(0))),
            (&[], 9, Down(0, Real(1))),
        ],
        target: 9,
    },
    // what an entry takes from its parent isn't there
    ProofRow {
        script: Script::Boxes,
        page: &[(&[], &[1]), (&[], &[2]), (&[1], &[3, 4])],
        entries: &[
            EntryRow {
                kind: 0,
                parent: &[6],
                items: &[(4, Start), (7, Up(2)), (8, Local(1)), (9, Local(2))],
                steps: 0,
            },
            EntryRow {
                kind: 0,
                parent: &[],
                items: &[(4, Start), (9, Down(0, Grown(0, 0)))],
                steps: 1,
            },
        ],
        items: &[
            (&[1, 0], 4, Start),
            (&[1, 0], 9, Down(0, Grown(0, 1))),
            (&[1], 9, Down(0, Real(0))),
            (&[], 9, Down(0, Real(1))),
        ],
        target: 9,
    },
    // the root doesn't get the target
    ProofRow {
        script: Script::Lists,
        page: &[(&[], &[1]), (&[], &[2]), (&[1], &[3, 4])],
        entries: &[EntryRow {
            kind: 0,
            parent: &[4],
            items: &[
                (5, Start),
                (7, Start),
                (8, Up(0)),
                (9, Local(0)),
                (6, Local(2)),
                (10, Local(1)),
                (11, Local(3)),
            ],
            steps: 1,
        }],
        items: &[
            (&[1, 0], 4, Start),
            (&[1, 0], 11, Down(0, Grown(0, 0))),
            (&[1], 11, Down(0, Real(0))),
        ],
        target: 11,
    },
];
