//! Systems, written out by hand.
use crate::building::{KIND, KindRow, Rules};

/// Which of the scripts below.
#[derive(Clone, Copy, Debug, PartialEq, Eq)]
pub enum Script {
    Boxes,
    List,
    Errors,
    Three,
}

/// The rules of a script and its selectors.
pub fn rules_of(script: Script) -> &'static Rules {
    match script {
        Script::Boxes => &BOXES,
        Script::List => &LIST,
        Script::Errors => &ERRORS,
        Script::Three => &THREE,
    }
}

// Each page has html 0, head 1, body 2 and a div or form 3 with a class 4.

// `$('.box').append('<div class="box"></div>')`, with `.box .box .box` and `.box > p`: p 5, 6 a box above,
// 7 a box below one, 8 such a box above, 9 the first selector, 10 a box as parent, 11 the second one, 12 and 13 that
// they match somewhere below.
static BOXES: Rules = Rules {
    local: &[
        (&[4, 6], 7, None),
        (&[4, 8], 9, None),
        (&[5, 10], 11, None),
        (&[9], 12, None),
        (&[11], 13, None),
    ],
    up: &[(4, 6), (6, 6), (7, 8), (8, 8), (4, 10)],
    down: &[(12, 12), (13, 13)],
    child: &[(4, 0)],
    kinds: &[KindRow {
        label: &[3, 4],
        ..KIND
    }],
};

// `$('.a').append('<ul><li class="x"></li></ul>')`, with `.a > ul > .x`: ul 5, x 6, li 7, 8 an a as parent, 9 a ul
// below one, 10 such a ul as parent, 11 the selector, 12 the added ul, 13 that the selector matches somewhere below.
static LIST: Rules = Rules {
    local: &[(&[5, 8], 9, None), (&[6, 10], 11, None), (&[11], 13, None)],
    up: &[(4, 8), (9, 10)],
    down: &[(13, 13)],
    child: &[(4, 0), (12, 1)],
    kinds: &[
        KindRow {
            label: &[5, 12],
            ..KIND
        },
        KindRow {
            label: &[6, 7],
            above: Some(0),
            ..KIND
        },
    ],
};

// `$('.box').append('<p><span class="err"></span></p>')` and `$('.err').parents('form').addClass('bad')`, with
// `form.bad`: div 5, box 6, bad 7, p 8, span 9, err 10, 11 an err below, 12 a form with one, 13 the selector, 14 the
// added p, 15 that the selector matches somewhere below.
static ERRORS: Rules = Rules {
    local: &[
        (&[3, 11], 12, None),
        (&[3, 7], 13, None),
        (&[12], 7, Some(1)),
        (&[13], 15, None),
    ],
    up: &[],
    down: &[(10, 11), (11, 11), (15, 15)],
    child: &[(6, 0), (14, 1)],
    kinds: &[
        KindRow {
            label: &[8, 14],
            ..KIND
        },
        KindRow {
            label: &[9, 10],
            above: Some(0),
            ..KIND
        },
    ],
};

// A box gets boxes of three classes c1 5, c2 7 and c3 8, and an i 9 of the class z 6; with `.c1 .z`, `.c2 .z`, `.c3 .z`
// and `.c1 .c2 .c3 .z`: 10, 12 and 14 each class above, 17 and 19 the last two levels of the fourth selector above.
static THREE: Rules = Rules {
    local: &[
        (&[6, 10], 11, None),
        (&[6, 12], 13, None),
        (&[6, 14], 15, None),
        (&[7, 10], 16, None),
        (&[8, 17], 18, None),
        (&[6, 19], 20, None),
        (&[11], 21, None),
        (&[13], 22, None),
        (&[15], 23, None),
        (&[20], 24, None),
    ],
    up: &[
        (5, 10),
        (10, 10),
        (7, 12),
        (12, 12),
        (8, 14),
        (14, 14),
        (16, 17),
        (17, 17),
        (18, 19),
        (19, 19),
    ],
    down: &[(21, 21), (22, 22), (23, 23), (24, 24)],
    child: &[(4, 0), (4, 1), (4, 2), (4, 3)],
    kinds: &[
        KindRow {
            label: &[3, 4, 5],
            ..KIND
        },
        KindRow {
            label: &[3, 4, 7],
            ..KIND
        },
        KindRow {
            label: &[3, 4, 8],
            ..KIND
        },
        KindRow {
            label: &[6, 9],
            ..KIND
        },
    ],
};
