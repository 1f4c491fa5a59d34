//! Systems, as tables.
use test_building::{KIND, KindRow, Rules};

/// `$('.box').append('<div class="box"></div>')` with `.box .box .box`, where `div` is 3 and `box` is 4.
pub static BOXES: Rules = Rules {
    local: &[(&[4, 5], 6, None), (&[4, 7], 8, None), (&[8], 9, None)],
    up: &[(4, 5), (5, 5), (6, 7), (7, 7)],
    down: &[(9, 9)],
    child: &[(4, 0)],
    kinds: &[KindRow {
        label: &[3, 4],
        ..KIND
    }],
};

/// `$('.box').append('<p><span class="err"></span></p>')`, then `$('.err').parents('form').addClass('bad')`, with
/// `form.bad`. `form` is 3, `box` is 6, `bad` is 7 and `err` is 10. A further kind is a `p` of its own, which has what asks for
/// the `span` too.
pub static ERRORS: Rules = Rules {
    local: &[
        (&[3, 11], 12, None),
        (&[3, 7], 13, None),
        (&[12], 7, Some(1)),
        (&[13], 15, None),
    ],
    up: &[],
    down: &[(10, 11), (11, 11), (15, 15)],
    child: &[(6, 0), (14, 1), (6, 2)],
    kinds: &[
        KindRow {
            label: &[8, 14],
            ..KIND
        },
        KindRow {
            label: &[9, 10],
            above: Some(0),
            ..KIND
        },
        KindRow {
            label: &[8, 14],
            stmt: 2,
            ..KIND
        },
    ],
};

/// `$('.list').append('<li class="item"></li>')`, then `$('.list').on('click', '.item', ..)` whose function does
/// `$(this).addClass('on')`, with `li.on`. `list` is 4, `li` is 5, `on` is 6 and `item` is 7.
pub static LISTS: Rules = Rules {
    local: &[
        (&[7, 8], 9, None),
        (&[5, 6], 10, None),
        (&[9], 6, Some(1)),
        (&[10], 11, None),
    ],
    up: &[(4, 8), (8, 8)],
    down: &[(11, 11)],
    child: &[(4, 0)],
    kinds: &[KindRow {
        label: &[5, 7],
        ..KIND
    }],
};

/// `$('.a').append('<ul><li class="x"></li></ul>')`, `$('.x').append('<b class="p"></b>')`,
/// `$('.x').append('<i class="q"></i>')`, `$('.p').addClass('s')`, `$('.q').addClass('r')` and
/// `$('ul').has('.s').has('.r').addClass('z')`, with `ul.z`. `a` is 4, `ul` is 5, `z` is 6 and `x` is 8.
pub static SHARED: Rules = Rules {
    local: &[
        (&[5, 15], 16, None),
        (&[16, 17], 18, None),
        (&[5, 6], 19, None),
        (&[10], 13, Some(3)),
        (&[12], 14, Some(4)),
        (&[18], 6, Some(5)),
        (&[19], 21, None),
    ],
    up: &[],
    down: &[(13, 15), (15, 15), (14, 17), (17, 17), (21, 21)],
    child: &[(4, 0), (20, 1), (8, 2), (8, 3)],
    kinds: &[
        KindRow {
            label: &[5, 20],
            ..KIND
        },
        KindRow {
            label: &[7, 8],
            above: Some(0),
            ..KIND
        },
        KindRow {
            label: &[9, 10],
            stmt: 1,
            ..KIND
        },
        KindRow {
            label: &[11, 12],
            stmt: 2,
            ..KIND
        },
    ],
};

/// Forests that come beside a child: `$('.a').append('<b class="x"></b>')`, `$('.x').after('<i class="y"></i><u></u>')`,
/// and what has a `.y` below it gets `z`, below which a `.y` is looked for. `a` is 4, `z` is 6, `y` is 7 and `x` is 9.
pub static BESIDE: Rules = Rules {
    local: &[(&[7, 16], 17, None), (&[14], 6, Some(2)), (&[17], 18, None)],
    up: &[(6, 16), (16, 16)],
    down: &[(9, 13), (7, 14), (18, 18)],
    child: &[(4, 0), (13, 1), (13, 2)],
    kinds: &[
        KindRow {
            label: &[8, 9],
            ..KIND
        },
        KindRow {
            label: &[7, 10],
            stmt: 1,
            siblings: 2,
            beside: true,
            ..KIND
        },
        KindRow {
            label: &[11],
            stmt: 1,
            number: 1,
            siblings: 2,
            beside: true,
            ..KIND
        },
    ],
};
