//! Pages, sheets and scripts, and what is said of the selectors.

/// How many pairs may be needed, how many entries a proof may have, and how many steps are listed at most.
pub type Budget = (u32, u32, u32);

/// A page, a sheet, a script, what may be worked out, and what is said of each item.
pub type Row = (
    &'static str,
    &'static str,
    &'static str,
    Budget,
    &'static str,
);

pub static ROWS: [Row; 16] = [
    // Without a script.
    (
        "<p class='a'></p>",
        ".a{} .b{} p > p{}",
        "",
        (0, 100_000, 1_000),
        "used 0 (match /1/0), unused, unused",
    ),
    (
        "<p class='a'></p>",
        ".a.b{} .b .a{}",
        "$('.a').addClass('b')",
        (0, 100_000, 1_000),
        "used 1 (1 on /1/0, match /1/0), unused",
    ),
    // Boxes in boxes without end need five pairs.
    (
        "<div class='box'></div>",
        ".box .box .box{} .box > p{}",
        "$('.box').append('<div class=box></div>')",
        (5, 100_000, 1_000),
        "used 2 (1 on /1/0, 1 on /1/0/0, match /1/0/0/0), unused",
    ),
    (
        "<div class='box'></div>",
        ".box .box .box{} .box > p{}",
        "$('.box').append('<div class=box></div>')",
        (5, 100_000, 2),
        "used 2 (1 on /1/0, 1 on /1/0/0, match /1/0/0/0), unused",
    ),
    (
        "<div class='box'></div>",
        ".box .box .box{} .box > p{}",
        "$('.box').append('<div class=box></div>')",
        (5, 100_000, 1),
        "used 2, unused",
    ),
    // An added tree of two nodes needs three.
    (
        "<div class='a'></div>",
        ".a > ul > .x{}",
        "$('.a').append('<ul><li class=x></li></ul>')",
        (3, 100_000, 1_000),
        "used 1 (1 on /1/0, match /1/0/0/0)",
    ),
    // The form around an added error is bad.
    (
        "<form class='f'><div class='box'></div></form>",
        "form.bad{} div.bad{}",
        "$('.box').append('<p><span class=err></span></p>'); $('.err').parents('form').addClass('bad')",
        (2, 2, 2),
        "used 2 (1 on /1/0/0, 2 on /1/0, match /1/0), unused",
    ),
    // The class comes up through two added nodes, so its proof has two entries.
    (
        "<form class='f'><div class='box'></div></form>",
        "form.bad{} div.bad{}",
        "$('.box').append('<p><span class=err></span></p>'); $('.err').parents('form').addClass('bad')",
        (2, 1, 2),
        "used-unshown, unused",
    ),
    // Nothing adds an error.
    (
        "<form class='f'><div class='box'></div></form>",
        "form.bad{} div.bad{}",
        "$('.err').parents('form').addClass('bad')",
        (2, 100_000, 1_000),
        "unused, unused",
    ),
    // No node is a button.
    (
        "<div class='m'></div>",
        ".m.open{}",
        "$('.btn').click(function(){ $('.m').addClass('open'); })",
        (50_000, 100_000, 1_000),
        "unused",
    ),
    // One is added.
    (
        "<div class='m'></div>",
        ".m.open{}",
        "$('.btn').click(function(){ $('.m').addClass('open'); }); $('.m').append('<a class=btn></a>')",
        (50_000, 100_000, 1_000),
        "used 2 (2 on /1/0, 1 on /1/0, match /1/0)",
    ),
    // A handler on elements that are added.
    (
        "<ul class='list'></ul>",
        "li.on{} ul.on{}",
        "$('.list').append('<li class=item></li>'); $('.list').on('click', '.item', function(){ $(this).addClass('on'); })",
        (50_000, 100_000, 1_000),
        "used 2 (1 on /1/0, 2 on /1/0/0, match /1/0/0), unused",
    ),
    // The root has no parent.
    (
        "",
        "p{}",
        "$('html').after('<p></p>')",
        (50_000, 100_000, 1_000),
        "unused",
    ),
    (
        "<p></p>",
        "p > b{} body > b{}",
        "$('p').after('<b></b>')",
        (50_000, 100_000, 1_000),
        "unused, used 1 (1 on /1/0, match /1/1)",
    ),
    // Items that aren't judged stand between others, with answers and without.
    (
        "<a></a>",
        "a:hover{} a + b{} b{} li:first-child{} a{}",
        "",
        (50_000, 100_000, 0),
        "used 0 (match /1/0), skipped Sibling 12, unused, skipped Pseudo 24, used 0 (match /1/0)",
    ),
    // An empty sheet.
    ("<p></p>", "", "", (0, 0, 0), ""),
];

/// More pairs are needed than there may be, and some branch of diagrams.
pub static SPENT: [Row; 3] = [
    (
        "<div class='box'></div>",
        ".box .box .box{} .box > p{}",
        "$('.box').append('<div class=box></div>')",
        (4, 100_000, 1_000),
        "spent, spent",
    ),
    (
        "<div class='a'></div>",
        ".a > ul > .x{}",
        "$('.a').append('<ul><li class=x></li></ul>')",
        (2, 100_000, 1_000),
        "spent",
    ),
    (
        "<div class='box'></div>",
        "a + b{} .box .box{} li:first-child{}",
        "$('.box').append('<div class=box></div>')",
        (0, 100_000, 1_000),
        "skipped Sibling 2, spent, skipped Pseudo 22",
    ),
];
