//! Runs in each mode over a page, a sheet and a script that are cut at each byte.
use std::alloc::{AllocError, Global};
use std::test::Fail;
use tp_io::{MemFiles, SureSink};
use treeped_app::treeped;

// A page of a shop, as a team might write it.
const PAGE: &str =
    "<!DOCTYPE html>\n<html lang=\"en\">\n<head><title>Shop</title><link rel=\"stylesheet\" href=\"shop.css\"></head>\n<body class=\"home\">\n<nav id=\"top\"><ul class=\"menu\"><li class=\"tab\"><a href=\"#a\">A</a></li></ul></nav>\n<div id=\"a\" class=\"panel\"><p>One<p>Two</div>\n<form class=\"login\"><input class=\"field\" type=\"text\"><button class=\"send\">Go</button></form>\n<div class=\"modal\"><div class=\"body\"></div></div>\n</body>\n</html>\n";

const SHEET: &str =
    "@charset \"utf-8\";\nbody, .home .panel { margin: 0 }\n.menu > .tab.active a:hover { color: red }\n.tab.active .tab { color: blue }\n@media (max-width: 600px) { .login.invalid .send { color: red } }\n.modal.open .hello { color: green }\n.panel .error { border: 0 }\n.login .error > b.text::before { content: \"!\" }\n.field:disabled { opacity: 1 }\n";

const SCRIPT: &str =
    "$(function () {\n  var tabs = $('.menu .tab');\n  tabs.find('a').click(function (e) {\n    e.preventDefault();\n    tabs.removeClass('active');\n    $(this).parent().addClass('active');\n  });\n  $('.login').on('submit', function () {\n    if ($('.field').val() === '') {\n      $(this).append('<div class=\"error\"><b class=\"text\">Empty</b></div>');\n      return false;\n    }\n    $('.modal').addClass('open').find('.body').html('<p class=\"hello\">Hi</p>');\n    $('.modal').fadeIn(200);\n  });\n  $('.login').on('click', '.error', function () {\n    $(this).fadeOut(200, function () { $(this).remove(); });\n  });\n  $('.error').parents('form').addClass('invalid');\n});\n";

// The words of each mode. On a site the shop stands behind a page without a script.
const MODES: [&str; 6] = [
    "page sheet script",
    "--dead page sheet script",
    "--runs page sheet script",
    "--prune page sheet script",
    "--site sheet other none page script",
    "--site --prune sheet other none page script",
];

// A file, the whole of which is its text, and with which status a run ends from how many bytes of it on.
struct Cut {
    name: &'static str,
    text: &'static str,
    statuses: &'static [(usize, u8)],
}

static CUTS: [Cut; 3] = [
    // A page that is cut anywhere is a page still, and no page has a tab in a tab.
    Cut {
        name: "page",
        text: PAGE,
        statuses: &[(0, 1)],
    },
    // The brace behind `.tab.active .tab`, the first selector that is unused, is the 112th byte. Each statement acts.
    Cut {
        name: "sheet",
        text: SHEET,
        statuses: &[(0, 0), (112, 1)],
    },
    // Nothing is a script, and `$` is an expression. Then a bracket is open up to the 651st byte, the last `)`.
    Cut {
        name: "script",
        text: SCRIPT,
        statuses: &[(0, 1), (2, 3), (651, 1)],
    },
];

fn words_of(alloc: Global, text: &str) -> Result<Vec<String>, AllocError> {
    let mut words = Vec::new(alloc);
    for word in text.split_whitespace() {
        words.push(String::from_str(alloc, word)?)?;
    }
    Ok(words)
}

fn entry(alloc: Global, name: &str, text: &[u8]) -> Result<(String, Vec<u8>), AllocError> {
    Ok((
        String::from_str(alloc, name)?,
        Vec::from_slice(alloc, text)?,
    ))
}

// The files of the shop and of the other page. The one that is cut stands first: of two with one name that one counts.
fn files_of(alloc: Global, cut: &Cut, len: usize) -> Result<MemFiles, AllocError> {
    let mut entries = Vec::new(alloc);
    let part = cut.text.as_bytes().get(..len).unwrap_or(b"");
    entries.push(entry(alloc, cut.name, part)?)?;
    for whole in &CUTS {
        entries.push(entry(alloc, whole.name, whole.text.as_bytes())?)?;
    }
    entries.push(entry(alloc, "other", b"<p class=\"panel\">")?)?;
    entries.push(entry(alloc, "none", b"")?)?;
    Ok(MemFiles::new(alloc, entries, Vec::new(alloc)))
}

fn code_of(alloc: Global, words: &str, cut: &Cut, len: usize) -> Result<u8, AllocError> {
    let words = words_of(alloc, words)?;
    let mut files = files_of(alloc, cut, len)?;
    let mut out = SureSink::new(alloc);
    let mut err = SureSink::new(alloc);
    Ok(treeped(alloc, &words, &mut files, &mut out, &mut err).code())
}

// The status that stands for so many bytes.
fn told(statuses: &[(usize, u8)], len: usize) -> u8 {
    let mut code = 0;
    for (from, next) in statuses {
        if *from <= len {
            code = *next;
        }
    }
    code
}

// At how many bytes a run with these words first ends otherwise, and how.
fn other_len(alloc: Global, words: &str, cut: &Cut) -> Result<Option<(usize, u8)>, AllocError> {
    for len in 0..=cut.text.len() {
        let code = code_of(alloc, words, cut, len)?;
        if code != told(cut.statuses, len) {
            return Ok(Some((len, code)));
        }
    }
    Ok(None)
}

// The first mode in which one does.
fn other_mode(alloc: Global, cut: &Cut) -> Result<Option<(&'static str, usize, u8)>, AllocError> {
    for words in MODES {
        if let Some((len, code)) = other_len(alloc, words, cut)? {
            return Ok(Some((words, len, code)));
        }
    }
    Ok(None)
}

#[test]
fn cut_pages(rt: HostRuntime) -> Result<(), Fail> {
    let other = other_mode(rt.alloc(), &CUTS[0])?;
    assert!(rt; other.is_none(), "{other:?}");
    Ok(())
}

#[test]
fn cut_sheets(rt: HostRuntime) -> Result<(), Fail> {
    let other = other_mode(rt.alloc(), &CUTS[1])?;
    assert!(rt; other.is_none(), "{other:?}");
    Ok(())
}

#[test]
fn cut_scripts(rt: HostRuntime) -> Result<(), Fail> {
    let other = other_mode(rt.alloc(), &CUTS[2])?;
    assert!(rt; other.is_none(), "{other:?}");
    Ok(())
}
