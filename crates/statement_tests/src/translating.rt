use crate::writing::{guard_text, rule_text};
use dead_script::{ask, probe_guards, probes};
use guard_sem::{Guard, Rule, of_compound, of_selector};
use jq_read::ScriptFault;
use jq_stmts::Stmt;
use rule_translate::translate;
use sel_text::{Compound, SelFault, Selector, read_strict_list};
use std::alloc::Global;
use std::test::Fail;
use test_reading::{Twist, script_of, statement_of, twisted};
use tp_base::{AtomTable, NoMemory};

// A selector, its guard, and the guard of its last compound.
type Row = (&'static str, &'static str, &'static str);

static SELECTORS: [Row; 4] = [
    ("*", "true", "true"),
    (".a", ".a", ".a"),
    ("p.a", "all( p .a )", "all( p .a )"),
    (
        ".a > p.b #c",
        "all( #c ancestor(all( all( p .b ) parent(.a) )) )",
        "#c",
    ),
];

fn reads(alloc: Global, g: &Guard, atoms: &AtomTable, text: &str) -> Result<bool, NoMemory> {
    Ok(guard_text(alloc, g, atoms)?.as_slice() == text.as_bytes())
}

// Whether the guard of the selector, and a copy of it, read so.
fn asks(
    alloc: Global,
    selector: &Selector,
    atoms: &AtomTable,
    text: &str,
) -> Result<bool, NoMemory> {
    let guard = of_selector(alloc, selector)?;
    let copy = guard.copy(alloc)?;
    Ok(reads(alloc, &guard, atoms, text)? && reads(alloc, &copy, atoms, text)?)
}

// Whether the guard of the last compound reads so.
fn last_asks(
    alloc: Global,
    parts: &[Compound],
    atoms: &AtomTable,
    text: &str,
) -> Result<bool, NoMemory> {
    match parts.last() {
        None => Ok(false),
        Some(part) => reads(alloc, &of_compound(alloc, part)?, atoms, text),
    }
}

// Whether the guards of the selectors read so; there is to be one.
fn all_ask(
    alloc: Global,
    list: &[Selector],
    atoms: &AtomTable,
    row: &Row,
) -> Result<bool, SelFault> {
    for selector in list {
        if !asks(alloc, selector, atoms, row.1)? {
            return Ok(false);
        }
        if !last_asks(alloc, selector.parts.items(), atoms, row.2)? {
            return Ok(false);
        }
    }
    Ok(list.len() == 1)
}

fn is_right(alloc: Global, row: &Row) -> Result<bool, SelFault> {
    let mut atoms = AtomTable::new(alloc);
    let list = read_strict_list(alloc, row.0.as_bytes(), &mut atoms)?;
    all_ask(alloc, list.as_slice(), &atoms, row)
}

#[test]
fn selectors_ask(rt: HostRuntime) -> Result<(), Fail> {
    for row in &SELECTORS {
        assert!(rt; is_right(rt.alloc(), row)?);
    }
    Ok(())
}

// A statement, a twist of it, and its rule. The first five are those of a shop's page.
type Translation = (&'static str, Twist, &'static str);

static TRANSLATIONS: [Translation; 17] = [
    (
        "$('.menu .tab').on('click', 'a', function () { $(this).parent().addClass('x') })",
        Twist::AsRead,
        "child(all( a ancestor(all( .tab ancestor(.menu) )) )) adds .x",
    ),
    (
        "$('.login').submit(function () { $(this).append('<i class=x></i>') })",
        Twist::AsRead,
        ".login inside i .x",
    ),
    (
        "$('.login').submit(function () { $('.modal').addClass('x') })",
        Twist::AsRead,
        "all( .modal somewhere(.login) ) adds .x",
    ),
    (
        "$('.login').submit(function () { $('.modal').find('.body').append('<i class=x></i>') })",
        Twist::AsRead,
        "all( all( .body ancestor(.modal) ) somewhere(.login) ) inside i .x",
    ),
    (
        "$('.error').parents('form').addClass('x')",
        Twist::AsRead,
        "all( form descendant(.error) ) adds .x",
    ),
    (
        "$('.a').each(function () { $(this).add('.b').addClass('x') })",
        Twist::AsRead,
        "all( any( .a .b ) somewhere(.a) ) adds .x",
    ),
    (
        "$('.a').each(function () { $(this).add('.b').end().addClass('x') })",
        Twist::AsRead,
        "all( .a somewhere(.a) ) adds .x",
    ),
    (
        "$('.a').each(function () { $(this).addClass('x') })",
        Twist::EndLast,
        "any( ) adds .x",
    ),
    (
        "$('.a').add('.b').addClass('x')",
        Twist::EndFirst,
        "any( any( ) .b ) adds .x",
    ),
    (
        "$('.a').find('.b').end().after('<i class=x></i>')",
        Twist::AsRead,
        "child(.a) beside i .x",
    ),
    (
        "$('.a').each(function () { $('.b').each(function () { $(this).after('<i class=x></i>') }) })",
        Twist::AsRead,
        "child(all( .b somewhere(.a) )) beside i .x",
    ),
    (
        "$('.a').each(function () { $(this).children().each(function () { $(this).filter('.b, .c').addClass('x') }) })",
        Twist::AsRead,
        "all( any( .b .c ) parent(.a) ) adds .x",
    ),
    (
        "$('*, .a').has('.b').addClass('x')",
        Twist::AsRead,
        "all( any( true .a ) descendant(.b) ) adds .x",
    ),
    (
        "$('.a > .b').children('.c').append('<i class=x></i>')",
        Twist::AsRead,
        "all( .c parent(all( .b parent(.a) )) ) inside i .x",
    ),
    (
        "$('.a').parent('.b, .c').addClass('x')",
        Twist::AsRead,
        "all( any( .b .c ) child(.a) ) adds .x",
    ),
    (
        "$('.a').parents().addClass('x')",
        Twist::NoSelectors,
        "descendant(any( )) adds .x",
    ),
    (
        "$('.a').each(function () { $(this).add('.b').each(function () { $(this).add('.c').addClass('x') }) })",
        Twist::AsRead,
        "all( any( all( any( .a .b ) somewhere(.a) ) .c ) somewhere(all( any( .a .b ) somewhere(.a) )) ) adds .x",
    ),
];

fn rule_reads(alloc: Global, rule: &Rule, atoms: &AtomTable, text: &str) -> Result<bool, NoMemory> {
    let written = rule_text(alloc, rule, atoms)?;
    Ok(written.as_slice() == text.as_bytes())
}

fn is_translated(
    alloc: Global,
    stmt: &Stmt,
    atoms: &AtomTable,
    text: &str,
) -> Result<bool, NoMemory> {
    let rule = translate(alloc, stmt)?;
    rule_reads(alloc, &rule, atoms, text)
}

fn translates(
    alloc: Global,
    row: &Translation,
    atoms: &mut AtomTable,
) -> Result<bool, ScriptFault> {
    let stmt = twisted(alloc, row.1, row.0, atoms)?;
    Ok(is_translated(alloc, &stmt, atoms, row.2)?)
}

fn translates_alone(alloc: Global, row: &Translation) -> Result<bool, ScriptFault> {
    let mut atoms = AtomTable::new(alloc);
    translates(alloc, row, &mut atoms)
}

#[test]
fn statements_are_rules(rt: HostRuntime) -> Result<(), Fail> {
    for row in &TRANSLATIONS {
        assert!(rt; translates_alone(rt.alloc(), row)?);
    }
    Ok(())
}

// A statement, and the rules of what is asked of it: of each handler from the outermost, and of the statement itself.
static PROBES: [(&str, &str); 3] = [
    ("$('.m').append('<a class=btn></a>')", ".m adds; "),
    (
        "$('.btn').click(function () { $('.m').addClass('open') })",
        ".btn adds; all( .m somewhere(.btn) ) adds; ",
    ),
    (
        "$('.a').each(function () { $(this).find('.b').each(function () { $(this).parent().addClass('x') }) })",
        ".a adds; all( .b ancestor(.a) ) adds; child(all( .b ancestor(.a) )) adds; ",
    ),
];

fn put_rule(
    alloc: Global,
    out: &mut Vec<u8>,
    stmt: &Stmt,
    atoms: &AtomTable,
) -> Result<(), NoMemory> {
    let rule = translate(alloc, stmt)?;
    out.extend_from_slice(&rule_text(alloc, &rule, atoms)?)?;
    out.extend_from_slice(b"; ")?;
    Ok(())
}

fn rules_text(alloc: Global, stmts: &[Stmt], atoms: &AtomTable) -> Result<Vec<u8>, NoMemory> {
    let mut out = Vec::new(alloc);
    for stmt in stmts {
        put_rule(alloc, &mut out, stmt, atoms)?;
    }
    Ok(out)
}

fn is_asked(alloc: Global, stmt: &Stmt, atoms: &AtomTable, text: &str) -> Result<bool, NoMemory> {
    let asked = probes(alloc, stmt)?;
    Ok(rules_text(alloc, &asked, atoms)?.as_slice() == text.as_bytes())
}

fn asks_of(
    alloc: Global,
    row: &(&'static str, &'static str),
    atoms: &mut AtomTable,
) -> Result<bool, ScriptFault> {
    let stmt = statement_of(alloc, row.0, atoms)?;
    Ok(is_asked(alloc, &stmt, atoms, row.1)?)
}

fn asks_alone(alloc: Global, row: &(&'static str, &'static str)) -> Result<bool, ScriptFault> {
    let mut atoms = AtomTable::new(alloc);
    asks_of(alloc, row, &mut atoms)
}

#[test]
fn statements_are_asked_of(rt: HostRuntime) -> Result<(), Fail> {
    for row in &PROBES {
        assert!(rt; asks_alone(rt.alloc(), row)?);
    }
    Ok(())
}

// All of these statements in one script, and the guards of all that is asked of them.
const SCRIPT: &str =
    "$('.btn').click(function () { $('.m').addClass('open') }); $('.m').append('<a class=btn></a>')";

const GUARDS: &str = ".btn; all( .m somewhere(.btn) ); .m; ";

fn put_text(
    alloc: Global,
    out: &mut Vec<u8>,
    guard: &Guard,
    atoms: &AtomTable,
) -> Result<(), NoMemory> {
    out.extend_from_slice(&guard_text(alloc, guard, atoms)?)?;
    out.extend_from_slice(b"; ")?;
    Ok(())
}

fn guards_text(alloc: Global, guards: &[Guard], atoms: &AtomTable) -> Result<Vec<u8>, NoMemory> {
    let mut out = Vec::new(alloc);
    for guard in guards {
        put_text(alloc, &mut out, guard, atoms)?;
    }
    Ok(out)
}

fn are_probed(alloc: Global, stmts: &[Stmt], atoms: &AtomTable) -> Result<bool, NoMemory> {
    let guards = probe_guards(alloc, stmts)?;
    Ok(guards_text(alloc, &guards, atoms)?.as_slice() == GUARDS.as_bytes())
}

fn script_is_probed(alloc: Global, atoms: &mut AtomTable) -> Result<bool, ScriptFault> {
    let stmts = script_of(alloc, SCRIPT, atoms)?;
    Ok(are_probed(alloc, &stmts, atoms)?)
}

#[test]
fn scripts_are_probed(rt: HostRuntime) -> Result<(), Fail> {
    let mut atoms = AtomTable::new(rt.alloc());
    assert!(rt; script_is_probed(rt.alloc(), &mut atoms)?);
    Ok(())
}

// Statements of which some stand in the handlers of the one before, the guards of what is asked of them all, and for each of them in
// turn the numbers of those of its handlers and its own.
const NESTED: &str = "$('.btn').click(function () { $('.m').addClass('a'); \
     $('.n').click(function () { $(this).addClass('b') }); $('.k').addClass('c') }); \
     $('.m').addClass('d'); $('.btn').click(function () { $('.n').addClass('e') })";

const NESTED_GUARDS: &str =
    ".btn; all( .m somewhere(.btn) ); all( .n somewhere(.btn) ); all( .n somewhere(.btn) ); \
     all( .k somewhere(.btn) ); .m; .btn; all( .n somewhere(.btn) ); ";

static NESTED_NUMBERS: [usize; 10] = [0, 1, 0, 2, 3, 0, 4, 5, 6, 7];

fn are_asked(alloc: Global, stmts: &[Stmt], atoms: &AtomTable) -> Result<bool, NoMemory> {
    let asked = ask(alloc, stmts)?;
    let numbered = asked.numbers.as_slice() == NESTED_NUMBERS.as_slice();
    let text = guards_text(alloc, &asked.guards, atoms)?;
    Ok(numbered && text.as_slice() == NESTED_GUARDS.as_bytes())
}

fn script_is_asked(alloc: Global, atoms: &mut AtomTable) -> Result<bool, ScriptFault> {
    let stmts = script_of(alloc, NESTED, atoms)?;
    Ok(are_asked(alloc, &stmts, atoms)?)
}

#[test]
fn statements_in_the_same_handlers_are_asked_of_once(rt: HostRuntime) -> Result<(), Fail> {
    let mut atoms = AtomTable::new(rt.alloc());
    assert!(rt; script_is_asked(rt.alloc(), &mut atoms)?);
    Ok(())
}
