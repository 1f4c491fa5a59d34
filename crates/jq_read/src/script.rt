//! A script file: its statements, or why it isn't read.
ghost use Rattle.std.specs.Prelude.{◌≡◌, ◌≢◌, ◌≤◌, length, IfOk, IfErr};
ghost use Rattle.tp_base.specs.declared.places.TheConstants.{MOST_BYTES};
ghost use Rattle.jq_stmts.specs.Sharp.{wides};
ghost use Rattle.jq_stmts.specs.SharpViews.{exacts_of};
ghost use Rattle.jq_stmts.specs.Views.{statements_of};
ghost use Rattle.js_scan.specs.Tokens.{InOrder, script_tokens};
ghost use Rattle.js_scan.specs.Utf8.{AreTexts};
ghost use Rattle.js_scan.specs.declared.token.ScanFault.TheVariants as scan;
ghost use Rattle.sel_text.specs.Results.{IsFront};
ghost use Rattle.jq_words.specs.Results.{Gives, Finds};
ghost use Rattle.jq_words.specs.declared.faults.ScriptFault.TheVariants.{Memory, Scan};
ghost use Rattle.jq_stmts.specs.Tables.{AreStatementsOver};
ghost use Rattle.jq_read.specs.Script as spec;
ghost use Rattle.jq_read.specs.Limits.{AreWithin};

use crate::readings::Reading;
use crate::sequences::sequence;
use jq_cursor::{Cursor, Lists, Reader};
use jq_parts::{Declarations, Grown, Scope, placed};
use jq_stmts::{ExactStmt, Stmt};
use jq_words::{MOST_OPEN, ScriptFault, declared_in};
use js_scan::{ScanFault, Token, scan};
use std::alloc::Global;
use std::mem::replace;
use std::rc::Rc;
use tp_base::AtomTable;

// The tokens of a file.
fn tokens_of(alloc: Global, text: &[u8]) -> Result<Vec<Token>, ScriptFault>
    ensures gives { Gives (λ v. v.items) result (spec.from_scan (script_tokens text.now)) }
    ensures in_order { IfOk result (λ v. InOrder 0 (length text.now) v.items) }
    ensures text { IfOk result (λ v. AreTexts text.now v.items) }
{
    match scan(alloc, text) {
        Ok(tokens) => Ok(tokens),
        Err(ScanFault::Memory) => Err(ScriptFault::Memory),
        Err(e) => Err(ScriptFault::Scan(e)),
    }
}

// A fault, in which want of memory has one name.
fn one_memory(fault: ScriptFault) -> ScriptFault
    ensures same { result ≢ Memory → result ≡ fault }
    ensures named { result ≢ Scan scan.Memory }
{
    match fault {
        ScriptFault::Scan(e) => match e {
            ScanFault::Memory => ScriptFault::Memory,
            other => ScriptFault::Scan(other),
        },
        other => other,
    }
}

// Reads a file whose words are known.
#[tactic(auto, unfolding(crate::specs::Script::script_of), using(sel_text::proofs::Fronts::front_itself, crate::proofs::HandlerLaws::all_counted))]
fn read_words<'r>(
    alloc: Global,
    exact: bool,
    text: &'r [u8],
    lists: &'r Lists<'_>,
    atoms: &mut AtomTable,
) -> Result<Vec<ExactStmt>, ScriptFault>
    requires in_limit { length text.now ≤ MOST_BYTES }
    requires of_file { lists.now.size ≡ length text.now }
    ensures reads { Finds (λ v. exacts_of v.items) atoms.new result (spec.script_of exact text.now lists.now.words atoms.old) }
    ensures front { IsFront atoms.old atoms.new }
{
    let words = Cursor::new(lists);
    let declared = declared_in(alloc, words.words())?;
    let places = Rc::new(alloc, Vec::new(alloc))?;
    let mut reading = Reading {
        reader: Reader {
            alloc,
            exact,
            text,
            declared: &declared,
        },
        words,
        scope: Scope {
            handlers: Vec::new(alloc),
            has_this: false,
            declarations: Declarations::new(alloc),
        },
        grown: Grown {
            atoms: replace(atoms, AtomTable::new(alloc)),
            nodes: 0,
        },
        statements: Vec::new(alloc),
        places,
    };
    let read = sequence(&mut reading, false, MOST_OPEN);
    *atoms = reading.grown.atoms;
    read?;
    let statements = placed(alloc, text, reading.statements)?;
    Ok(statements)
}

// Reads a file, with the calls that are sharper than what is judged in their place, or without.
#[tactic(auto, unfolding(crate::specs::Script::script_with), using(sel_text::proofs::Fronts::front_itself))]
fn read_with(
    alloc: Global,
    exact: bool,
    text: &[u8],
    atoms: &mut AtomTable,
) -> Result<Vec<ExactStmt>, ScriptFault>
    requires in_limit { length text.now ≤ MOST_BYTES }
    ensures reads { Finds (λ v. exacts_of v.items) atoms.new result (spec.script_with exact text.now atoms.old) }
    ensures front { IsFront atoms.old atoms.new }
{
    let tokens = tokens_of(alloc, text)?;
    let lists = Lists::new(alloc, text, &tokens)?;
    let statements = read_words(alloc, exact, text, &lists, atoms)?;
    Ok(statements)
}

// The statements that are judged. Linear in them.
#[tactic(auto, using(crate::proofs::WideSteps::one_wide, crate::proofs::WideSteps::all_wide))]
fn wide(alloc: Global, statements: Vec<ExactStmt>) -> Result<Vec<Stmt>, ScriptFault>
    ensures wide { IfOk result (λ v. wides (exacts_of statements.items) ≡ statements_of v.items) }
    ensures only_memory { IfErr result (λ e. e ≡ Memory) }
{
    let mut found = Vec::new(alloc);
    for statement in statements {
        found.push(statement.wide)?;
    }
    Ok(found)
}

// Reads a file without the sharp calls.
#[tactic(auto, unfolding(crate::specs::Script::script), using(sel_text::proofs::Fronts::front_itself))]
fn read_file(alloc: Global, text: &[u8], atoms: &mut AtomTable) -> Result<Vec<Stmt>, ScriptFault>
    requires in_limit { length text.now ≤ MOST_BYTES }
    ensures reads { Finds (λ v. statements_of v.items) atoms.new result (spec.script text.now atoms.old) }
    ensures front { IsFront atoms.old atoms.new }
{
    let statements = read_with(alloc, false, text, atoms)?;
    let plain = wide(alloc, statements)?;
    Ok(plain)
}

/// Reads a script file: its statements, in the order of the names of their actions, or its first fault. Linear in the file but for
/// look-ups of names.
#[tactic(auto, using(sel_text::proofs::Fronts::front_itself, crate::proofs::LimitLaws::kept_within, crate::proofs::TableStatements::kept_over))]
pub fn read_script(
    alloc: Global,
    text: &[u8],
    atoms: &mut AtomTable,
) -> Result<Vec<Stmt>, ScriptFault>
    requires in_limit { length text.now ≤ MOST_BYTES }
    ensures reads { Finds (λ v. statements_of v.items) atoms.new result (spec.script text.now atoms.old) }
    ensures memory { IfErr result (λ e. e ≢ Scan scan.Memory) }
    ensures front { IsFront atoms.old atoms.new }
    ensures within { IfOk result (λ v. AreWithin (statements_of v.items)) }
    ensures over { IfOk result (λ v. AreStatementsOver (length atoms.new) (statements_of v.items)) }
{
    match read_file(alloc, text, atoms) {
        Ok(statements) => Ok(statements),
        Err(e) => Err(one_memory(e)),
    }
}

/// The same where `closest`, `siblings` and `first` may stand: each statement is wide, and its sharp calls are marked. Linear in the
/// file but for look-ups of names.
#[tactic(auto, using(sel_text::proofs::Fronts::front_itself, crate::proofs::LimitLaws::exact_within, crate::proofs::TableStatements::exact_over))]
pub fn read_exact(
    alloc: Global,
    text: &[u8],
    atoms: &mut AtomTable,
) -> Result<Vec<ExactStmt>, ScriptFault>
    requires in_limit { length text.now ≤ MOST_BYTES }
    ensures reads { Finds (λ v. exacts_of v.items) atoms.new result (spec.exact_script text.now atoms.old) }
    ensures memory { IfErr result (λ e. e ≢ Scan scan.Memory) }
    ensures front { IsFront atoms.old atoms.new }
    ensures within { IfOk result (λ v. AreWithin (wides (exacts_of v.items))) }
    ensures over { IfOk result (λ v. AreStatementsOver (length atoms.new) (wides (exacts_of v.items))) }
{
    match read_with(alloc, true, text, atoms) {
        Ok(statements) => Ok(statements),
        Err(e) => Err(one_memory(e)),
    }
}
