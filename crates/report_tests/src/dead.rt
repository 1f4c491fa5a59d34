ghost use Rattle.std.specs.Prelude.{◌≡◌, length, All, IfOk};
ghost use Rattle.jq_stmts.specs.Views.{statements_of};
ghost use Rattle.usage_report.specs.Views.{answer_of};
ghost use Rattle.dead_script.specs.Probes.{all_probes};
ghost use Rattle.dead_script.specs.Verdicts.{IsProbed, places_of};

use crate::answers::{Said, answers};
use crate::checks::are_probed;
use crate::reading::{places, script_of};
use dead_script::{probe_guards, write_dead};
use jq_stmts::Stmt;
use std::alloc::Global;
use std::test::Fail;
use tp_base::{AtomTable, NoMemory};
use tp_io::MemSink;
use usage_report::{Answer, ReportFault};

// A script, what is said of its probes, and the lines.
struct Row {
    script: &'static str,
    said: &'static [Said],
    lines: &'static str,
}

const OPENS: &str = "$('.btn').click(function(){ $('.m').addClass('open'); });";

const OPENS_ADDED: &str =
    "$('.btn').click(function(){ $('.m').addClass('open'); });\n$('.m').append('<a class=\"btn\"></a>');";

static ROWS: [Row; 6] = [
    // No node is ever a button.
    Row {
        script: OPENS,
        said: &[Said::Unused, Said::Unused],
        lines: "stmt 1 at 1:37 dead at handler 1\n",
    },
    // The second statement adds one.
    Row {
        script: OPENS_ADDED,
        said: &[
            Said::Used(&[(1, &[1, 0])], &[1, 0, 0]),
            Said::Used(&[(1, &[1, 0])], &[1, 0]),
            Said::Used(&[], &[1, 0]),
        ],
        lines: "stmt 1 at 1:37 live 1\n  2 at 2:9 on /1/0\n  match /1/0\nstmt 2 at 2:9 live 0\n  match /1/0\n",
    },
    // There is a button, and nothing that it opens.
    Row {
        script: OPENS,
        said: &[Said::Used(&[], &[1, 0]), Said::Unused],
        lines: "stmt 1 at 1:37 dead at target\n",
    },
    Row {
        script: OPENS,
        said: &[Said::Unshown, Said::NotListed(2_000)],
        lines: "stmt 1 at 1:37 live 2000\n  not listed\n",
    },
    Row {
        script: OPENS,
        said: &[Said::Unshown, Said::Unshown],
        lines: "stmt 1 at 1:37 live-unshown\n",
    },
    Row {
        script: OPENS,
        said: &[Said::Spent, Said::Spent],
        lines: "stmt 1 at 1:37 spent\n",
    },
];

fn written(alloc: Global, stmts: &[Stmt], said: &[Answer]) -> Result<MemSink, ReportFault>
    requires one_each { length said.now ≡ length (all_probes (statements_of stmts.now)) }
    requires probed { All (λ a. IsProbed (places_of (statements_of stmts.now)) (answer_of a)) said.now }
{
    let mut out = MemSink::new(alloc, Vec::new(alloc), 4_096);
    write_dead(alloc, stmts, said, &mut out)?;
    Ok(out)
}

fn has_lines(
    alloc: Global,
    stmts: &[Stmt],
    said: &[Answer],
    lines: &str,
) -> Result<bool, ReportFault>
    requires one_each { length said.now ≡ length (all_probes (statements_of stmts.now)) }
    requires probed { All (λ a. IsProbed (places_of (statements_of stmts.now)) (answer_of a)) said.now }
{
    let out = written(alloc, stmts, said)?;
    Ok(out.bytes() == lines.as_bytes())
}

fn count_probes(alloc: Global, stmts: &[Stmt]) -> Result<usize, NoMemory>
    ensures { IfOk result (λ count. count ≡ length (all_probes (statements_of stmts.now))) }
{
    let guards = probe_guards(alloc, stmts)?;
    Ok(guards.len())
}

fn are_lines(
    alloc: Global,
    stmts: &[Stmt],
    said: &[Answer],
    lines: &str,
) -> Result<bool, ReportFault> {
    let places = places(alloc, stmts)?;
    if said.len() != count_probes(alloc, stmts)? || !are_probed(said, &places) {
        return Ok(false);
    }
    has_lines(alloc, stmts, said, lines)
}

fn says(alloc: Global, stmts: &[Stmt], row: &Row) -> Result<bool, ReportFault> {
    let said = answers(alloc, row.said)?;
    are_lines(alloc, stmts, &said, row.lines)
}

fn says_row(alloc: Global, row: &Row, atoms: &mut AtomTable) -> Result<bool, Fail> {
    let stmts = script_of(alloc, row.script, atoms)?;
    Ok(says(alloc, &stmts, row)?)
}

#[test]
fn says_which_statements_are_dead(rt: HostRuntime) -> Result<(), Fail> {
    let mut atoms = AtomTable::new(rt.alloc());
    for row in &ROWS {
        assert!(rt; says_row(rt.alloc(), row, &mut atoms)?);
    }
    Ok(())
}
