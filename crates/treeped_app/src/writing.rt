//! The text that a mode writes of a page.
ghost use Rattle.std.specs.Prelude.{◌≡◌, ◌≤◌, length, map, IfOk, OnOk, OnErr};
ghost use Rattle.tp_base.specs.declared.places.TheConstants.{MOST_BYTES};
ghost use Rattle.tp_io.specs.Sinks.{Adds, AddsPrefix, Rose};
ghost use Rattle.css_read.specs.Places.{ArePlaced};
ghost use Rattle.jq_stmts.specs.Views.{statements_of};
ghost use Rattle.dead_script.specs.Asked.{InOrder};
ghost use Rattle.treeped_app.specs.Modes as spec;
ghost use Rattle.treeped_app.specs.Inputs.{IsWritable};
ghost use Rattle.treeped_app.specs.Meaning.{Each, MeansLine, MeansPage, MeansReport};
ghost use Rattle.treeped_app.specs.MeansParts.{Writes};
ghost use Rattle.treeped_app.specs.Views.{inputs_of, said_of, texts_of};
ghost use Rattle.usage_report.specs.Answers.{line_of};
ghost use Rattle.usage_report.specs.Reportable.{AreReportable};
ghost use Rattle.usage_report.specs.Views.{answer_of};

use crate::pruning::{unused_in, write_pruned};
use crate::reading::Texts;
use crate::saying::Said;
use command_words::Mode;
use dead_script::write_asked;
use jq_stmts::Stmt;
use std::alloc::Global;
use tp_base::{NoMemory, Place};
use tp_io::Sink;
use usage_report::{ReportFault, write_report, write_traces};

/// The places of the statements, in their order.
pub(crate) fn places_of(alloc: Global, stmts: &[Stmt]) -> Result<Vec<Place>, NoMemory>
    ensures { IfOk result (λ places. places.items ≡ map (λ s. s.place) (statements_of stmts.now)) }
{
    let mut places = Vec::new(alloc);
    'statements: for stmt in stmts {
        places.push(stmt.place)?;
    }
    Ok(places)
}

/// Writes the text of a mode for a page.
pub(crate) fn write_one<O: Sink>(
    alloc: Global,
    mode: Mode,
    texts: &Texts<'_>,
    said: &Said,
    out: &mut O,
) -> Result<(), ReportFault>
    requires in_limit { length (texts_of texts.now).sheet ≤ MOST_BYTES }
    requires placed { ArePlaced (length (texts_of texts.now).sheet) said.now.inputs.sheet.items }
    requires writable { IsWritable mode (said_of (texts_of texts.now) said.now) }
    requires in_order { InOrder 0 said.now.numbers.items (length said.now.by_guard.items) }
    ensures means { OnOk result (Writes (O.written out.old) (O.written out.new) (MeansPage mode (texts_of texts.now) (inputs_of said.now.inputs))) }
    ensures ok { OnOk result (Adds (O.written out.old) (O.written out.new) (spec.text_on mode (said_of (texts_of texts.now) said.now))) }
    ensures err { OnErr result (AddsPrefix (O.written out.old) (O.written out.new) (spec.text_on mode (said_of (texts_of texts.now) said.now))) }
    ensures write { result ≡ Err ReportFault.Write → Rose (O.faults out.old) (O.faults out.new) }
{
    let inputs = &said.inputs;
    match mode {
        Mode::Prune => {
            let unused = unused_in(alloc, &said.items)?;
            write_pruned(alloc, &inputs.sheet, texts.sheet, &unused, out)
        }
        Mode::Dead => {
            write_page(alloc, texts, said, out)?;
            write_asked(
                alloc,
                &inputs.script.stmts,
                &said.numbers,
                &said.by_guard,
                out,
            )
        }
        Mode::Runs => {
            let places = places_of(alloc, &inputs.script.stmts)?;
            write_traces(
                alloc,
                &inputs.sheet,
                texts.sheet,
                &inputs.atoms,
                &places,
                &said.items,
                &said.traces,
                out,
            )
        }
        _ => write_page(alloc, texts, said, out),
    }
}

// Writes the report on a page.
fn write_page<O: Sink>(
    alloc: Global,
    texts: &Texts<'_>,
    said: &Said,
    out: &mut O,
) -> Result<(), ReportFault>
    requires in_limit { length (texts_of texts.now).sheet ≤ MOST_BYTES }
    requires placed { ArePlaced (length (texts_of texts.now).sheet) said.now.inputs.sheet.items }
    requires reportable { AreReportable (spec.places_of (inputs_of said.now.inputs)) (inputs_of said.now.inputs).sheet.items (map answer_of said.now.items.items) }
    requires lines { Each (MeansLine (inputs_of said.now.inputs)) (inputs_of said.now.inputs).sheet.items (map line_of (map answer_of said.now.items.items)) }
    ensures means { OnOk result (Writes (O.written out.old) (O.written out.new) (MeansReport (texts_of texts.now) (inputs_of said.now.inputs))) }
    ensures ok { OnOk result (Adds (O.written out.old) (O.written out.new) (spec.report_on (said_of (texts_of texts.now) said.now))) }
    ensures err { OnErr result (AddsPrefix (O.written out.old) (O.written out.new) (spec.report_on (said_of (texts_of texts.now) said.now))) }
    ensures write { result ≡ Err ReportFault.Write → Rose (O.faults out.old) (O.faults out.new) }
    ensures never_falls { O.faults out.old ≤ O.faults out.new }
{
    let inputs = &said.inputs;
    let places = places_of(alloc, &inputs.script.stmts)?;
    write_report(
        alloc,
        &inputs.sheet,
        texts.sheet,
        &inputs.atoms,
        &places,
        &said.items,
        out,
    )
}
