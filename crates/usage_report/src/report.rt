//! The writer of a report, item by item.
ghost use Rattle.std.specs.Prelude.{◌≡◌, ◌≤◌, [], length, map, None, option_map, IfOk, OnOk, OnErr};
ghost use Rattle.tp_base.specs.Cursor.{IsAt};
ghost use Rattle.tp_base.specs.declared.places.TheConstants.{MOST_BYTES};
ghost use Rattle.tp_io.specs.Sinks.{Adds, AddsPrefix, Rose};
ghost use Rattle.css_read.specs.Places.{ArePlaced};
ghost use Rattle.css_read.specs.Views.{item_of, sheet_of};
ghost use Rattle.usage_report.specs.Report as spec;
ghost use Rattle.usage_report.specs.Reportable.{IsReportable, AreReportable, IsTraceable, AreTraceable};
ghost use Rattle.usage_report.specs.Views.{answer_of, trace_of};

use crate::answers::Answer;
use crate::faults::ReportFault;
use crate::lines::Sources;
use crate::pieces::{Piece, VERSION};
use crate::run_traces::RunTrace;
use css_read::{Sheet, SheetItem};
use std::alloc::Global;
use tp_base::{AtomTable, Cursor, NoMemory, Place};
use tp_io::{Sink, put_all};

/// Writes the report on a sheet of this text, with an answer for each item and a place for each statement: its first line is one
/// piece on the sink, and then the lines of each item. Linear in the text and in what is written, where the items and their
/// causes stand in the order of the text.
pub fn write_report<O: Sink>(
    alloc: Global,
    sheet: &Sheet,
    text: &[u8],
    atoms: &AtomTable,
    places: &[Place],
    answers: &[Answer],
    out: &mut O,
) -> Result<(), ReportFault>
    requires in_limit { length text.now ≤ MOST_BYTES }
    requires placed { ArePlaced (length text.now) sheet.now.items }
    requires reportable { AreReportable places.now (sheet_of sheet.now).items (map answer_of answers.now) }
    ensures ok { OnOk result (Adds (O.written out.old) (O.written out.new)
        (spec.report text.now atoms.now places.now (sheet_of sheet.now) (map answer_of answers.now))) }
    ensures err { OnErr result (AddsPrefix (O.written out.old) (O.written out.new)
        (spec.report text.now atoms.now places.now (sheet_of sheet.now) (map answer_of answers.now))) }
    ensures write { result ≡ Err ReportFault.Write → Rose (O.faults out.old) (O.faults out.new) }
    ensures never_falls { O.faults out.old ≤ O.faults out.new }
{
    let traces = no_traces(alloc, sheet.items.items())?;
    write_traces(alloc, sheet, text, atoms, places, answers, &traces, out)
}

/// The same with a trace for each item or none: where the steps of an item are shown and it has a trace, the trace stands in
/// their place.
pub fn write_traces<O: Sink>(
    alloc: Global,
    sheet: &Sheet,
    text: &[u8],
    atoms: &AtomTable,
    places: &[Place],
    answers: &[Answer],
    traces: &[Option<RunTrace>],
    out: &mut O,
) -> Result<(), ReportFault>
    requires in_limit { length text.now ≤ MOST_BYTES }
    requires placed { ArePlaced (length text.now) sheet.now.items }
    requires reportable { AreReportable places.now (sheet_of sheet.now).items (map answer_of answers.now) }
    requires traceable { AreTraceable places.now (sheet_of sheet.now).items (map (option_map trace_of) traces.now) }
    ensures ok { OnOk result (Adds (O.written out.old) (O.written out.new)
        (spec.report_with text.now atoms.now places.now (sheet_of sheet.now) (map answer_of answers.now) (map (option_map trace_of) traces.now))) }
    ensures err { OnErr result (AddsPrefix (O.written out.old) (O.written out.new)
        (spec.report_with text.now atoms.now places.now (sheet_of sheet.now) (map answer_of answers.now) (map (option_map trace_of) traces.now))) }
    ensures write { result ≡ Err ReportFault.Write → Rose (O.faults out.old) (O.faults out.new) }
    ensures never_falls { O.faults out.old ≤ O.faults out.new }
{
    let first = first_piece(alloc)?;
    put_all(out, &first.bytes)?;
    let sources = Sources {
        text,
        atoms,
        places,
    };
    write_items(alloc, sheet.items.items(), &sources, answers, traces, out)
}

// The first line.
fn first_piece(alloc: Global) -> Result<Piece, NoMemory>
    ensures { IfOk result (λ p. p.bytes.items ≡ spec.first_line) }
{
    let mut piece = Piece::new(alloc);
    piece.put(VERSION)?;
    piece.put(b"\n")?;
    Ok(piece)
}

// No trace for each of the items.
fn no_traces(alloc: Global, items: &[SheetItem]) -> Result<Vec<Option<RunTrace>>, NoMemory>
    ensures { IfOk result (λ v. v.items ≡ map (λ i. None) items.now) }
{
    let mut traces = Vec::with_capacity(alloc, items.len())?;
    for item in items {
        traces.push(None)?;
    }
    Ok(traces)
}

// Writes the lines of all items.
#[tactic(auto, using(crate::proofs::ReportLemmas::as_many, crate::proofs::ReportLemmas::as_many_traces, crate::proofs::ReportLemmas::reportable_at, crate::proofs::ReportLemmas::traceable_at))]
fn write_items<O: Sink>(
    alloc: Global,
    items: &[SheetItem],
    sources: &Sources<'_>,
    answers: &[Answer],
    traces: &[Option<RunTrace>],
    out: &mut O,
) -> Result<(), ReportFault>
    requires in_limit { length sources.now.text.now ≤ MOST_BYTES }
    requires reportable { AreReportable sources.now.places.now (map item_of items.now) (map answer_of answers.now) }
    requires traceable { AreTraceable sources.now.places.now (map item_of items.now) (map (option_map trace_of) traces.now) }
    ensures ok { OnOk result (Adds (O.written out.old) (O.written out.new)
        (spec.lines sources.now.text.now sources.now.atoms.now sources.now.places.now (map item_of items.now) (map answer_of answers.now) (map (option_map trace_of) traces.now))) }
    ensures err { OnErr result (AddsPrefix (O.written out.old) (O.written out.new)
        (spec.lines sources.now.text.now sources.now.atoms.now sources.now.places.now (map item_of items.now) (map answer_of answers.now) (map (option_map trace_of) traces.now))) }
    ensures write { result ≡ Err ReportFault.Write → Rose (O.faults out.old) (O.faults out.new) }
    ensures never_falls { O.faults out.old ≤ O.faults out.new }
{
    let mut cursor = Cursor::new();
    let mut piece = Piece::new(alloc);
    'items: for i in 0..items.len() {
        piece.bytes.clear();
        piece.item(&mut cursor, sources, &items[i], &answers[i], &traces[i])?;
        put_all(out, &piece.bytes)?;
    }
    Ok(())
}

impl Piece {
    // The lines of one item.
    #[tactic(auto, using(crate::proofs::PieceLemmas::reportable_parts))]
    fn item(
        &mut self,
        cursor: &mut Cursor,
        sources: &Sources<'_>,
        item: &SheetItem,
        answer: &Answer,
        trace: &Option<RunTrace>,
    ) -> Result<(), NoMemory>
        requires none { self.old.bytes.items ≡ [] }
        requires here { IsAt sources.now.text.now cursor.old }
        requires in_limit { length sources.now.text.now ≤ MOST_BYTES }
        requires reportable { IsReportable sources.now.places.now (item_of item.now).outcome (answer_of answer.now) }
        requires traceable { IsTraceable sources.now.places.now (option_map trace_of trace.now) }
        ensures lines { OnOk result (self.new.bytes.items ≡ spec.item_text sources.now.text.now sources.now.atoms.now sources.now.places.now (item_of item.now) (answer_of answer.now) (option_map trace_of trace.now)) }
        ensures here { IsAt sources.now.text.now cursor.new }
    {
        self.place(cursor.place_at(sources.text, item.from))?;
        self.head(cursor, sources, &item.outcome, answer)?;
        self.trace(sources.places, answer, trace)
    }
}
