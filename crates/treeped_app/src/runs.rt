//! The command itself.
ghost use Rattle.std.specs.Prelude.{◌≡◌, ℕ, List, Some, map, string_bytes, OnOk};
ghost use Rattle.treeped_app.specs.Tasks.{IsFew, IsOfMode, task_by, command};
ghost use Rattle.treeped_app.specs.Views as view;
ghost use Rattle.treeped_app.specs.Runs.{Ends, run_of};
ghost use Rattle.run_ends.specs.Tells.{SaysWhy, put_of};
ghost use Rattle.treeped_app.specs.Commands.{Headline, IsEnded, Causes};
ghost use Rattle.treeped_app.specs.Meaning.{Means, MeansFrom};
ghost use Rattle.treeped_app.specs.MeansParts.{Writes, WritesFor};

use crate::pages::{run_page, run_ring};
use crate::sites::run_site;
use crate::tasks::{Request, Source, source_of};
use command_words::read_words;
use run_ends::{Status, Stop, tell};
use std::alloc::Global;
use tp_io::{Files, Sink};

/// Runs the command with the words after the program's name. It loads and reads the page, the sheet and the script that they
/// name, or a sheet and then each page with its script. It judges the sheet's selectors within the limits of the words. Then it
/// writes to `out`, by its mode: the report, the report with the dead statements, the report with whole runs, or the sheet
/// without its unused selectors. With a size it judges a ring of boxes, loads nothing and writes one line that counts the
/// answers. Where nothing is written, or not everything, it writes the reason to `err`.
pub fn treeped<F: Files, O: Sink, E: Sink>(
    alloc: Global,
    words: &[String],
    files: &mut F,
    out: &mut O,
    err: &mut E,
) -> Status
    ensures means { Means (F.told files.old) (map string_bytes words.now) (O.written out.old) (O.written out.new) result }
    ensures headline { let run = run_of (F.told files.old) (map string_bytes words.now) (F.loads files.old) (F.loads files.new)
        (put_of (O.written out.old) (O.written out.new) (O.faults out.old) (O.faults out.new))
        in Headline run result }
    ensures ended { let run = run_of (F.told files.old) (map string_bytes words.now) (F.loads files.old) (F.loads files.new)
        (put_of (O.written out.old) (O.written out.new) (O.faults out.old) (O.faults out.new))
        in
        let said = put_of (E.written err.old) (E.written err.new) (E.faults err.old) (E.faults err.new)
        in IsEnded run said result }
    ensures says_why { SaysWhy E.wants_memory (put_of (E.written err.old) (E.written err.new) (E.faults err.old) (E.faults err.new)) result }
    ensures causes { let run = run_of (F.told files.old) (map string_bytes words.now) (F.loads files.old) (F.loads files.new)
        (put_of (O.written out.old) (O.written out.new) (O.faults out.old) (O.faults out.new))
        in
        let said = put_of (E.written err.old) (E.written err.new) (E.faults err.old) (E.faults err.new)
        in Causes run said result }
{
    match run(alloc, words, files, out) {
        Ok(status) => status,
        Err(stop) => tell(alloc, &stop, err),
    }
}

// Reads the words, and does their task.
fn run<F: Files, O: Sink>(
    alloc: Global,
    words: &[String],
    files: &mut F,
    out: &mut O,
) -> Result<Status, Stop>
    ensures means { OnOk result (WritesFor (F.told files.old) (map string_bytes words.now) (O.written out.old) (O.written out.new)) }
    ensures ends { Ends (run_of (F.told files.old) (map string_bytes words.now) (F.loads files.old) (F.loads files.new)
        (put_of (O.written out.old) (O.written out.new) (O.faults out.old) (O.faults out.new))) result }
{
    let order = read_words(alloc, words)?;
    let source = source_of(&order);
    let request = Request {
        mode: order.mode,
        limits: &order.limits,
    };
    run_task(alloc, &source, &request, files, out)
}

// Does a task, by where its texts come from.
fn run_task<F: Files, O: Sink>(
    alloc: Global,
    source: &Source<'_>,
    request: &Request<'_>,
    files: &mut F,
    out: &mut O,
) -> Result<Status, Stop>
    requires few { IsFew (view.source_of source.now) }
    requires mode { IsOfMode request.now.mode (view.source_of source.now) }
    ensures means { (words : List (List ℕ)) → command words ≡ Some (task_by (view.source_of source.now) request.now.mode request.now.limits.now) → OnOk result (Writes (O.written out.old) (O.written out.new) (MeansFrom (F.told files.old) (view.source_of source.now) request.now.mode)) }
    ensures ends { (words : List (List ℕ)) → command words ≡ Some (task_by (view.source_of source.now) request.now.mode request.now.limits.now) → Ends (run_of (F.told files.old) words (F.loads files.old) (F.loads files.new)
        (put_of (O.written out.old) (O.written out.new) (O.faults out.old) (O.faults out.new))) result }
{
    match source {
        Source::One(names) => run_page(alloc, names, request, files, out),
        Source::Several(pages) => run_site(alloc, pages, request, files, out),
        Source::Ring(n) => run_ring(alloc, *n, request, out),
    }
}
