//! A run on one page, or on a ring.
ghost use Rattle.std.specs.Prelude.{◌≡◌, ◌≤◌, List, ℕ, Some, false, OnOk};
ghost use Rattle.command_words.specs.Orders.{takes_pages};
ghost use Rattle.triple_gen.specs.declared.triple.TheConstants.{MOST_BOXES};
ghost use Rattle.tp_io.specs.Files.{Load};
ghost use Rattle.treeped_app.specs.Inputs.{Written};
ghost use Rattle.treeped_app.specs.Meaning.{MeansFrom, MeansPage, MeansRing};
ghost use Rattle.treeped_app.specs.MeansParts.{Writes, WritesOf};
ghost use Rattle.treeped_app.specs.Modes as modes;
ghost use Rattle.run_ends.specs.Tells.{put_of};
ghost use Rattle.treeped_app.specs.Runs.{Told, Ends, Fit, run_of};
ghost use Rattle.usage_report.specs.Summary.{summary};
ghost use Rattle.treeped_app.specs.Tasks as task;
ghost use Rattle.treeped_app.specs.Views.{names_of, texts_of};

use crate::loading::{Wanted, load_three};
use crate::reading::Texts;
use crate::saying::say;
use crate::statuses::status_of;
use crate::tasks::{Names, Request};
use crate::writing::write_one;
use run_ends::{Part, Status, Stop};
use std::alloc::Global;
use tp_io::{Files, Sink};
use triple_gen::generate;
use usage_report::write_summary;

/// Loads, reads and judges a page with its sheet and its script, and writes the text of the mode.
pub(crate) fn run_page<F: Files, O: Sink>(
    alloc: Global,
    names: &Names<'_>,
    request: &Request<'_>,
    files: &mut F,
    out: &mut O,
) -> Result<Status, Stop>
    requires one { takes_pages request.now.mode ≡ false }
    ensures means { OnOk result (Writes (O.written out.old) (O.written out.new) (MeansFrom (F.told files.old) (task.one (names_of names.now)) request.now.mode)) }
    ensures ends { (words : List (List ℕ)) → task.command words ≡ Some (task.task_by (task.one (names_of names.now)) request.now.mode request.now.limits.now) → Ends (run_of (F.told files.old) words (F.loads files.old) (F.loads files.new)
        (put_of (O.written out.old) (O.written out.new) (O.faults out.old) (O.faults out.new))) result }
{
    let page = Wanted {
        part: Part::Page(None),
        name: names.page,
    };
    let sheet = Wanted {
        part: Part::Sheet,
        name: names.sheet,
    };
    let script = Wanted {
        part: Part::Script(None),
        name: names.script,
    };
    let loaded = load_three(alloc, &page, &sheet, &script, files)?;
    let texts = Texts {
        page: &loaded.0,
        sheet: &loaded.1,
        script: &loaded.2,
    };
    answer(alloc, request, &texts, out)
}

// Reads and judges the texts of a page, and writes the text of the mode.
fn answer<O: Sink>(
    alloc: Global,
    request: &Request<'_>,
    texts: &Texts<'_>,
    out: &mut O,
) -> Result<Status, Stop>
    requires fit { Fit (texts_of texts.now) }
    ensures means { OnOk result (WritesOf request.now.mode (texts_of texts.now) (O.written out.old) (O.written out.new) (MeansPage request.now.mode (texts_of texts.now))) }
    ensures written { Written request.now.mode request.now.limits.now (texts_of texts.now) (modes.text_on request.now.mode) (put_of (O.written out.old) (O.written out.new) (O.faults out.old) (O.faults out.new)) result }
{
    let said = say(alloc, request, None, texts)?;
    write_one(alloc, request.mode, texts, &said, out)?;
    Ok(status_of(request.mode, &said))
}

/// Judges a ring of n boxes, and writes the line that counts the answers.
pub(crate) fn run_ring<O: Sink>(
    alloc: Global,
    n: u32,
    request: &Request<'_>,
    out: &mut O,
) -> Result<Status, Stop>
    requires few { n ≤ MOST_BOXES }
    requires one { takes_pages request.now.mode ≡ false }
    ensures means { (told : Told) → OnOk result (Writes (O.written out.old) (O.written out.new) (MeansFrom told (task.ring n) request.now.mode)) }
    ensures ends { (told : Told) (words : List (List ℕ)) (loads : List Load) → task.command words ≡ Some (task.task_by (task.ring n) request.now.mode request.now.limits.now) → Ends (run_of told words loads loads
        (put_of (O.written out.old) (O.written out.new) (O.faults out.old) (O.faults out.new))) result }
{
    let triple = generate(alloc, n)?;
    let page = triple.page.into_items();
    let sheet = triple.sheet.into_items();
    let script = triple.script.into_items();
    let texts = Texts {
        page: &page,
        sheet: &sheet,
        script: &script,
    };
    count(alloc, n, request, &texts, out)
}

// Reads and judges the texts of a ring of n boxes, and writes the line that counts the answers.
fn count<O: Sink>(
    alloc: Global,
    n: u32,
    request: &Request<'_>,
    texts: &Texts<'_>,
    out: &mut O,
) -> Result<Status, Stop>
    requires fit { Fit (texts_of texts.now) }
    ensures means { OnOk result (WritesOf request.now.mode (texts_of texts.now) (O.written out.old) (O.written out.new) (MeansRing n)) }
    ensures written { Written request.now.mode request.now.limits.now (texts_of texts.now) (λ s. summary n s.items) (put_of (O.written out.old) (O.written out.new) (O.faults out.old) (O.faults out.new)) result }
{
    let said = say(alloc, request, None, texts)?;
    write_summary(alloc, n, &said.items, out)?;
    Ok(status_of(request.mode, &said))
}
