//! A run on several pages that use one sheet.
ghost use Rattle.std.specs.Prelude.{◌≡◌, ◌<◌, ◌≤◌, ◌+◌, ◌∷◌, List, ℕ, Some, true, length, map, OnOk, OnErr, IfOk};
ghost use Rattle.tp_base.specs.declared.places.TheConstants.{MOST_BYTES};
ghost use Rattle.tp_io.specs.Sinks.{Adds, AddsPrefix, Rose};
ghost use Rattle.command_words.specs.Orders.{takes_pages};
ghost use Rattle.css_read.specs.Places.{ArePlaced};
ghost use Rattle.limits.specs.declared.pages.TheConstants.{MOST_PAGES};
ghost use Rattle.site_judge.specs.SiteReport.{AreReportable};
ghost use Rattle.treeped_app.specs.Meaning.{MeansFrom};
ghost use Rattle.treeped_app.specs.MeansParts.{Writes};
ghost use Rattle.treeped_app.specs.Sites.{IsBegun, IsFirst, IsAdded, PageAdded, MorePages, Finished, IsKept, text_of_site};
ghost use Rattle.run_ends.specs.Tells.{put_of};
ghost use Rattle.treeped_app.specs.Runs.{Ends, Fit, IsSheetOf, run_of};
ghost use Rattle.treeped_app.specs.Tasks.{command, paired, several, task_by};
ghost use Rattle.treeped_app.specs.Views.{inputs_of, texts_of};

use crate::best::{status_of_site, unused_on_site};
use crate::loading::{Wanted, load_three, load_two};
use crate::pruning::write_pruned;
use crate::reading::{Inputs, Texts};
use crate::saying::{Said, say};
use crate::tasks::{Pages, Request};
use crate::writing::places_of;
use command_words::{Mode, Word};
use run_ends::{Part, Status, Stop};
use site_judge::{Site, write_site};
use std::alloc::Global;
use tp_base::{NoMemory, Place};
use tp_io::{Files, Sink};
use usage_report::ReportFault;

/// The results for the first pages of a site: their best answers, the places of each page's statements, and the inputs of the last
/// page.
#[derive(Drop)]
pub(crate) struct Seen {
    pub(crate) site: Site,
    pub(crate) places: Vec<Vec<Place>>,
    pub(crate) last: Inputs,
}

/// The values that all pages share.
#[derive(Clone, Copy)]
pub(crate) struct Shared<'a> {
    pub(crate) sheet: &'a [u8],
    pub(crate) request: Request<'a>,
}

/// A page's number, from 1, and the names of the page and its script.
#[derive(Clone, Copy)]
pub(crate) struct Page<'a> {
    pub(crate) number: u32,
    pub(crate) page: &'a str,
    pub(crate) script: &'a str,
}

/// Loads the sheet. Then it loads, reads and judges each page with its script, and writes the text of the mode for all pages.
pub(crate) fn run_site<F: Files, O: Sink>(
    alloc: Global,
    pages: &Pages<'_>,
    request: &Request<'_>,
    files: &mut F,
    out: &mut O,
) -> Result<Status, Stop>
    requires on_pages { takes_pages request.now.mode ≡ true }
    requires few { length (paired pages.now.later.now) + 1 ≤ MOST_PAGES }
    ensures means { (words : List (List ℕ)) → command words ≡ Some (task_by (several pages.now.first.sheet.now ((pages.now.first.page.now, pages.now.first.script.now) ∷ paired pages.now.later.now)) request.now.mode request.now.limits.now) → OnOk result (Writes (O.written out.old) (O.written out.new) (MeansFrom (F.told files.old) (several pages.now.first.sheet.now ((pages.now.first.page.now, pages.now.first.script.now) ∷ paired pages.now.later.now)) request.now.mode)) }
    ensures ends { (words : List (List ℕ)) → command words ≡ Some (task_by (several pages.now.first.sheet.now ((pages.now.first.page.now, pages.now.first.script.now) ∷ paired pages.now.later.now)) request.now.mode request.now.limits.now) → Ends (run_of (F.told files.old) words (F.loads files.old) (F.loads files.new)
        (put_of (O.written out.old) (O.written out.new) (O.faults out.old) (O.faults out.new))) result }
{
    let sheet = Wanted {
        part: Part::Sheet,
        name: pages.first.sheet,
    };
    let page = Wanted {
        part: Part::Page(Some(1)),
        name: pages.first.page,
    };
    let script = Wanted {
        part: Part::Script(Some(1)),
        name: pages.first.script,
    };
    let loaded = load_three(alloc, &sheet, &page, &script, files)?;
    let texts = Texts {
        page: &loaded.1,
        sheet: &loaded.0,
        script: &loaded.2,
    };
    let mut seen = begun(alloc, request, &texts)?;
    let shared = Shared {
        sheet: &loaded.0,
        request: *request,
    };
    more_pages(alloc, 2, pages.later, &shared, files, &mut seen)?;
    finished(alloc, request.mode, &loaded.0, &seen, out)
}

// Reads and judges the first page of a site.
fn begun(alloc: Global, request: &Request<'_>, texts: &Texts<'_>) -> Result<Seen, Stop>
    requires fit { Fit (texts_of texts.now) }
    ensures begun { IsBegun request.now.mode request.now.limits.now (texts_of texts.now) result }
    ensures kept { IfOk result (λ s. IsKept (texts_of texts.now).sheet s) }
    ensures placed { IfOk result (λ s. ArePlaced (length (texts_of texts.now).sheet) s.last.sheet.items) }
{
    let said = say(alloc, request, Some(1), texts)?;
    let seen = seen_first(alloc, said)?;
    Ok(seen)
}

// The results for a site after its first page.
fn seen_first(alloc: Global, said: Said) -> Result<Seen, NoMemory>
    ensures first { IfOk result (λ s. IsFirst said s) }
    ensures last { IfOk result (λ s. s.last ≡ said.inputs) }
{
    let places = places_of(alloc, &said.inputs.script.stmts)?;
    let mut all = Vec::new(alloc);
    all.push(places)?;
    let site = Site::first(alloc, said.items)?;
    Ok(Seen {
        site,
        places: all,
        last: said.inputs,
    })
}

// Loads, reads and judges the pages with these names, each with its script. The first of them has this number.
fn more_pages<F: Files>(
    alloc: Global,
    number: u32,
    later: &[Word],
    shared: &Shared<'_>,
    files: &mut F,
    seen: &mut Seen,
) -> Result<(), Stop>
    requires in_limit { length shared.now.sheet.now ≤ MOST_BYTES }
    requires kept { IsKept shared.now.sheet.now seen.old }
    requires here { number ≡ seen.old.site.pages + 1 }
    requires few { seen.old.site.pages + length (paired later.now) ≤ MOST_PAGES }
    ensures same_files { F.told files.new ≡ F.told files.old }
    ensures more { MorePages (F.told files.old) shared.now.request.mode shared.now.request.limits.now shared.now.sheet.now number (paired later.now) (F.loads files.old) (F.loads files.new) seen.old seen.new result }
    ensures kept { OnOk result (IsKept shared.now.sheet.now seen.new) }
    ensures placed { OnOk result (ArePlaced (length shared.now.sheet.now) seen.old.last.sheet.items → ArePlaced (length shared.now.sheet.now) seen.new.last.sheet.items) }
{
    match later {
        [page, script, rest @ ..] => {
            let next = Page {
                number,
                page: page.as_str(),
                script: script.as_str(),
            };
            next_page(alloc, &next, shared, files, seen)?;
            more_pages(alloc, number + 1, rest, shared, files, seen)
        }
        _ => Ok(()),
    }
}

// Loads, reads and judges one page with its script.
fn next_page<F: Files>(
    alloc: Global,
    next: &Page<'_>,
    shared: &Shared<'_>,
    files: &mut F,
    seen: &mut Seen,
) -> Result<(), Stop>
    requires in_limit { length shared.now.sheet.now ≤ MOST_BYTES }
    requires kept { IsKept shared.now.sheet.now seen.old }
    requires room { seen.old.site.pages < MOST_PAGES }
    ensures same_files { F.told files.new ≡ F.told files.old }
    ensures added { PageAdded (F.told files.old) shared.now.request.mode shared.now.request.limits.now shared.now.sheet.now next.now.number (next.now.page.now, next.now.script.now) (F.loads files.old) (F.loads files.new) seen.old seen.new result }
    ensures kept { OnOk result (IsKept shared.now.sheet.now seen.new) }
    ensures placed { OnOk result (ArePlaced (length shared.now.sheet.now) seen.new.last.sheet.items) }
{
    let page = Wanted {
        part: Part::Page(Some(next.number)),
        name: next.page,
    };
    let script = Wanted {
        part: Part::Script(Some(next.number)),
        name: next.script,
    };
    let loaded = load_two(alloc, &page, &script, files)?;
    let texts = Texts {
        page: &loaded.0,
        sheet: shared.sheet,
        script: &loaded.1,
    };
    let said = say(alloc, &shared.request, Some(next.number), &texts)?;
    add(alloc, said, seen)?;
    Ok(())
}

// Adds the results for a page.
fn add(alloc: Global, said: Said, seen: &mut Seen) -> Result<(), NoMemory>
    requires one_length { length said.items.items ≡ length seen.old.site.items }
    requires room { seen.old.site.pages < MOST_PAGES }
    ensures added { OnOk result (IsAdded said seen.old seen.new) }
    ensures last { OnOk result (seen.new.last ≡ said.inputs) }
{
    let places = places_of(alloc, &said.inputs.script.stmts)?;
    seen.places.push(places)?;
    seen.site.add(said.items);
    seen.last = said.inputs;
    Ok(())
}

// Writes the text of the mode for all pages.
fn finished<O: Sink>(
    alloc: Global,
    mode: Mode,
    sheet: &[u8],
    seen: &Seen,
    out: &mut O,
) -> Result<Status, Stop>
    requires in_limit { length sheet.now ≤ MOST_BYTES }
    requires read { IsSheetOf sheet.now (inputs_of seen.now.last).sheet }
    requires placed { ArePlaced (length sheet.now) seen.now.last.sheet.items }
    requires reportable { AreReportable (map (λ ps. ps.items) seen.now.places.items) (inputs_of seen.now.last).sheet.items seen.now.site.items }
    ensures { Finished mode sheet.now seen.now (put_of (O.written out.old) (O.written out.new) (O.faults out.old) (O.faults out.new)) result }
{
    write_all(alloc, mode, sheet, seen, out)?;
    Ok(status_of_site(&seen.site, seen.last.sheet.items.items().len()))
}

// The same without a status.
fn write_all<O: Sink>(
    alloc: Global,
    mode: Mode,
    sheet: &[u8],
    seen: &Seen,
    out: &mut O,
) -> Result<(), ReportFault>
    requires in_limit { length sheet.now ≤ MOST_BYTES }
    requires read { IsSheetOf sheet.now (inputs_of seen.now.last).sheet }
    requires placed { ArePlaced (length sheet.now) seen.now.last.sheet.items }
    requires reportable { AreReportable (map (λ ps. ps.items) seen.now.places.items) (inputs_of seen.now.last).sheet.items seen.now.site.items }
    ensures ok { OnOk result (Adds (O.written out.old) (O.written out.new) (text_of_site mode sheet.now seen.now)) }
    ensures err { OnErr result (AddsPrefix (O.written out.old) (O.written out.new) (text_of_site mode sheet.now seen.now)) }
    ensures write { result ≡ Err ReportFault.Write → Rose (O.faults out.old) (O.faults out.new) }
{
    match mode {
        Mode::SitePrune => {
            let last = &seen.last.sheet;
            let unused = unused_on_site(alloc, &seen.site, last.items.items().len())?;
            write_pruned(alloc, last, sheet, &unused, out)
        }
        _ => write_site(
            alloc,
            &seen.last.sheet,
            sheet,
            &seen.last.atoms,
            &seen.places,
            &seen.site,
            out,
        ),
    }
}
