ghost use Rattle.std.specs.Prelude.{◌≡◌, ◌≤◌, ◌∷◌, [], List, length, map, IfOk};
ghost use Rattle.tp_base.specs.declared.places.Place.{Place};
ghost use Rattle.tp_base.specs.declared.places.TheConstants.{MOST_BYTES};
ghost use Rattle.css_read.specs.Places.{ArePlaced};
ghost use Rattle.css_read.specs.Sheets.{Item};
ghost use Rattle.css_read.specs.Views.{item_of};
ghost use Rattle.usage_report.specs.Views.{answer_of};
ghost use Rattle.usage_report.specs.Reportable as usage;
ghost use Rattle.site_judge.specs.SiteReport.{AreReportable};

use crate::answers::{Said, answers};
use crate::checks::are_reportable;
use crate::reading::{places, script_of};
use css_read::{Sheet, read_sheet};
use site_judge::{MOST_PAGES, Site, write_site};
use std::alloc::Global;
use std::test::Fail;
use tp_base::{AtomTable, MOST_BYTES, NoMemory, Place};
use tp_io::MemSink;
use usage_report::{Answer, ReportFault};

// A sheet, the script of each of two pages, what is said of the items on each, the report, and the page of each item's answer.
struct Row {
    sheet: &'static [u8],
    scripts: [&'static str; 2],
    first: &'static [Said],
    second: &'static [Said],
    report: &'static str,
    pages: &'static [u32],
}

static ROWS: [Row; 2] = [
    // A page with `.a` and no script, and one whose script gives its only element the class b.
    Row {
        sheet: b".a{} .b{} .c{}",
        scripts: ["", "$('p').addClass('b');"],
        first: &[Said::Used(&[], &[1, 0]), Said::Unused, Said::Unused],
        second: &[
            Said::Unused,
            Said::Used(&[(0, &[1, 0])], &[1, 0]),
            Said::Unused,
        ],
        report: "treeped 2 site 2\n1:1 used 0 .a\n  page 1\n  match /1/0\n1:6 used 1 .b\n  page 2\n  1 at 1:8 on /1/0\n  match /1/0\n1:11 unused .c\n",
        pages: &[1, 2, 1],
    },
    // Of two that are as good the first page's, else the better one.
    Row {
        sheet: b".a{} .b{} .c{} .d{}",
        scripts: ["", ""],
        first: &[Said::Spent, Said::Unused, Said::Unshown, Said::Unshown],
        second: &[Said::Spent, Said::Spent, Said::Used(&[], &[1]), Said::Spent],
        report: "treeped 2 site 2\n1:1 spent .a\n  page 1\n1:6 spent .b\n  page 2\n1:11 used 0 .c\n  page 2\n  match /1\n1:16 used-unshown .d\n  page 1\n",
        pages: &[1, 2, 2, 1],
    },
];

// The site of two pages. Where they have not one length, it is as if no memory was to be had.
#[tactic(auto, using(crate::proofs::AnswerLemmas::as_many, crate::proofs::AnswerLemmas::both_pages))]
fn site_of(alloc: Global, first: Vec<Answer>, second: Vec<Answer>) -> Result<Site, NoMemory>
    ensures { (ps qs : List Place) (items : List Item) → usage.AreReportable ps items (map answer_of first.items) → usage.AreReportable qs items (map answer_of second.items)
        → IfOk result (λ s. AreReportable (ps ∷ qs ∷ []) items s.items) }
{
    if first.len() != second.len() {
        return Err(NoMemory);
    }
    let mut site = Site::first(alloc, first)?;
    if site.pages() >= MOST_PAGES {
        return Err(NoMemory);
    }
    site.add(second);
    Ok(site)
}

fn is_on(site: &Site, item: usize, page: u32) -> bool {
    match site.answer(item) {
        Some((number, _)) => number == page,
        None => false,
    }
}

// Whether each item has the answer of that page, and no further item has any.
fn are_on(site: &Site, pages: &[u32]) -> bool {
    for item in 0..pages.len() {
        if !is_on(site, item, pages[item]) {
            return false;
        }
    }
    site.answer(pages.len()).is_none()
}

fn has_report(
    alloc: Global,
    sheet: &Sheet,
    atoms: &AtomTable,
    places: &[Vec<Place>],
    site: &Site,
    row: &Row,
) -> Result<bool, ReportFault>
    requires in_limit { length row.now.sheet.now ≤ MOST_BYTES }
    requires placed { ArePlaced (length row.now.sheet.now) sheet.now.items }
    requires reportable { AreReportable (map (λ ps. ps.items) places.now) (map item_of sheet.now.items) site.now.items }
{
    let mut out = MemSink::new(alloc, Vec::new(alloc), 4_096);
    write_site(alloc, sheet, row.sheet, atoms, places, site, &mut out)?;
    Ok(out.bytes() == row.report.as_bytes() && are_on(site, row.pages))
}

fn is_report(
    alloc: Global,
    sheet: &Sheet,
    atoms: &AtomTable,
    of_first: Vec<Place>,
    of_second: Vec<Place>,
    row: &Row,
) -> Result<bool, ReportFault>
    requires { ArePlaced (length row.now.sheet.now) sheet.now.items }
{
    let first = answers(alloc, row.first)?;
    let second = answers(alloc, row.second)?;
    let items = sheet.items.items();
    if row.sheet.len() > MOST_BYTES as usize
        || !are_reportable(items, &first, &of_first)
        || !are_reportable(items, &second, &of_second)
    {
        return Ok(false);
    }
    let site = site_of(alloc, first, second)?;
    has_report(alloc, sheet, atoms, &[of_first, of_second], &site, row)
}

fn places_of(alloc: Global, script: &str, atoms: &mut AtomTable) -> Result<Vec<Place>, Fail> {
    let stmts = script_of(alloc, script, atoms)?;
    Ok(places(alloc, &stmts)?)
}

fn reports(alloc: Global, sheet: &Sheet, row: &Row, atoms: &mut AtomTable) -> Result<bool, Fail>
    requires { ArePlaced (length row.now.sheet.now) sheet.now.items }
{
    let of_first = places_of(alloc, row.scripts[0], atoms)?;
    let of_second = places_of(alloc, row.scripts[1], atoms)?;
    Ok(is_report(alloc, sheet, atoms, of_first, of_second, row)?)
}

fn reports_row(alloc: Global, row: &Row) -> Result<bool, Fail> {
    let mut atoms = AtomTable::new(alloc);
    let sheet = read_sheet(alloc, row.sheet, &mut atoms)?;
    reports(alloc, &sheet, row, &mut atoms)
}

#[test]
fn writes_the_best_of_each_page(rt: HostRuntime) -> Result<(), Fail> {
    for row in &ROWS {
        assert!(rt; reports_row(rt.alloc(), row)?);
    }
    Ok(())
}
