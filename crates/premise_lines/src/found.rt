//! What is found in a page and a sheet.
ghost use Rattle.std.specs.Prelude.{◌≡◌, ◌≤◌, length, IfOk};
ghost use Rattle.tp_base.specs.declared.places.TheConstants.{MOST_BYTES};
ghost use Rattle.premise_finds.specs.Orders.{AreInOrder};
ghost use Rattle.premise_lines.specs.Lines as spec;
ghost use Rattle.premise_lines.specs.Runs.{Finds};

use crate::loading::refusal_in;
use crate::report::Report;
use crate::stops::{Part, Stop};
use crate::words::has;
use page_finds::findings_in_page;
use premise_finds::{Finding, Findings, Name, findings_in_sheet};
use std::alloc::Global;
use tp_base::{Items, NoMemory};

fn findings_in(alloc: Global, part: Part, text: &[u8]) -> Result<Findings, NoMemory>
    ensures { IfOk result (λ f. AreInOrder (spec.findings_in part text.now) f) }
{
    match part {
        Part::Page => findings_in_page(alloc, text),
        Part::Sheet => findings_in_sheet(alloc, text),
    }
}

// The findings of other names. Linear in the findings, for each of the names.
fn others(alloc: Global, names: &[Name], found: &[Finding]) -> Result<Vec<Finding>, NoMemory>
    ensures { IfOk result (λ v. v.items ≡ spec.others names.now found.now) }
{
    let mut others = Vec::new(alloc);
    'findings: for finding in found {
        if !has(names, finding.name) {
            others.push(*finding)?;
        }
    }
    Ok(others)
}

// It costs what reading costs.
fn found_in(alloc: Global, names: &[Name], part: Part, text: &[u8]) -> Result<Findings, NoMemory>
    ensures { IfOk result (λ f. spec.AreFound names.now part text.now f) }
{
    let all = findings_in(alloc, part, text)?;
    let found = others(alloc, names, all.items())?;
    Ok(Findings::new(found))
}

/// What a page and a sheet of these texts have besides these names, or why one of them isn't read. It costs what reading costs.
pub(crate) fn find(alloc: Global, names: &[Name], texts: (Vec<u8>, Vec<u8>)) -> Result<Report, Stop>
    requires page { length texts.0.items ≤ MOST_BYTES }
    requires sheet { length texts.1.items ≤ MOST_BYTES }
    ensures { Finds names.now (texts.0.items, texts.1.items) result }
{
    let (page, sheet) = texts;
    if let Some(stop) = refusal_in(&page, &sheet) {
        return Err(stop);
    }
    let in_page = found_in(alloc, names, Part::Page, &page)?;
    let in_sheet = found_in(alloc, names, Part::Sheet, &sheet)?;
    Ok(Report {
        page: Items::new(page),
        in_page,
        sheet: Items::new(sheet),
        in_sheet,
    })
}
