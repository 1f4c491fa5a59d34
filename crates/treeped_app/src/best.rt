//! The status of the best answers of a site.
ghost use Rattle.std.specs.Prelude.{◌≡◌, ◌<◌, length, map, Some, slice_get, IfOk};
ghost use Rattle.std.specs.List.{list_any};
ghost use Rattle.usage_report.specs.Views.{answer_of};
ghost use Rattle.site_judge.specs.Sites as sites;
ghost use Rattle.treeped_app.specs.Modes as modes;
ghost use Rattle.treeped_app.specs.Sites as spec;
ghost use Rattle.treeped_app.specs.Verdicts.{is_answer_so};

use crate::statuses::{Question, is_open, is_unused, status_by};
use run_ends::Status;
use site_judge::Site;
use std::alloc::Global;
use tp_base::NoMemory;
use usage_report::Answer;

/// The status of a site, whose sheet has `count` items. Linear in the items.
pub(crate) fn status_of_site(site: &Site, count: usize) -> Status
    requires many { count ≡ length site.now.items }
    ensures { result ≡ spec.site_status site.now }
{
    let unsure = any_best(Question::Open, site, count);
    let unused = any_best(Question::Dead, site, count);
    status_by(unsure, unused)
}

// Whether one of the best answers meets the question.
fn any_best(question: Question, site: &Site, count: usize) -> bool
    requires many { count ≡ length site.now.items }
    ensures { result ≡ list_any (is_answer_so question) (spec.best_answers site.now) }
{
    'items: for item in 0..count {
        if best_meets(question, site, item) {
            return true;
        }
    }
    false
}

/// Says for each best answer whether it is `unused`. Linear in the answers.
pub(crate) fn unused_on_site(
    alloc: Global,
    site: &Site,
    count: usize,
) -> Result<Vec<bool>, NoMemory>
    requires many { count ≡ length site.now.items }
    ensures { IfOk result (λ v. v.items ≡ map modes.is_unused (spec.best_answers site.now)) }
{
    let mut flags = Vec::new(alloc);
    'items: for item in 0..count {
        flags.push(best_meets(Question::Dead, site, item))?;
    }
    Ok(flags)
}

// Whether the best answer for an item meets the question.
fn best_meets(question: Question, site: &Site, item: usize) -> bool
    ensures { (b : sites.Best) → slice_get site.now.items item ≡ Some b → result ≡ is_answer_so question b.answer }
{
    match site.answer(item) {
        Some((_, answer)) => meets(question, answer),
        None => false,
    }
}

// Whether an answer meets the question.
fn meets(question: Question, answer: &Answer) -> bool
    ensures { result ≡ is_answer_so question (answer_of answer.now) }
{
    match question {
        Question::Open => is_open(answer),
        Question::Dead => is_unused(answer),
    }
}
