//! The answers to a question, by a table of pairs or by diagrams. Each function owns one large value and frees it when its answers
//! are ready.
ghost use Rattle.std.specs.Prelude.{◌≡◌, [], true, false, None, map, IfOk};
ghost use Rattle.usage_report.specs.Views.{answer_of};
ghost use Rattle.simple_core.specs.Pairs.{Pair, Asked};
ghost use Rattle.closed_page.specs.ClosedPages.{IsClosedPage};
ghost use Rattle.saturation.specs.Budgets.{HasToBeSpent};
ghost use Rattle.judge.specs.BySeen.{AreSaid};
ghost use Rattle.judge.specs.Grounds.{IsAnswerable, AreAnswersTo};

use crate::answering::{all_answers, all_spent, all_unused, is_any_seen};
use crate::closing::{close_by_diagrams, close_by_table};
use crate::grounds::{Ground, Question};
use class_adding::Closed;
use need_table::PlainSummaries;
use saturation::SharedSummaries;
use simple_core::{AllGivers, GainFault, Summaries};
use tp_base::NoMemory;
use usage_report::Answer;

// The answers by a closed page and by proofs. The summaries know the page's pairs. Proofs look up rules by the atoms that they give.
fn by_proofs<S: Summaries>(
    question: &Question<'_>,
    closed: &Closed,
    sums: &S,
) -> Result<Vec<Answer>, NoMemory>
    requires answerable { IsAnswerable question.now }
    requires closed { IsClosedPage question.now.made.now.system question.now.page.now closed.now }
    requires made { S.system sums.now ≡ question.now.made.now.system }
    requires known { (q : Pair) → Asked question.now.made.now.system question.now.page.now q → S.known sums.now q }
    ensures { IfOk result (λ v. AreSaid question.now.made.now.system question.now.page.now question.now.limits.now closed.now.labels.label question.now.made.now.seen (map answer_of v.items)) }
{
    let rules = AllGivers::of(question.alloc, &question.made.system)?;
    let ground = Ground {
        alloc: question.alloc,
        page: question.page,
        system: &question.made.system,
        rules: &rules,
        closed,
        limits: question.limits,
    };
    all_answers(&ground, sums, question.made.seen.items())
}

// The answers by a closed page. The summaries know its pairs. Without a seen atom at its root, the rules get no index.
fn by_closed_page<S: Summaries>(
    question: &Question<'_>,
    closed: &Closed,
    sums: &S,
) -> Result<Vec<Answer>, NoMemory>
    requires answerable { IsAnswerable question.now }
    requires closed { IsClosedPage question.now.made.now.system question.now.page.now closed.now }
    requires made { S.system sums.now ≡ question.now.made.now.system }
    requires known { (q : Pair) → Asked question.now.made.now.system question.now.page.now q → S.known sums.now q }
    ensures { IfOk result (λ v. AreSaid question.now.made.now.system question.now.page.now question.now.limits.now closed.now.labels.label question.now.made.now.seen (map answer_of v.items)) }
{
    let seen = question.made.seen.items();
    if is_any_seen(question.alloc, closed, seen) {
        by_proofs(question, closed, sums)
    } else {
        all_unused(question.alloc, seen)
    }
}

// The answers by an empty table, which gets the pairs that the page asks.
fn by_empty_table(
    question: &Question<'_>,
    sums: &mut PlainSummaries,
) -> Result<Vec<Answer>, NoMemory>
    requires answerable { IsAnswerable question.now }
    requires made { sums.old.system ≡ question.now.made.now.system }
    requires none { sums.old.known ≡ [] }
    requires unspent { sums.old.spent ≡ None }
    requires pairs { sums.old.pairs ≡ question.now.limits.now.pairs }
    ensures { IfOk result (λ v. AreAnswersTo question.now true (map answer_of v.items)) }
{
    match close_by_table(question.alloc, question.page, &question.made.system, sums) {
        Ok(closed) => {
            let answers = by_closed_page(question, &closed, sums)?;
            Ok(answers)
        }
        Err(GainFault::Spent) => {
            let answers = all_spent(question.alloc, question.made.seen.items())?;
            Ok(answers)
        }
        Err(GainFault::Memory) => Err(NoMemory),
    }
}

// The answers by a table of pairs.
fn by_table(question: &Question<'_>) -> Result<Vec<Answer>, NoMemory>
    requires answerable { IsAnswerable question.now }
    ensures { IfOk result (λ v. AreAnswersTo question.now true (map answer_of v.items)) }
{
    let mut sums = PlainSummaries::new(
        question.alloc,
        &question.made.system,
        question.limits.pairs,
    )?;
    by_empty_table(question, &mut sums)
}

// The answers by diagrams after they are built.
fn by_built_diagrams(
    question: &Question<'_>,
    sums: &mut SharedSummaries,
) -> Result<Vec<Answer>, NoMemory>
    requires answerable { IsAnswerable question.now }
    requires made { sums.old.system ≡ question.now.made.now.system }
    requires room { ¬ HasToBeSpent question.now.made.now.system question.now.limits.now.nodes }
    ensures { IfOk result (λ v. AreAnswersTo question.now false (map answer_of v.items)) }
{
    let closed = close_by_diagrams(question.alloc, question.page, &question.made.system, sums)?;
    let answers = by_closed_page(question, &closed, sums)?;
    Ok(answers)
}

// The answers by diagrams.
fn by_diagrams(question: &Question<'_>) -> Result<Vec<Answer>, NoMemory>
    requires answerable { IsAnswerable question.now }
    ensures { IfOk result (λ v. AreAnswersTo question.now false (map answer_of v.items)) }
{
    match SharedSummaries::build(question.alloc, &question.made.system, question.limits.nodes) {
        Ok(mut sums) => by_built_diagrams(question, &mut sums),
        Err(GainFault::Spent) => {
            let answers = all_spent(question.alloc, question.made.seen.items())?;
            Ok(answers)
        }
        Err(GainFault::Memory) => Err(NoMemory),
    }
}

/// The answers, by a table of pairs where `limits.plain` is true, else by diagrams. Diagrams are built once, before the page is
/// read. A table grows by the pairs that the page asks.
pub(crate) fn answers_to(question: &Question<'_>) -> Result<Vec<Answer>, NoMemory>
    requires answerable { IsAnswerable question.now }
    ensures { IfOk result (λ v. AreAnswersTo question.now question.now.limits.now.plain (map answer_of v.items)) }
{
    if question.limits.plain {
        by_table(question)
    } else {
        by_diagrams(question)
    }
}
