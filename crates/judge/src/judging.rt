//! Answers for the selectors of a sheet and for further guards.
ghost use Rattle.std.specs.Prelude.{◌≡◌, ◌≤◌, [], length, map, IfOk, IfErr, OnOk};
ghost use Rattle.limits.specs.declared.budgets.TheConstants.{MOST_BRANCHES};
ghost use Rattle.jq_stmts.specs.Views.{statements_of};
ghost use Rattle.css_read.specs.Views.{item_of};
ghost use Rattle.usage_report.specs.Views.{answer_of};
ghost use Rattle.proof_core.specs.declared.unfolded.TheConstants.{MOST_LISTED};
ghost use Rattle.judge.specs.Dealing as spec;
ghost use Rattle.judge.specs.Dealing.{AreDealt};
ghost use Rattle.judge.specs.Grounds.{MayBeAsked};
ghost use Rattle.judge.specs.Outcomes.{AreGiven, IsFault, IsWithin, AreJudged, IsJudged, system_in};

use crate::both::{Answers, Both};
use crate::dealing::{for_guards, for_items};
use crate::engines::answers_to;
use crate::grounds::Question;
use crate::simplifying::simplify_all;
use css_read::{Sheet, SheetItem};
use guard_sem::Guard;
use guard_simplify::{Simplified, SimplifyFault};
use jq_stmts::Stmt;
use limits::Limits;
use simple_core::System;
use std::alloc::Global;
use tp_base::{AtomTable, NoMemory};
use tree_sem::Tree;
use usage_report::Answer;

// The answers for the goals, dealt out, with the system.
fn dealt(
    alloc: Global,
    items: &[SheetItem],
    answers: Vec<Answer>,
    system: System,
) -> Result<Both, NoMemory>
    ensures items { IfOk result (λ b. map answer_of b.items ≡ spec.item_answers (map item_of items.now) (map answer_of answers.items)) }
    ensures extra { IfOk result (λ b. map answer_of b.extra ≡ spec.answers_left (map item_of items.now) (map answer_of answers.items)) }
    ensures system { IfOk result (λ b. b.system ≡ system) }
{
    let mut left = answers.into_iter();
    let items = for_items(alloc, items, &mut left)?;
    let extra = for_guards(alloc, &mut left)?;
    Ok(Both {
        items: Answers::new(items),
        extra: Answers::new(extra),
        system,
    })
}

// The answers by a system.
fn judged_by(
    alloc: Global,
    page: &Tree,
    items: &[SheetItem],
    made: Simplified,
    limits: &Limits,
) -> Result<Both, SimplifyFault>
    requires { MayBeAsked made.system page.now limits.now }
    ensures answers { IfOk result (λ b. AreDealt limits.now.plain made.system made.seen page.now (map item_of items.now) limits.now (map answer_of b.items) (map answer_of b.extra)) }
    ensures system { IfOk result (λ b. b.system ≡ made.system) }
    ensures only_memory { IfErr result (λ e. e ≡ SimplifyFault.Memory) }
{
    let question = Question {
        alloc,
        page,
        made: &made,
        limits,
    };
    let answers = answers_to(&question)?;
    let both = dealt(alloc, items, answers, made.system)?;
    Ok(both)
}

/// An answer for each item of the sheet and for each further guard, in order. A selector is unused where no legal steps, however
/// many, lead from the page to a node that it matches. A guard is unused where none lead to a node where it holds. Either is used
/// with the one canonical proof of its atom, whose steps are legal and end at such a node. They are shown where they are at most
/// `limits.list`. Where that proof has more than `limits.entries` entries, the goal is used unshown. All selectors that are judged
/// and all guards are spent where a budget runs out: `limits.pairs` pairs where `limits.plain` asks for a table of them, else
/// `limits.nodes` branches of diagrams. A caller can unfold a longer proof by `unfold`.
///
/// Each statement and each selector is translated once, and the page is closed once. Then an unused goal costs a look-up. Of the
/// used goals with the same guard, the first costs a proof, and each further one a copy.
pub fn judge_more(
    alloc: Global,
    page: &Tree,
    sheet: &Sheet,
    stmts: &[Stmt],
    extra: Vec<Guard>,
    atoms: &AtomTable,
    limits: &Limits,
) -> Result<Both, SimplifyFault>
    requires list { limits.now.list ≤ MOST_LISTED }
    requires nodes { limits.now.nodes ≤ MOST_BRANCHES }
    requires given { AreGiven (statements_of stmts.now) (map item_of sheet.now.items) extra.items (length atoms.now) page.now }
    ensures judged { IfOk result (λ b. AreJudged (statements_of stmts.now) (map item_of sheet.now.items) extra.items (length atoms.now) page.now limits.now (map answer_of b.items) (map answer_of b.extra)) }
    ensures system { IfOk result (λ b. b.system ≡ system_in (statements_of stmts.now) (map item_of sheet.now.items) extra.items (length atoms.now)) }
    ensures within { OnOk result (IsWithin (statements_of stmts.now) (map item_of sheet.now.items) extra.items (length atoms.now)) }
    ensures fault { IfErr result (λ e. IsFault (statements_of stmts.now) (map item_of sheet.now.items) extra.items (length atoms.now) e) }
{
    let items = sheet.items.items();
    let made = simplify_all(alloc, items, stmts, extra, atoms)?;
    judged_by(alloc, page, items, made, limits)
}

/// The answers for the items of a sheet alone: those of `judge_more` without further guards, at the same cost.
pub fn judge(
    alloc: Global,
    page: &Tree,
    sheet: &Sheet,
    stmts: &[Stmt],
    atoms: &AtomTable,
    limits: &Limits,
) -> Result<Vec<Answer>, SimplifyFault>
    requires list { limits.now.list ≤ MOST_LISTED }
    requires nodes { limits.now.nodes ≤ MOST_BRANCHES }
    requires given { AreGiven (statements_of stmts.now) (map item_of sheet.now.items) [] (length atoms.now) page.now }
    ensures judged { IfOk result (λ v. IsJudged (statements_of stmts.now) (map item_of sheet.now.items) (length atoms.now) page.now limits.now (map answer_of v.items)) }
    ensures within { OnOk result (IsWithin (statements_of stmts.now) (map item_of sheet.now.items) [] (length atoms.now)) }
    ensures fault { IfErr result (λ e. IsFault (statements_of stmts.now) (map item_of sheet.now.items) [] (length atoms.now) e) }
{
    let none = Vec::new(alloc);
    let both = judge_more(alloc, page, sheet, stmts, none, atoms, limits)?;
    Ok(both.items.into_items())
}
