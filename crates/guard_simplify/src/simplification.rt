//! The simple system of rules and goals, and the law that ties its steps to theirs.
ghost use Rattle.std.specs.Prelude.{◌≡◌, ◌≤◌, length, map, IfOk, All};
ghost use Rattle.simple_core.specs.declared.system.TheConstants.{MOST_KINDS};
ghost use Rattle.simple_core.specs.Systems.{IsSound};
ghost use Rattle.guard_simplify.specs.Asked.{asked_of};
ghost use Rattle.guard_simplify.specs.Auxiliaries.{places};
ghost use Rattle.guard_simplify.specs.Law.{IsOver, IsRuleOver, Follows, GoesBack};
ghost use Rattle.guard_simplify.specs.Outcome.{simplified, Gives};
ghost use Rattle.tree_sem.specs.Nodes.{IsTreeOver};
ghost use Rattle.guard_simplify.specs.declared.simplified.TheConstants.{MOST_RULES};

use crate::asked::{Asked, each_asked};
use crate::counting::Counted;
use crate::simplified::{Simplified, SimplifyFault};
use guard_sem::{Guard, Rule};
use std::alloc::Global;
use tp_base::AtomTable;
use tree_sem::Tree;

/// The system of the rules and of the guards that are handed in. Linear in the table, the guards, the classes and the
/// forests, but for the look-ups and the sets of atoms.
pub fn simplify_asked(
    alloc: Global,
    rules: &[Rule],
    guards: &[Asked<'_>],
    atoms: &AtomTable,
) -> Result<Simplified, SimplifyFault>
    requires rules_over { All (IsRuleOver (length atoms.now)) rules.now }
    requires guards_over { All (IsOver (length atoms.now)) (map asked_of guards.now) }
    requires few_rules { length rules.now ≤ MOST_RULES }
    requires few_nodes { length (places rules.now) ≤ MOST_KINDS }
    ensures system { Gives result (simplified rules.now (map asked_of guards.now) (length atoms.now)) }
    ensures sound { IfOk result (λ s. IsSound s.system) }
{
    let first = atoms.count();
    let Some(counted) = Counted::new(alloc, first, rules, guards)? else {
        return Err(SimplifyFault::TooManyAtoms);
    };
    let Some(made) = counted.assembled(alloc)? else {
        return Err(SimplifyFault::TooManyVisible);
    };
    Ok(made)
}

/// The simple system of rules and of guards that are made already.
pub fn simplify(
    alloc: Global,
    rules: &[Rule],
    guards: &[Guard],
    atoms: &AtomTable,
) -> Result<Simplified, SimplifyFault>
    requires rules_over { All (IsRuleOver (length atoms.now)) rules.now }
    requires guards_over { All (IsOver (length atoms.now)) guards.now }
    requires few_rules { length rules.now ≤ MOST_RULES }
    requires few_nodes { length (places rules.now) ≤ MOST_KINDS }
    ensures system { Gives result (simplified rules.now guards.now (length atoms.now)) }
    ensures sound { IfOk result (λ s. IsSound s.system) }
{
    let asked = each_asked(alloc, guards)?;
    simplify_asked(alloc, rules, &asked, atoms)
}

/// What the system does is what the rules do.
pub fn steps_agree(rules: &[Rule], guards: &[Guard], atoms: &AtomTable, page: &Tree)
    requires rules_over { All (IsRuleOver (length atoms.now)) rules.now }
    requires guards_over { All (IsOver (length atoms.now)) guards.now }
    requires page_over { IsTreeOver (length atoms.now) page.now }
    ensures follows { Follows rules.now guards.now (length atoms.now) page.now }
    ensures back { GoesBack rules.now guards.now (length atoms.now) page.now }
{}
