//! The numbered formulas of a system, and the atoms of its guards.
ghost use Rattle.std.specs.Prelude.{◌≡◌, ◌<◌, ◌^◌, length, map, All, IfOk};
ghost use Rattle.guard_sem.specs.Guards.{guards_of};
ghost use Rattle.guard_simplify.specs.Law.{IsOver, IsRuleOver};
ghost use Rattle.guard_simplify.specs.Numbered.{AreNumbered};
ghost use Rattle.guard_simplify.specs.Counted.{IsNumbering};
ghost use Rattle.guard_simplify.specs.Asked.{asked_of};

use crate::asked::{Asked, asked_numbers};
use crate::formula_numbers::number;
use crate::keys::Key;
use crate::number_set::NumberSet;
use guard_sem::Rule;
use indexmap::IndexSet;
use std::alloc::Global;
use tp_base::NoMemory;

/// The keys of the formulas in their order, the numbers of the atoms of the rules' guards and of the guards handed in,
/// and the different ones of the latter.
#[derive(Drop)]
pub(crate) struct Formulas {
    pub keys: IndexSet<Key>,
    pub of_rules: Vec<usize>,
    pub of_guards: Vec<usize>,
    pub seen: NumberSet,
}

// The numbers of the atoms of the rules' guards, one after another.
fn rule_numbers(
    alloc: Global,
    first: usize,
    keys: &mut IndexSet<Key>,
    rules: &[Rule],
) -> Result<Vec<usize>, NoMemory>
    requires { first < 2 ^ 32 }
    ensures { IfOk result (λ made. AreNumbered first keys.old.keys keys.new.keys (guards_of (map (λ r. r.guard) rules.now)) made.items) }
{
    let mut made = Vec::new(alloc);
    'rules: for rule in rules {
        made.push(number(alloc, first, keys, &rule.guard)?)?;
    }
    Ok(made)
}

impl Formulas {
    /// Numbers the formulas of the guards, where the table has the atoms below `first`. Linear in the table and the
    /// guards, but for the look-ups.
    pub(crate) fn new(
        alloc: Global,
        first: usize,
        rules: &[Rule],
        guards: &[Asked<'_>],
    ) -> Result<Formulas, NoMemory>
        requires small { first < 2 ^ 32 }
        requires rules_over { All (IsRuleOver first) rules.now }
        requires guards_over { All (IsOver first) (map asked_of guards.now) }
        ensures { IfOk result (λ f. IsNumbering rules.now (map asked_of guards.now) first f) }
    {
        let mut keys = IndexSet::with_capacity(alloc, guards.len())?;
        let of_rules = rule_numbers(alloc, first, &mut keys, rules)?;
        let of_guards = asked_numbers(alloc, first, &mut keys, guards)?;
        let seen = NumberSet::of(alloc, &of_guards)?;
        Ok(Formulas {
            keys,
            of_rules,
            of_guards,
            seen,
        })
    }
}
