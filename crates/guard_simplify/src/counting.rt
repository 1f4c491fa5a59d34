//! All formulas and forest nodes of a system, numbered.
ghost use Rattle.std.specs.Prelude.{◌≡◌, ◌+◌, ◌≤◌, ◌↔◌, length, IsTrue};
ghost use Rattle.tp_base.specs.declared.atoms.TheConstants.{MOST_ATOMS};
ghost use Rattle.guard_simplify.specs.AtomNumbers.{HasAtoms, HasAtoms-prop};
ghost use Rattle.guard_simplify.specs.Forests.{AreBelow};
ghost use Rattle.guard_simplify.specs.declared.simplified.TheConstants.{MOST_RULES};

use crate::asked::Asked;
use crate::forest_nodes::{RuleForest, all_forests, all_nodes, all_owners};
use crate::formulas::Formulas;
use crate::node_numbers::NodeNumbers;
use guard_sem::Rule;
use std::alloc::Global;
use tp_base::{MOST_ATOMS, NoMemory};

/// The rules, their forests, the formulas, whose atoms begin with `first`, and the nodes of the forests, where all atoms
/// and kinds are within the limits.
#[derive(Drop)]
pub(crate) struct Counted<'r> {
    pub first: u32,
    pub rules: &'r [Rule],
    pub forests: Vec<RuleForest>,
    pub formulas: Formulas,
    pub nodes: NodeNumbers,
    ghost few_rules: { length rules.now ≤ MOST_RULES },
    ghost each: { length formulas.of_rules.items ≡ length rules.now },
    ghost below: { AreBelow (length rules.now) forests.items },
    ghost behind: { nodes.first_owner ≡ first + length formulas.keys.keys },
    ghost within: { nodes.first_owner + length nodes.owners.keys + length formulas.seen ≤ MOST_ATOMS },
    ghost atoms: { HasAtoms formulas } by { HasAtoms-prop formulas },
}

// Whether so many atoms are within the limit: those of the table and of formulas, those of forests' nodes, and those
// that are seen.
fn fits(formulas: usize, owners: usize, seen: usize) -> bool
    ensures { IsTrue result ↔ (formulas + owners + seen ≤ MOST_ATOMS) }
{
    let most = MOST_ATOMS as usize;
    formulas <= most && owners <= most && seen <= most && formulas + owners + seen <= most
}

impl<'r> Counted<'r> {
    ghost use Rattle.std.specs.Prelude.{map, All, IfOk};
    ghost use Rattle.simple_core.specs.declared.system.TheConstants.{MOST_KINDS};
    ghost use Rattle.guard_simplify.specs.Auxiliaries.{places};
    ghost use Rattle.guard_simplify.specs.Law.{IsOver, IsRuleOver};
    ghost use Rattle.guard_simplify.specs.Counted.{IsCountedWithin};
    ghost use Rattle.guard_simplify.specs.Asked.{asked_of};

    /// Numbers the formulas of the guards, the nodes of the forests, and what is seen, where the table has the atoms below
    /// `first`; nothing where there are too many atoms. Linear in the table, the guards and the forests, but for the look-ups.
    pub(crate) fn new(
        alloc: Global,
        first: u32,
        rules: &'r [Rule],
        guards: &[Asked<'_>],
    ) -> Result<Option<Counted<'r>>, NoMemory>
        requires rules_over { All (IsRuleOver first) rules.now }
        requires guards_over { All (IsOver first) (map asked_of guards.now) }
        requires few_rules { length rules.now ≤ MOST_RULES }
        requires few_nodes { length (places rules.now) ≤ MOST_KINDS }
        ensures { IfOk result (IsCountedWithin rules.now (map asked_of guards.now) first) }
    {
        let formulas = Formulas::new(alloc, first as usize, rules, guards)?;
        let forests = all_forests(alloc, rules)?;
        let nodes = all_nodes(alloc, &forests)?;
        let owners = all_owners(alloc, &forests)?;
        let first_owner = first as usize + formulas.keys.len();
        if !fits(first_owner, owners.len(), formulas.seen.len()) {
            return Ok(None);
        }
        Ok(Some(Counted {
            first,
            rules,
            forests,
            formulas,
            nodes: NodeNumbers {
                nodes,
                owners,
                first_owner,
            },
        }))
    }
}
