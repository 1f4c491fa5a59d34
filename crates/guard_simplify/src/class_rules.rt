//! Local rules for the atoms that the rules' actions add.
ghost use Rattle.std.specs.Prelude.{◌≡◌, ◌≤◌, ◌++◌, length, IfOk, OnOk, All};
ghost use Rattle.simple_core.specs.Systems.{IsAtom};
ghost use Rattle.guard_simplify.specs.Auxiliaries.{by_rule};
ghost use Rattle.guard_simplify.specs.Simplified.{classes_of};
ghost use Rattle.guard_simplify.specs.SeenRules.{class_locals, class_rules};
ghost use Rattle.guard_simplify.specs.declared.simplified.TheConstants.{MOST_RULES};

use crate::formula_rules::{atom_of, set_of_one};
use guard_sem::Rule;
use simple_core::Local;
use std::alloc::Global;
use tp_base::{Atom, ClassSet, NoMemory};
use tree_sem::Action;

// The rules that add these classes, behind those that are there. The rule has this number, and its guard this atom.
fn add_classes(
    alloc: Global,
    number: u32,
    needs: Atom,
    classes: &ClassSet,
    locals: &mut Vec<Local>,
) -> Result<(), NoMemory>
    ensures { OnOk result (locals.new.items ≡ locals.old.items ++ class_locals number needs classes.now) }
{
    'classes: for i in 0..classes.len() {
        locals.push(Local {
            needs: set_of_one(alloc, needs)?,
            gives: classes.at(i),
            stmt: Some(number),
        })?;
    }
    Ok(())
}

// The rules of the classes that an action adds, behind those that are there.
fn add_action(
    alloc: Global,
    number: u32,
    needs: Atom,
    action: &Action,
    locals: &mut Vec<Local>,
) -> Result<(), NoMemory>
    ensures { OnOk result (locals.new.items ≡ locals.old.items ++ class_locals number needs (classes_of action.now)) }
{
    match action {
        Action::Classes(classes) => add_classes(alloc, number, needs, classes, locals),
        Action::Inside(_) | Action::Beside(_) => Ok(()),
    }
}

/// Appends the local rules for the classes that the rules' actions add, in the order of the rules. `guards` are the numbers
/// of the atoms of the rules' guards. Linear in the classes.
pub(crate) fn add_all_classes(
    alloc: Global,
    rules: &[Rule],
    guards: &[usize],
    locals: &mut Vec<Local>,
) -> Result<(), NoMemory>
    requires few_rules { length rules.now ≤ MOST_RULES }
    requires each { length guards.now ≡ length rules.now }
    requires atoms { All IsAtom guards.now }
    ensures { OnOk result (locals.new.items ≡ locals.old.items ++ by_rule (class_rules guards.now) 0 rules.now) }
{
    let mut number = 0;
    let mut rest = rules;
    'rules: while let Some((rule, later)) = rest.split_first() {
        let guard = guards[number as usize];
        let needs = atom_of(guard);
        add_action(alloc, number, needs, &rule.action, locals)?;
        number += 1;
        rest = later;
    }
    Ok(())
}
