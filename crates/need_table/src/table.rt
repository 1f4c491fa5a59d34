//! Summaries in a table of pairs, with a limit on their number.
ghost use Rattle.std.specs.Prelude.{◌≡◌, ◌↔◌, ◌<◌, ◌^◌, ◌∷◌, [], List, length, None, Contains, All, IfOk, OnOk, OnErr, IfSome, IsSome, IsErrOf};
ghost use Rattle.simple_core.specs.Systems.{IsSound};
ghost use Rattle.simple_core.specs.Firsts.{AreFirsts};
ghost use Rattle.simple_core.specs.Pairs.{Pair};
ghost use Rattle.simple_core.specs.Rounds.{grown, IsRest, IsFirst};
ghost use Rattle.simple_core.specs.Knowledge.{KeepsAsking, TellsAfter, IsToldBy, KeepsRoom};

use crate::asking::{ask, first_of, visible_firsts};
use crate::entry_table::Table;
use rule_index::IndexedSystem;
use simple_core::{First, GainFault, Summaries, System};
use std::alloc::Global;
use std::marker::Model;
use tp_base::{Atom, ClassSet, NoMemory};

// The pair on which the table was spent.
#[derive(Drop)]
struct Question {
    kind: u32,
    parent: ClassSet,
}

/// Summaries in a table of pairs, of which there are at most so many. It answers what it knows and computes what it doesn't.
/// A new pair is computed once, and then in each round after one in which its label, or that of a pair that it asks or
/// asked, got an atom. Such a turn costs a look at the fresh atoms of the label, at the rules that need these, at the pairs
/// that it asks, and at their fresh atoms. Where it brings atoms, it also costs a search of the label for each, or a copy of
/// the label where they are many. Then each pair that depends on it costs a look, too. Where fresh atoms of the label ask
/// something else, the whole label is looked at, and all atoms of what it asks then. Where it asks new pairs, it waits for
/// them and is computed again, which costs a step for each round so far. A pair is found by a hash of its atoms, so that a
/// look for its entry is linear in these, on average. The first round of an atom costs a search of the label, and a look at
/// the atoms before it where the label has it. All visible atoms of a pair cost a look for its entry and at each atom of its
/// label.
#[derive(Drop)]
pub struct PlainSummaries<'a> {
    system: IndexedSystem<'a>,
    pairs: u32,
    table: Table,
    spent: Option<Question>,
}

impl<'a> Model for PlainSummaries<'a> {
    ghost use Rattle.need_table.specs.PlainTables.{PlainTable};

    ghost Value = { PlainTable };

    ghost use Rattle.std.specs.Prelude.{map, option_map};
    ghost use Rattle.need_table.specs.Tables.{pair_of};
    ghost use Rattle.need_table.specs.PlainViews.{question_of, IsPlain};

    ghost view = { λ t. record {
      system = t.system;
      pairs = t.pairs;
      known = map pair_of t.table;
      spent = option_map question_of t.spent;
    } };

    ghost invariant = { λ t. IsPlain t.system t.pairs t.table (option_map question_of t.spent) };
}

impl<'a> PlainSummaries<'a> {
    /// A table for the system, with no pair. It notes for each atom which rules look at it, as `IndexedSystem::new` does.
    pub fn new(
        alloc: Global,
        system: &'a System,
        pairs: u32,
    ) -> Result<PlainSummaries<'a>, NoMemory>
        requires { IsSound system.now }
        ensures { IfOk result (λ t. t ≡ record { system = system.now; pairs = pairs; known = []; spent = None }) }
    {
        Ok(PlainSummaries {
            system: IndexedSystem::new(alloc, system)?,
            pairs,
            table: Table::new(alloc),
            spent: None,
        })
    }
}

impl<'a> Summaries for PlainSummaries<'a> {
    ghost use Rattle.std.specs.Prelude.{◌≡◌, Contains, Some, slice_get};

    ghost system = { λ t. t.system };

    ghost known = { λ t q. Contains t.known q };

    ghost told = { λ t. Some t.known };

    ghost spent_on = { λ t. t.spent };

    ghost is_entry = { λ t i q. slice_get t.known i ≡ Some q };

    ghost room = { λ t. Some t.pairs };

    fn gain(&mut self, kind: u32, parent: &ClassSet) -> Result<ClassSet, GainFault> {
        if self.spent.is_some() {
            return Err(GainFault::Spent);
        }
        let alloc = self.table.allocator();
        let question = Question {
            kind,
            parent: parent.copy()?,
        };
        match ask(
            alloc,
            &self.system,
            &mut self.table,
            self.pairs,
            kind,
            parent,
        ) {
            Ok(label) => Ok(label),
            Err(GainFault::Memory) => Err(GainFault::Memory),
            Err(GainFault::Spent) => {
                self.spent = Some(question);
                Err(GainFault::Spent)
            }
        }
    }

    fn entry(&self, kind: u32, parent: &ClassSet) -> usize {
        let Some(i) = self.table.find(kind, parent) else {
            unreachable!()
        };
        i
    }

    fn first_at(&self, entry: usize, _kind: u32, _parent: &ClassSet, atom: Atom) -> Option<u64> {
        first_of(self.table.entry(entry), atom)
    }

    fn firsts(&self, alloc: Global, kind: u32, parent: &ClassSet) -> Result<Vec<First>, NoMemory> {
        let place = self.entry(kind, parent);
        let entry = self.table.entry(place);
        let firsts = visible_firsts(alloc, &self.system, &entry.firsts)?;
        Ok(firsts)
    }
}
