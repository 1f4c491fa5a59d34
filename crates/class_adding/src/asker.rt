//! The context of closing a page: the rules, the summaries and what is remembered of them.
ghost use Rattle.std.specs.Prelude.{◌≡◌, ◌<◌, length, Contains, All, OnOk};
ghost use Rattle.class_adding.specs.Asking.{IsReady, Went, TellsSpent};

use crate::gifts::Gift;
use closed_page::SharedSets;
use pair_table::PairTable;
use rule_index::IndexedSystem;
use simple_core::{GainFault, Summaries};
use tp_base::{ClassSet, Items};

/// The context of closing a page: the rules of a system, the summaries of added children, and sets of atoms that nodes
/// share. What summaries told is remembered: a row with the gifts for each kind below a visible label.
#[derive(Drop)]
pub(crate) struct Asker<'a, 's, S: Summaries> {
    pub(crate) system: &'a IndexedSystem<'s>,
    pub(crate) sums: &'a mut S,
    pub(crate) remembered: &'a mut PairTable<Items<Gift>>,
    pub(crate) sets: &'a mut SharedSets,
}

impl<'a, 's, S: Summaries> Asker<'a, 's, S> {
    /// Asks the summaries for a child of the kind, so that it is known.
    pub(crate) fn ask(&mut self, kind: u32, seen: &ClassSet) -> Result<(), GainFault>
        requires kind { kind < length self.old.system.now.kinds }
        requires visible { All (Contains self.old.system.now.visible) seen.now }
        requires ready { IsReady S.Summaries self.old }
        ensures known { OnOk result (S.known self.new.sums.now (kind, seen.now)) }
        ensures went { Went S.Summaries (λ q. q ≡ (kind, seen.now)) self.old self.new }
        ensures rows { self.new.remembered.now ≡ self.old.remembered.now }
        ensures spent { TellsSpent S.Summaries result self.old self.new }
    {
        self.sums.gain(kind, seen)?;
        Ok(())
    }
}
