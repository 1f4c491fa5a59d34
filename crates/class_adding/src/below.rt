//! What added children give in a round, where the node wakes or has fresh atoms that matter to them.
ghost use Rattle.std.specs.Prelude.{◌≡◌, ℕ, false, Contains, IfOk, OnOk, IsFalse};
ghost use Rattle.std.specs.List.{flat_map};
ghost use Rattle.std.specs.List.Sorted.{IsStrictlyIncreasing};
ghost use Rattle.simple_core.specs.Labels.{given_by_links, labels_below};
ghost use Rattle.simple_core.specs.Rounds.{grown};
ghost use Rattle.simple_core.specs.Pairs.{Asks};
ghost use Rattle.rule_index.specs.Asking.{IsMore, AsksAnew};
ghost use Rattle.class_adding.specs.Asking.{IsReady, Went, TellsSpent};
ghost use Rattle.class_adding.specs.Filling.{wakes_in};
ghost use Rattle.class_adding.specs.Fresh.{IsAsleep, IsResting};

use crate::asker::Asker;
use crate::due::is_round;
use gathered::Gathered;
use rule_index::IndexedSystem;
use simple_core::{GainFault, Summaries};
use tp_base::ClassSet;

// Whether the label wakes in round k, or asks something else for these atoms.
fn is_due(system: &IndexedSystem, fresh: &ClassSet, wake: Option<u64>, k: u64) -> bool
    ensures quiet { IsFalse result → wakes_in k wake ≡ false }
    ensures same { IsFalse result → (a : ℕ) → Contains fresh.now a → ¬ AsksAnew system.now a }
{
    is_round(wake, k) || system.is_asking(fresh)
}

impl<'a, 's, S: Summaries> Asker<'a, 's, S> {
    /// Adds what added children give after k rounds, and tells the next round in which they give more. It does so only where
    /// the label wakes then or has fresh atoms that matter to them.
    pub(crate) fn look_below(
        &mut self,
        own: &ClassSet,
        fresh: &ClassSet,
        wake: Option<u64>,
        k: u64,
        next: &mut Gathered,
    ) -> Result<Option<u64>, GainFault>
        requires ready { IsReady S.Summaries self.old }
        requires rises { IsStrictlyIncreasing next.old }
        requires resting { IsResting self.old.system.now k (S.known self.old.sums.now) own.now fresh.now wake }
        ensures more { OnOk result (IsMore own.now (flat_map (given_by_links self.old.system.now.down) (labels_below self.old.system.now (grown self.old.system.now k) own.now)) next.old next.new) }
        ensures asleep { IfOk result (λ wake. IsAsleep self.old.system.now k (S.known self.new.sums.now) own.now wake) }
        ensures went { Went S.Summaries (Asks self.old.system.now own.now) self.old self.new }
        ensures spent { TellsSpent S.Summaries result self.old self.new }
    {
        let system = self.system;
        let kinds = system.kinds();
        if kinds.len() == 0 {
            return Ok(None);
        }
        if !is_due(system, fresh, wake, k) {
            return Ok(wake);
        }
        let later = self.add_added(own, k, next)?;
        Ok(later)
    }
}
