//! The iteration of a page, round by round, up to the fixpoint.
ghost use Rattle.std.specs.Prelude.{◌≡◌, ◌<◌, map, length, All, Contains, IfOk, OnOk};
ghost use Rattle.tree_sem.specs.Order.{paths_of};
ghost use Rattle.node_marks.specs.Numbering.{IsNumbering};
ghost use Rattle.simple_core.specs.Pairs.{Pair, Asked};
ghost use Rattle.simple_core.specs.Knowledge.{TellsAfter};
ghost use Rattle.closed_page.specs.ClosedPages.{IsClosedPage};
ghost use Rattle.class_adding.specs.declared.looking.Look.{Look};
ghost use Rattle.class_adding.specs.Asking.{IsReady, Went, TellsSpent};
ghost use Rattle.class_adding.specs.Work.{IsWorking};
ghost use Rattle.class_adding.specs.Fillings.{IsBegun, IsTaken};
ghost use Rattle.closed_page.specs.Firsts.{AreOfNodes};
ghost use Rattle.closed_page.specs.Views.{firsts_of};

use crate::alike::all_alike;
use crate::asker::Asker;
use crate::rounds::Round;
use crate::work::{Work, begin_work, latest_of, take_looks};
use closed_page::{PageLabels, apply_gains};
use node_marks::Columns;
use simple_core::{GainFault, Summaries};
use std::alloc::Global;
use tp_base::NoMemory;
use tree_sem::Tree;

/// The state of the iteration between two rounds: the labels with the first round of each of their atoms, whether each node
/// is alike the one numbered before it, and the worklist.
#[derive(Drop)]
pub(crate) struct Filling {
    pub(crate) labels: PageLabels,
    pub(crate) alike: Vec<bool>,
    pub(crate) work: Work,
}

/// The page before the first round, from its columns.
pub(crate) fn begin(alloc: Global, page: &Tree, columns: Columns<'_>) -> Result<Filling, NoMemory>
    requires { IsNumbering page.now columns.parents.items columns.steps.items (map (λ b. b.now) columns.labels.items) }
    ensures { IfOk result (λ f. IsBegun page.now f) }
{
    let labels = PageLabels::new(alloc, page, columns)?;
    let alike = all_alike(alloc, &labels)?;
    let work = begin_work(alloc, &labels)?;
    Ok(Filling {
        labels,
        alike,
        work,
    })
}

// Takes in what a round brought, which is then round k.
fn take_round(
    alloc: Global,
    filling: &mut Filling,
    round: &Round,
    latest: u64,
    k: u64,
) -> Result<(), NoMemory>
    requires gains { All (λ g. g.number < length filling.old.labels.nodes) round.now.gains.items }
    requires numbers { (l : Look) → Contains round.now.looks.items l → l.number < length filling.old.labels.nodes }
    requires working { IsWorking filling.old.labels.nodes filling.old.work }
    ensures { OnOk result (IsTaken filling.old round.now latest k filling.new) }
{
    apply_gains(&mut filling.labels, &round.gains, k)?;
    take_looks(
        alloc,
        &filling.labels,
        &mut filling.work,
        &round.looks,
        latest,
        k,
    )
}

impl<'a, 's, S: Summaries> Asker<'a, 's, S> {
    /// Iterates up to the fixpoint.
    pub(crate) fn fill(
        &mut self,
        alloc: Global,
        page: &Tree,
        filling: &mut Filling,
    ) -> Result<(), GainFault>
        requires begun { IsBegun page.now filling.old }
        requires ready { IsReady S.Summaries self.old }
        ensures closed { OnOk result (IsClosedPage self.old.system.now page.now (record { labels = filling.new.labels.labels; firsts = firsts_of filling.new.labels.firsts })) }
        ensures nodes { OnOk result (AreOfNodes filling.new.labels.nodes filling.new.labels.firsts) }
        ensures order { OnOk result (filling.new.labels.nodes ≡ paths_of page.now) }
        ensures asked { OnOk result ((q : Pair) → Asked self.old.system.now page.now q → S.known self.new.sums.now q) }
        ensures told { OnOk result (TellsAfter self.old.system.now (S.told self.old.sums.now) (S.told self.new.sums.now) (Asked self.old.system.now page.now)) }
        ensures went { Went S.Summaries (Asked self.old.system.now page.now) self.old self.new }
        ensures spent { TellsSpent S.Summaries result self.old self.new }
    {
        let mut k = 0;
        'rounds: loop {
            let round = self.look_at_all(alloc, &*filling, k)?;
            let latest = latest_of(filling.work.latest, &round.looks);
            if round.is_last(latest, k) {
                return Ok(());
            }
            k += 1;
            take_round(alloc, filling, &round, latest, k)?;
        }
    }
}
