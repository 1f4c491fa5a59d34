//! Answers by the statements as they stand in a script.
ghost use Rattle.std.specs.Prelude.{◌≡◌, All, map, IfOk};
ghost use Rattle.usage_report.specs.Views.{answer_of};
ghost use Rattle.jq_exact.specs.Room.{HasRoom};
ghost use Rattle.jq_exact.specs.Scripts.{exact_in};
ghost use Rattle.jq_exact.specs.Settling.{AreSettled, IsUnfolded};

use jq_exact::{Script, any_marked, joined, parted, settle};
use simple_core::System;
use std::alloc::Global;
use tp_base::NoMemory;
use tree_sem::Tree;
use usage_report::Answer;

/// A script, and answers by its statements as they stand in it.
#[derive(Drop)]
pub(crate) struct Settled {
    pub(crate) script: Script,
    pub(crate) items: Vec<Answer>,
}

/// The answers, settled by an exact replay where the script has sharp calls. The cost is that of `settle`. It is next to nothing
/// for a script without sharp calls.
pub(crate) fn settle_all(
    alloc: Global,
    page: &Tree,
    script: Script,
    system: &System,
    items: Vec<Answer>,
) -> Result<Settled, NoMemory>
    requires room { HasRoom page.now (exact_in script) }
    requires unfolded { All (λ a. IsUnfolded page.now system.now (answer_of a)) items.items }
    ensures same { IfOk result (λ s. exact_in s.script ≡ exact_in script) }
    ensures settled { IfOk result (λ s. AreSettled page.now (exact_in script) system.now (map answer_of items.items) (map answer_of s.items.items)) }
{
    if !any_marked(&script.sharp) {
        return Ok(Settled { script, items });
    }
    let exact = joined(alloc, script)?;
    let items = settle(alloc, page, &exact, system, items)?;
    let script = parted(alloc, exact)?;
    Ok(Settled { script, items })
}
