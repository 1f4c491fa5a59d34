//! Trees from the letters of an argument that is markup.
ghost use Rattle.std.specs.Prelude.{◌≡◌, ◌≤◌, IfOk, IfErr, OnOk};
ghost use Rattle.sel_text.specs.Results.{IsFront};
ghost use Rattle.jq_words.specs.Results.{Finds};
ghost use Rattle.jq_words.specs.declared.faults.ScriptFault.TheVariants.{Memory};
ghost use Rattle.jq_words.specs.declared.faults.TheConstants.{MOST_FOREST_NODES};
ghost use Rattle.jq_parts.specs.Markup as spec;
ghost use Rattle.jq_parts.specs.ScopeViews.{grown_of};

use html_subset::{PageFault, read_forest};
use jq_words::{MOST_FOREST_NODES, ScriptFault};
use std::alloc::Global;
use tp_base::AtomTable;
use tree_sem::{Forest, Tree};

/// The table of names, and the number of nodes in all markup so far.
#[derive(Drop)]
pub struct Grown {
    pub atoms: AtomTable,
    pub nodes: usize,
}

// The number of nodes in some trees.
fn count_nodes(trees: &[Tree]) -> Result<usize, ScriptFault>
    ensures count { IfOk result (λ n. n ≡ spec.nodes_in trees.now) }
    ensures only_memory { IfErr result (λ e. e ≡ Memory) }
{
    let mut count: usize = 0;
    for tree in trees {
        count = count
            .checked_add(tree.count() as usize)
            .ok_or(ScriptFault::Memory)?;
    }
    Ok(count)
}

/// Reads the trees in the letters of markup, and adds their nodes to the count in `grown`. `at` is the offset of the first string
/// literal. Names read before a refusal stay in the table. Linear in the letters, besides look-ups of names.
#[tactic(auto, unfolding(crate::specs::Markup::forest))]
pub fn forest(
    alloc: Global,
    at: usize,
    letters: &[u8],
    grown: &mut Grown,
) -> Result<Forest, ScriptFault>
    ensures gives { Finds (λ f. f.tops) (grown_of grown.new) result (spec.forest at letters.now (grown_of grown.old)) }
    ensures few { OnOk result (grown.new.nodes ≤ MOST_FOREST_NODES) }
    ensures front { IsFront grown.old.atoms grown.new.atoms }
{
    let found = match read_forest(alloc, letters, &mut grown.atoms) {
        Ok(found) => found,
        Err(PageFault::TooDeep(_)) => return Err(ScriptFault::TooDeep(at)),
        Err(PageFault::TooManyNodes(_)) => return Err(ScriptFault::TooManyForestNodes(at)),
        Err(PageFault::TooManyAtoms(_)) => return Err(ScriptFault::TooManyAtoms(at)),
        Err(PageFault::NotUtf8(_)) => return Err(ScriptFault::UnknownForm(at)),
        Err(PageFault::Memory) => return Err(ScriptFault::Memory),
    };
    let count = count_nodes(found.tops.items())?;
    let all = grown.nodes.checked_add(count).ok_or(ScriptFault::Memory)?;
    if all > MOST_FOREST_NODES {
        return Err(ScriptFault::TooManyForestNodes(at));
    }
    grown.nodes = all;
    Ok(found)
}
