//! The budgets of a run.
ghost use Rattle.std.specs.Prelude.{◌≡◌};
ghost use Rattle.limits.specs.Budgets as spec;
ghost use Rattle.limits.specs.declared.budgets.TheConstants.{MOST_PAIRS, MOST_BRANCHES, MOST_ENTRIES, MOST_LIST};

/// The largest budget of pairs that a run can ask for.
pub const MOST_PAIRS: u32 = 10_000_000;
/// The largest budget of diagram branches.
pub const MOST_BRANCHES: u32 = 67_108_864;
/// The largest budget of entries for one proof.
pub const MOST_ENTRIES: u32 = 10_000_000;
/// The largest number of steps that a listed trace may have.
pub const MOST_LIST: u32 = 4_000;

/// The budgets of a run: how much the engine may compute, and how long a listed trace may be.
#[derive(Clone, Copy, Debug, PartialEq, Eq)]
pub struct Limits {
    /// Whether summaries are held in a table of pairs, in place of diagrams.
    pub plain: bool,
    /// The most pairs of a kind and a parent's visible label in the table. Used with `plain` only.
    pub pairs: u32,
    /// The most branches in the diagrams. Not used with `plain`.
    pub nodes: u32,
    /// The most entries of one proof.
    pub entries: u32,
    /// The most steps of a trace that a report lists step by step.
    pub list: u32,
}

/// The limits of a run that sets none of its own.
pub fn standard() -> Limits
    ensures standard { result ≡ spec.standard }
    ensures in_range { spec.IsInRange result }
    ensures most_pairs { MOST_PAIRS ≡ 10000000 }
    ensures most_branches { MOST_BRANCHES ≡ 67108864 }
    ensures most_entries { MOST_ENTRIES ≡ 10000000 }
    ensures most_list { MOST_LIST ≡ 4000 }
{
    Limits {
        plain: false,
        pairs: 50_000,
        nodes: 4_194_304,
        entries: 100_000,
        list: 1_000,
    }
}
