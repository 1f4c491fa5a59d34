//! The order, from the matches of `clap`.
ghost use Rattle.std.specs.Prelude.{◌≡◌, List, length};
ghost use Rattle.clap.specs.Matches.{found_of, first_value};
ghost use Rattle.command_words.specs.Parts.{Flag, Part, flag_name};
ghost use Rattle.command_words.specs.Orders as spec;
ghost use Rattle.command_words.specs.Says.{Says};

use crate::numbers::number_of;
use crate::words::Mode;
use clap::ArgMatches;
use limits::{Limits, MOST_BRANCHES, MOST_ENTRIES, MOST_LIST, MOST_PAIRS, standard};
use triple_gen::MOST_BOXES;

// The value of an option in its range, or the default where it isn't given.
fn value_or(
    matches: &ArgMatches<'_>,
    name: &str,
    least: u32,
    most: u32,
    default: u32,
) -> Option<u32>
    ensures { result ≡ spec.value_or least most default (first_value (found_of matches.now) name.now) }
{
    match matches.get_str(name) {
        None => Some(default),
        Some(text) => number_of(text, least, most),
    }
}

// Whether an option without a value is given.
fn says(matches: &ArgMatches<'_>, name: &str) -> bool
    ensures { (ps : List Part) (f : Flag) → Says ps matches.now → flag_name f ≡ name.now → result ≡ spec.says f ps }
{
    matches.get_flag(name)
}

/// The limits, where their values are right.
pub(crate) fn limits_of(matches: &ArgMatches<'_>) -> Option<Limits>
    ensures { (ps : List Part) → Says ps matches.now → result ≡ spec.limits_if ps }
{
    let usual = standard();
    let pairs = value_or(matches, "pairs", 1, MOST_PAIRS, usual.pairs)?;
    let nodes = value_or(matches, "nodes", 1, MOST_BRANCHES, usual.nodes)?;
    let entries = value_or(matches, "entries", 1, MOST_ENTRIES, usual.entries)?;
    let list = value_or(matches, "list", 0, MOST_LIST, usual.list)?;
    Some(Limits {
        plain: says(matches, "plain"),
        pairs,
        nodes,
        entries,
        list,
    })
}

/// The size that is given, if one is, where it is right.
pub(crate) fn size_of(matches: &ArgMatches<'_>) -> Option<Option<u32>>
    ensures { (ps : List Part) → Says ps matches.now → result ≡ spec.size_if ps }
{
    match matches.get_str("gen") {
        None => Some(None),
        Some(text) => {
            let size = number_of(text, 0, MOST_BOXES)?;
            Some(Some(size))
        }
    }
}

fn mode_by(prune: bool, dead: bool, runs: bool, site: bool) -> Option<Mode>
    ensures { result ≡ spec.mode_by prune dead runs site }
{
    match (prune, dead, runs, site) {
        (false, false, false, false) => Some(Mode::Report),
        (true, false, false, false) => Some(Mode::Prune),
        (false, true, false, false) => Some(Mode::Dead),
        (false, false, true, false) => Some(Mode::Runs),
        (false, false, false, true) => Some(Mode::Site),
        (true, false, false, true) => Some(Mode::SitePrune),
        _ => None,
    }
}

/// What is to be written, where what is asked for goes together.
pub(crate) fn mode_of(matches: &ArgMatches<'_>) -> Option<Mode>
    ensures { (ps : List Part) → Says ps matches.now → result ≡ spec.mode_in ps }
{
    let prune = says(matches, "prune");
    let dead = says(matches, "dead");
    let runs = says(matches, "runs");
    mode_by(prune, dead, runs, says(matches, "site"))
}

/// How many names there are.
pub(crate) fn count_of(matches: &ArgMatches<'_>) -> usize
    ensures { (ps : List Part) → Says ps matches.now → result ≡ length (spec.names_in ps) }
{
    match matches.get_strs("names") {
        None => 0,
        Some(names) => names.len(),
    }
}
