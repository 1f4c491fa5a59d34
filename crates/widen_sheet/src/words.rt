//! What the words of the command ask for.
ghost use Rattle.std.specs.Prelude.{◌≡◌, codes, map, string_bytes, option_map, option_and_then, Some, None, IfOk, IsErrOf};
ghost use Rattle.clap.specs.Matches.{found_of, first_value, raw_values, matched_of};
ghost use Rattle.clap.specs.Walk.{rows_of};
ghost use Rattle.widen_sheet.specs.Words as spec;

use crate::described::described;
use clap::ArgMatches;
use clap::error::ErrorKind;
use std::alloc::Global;
use thiserror::Error;
use tp_base::NoMemory;

/// What is done with a sheet.
#[derive(Clone, Copy, Debug, PartialEq, Eq)]
pub enum Way {
    /// Its selectors are widened.
    Widen,
    /// Its marks are put back.
    Back,
}

/// Why words are no order.
#[derive(Clone, Copy, Debug, PartialEq, Eq, Error)]
pub enum WordsFault {
    #[error("not the words of the command")]
    Words,
    #[error("no memory")]
    Memory,
}

impl From<NoMemory> for WordsFault {
    ghost use Rattle.std.specs.Prelude.{◌≡◌};
    ghost use Rattle.widen_sheet.specs.declared.words.WordsFault.TheVariants.{Memory};

    ghost from_gives = { λ _ e. e ≡ Memory };

    fn from(_error: NoMemory) -> WordsFault {
        WordsFault::Memory
    }
}

fn way_of(matches: &ArgMatches<'_>) -> Way
    ensures { result ≡ spec.way_by (first_value (found_of matches.now) (codes "back")) }
{
    match matches.get_str("back") {
        Some(value) if value == "true" => Way::Back,
        _ => Way::Widen,
    }
}

// The name, where there is one name.
fn file_of<'a>(matches: &ArgMatches<'a>) -> Option<&'a str>
    ensures { option_map (λ n. n.now) result ≡ option_and_then spec.only (option_map raw_values (matched_of (found_of matches.now) (codes "files"))) }
{
    match matches.get_strs("files") {
        Some([name]) => Some(name),
        _ => None,
    }
}

// The order that matches give.
fn ordered<'a>(matches: &ArgMatches<'a>) -> Result<(Way, &'a str), WordsFault>
    ensures order { IfOk result (λ o. spec.order_in (rows_of (found_of matches.now)) ≡ Some (o.0, o.1.now)) }
    ensures words { IsErrOf result WordsFault.Words → spec.order_in (rows_of (found_of matches.now)) ≡ None }
{
    match file_of(matches) {
        Some(name) => Ok((way_of(matches), name)),
        None => Err(WordsFault::Words),
    }
}

/// What is done, and the name of the sheet, as the words after the program's name say: `--back` at most once, and one name. Linear
/// in the words.
pub(crate) fn read_words(alloc: Global, words: &[String]) -> Result<(Way, &str), WordsFault>
    ensures order { IfOk result (λ o. spec.order_of (map string_bytes words.now) ≡ Some (o.0, o.1.now)) }
    ensures words { IsErrOf result WordsFault.Words → spec.order_of (map string_bytes words.now) ≡ None }
{
    let command = described(alloc)?;
    match command.try_get_matches_from(words) {
        Ok(matches) => ordered(&matches),
        Err(error) if error.kind() == ErrorKind::OutOfMemory => Err(WordsFault::Memory),
        Err(_) => Err(WordsFault::Words),
    }
}
