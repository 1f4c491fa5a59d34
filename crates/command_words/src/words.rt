//! The order that a command line gives.
ghost use Rattle.std.specs.Prelude.{◌≡◌, ◌↔◌, ◌≤◌, ◌+◌, ◌*◌, List, [], true, length, is_some, IsSome, IfSome, None, Some, map, IfOk, IsErrOf, string_bytes};
ghost use Rattle.triple_gen.specs.declared.triple.TheConstants.{MOST_BOXES};
ghost use Rattle.limits.specs.Budgets.{IsInRange};
ghost use Rattle.limits.specs.declared.pages.TheConstants.{MOST_PAGES};
ghost use Rattle.command_words.specs.declared.numbers.TheConstants.{MOST_DIGITS};
ghost use Rattle.command_words.specs.Parts.{Part};
ghost use Rattle.command_words.specs.Orders as spec;
ghost use Rattle.command_words.specs.Says.{Says};

use crate::command::command;
use crate::matched::{count_of, limits_of, mode_of, size_of};
use clap::ArgMatches;
use clap::error::ErrorKind;
use limits::{Limits, MOST_PAGES};
use std::alloc::Global;
use std::marker::Model;
use thiserror::Error;
use tp_base::{Items, NoMemory};

/// A word of the command line. A contract sees the list of its bytes.
#[derive(Drop)]
pub struct Word {
    text: String,
}

impl Model for Word {
    ghost use Rattle.std.specs.Prelude.{List, ℕ, string_bytes};

    ghost Value = { List ℕ };

    ghost view = { λ w. string_bytes w.text };
}

impl Word {
    fn new(alloc: Global, text: &str) -> Result<Self, NoMemory>
        ensures { IfOk result (λ w. w ≡ text.now) }
    {
        Ok(Word {
            text: String::from_str(alloc, text)?,
        })
    }

    /// The word as text. Constant.
    pub fn as_str(&self) -> &str
        ensures { result.now ≡ self.now }
    {
        self.text.as_str()
    }
}

/// Words of the command line, one after another. A contract sees the list of them.
pub type Words = Items<Word>;

/// What is written of a run: the report; the sheet without its unused selectors; the report, and what of the script is dead; the
/// report with whole runs of statements in the place of steps; the report on several pages that use one sheet; or that sheet
/// without the selectors that are unused on each of them.
#[derive(Clone, Copy, Debug, PartialEq, Eq)]
pub enum Mode {
    Report,
    Prune,
    Dead,
    Runs,
    Site,
    SitePrune,
}

impl Mode {
    /// Whether it is on several pages.
    pub fn takes_pages(self) -> bool
        ensures { result ≡ spec.takes_pages self }
    {
        matches!(self, Mode::Site | Mode::SitePrune)
    }
}

/// What a run is to do: to judge the files of these names, or a triple that is generated in a size, within limits. The names are
/// those of a page, a sheet and a script; or, on several pages, of the sheet, and then of each page and its script.
#[derive(Drop)]
pub struct Order {
    pub names: Words,
    pub size: Option<u32>,
    pub mode: Mode,
    pub limits: Limits,
}

/// Why words are no order.
#[derive(Clone, Copy, Debug, PartialEq, Eq, Error)]
pub enum WordsFault {
    #[error("not the words of the command")]
    Words,
    #[error("no memory")]
    Memory,
}

impl From<NoMemory> for WordsFault {
    ghost use Rattle.std.specs.Prelude.{◌≡◌};
    ghost use Rattle.command_words.specs.declared.words.WordsFault.TheVariants.{Memory};

    ghost from_gives = { λ _ e. e ≡ Memory };

    fn from(_error: NoMemory) -> WordsFault {
        WordsFault::Memory
    }
}

// The words of these names.
fn words_of(alloc: Global, names: &[&str]) -> Result<Words, NoMemory>
    ensures { IfOk result (λ w. w ≡ map (λ n. n.now) names.now) }
{
    let mut items = Vec::new(alloc);
    'names: for name in names {
        items.push(Word::new(alloc, name)?)?;
    }
    Ok(Words::new(items))
}

fn names_of(alloc: Global, matches: &ArgMatches<'_>) -> Result<Words, NoMemory>
    ensures { IfOk result (λ w. (ps : List Part) → Says ps matches.now → w ≡ spec.names_in ps) }
{
    match matches.get_strs("names") {
        None => words_of(alloc, &[]),
        Some(names) => words_of(alloc, names),
    }
}

// A sheet, and so many pages with their scripts.
fn is_site(count: usize) -> bool
    ensures { result ≡ spec.is_site count }
{
    count % 2 == 1 && 3 <= count && count <= 2 * MOST_PAGES as usize + 1
}

// Whether a mode takes so many names, with a size or without.
fn is_named(mode: Mode, sized: bool, count: usize) -> bool
    ensures { result ≡ spec.is_named mode sized count }
{
    match mode {
        Mode::Report if sized => count == 0,
        _ if sized => false,
        _ if mode.takes_pages() => is_site(count),
        _ => count == 3,
    }
}

// The order that matches give.
fn ordered(alloc: Global, matches: &ArgMatches<'_>) -> Result<Order, WordsFault>
    ensures order { IfOk result (λ o. (ps : List Part) → Says ps matches.now → spec.order_from ps ≡ Some o) }
    ensures words { IsErrOf result WordsFault.Words → (ps : List Part) → Says ps matches.now → spec.order_from ps ≡ None }
{
    let Some(mode) = mode_of(matches) else {
        return Err(WordsFault::Words);
    };
    let Some(limits) = limits_of(matches) else {
        return Err(WordsFault::Words);
    };
    let Some(size) = size_of(matches) else {
        return Err(WordsFault::Words);
    };
    if !is_named(mode, size.is_some(), count_of(matches)) {
        return Err(WordsFault::Words);
    }
    let names = names_of(alloc, matches)?;
    Ok(Order {
        names,
        size,
        mode,
        limits,
    })
}

/// The order that the words after the program's name give: options, each at most once, and the names that the mode takes, or none
/// with `--gen`. A value is the word behind its option, or stands after `=`. Linear in the words.
pub fn read_words(alloc: Global, words: &[String]) -> Result<Order, WordsFault>
    ensures order { IfOk result (λ o. spec.order_of (map string_bytes words.now) ≡ Some o) }
    ensures words { IsErrOf result WordsFault.Words → spec.order_of (map string_bytes words.now) ≡ None }
    ensures one { IfOk result (λ o. IsSome o.size ↔ (o.names ≡ [])) }
    ensures named { IfOk result (λ o. spec.is_named o.mode (is_some o.size) (length o.names) ≡ true) }
    ensures few { IfOk result (λ o. IfSome o.size (λ n. n ≤ MOST_BOXES)) }
    ensures short { IfOk result (λ o. length o.names ≤ 2 * MOST_PAGES + 1) }
    ensures in_range { IfOk result (λ o. IsInRange o.limits) }
    ensures most_digits { MOST_DIGITS ≡ 10 }
    ensures most_pages { MOST_PAGES ≡ 64 }
{
    let command = command(alloc)?;
    match command.try_get_matches_from(words) {
        Ok(matches) => ordered(alloc, &matches),
        Err(error) if error.kind() == ErrorKind::OutOfMemory => Err(WordsFault::Memory),
        Err(_) => Err(WordsFault::Words),
    }
}
