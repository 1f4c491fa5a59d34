//! What the words of the command ask for.
ghost use Rattle.std.specs.Prelude.{◌≡◌, [], codes, map, string_bytes, Some, None, IfOk, IsErrOf};
ghost use Rattle.clap.specs.Matches.{found_of};
ghost use Rattle.clap.specs.Walk.{rows_of};
ghost use Rattle.premise_lines.specs.Lines.{has_name, is_same};
ghost use Rattle.premise_lines.specs.Words as spec;

use crate::described::described;
use clap::ArgMatches;
use clap::error::ErrorKind;
use premise_finds::Name;
use std::alloc::Global;
use std::marker::Model;
use thiserror::Error;
use tp_base::{Items, NoMemory};

/// A word of the command line. A contract sees the list of its bytes.
#[derive(Drop)]
pub struct Word {
    text: String,
}

impl Model for Word {
    ghost use Rattle.std.specs.Prelude.{List, ℕ, string_bytes};

    ghost Value = { List ℕ };

    ghost view = { λ w. string_bytes w.text };
}

impl Word {
    fn new(alloc: Global, text: &str) -> Result<Self, NoMemory>
        ensures { IfOk result (λ w. w ≡ text.now) }
    {
        Ok(Word {
            text: String::from_str(alloc, text)?,
        })
    }

    /// The word as text. Constant.
    pub(crate) fn as_str(&self) -> &str
        ensures { result.now ≡ self.now }
    {
        self.text.as_str()
    }
}

/// What a run is to do: to find what the files of these names have, but for what has one of these names, each of which is there once.
#[derive(Drop)]
pub struct Order {
    pub(crate) excepted: Items<Name>,
    pub(crate) page: Word,
    pub(crate) sheet: Word,
}

/// Why words are no order.
#[derive(Clone, Copy, Debug, PartialEq, Eq, Error)]
pub enum WordsFault {
    #[error("not the words of the command")]
    Words,
    #[error("no memory")]
    Memory,
}

impl From<NoMemory> for WordsFault {
    ghost use Rattle.std.specs.Prelude.{◌≡◌};
    ghost use Rattle.premise_lines.specs.declared.words.WordsFault.TheVariants.{Memory};

    ghost from_gives = { λ _ e. e ≡ Memory };

    fn from(_error: NoMemory) -> WordsFault {
        WordsFault::Memory
    }
}

fn same(one: Name, other: Name) -> bool
    ensures { result ≡ is_same one other }
{
    one == other
}

/// Whether a name is one of these. Linear in them.
pub(crate) fn has(names: &[Name], name: Name) -> bool
    ensures { result ≡ has_name names.now name }
{
    names.iter().any(|other| same(name, *other))
}

fn add_name(names: &mut Vec<Name>, name: Name) -> Result<(), NoMemory>
    ensures { IfOk result (λ _. names.new.items ≡ spec.with_name names.old.items name) }
{
    if !has(names, name) {
        names.push(name)?;
    }
    Ok(())
}

// The names that are written so, each once. Linear in the texts.
fn names_of(alloc: Global, texts: &[&str]) -> Result<Vec<Name>, WordsFault>
    ensures names { IfOk result (λ names. spec.names_from [] (map (λ t. t.now) texts.now) ≡ Some names.items) }
    ensures words { IsErrOf result WordsFault.Words → spec.names_from [] (map (λ t. t.now) texts.now) ≡ None }
{
    let mut names = Vec::new(alloc);
    let mut left = texts;
    'texts: while let [text, others @ ..] = left {
        let Some(name) = Name::of(text.as_bytes()) else {
            return Err(WordsFault::Words);
        };
        add_name(&mut names, name)?;
        left = others;
    }
    Ok(names)
}

// The order that these values give.
fn order_by(alloc: Global, excepted: &[&str], files: &[&str]) -> Result<Order, WordsFault>
    ensures order { IfOk result (λ o. spec.order_by (map (λ t. t.now) excepted.now) (map (λ t. t.now) files.now) ≡ Some o) }
    ensures words { IsErrOf result WordsFault.Words → spec.order_by (map (λ t. t.now) excepted.now) (map (λ t. t.now) files.now) ≡ None }
{
    let [page, sheet] = files else {
        return Err(WordsFault::Words);
    };
    let names = names_of(alloc, excepted)?;
    let page = Word::new(alloc, page)?;
    let sheet = Word::new(alloc, sheet)?;
    Ok(Order {
        excepted: Items::new(names),
        page,
        sheet,
    })
}

// The order that the files of matches give, with these values.
fn order_with(
    alloc: Global,
    excepted: &[&str],
    matches: &ArgMatches<'_>,
) -> Result<Order, WordsFault>
    ensures order { IfOk result (λ o. spec.order_by (map (λ t. t.now) excepted.now) (spec.all_in (codes "files") (rows_of (found_of matches.now))) ≡ Some o) }
    ensures words { IsErrOf result WordsFault.Words → spec.order_by (map (λ t. t.now) excepted.now) (spec.all_in (codes "files") (rows_of (found_of matches.now))) ≡ None }
{
    match matches.get_strs("files") {
        None => Err(WordsFault::Words),
        Some(files) => order_by(alloc, excepted, files),
    }
}

// The order that matches give.
fn ordered(alloc: Global, matches: &ArgMatches<'_>) -> Result<Order, WordsFault>
    ensures order { IfOk result (λ o. spec.order_in (rows_of (found_of matches.now)) ≡ Some o) }
    ensures words { IsErrOf result WordsFault.Words → spec.order_in (rows_of (found_of matches.now)) ≡ None }
{
    match matches.get_strs("except") {
        None => order_with(alloc, &[], matches),
        Some(excepted) => order_with(alloc, excepted, matches),
    }
}

/// The order that the words after the program's name give: `--except` with a name, or `--except=NAME`, any number of times, and the
/// names of a page and a sheet. Linear in the words.
pub(crate) fn read_words(alloc: Global, words: &[String]) -> Result<Order, WordsFault>
    ensures order { IfOk result (λ o. spec.order_of (map string_bytes words.now) ≡ Some o) }
    ensures words { IsErrOf result WordsFault.Words → spec.order_of (map string_bytes words.now) ≡ None }
{
    let command = described(alloc)?;
    match command.try_get_matches_from(words) {
        Ok(matches) => ordered(alloc, &matches),
        Err(error) if error.kind() == ErrorKind::OutOfMemory => Err(WordsFault::Memory),
        Err(_) => Err(WordsFault::Words),
    }
}
