//! A cursor over the words of a file.
ghost use Rattle.std.specs.Prelude.{◌≡◌, ◌<◌, drop, IfOk, IfErr, OnOk};
ghost use Rattle.jq_words.specs.Words as words;
ghost use Rattle.jq_words.specs.FreeLists as lists;
ghost use Rattle.jq_words.specs.Views.{rules_of};
ghost use Rattle.jq_words.specs.CallViews.{row_from};
ghost use Rattle.jq_words.specs.Results.{Finds, Leaves, InFile, IsRest, IsBehind};
ghost use Rattle.jq_words.specs.declared.faults.ScriptFault.TheVariants.{Memory};
ghost use Rattle.jq_cursor.specs.Lists as spec;
ghost use Rattle.jq_cursor.specs.ListViews.{extent_of};

use crate::argument_lists::{ArgumentList, Arguments, read_list};
use crate::lists::Lists;
use jq_words::{Row, Rules, ScriptFault, Words, begins, end, free, want, want_name, want_open};
use std::alloc::Global;
use std::marker::Model;

/// The words of a file from a place on. A contract sees the list of them, and the file's size in bytes.
#[derive(Drop)]
pub struct Cursor<'l, 'a> {
    words: Words<'a>,
    lists: &'l Lists<'a>,
}

impl<'l, 'a> Model for Cursor<'l, 'a> {
    ghost use Rattle.jq_words.specs.Words.{Rest};
    ghost use Rattle.jq_words.specs.Results.{IsRest};

    ghost Value = { Rest };

    ghost view = { λ c. c.words };

    ghost invariant = { λ c. IsRest c.lists.now.words c.words.words };
}

/// The arguments of a call, with the place behind them.
pub type Enclosed<'l, 'a> = Arguments<Cursor<'l, 'a>>;

impl<'l, 'a> Cursor<'l, 'a> {
    /// The file's first word. Constant.
    #[tactic(auto, using(jq_words::proofs::Rests::itself))]
    pub fn new(lists: &'l Lists<'a>) -> Self
        ensures { result ≡ lists.now }
    {
        Cursor {
            words: lists.words(),
            lists,
        }
    }

    /// A second cursor at this place, to look ahead. Constant.
    pub fn again(&self) -> Cursor<'l, 'a>
        ensures { result ≡ self.now }
    {
        Cursor {
            words: self.words.again(),
            lists: self.lists,
        }
    }

    /// The words from here on. Constant.
    pub fn words(&self) -> &Words<'a>
        ensures { result.now ≡ self.now }
    {
        &self.words
    }

    /// Passes the first word. Constant.
    #[tactic(auto, using(jq_words::proofs::Rests::is_rest, jq_words::proofs::Rests::of_rest))]
    pub fn pass(&mut self)
        ensures passed { self.new ≡ words.past 1 self.old }
        ensures rest { InFile IsBehind self.old self.new }
    {
        self.words.pass();
    }

    /// Passes so many words. Linear in their number.
    #[tactic(auto, using(jq_words::proofs::Rests::of_rest))]
    pub fn pass_all(&mut self, count: usize)
        ensures passed { self.new ≡ words.past count self.old }
        ensures rest { InFile IsRest self.old self.new }
        ensures behind { 0 < count → InFile IsBehind self.old self.new }
    {
        self.words.pass_all(count);
    }

    /// Passes a mark that is wanted. Constant. After a refusal the place is as it was.
    #[tactic(auto, using(crate::proofs::PlaceSteps::kept))]
    pub fn want(&mut self, spelling: &[u8]) -> Result<(), ScriptFault>
        ensures gives { Leaves self.new.words result (words.want self.old.size spelling.now self.old.words) }
        ensures rest { OnOk result (InFile IsBehind self.old self.new) }
    {
        let mut rest = self.words.again();
        want(spelling, &mut rest)?;
        self.words = rest;
        Ok(())
    }

    /// Passes an opening bracket that is wanted, where so many may still be opened. Constant. After a refusal the place is as it was.
    #[tactic(auto, using(crate::proofs::PlaceSteps::kept))]
    pub fn want_open(&mut self, room: usize, spelling: &[u8]) -> Result<(), ScriptFault>
        ensures gives { Leaves self.new.words result (words.want_open self.old.size room spelling.now self.old.words) }
        ensures rest { OnOk result (InFile IsBehind self.old self.new) }
        ensures opened { OnOk result (0 < room) }
    {
        let mut rest = self.words.again();
        want_open(room, spelling, &mut rest)?;
        self.words = rest;
        Ok(())
    }

    /// Passes a name that is wanted, whichever it is. Constant. After a refusal the place is as it was.
    #[tactic(auto, using(crate::proofs::PlaceSteps::kept))]
    pub fn want_name(&mut self) -> Result<&'a [u8], ScriptFault>
        ensures gives { Finds (λ n. n.now) self.new.words result (words.want_name self.old.size self.old.words) }
        ensures rest { OnOk result (InFile IsBehind self.old self.new) }
    {
        let mut rest = self.words.again();
        let name = want_name(&mut rest)?;
        self.words = rest;
        Ok(name)
    }

    /// Passes the end of a statement. Constant. After a refusal the place is as it was.
    #[tactic(auto, using(jq_words::proofs::Rests::of_rest))]
    pub fn end(&mut self) -> Result<(), ScriptFault>
        ensures gives { Leaves self.new.words result (words.end self.old.size self.old.words) }
        ensures rest { OnOk result (InFile IsRest self.old self.new) }
    {
        let mut rest = self.words.again();
        end(&mut rest)?;
        self.words = rest;
        Ok(())
    }

    /// Passes a list of any expressions. Linear in it but for look-ups. After a refusal the place is as it was.
    #[tactic(auto, using(crate::proofs::PlaceSteps::kept))]
    pub fn free(&mut self, alloc: Global, rules: Rules<'_>) -> Result<(), ScriptFault>
        ensures gives { Leaves self.new.words result (lists.free self.old.size (rules_of rules.entry) self.old.words) }
        ensures rest { OnOk result (InFile IsBehind self.old self.new) }
    {
        let mut rest = self.words.again();
        free(alloc, rules, &mut rest)?;
        self.words = rest;
        Ok(())
    }

    /// The arguments behind the first word, which is a call's bracket. Constant on average: they were noted when the file was begun.
    pub fn enclosed(&self, alloc: Global) -> Result<Enclosed<'l, 'a>, ScriptFault>
        ensures gives { IfOk result (λ e. extent_of e ≡ spec.extent (drop 1 self.now.words)) }
        ensures only_memory { IfErr result (λ e. e ≡ Memory) }
    {
        match self.lists.get(&self.words) {
            Some(list) => Ok(self.with_place(list)),
            None => {
                let list = read_list(alloc, &self.words.behind())?;
                Ok(self.with_place(&list))
            }
        }
    }

    // A list of arguments behind the first word, with its place.
    #[tactic(auto, using(crate::proofs::NoteSteps::behind_part))]
    fn with_place(&self, list: &ArgumentList<'a>) -> Enclosed<'l, 'a>
        requires { extent_of list.now ≡ spec.extent (drop 1 self.now.words) }
        ensures { extent_of result ≡ extent_of list.now }
    {
        Arguments {
            count: list.count,
            whole: list.whole,
            behind: Cursor {
                words: list.behind.again(),
                lists: self.lists,
            },
        }
    }
}

/// Whether a call has as many arguments as there are. Constant.
#[tactic(auto, unfolding(crate::specs::Lists::counts))]
pub fn counts(row: &Row<'_>, enclosed: &Enclosed<'_, '_>) -> bool
    ensures { result ≡ spec.counts (row_from row.now) (extent_of enclosed.now) }
{
    let few = enclosed.count < row.fewest && begins(&enclosed.behind.words, b")");
    match row.most {
        None => !few,
        Some(most) => enclosed.count <= most && !few,
    }
}
