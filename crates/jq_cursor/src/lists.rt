//! The words of a file, with the extent of the arguments in each bracket.
ghost use Rattle.std.specs.Prelude.{◌≡◌, ◌≤◌, [], ◌∷◌, ◌++◌, Some, None, true, false, length, drop, codes, OnOk, IfOk, IfErr, IfSome, IfNone};
ghost use Rattle.js_scan.specs.Tokens.{InOrder};
ghost use Rattle.js_scan.specs.Utf8.{AreTexts};
ghost use Rattle.jq_words.specs.Words as spec;
ghost use Rattle.jq_words.specs.Words.{is_mark};
ghost use Rattle.jq_words.specs.Brackets as brackets;
ghost use Rattle.jq_words.specs.Results.{IsRest};
ghost use Rattle.jq_words.specs.declared.faults.ScriptFault.TheVariants.{Memory};
ghost use Rattle.jq_cursor.specs.Lists.{extent};
ghost use Rattle.jq_cursor.specs.ListViews.{extent_of};
ghost use Rattle.jq_cursor.specs.Notes.{Holds, Ends, AllEnd};
ghost use Rattle.jq_cursor.specs.Commas.{pending_in};

use crate::argument_lists::{ArgumentList, ended};
use crate::open_lists::{Open, Pending, and_comma};
use indexmap::IndexMap;
use jq_words::{Bracket, MOST_OPEN, ScriptFault, Word, Words, closed_by, opened_by};
use js_scan::Token;
use std::alloc::Global;
use std::marker::Model;

/// The words of a file, with how far the arguments of its calls reach. A contract sees the list of the words, and the file's
/// size in bytes.
#[derive(Drop)]
pub struct Lists<'a> {
    all: Words<'a>,
    notes: IndexMap<usize, ArgumentList<'a>>,
}

impl<'a> Model for Lists<'a> {
    ghost use Rattle.std.specs.Prelude.{◌≡◌, ℕ, Some, nat_eq};
    ghost use Rattle.std.specs.Map.{lookup};
    ghost use Rattle.jq_words.specs.Words.{Rest};
    ghost use Rattle.jq_cursor.specs.declared.argument_lists.Arguments.{Arguments};
    ghost use Rattle.jq_cursor.specs.Notes.{Ascends, IsNote};

    ghost Value = { Rest };

    ghost view = { λ l. l.all };

    ghost invariant = { λ l. Ascends l.all.words × ((at : ℕ) (list : Arguments Rest) → lookup (nat_eq at) l.notes.entries ≡ Some list → IsNote l.all.words at list) };
}

impl<'a> Lists<'a> {
    /// All words of a file. Linear in them, but for an entry for each call.
    #[tactic(auto, unfolding(jq_words::specs::Words::words), using(crate::proofs::OrderSteps::ascend, crate::proofs::NoteSteps::none_noted))]
    pub fn new(alloc: Global, text: &'a [u8], tokens: &'a [Token]) -> Result<Self, ScriptFault>
        requires in_order { InOrder 0 (length text.now) tokens.now }
        requires text { AreTexts text.now tokens.now }
        ensures gives { IfOk result (λ l. l ≡ spec.file text.now tokens.now) }
        ensures only_memory { IfErr result (λ e. e ≡ Memory) }
    {
        let mut lists = Lists {
            all: Words::new(text, tokens),
            notes: IndexMap::new(alloc),
        };
        lists.note_all(alloc)?;
        Ok(lists)
    }

    /// All words, from the first on. Constant.
    pub fn words(&self) -> Words<'a>
        ensures { result ≡ self.now }
    {
        self.all.again()
    }

    /// The arguments behind the first of the last words, where they were noted. Constant on average.
    #[tactic(auto, using(crate::proofs::NoteSteps::noted))]
    pub(crate) fn get(&self, words: &Words<'_>) -> Option<&ArgumentList<'a>>
        requires { IsRest self.now.words words.now.words }
        ensures few { length words.now.words ≤ usize.MAX }
        ensures noted { IfSome result (λ l. extent_of l.now ≡ extent (drop 1 words.now.words)) }
    {
        let word = words.first()?;
        self.notes.get(&word.at())
    }

    // Notes the arguments of all calls.
    #[tactic(auto, using(jq_words::proofs::Rests::itself, jq_words::proofs::Rests::is_rest, jq_words::proofs::Rests::of_rest, jq_words::proofs::Rests::behind_first))]
    fn note_all(&mut self, alloc: Global) -> Result<(), ScriptFault>
        ensures kept { OnOk result (self.new ≡ self.old) }
        ensures only_memory { IfErr result (λ e. e ≡ Memory) }
    {
        let mut opened = Vec::new(alloc);
        let mut rest = self.words();
        let mut names_call = false;
        'words: while let Some(word) = rest.first() {
            self.pass(&mut opened, names_call, &rest)?;
            names_call = word.is_any_name();
            rest.pass();
        }
        self.finish(&mut opened, &rest)
    }

    // Passes the first word. Where more brackets are open than may be, what is in one is noted no more: the file is refused there.
    #[tactic(auto, using(crate::proofs::NoteSteps::opens, crate::proofs::NoteSteps::opens_call, crate::proofs::NoteSteps::plain, crate::proofs::NoteSteps::no_words))]
    fn pass(
        &mut self,
        opened: &mut Vec<Open<'a>>,
        names_call: bool,
        words: &Words<'a>,
    ) -> Result<(), ScriptFault>
        requires part { IsRest self.old.words words.now.words }
        requires holds { Holds self.old.words opened.old.items words.now.words }
        ensures kept { OnOk result (self.new ≡ self.old) }
        ensures holds { OnOk result (Holds self.old.words opened.new.items (drop 1 words.now.words)) }
        ensures only_memory { IfErr result (λ e. e ≡ Memory) }
    {
        let Some(word) = words.first() else {
            return Ok(());
        };
        if let Some(bracket) = closed_by(&word) {
            return self.close(opened, bracket, &word, words);
        }
        if word.is_mark(b";") {
            return self.end_innermost(opened, &word, words);
        }
        if word.is_mark(b",") {
            return self.count_comma(opened, &word, words);
        }
        let Some(bracket) = opened_by(&word) else {
            return Ok(());
        };
        if !names_call || !word.is_mark(b"(") || opened.len() >= MOST_OPEN {
            opened.push(Open {
                bracket,
                list: None,
            })?;
            return Ok(());
        }
        let alloc = *opened.allocator();
        let list = words.again();
        let pending = Box::new(alloc, Pending { list, commas: 0 })?;
        opened.push(Open {
            bracket,
            list: Some(pending),
        })?;
        Ok(())
    }

    // A word closes the innermost bracket, or ends the arguments in all that are open.
    #[tactic(auto, using(crate::proofs::NoteSteps::closes_last, crate::proofs::NoteSteps::closes, crate::proofs::NoteSteps::all_end, crate::proofs::NoteSteps::none_open))]
    fn close(
        &mut self,
        opened: &mut Vec<Open<'a>>,
        bracket: Bracket,
        word: &Word<'_>,
        words: &Words<'a>,
    ) -> Result<(), ScriptFault>
        requires first { words.now.words ≡ word.now ∷ drop 1 words.now.words }
        requires closes { brackets.closed_by word.now ≡ Some bracket }
        requires holds { Holds self.old.words opened.old.items words.now.words }
        ensures kept { OnOk result (self.new ≡ self.old) }
        ensures holds { OnOk result (Holds self.old.words opened.new.items (drop 1 words.now.words)) }
        ensures only_memory { IfErr result (λ e. e ≡ Memory) }
    {
        let Some(last) = pop(opened) else {
            return Ok(());
        };
        let is_own = last.bracket == bracket;
        self.note(last.list, true, words)?;
        if is_own {
            return Ok(());
        }
        self.end_all(opened, words)
    }

    // A `;` ends the arguments in the innermost bracket.
    #[tactic(auto, using(crate::proofs::NoteSteps::semicolon_last, crate::proofs::NoteSteps::semicolon, crate::proofs::NoteSteps::none_open))]
    fn end_innermost(
        &mut self,
        opened: &mut Vec<Open<'a>>,
        word: &Word<'_>,
        words: &Words<'a>,
    ) -> Result<(), ScriptFault>
        requires first { words.now.words ≡ word.now ∷ drop 1 words.now.words }
        requires closes { brackets.closed_by word.now ≡ None }
        requires is { is_mark (codes ";") word.now ≡ true }
        requires holds { Holds self.old.words opened.old.items words.now.words }
        ensures kept { OnOk result (self.new ≡ self.old) }
        ensures holds { OnOk result (Holds self.old.words opened.new.items (drop 1 words.now.words)) }
        ensures only_memory { IfErr result (λ e. e ≡ Memory) }
    {
        let Some(last) = pop(opened) else {
            return Ok(());
        };
        let bracket = last.bracket;
        self.note(last.list, true, words)?;
        opened.push(Open {
            bracket,
            list: None,
        })?;
        Ok(())
    }

    // A `,` parts the arguments in the innermost bracket.
    #[tactic(auto, using(crate::proofs::NoteSteps::comma, crate::proofs::NoteSteps::few_commas, crate::proofs::NoteSteps::none_open))]
    fn count_comma(
        &self,
        opened: &mut Vec<Open<'a>>,
        word: &Word<'_>,
        words: &Words<'a>,
    ) -> Result<(), ScriptFault>
        requires first { words.now.words ≡ word.now ∷ drop 1 words.now.words }
        requires closes { brackets.closed_by word.now ≡ None }
        requires other { is_mark (codes ";") word.now ≡ false }
        requires is { is_mark (codes ",") word.now ≡ true }
        requires holds { Holds self.now.words opened.old.items words.now.words }
        ensures holds { OnOk result (Holds self.now.words opened.new.items (drop 1 words.now.words)) }
        ensures only_memory { IfErr result (λ e. e ≡ Memory) }
    {
        let Some(last) = pop(opened) else {
            return Ok(());
        };
        let bracket = last.bracket;
        let list = and_comma(last.list);
        opened.push(Open { bracket, list })?;
        Ok(())
    }

    // The file's end ends the arguments in all brackets that are open.
    #[tactic(auto, using(crate::proofs::NoteSteps::over_last, crate::proofs::NoteSteps::all_over))]
    fn finish(&mut self, opened: &mut Vec<Open<'a>>, words: &Words<'a>) -> Result<(), ScriptFault>
        requires over { words.now.words ≡ [] }
        requires holds { Holds self.old.words opened.old.items words.now.words }
        ensures kept { OnOk result (self.new ≡ self.old) }
        ensures only_memory { IfErr result (λ e. e ≡ Memory) }
    {
        let Some(last) = pop(opened) else {
            return Ok(());
        };
        self.note(last.list, true, words)?;
        self.end_all(opened, words)
    }

    // The arguments in all brackets that are open end before some words.
    #[tactic(auto, using(crate::proofs::NoteSteps::one_less_ends, crate::proofs::NoteSteps::last_ends, crate::proofs::NoteSteps::fewer))]
    fn end_all(&mut self, opened: &mut Vec<Open<'a>>, words: &Words<'a>) -> Result<(), ScriptFault>
        requires { AllEnd self.old.words opened.old.items words.now.words }
        ensures kept { OnOk result (self.new ≡ self.old) }
        ensures none { OnOk result (opened.new.items ≡ []) }
        ensures only_memory { IfErr result (λ e. e ≡ Memory) }
    {
        'brackets: while let Some(last) = pop(opened) {
            self.note(last.list, false, words)?;
        }
        Ok(())
    }

    // Notes the arguments in a bracket, which end before some words.
    #[tactic(auto, using(crate::proofs::NoteSteps::one_noted, crate::proofs::NoteSteps::same_noted))]
    fn note(
        &mut self,
        list: Option<Box<Pending<'a>>>,
        whole: bool,
        behind: &Words<'a>,
    ) -> Result<(), ScriptFault>
        requires { Ends self.old.words (pending_in list) whole behind.now.words }
        ensures kept { OnOk result (self.new ≡ self.old) }
        ensures only_memory { IfErr result (λ e. e ≡ Memory) }
    {
        let Some(pending) = list else {
            return Ok(());
        };
        let Some(word) = pending.list.first() else {
            return Ok(());
        };
        let noted = ended(&pending.list.behind(), pending.commas, whole, behind);
        self.notes.insert(word.at(), noted)?;
        Ok(())
    }
}

// Takes the innermost bracket.
#[tactic(auto, using(crate::proofs::NoteSteps::nothing_popped, crate::proofs::NoteSteps::none_left))]
fn pop<'a>(opened: &mut Vec<Open<'a>>) -> Option<Open<'a>>
    ensures some { IfSome result (λ o. opened.old.items ≡ opened.new.items ++ o ∷ []) }
    ensures none { IfNone result (opened.new.items ≡ []) }
{
    opened.pop()
}
