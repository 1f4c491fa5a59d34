//! The words of a script: its tokens, each with its spelling and whether a line ends before it.
ghost use Rattle.std.specs.Prelude.{◌≡◌, ◌≤◌, ◌<◌, ◌+◌, ◌==◌, not, true, false, [], ◌∷◌, length, map, drop, codes, Ok, Err, IfOk, IfErr, IfSome, IfNone, OnOk, IsTrue, IsUtf8};
ghost use Rattle.jq_words.specs.Words as spec;
ghost use Rattle.js_scan.specs.Tokens.{InOrder};
ghost use Rattle.js_scan.specs.Utf8.{AreTexts};
ghost use Rattle.jq_words.specs.Results.{Finds, Leaves, InFile, IsRest, IsBehind};

use crate::faults::ScriptFault;
use js_scan::{Letters, Token, TokenKind};
use std::alloc::Global;
use std::marker::Model;

/// A token, its bytes, and what stands between the token before it and it. A contract sees it as a word of the definitions.
#[derive(Drop)]
pub struct Word<'a> {
    kind: &'a TokenKind,
    spelling: &'a [u8],
    at: usize,
    gap: &'a [u8],
}

impl<'a> Model for Word<'a> {
    ghost use Rattle.std.specs.Prelude.{◌==◌, IsUtf8};
    ghost use Rattle.std.specs.List.{list_any};
    ghost use Rattle.jq_words.specs.Words.{Word};

    ghost Value = { Word };

    ghost view = { λ w. record { kind = w.kind.now; spelling = w.spelling.now; at = w.at; later = list_any (λ b. b == 10) w.gap.now } };

    ghost invariant = { λ w. IsUtf8 w.spelling.now };
}

/// Whether a spelling is one of these.
#[tactic(auto, unfolding(crate::specs::Words::is_among))]
pub fn is_one_of(names: &[&[u8]], name: &[u8]) -> bool
    ensures { result ≡ spec.is_among (map (λ k. k.now) names.now) name.now }
{
    let mut left = names;
    'names: while let [first, others @ ..] = left {
        if *first == name {
            return true;
        }
        left = others;
    }
    false
}

/// A spelling, as letters of its own.
pub fn letters(alloc: Global, spelling: &[u8]) -> Result<Letters, ScriptFault>
    requires text { IsUtf8 spelling.now }
    ensures letters { IfOk result (λ l. l ≡ spelling.now) }
    ensures only_memory { IfErr result (λ e. e ≡ ScriptFault.Memory) }
{
    let mut bytes = Vec::new(alloc);
    bytes.extend_from_slice(spelling)?;
    match String::from_utf8(bytes) {
        Ok(text) => Ok(Letters::new(text)),
        Err(_) => unreachable!(),
    }
}

impl<'a> Word<'a> {
    /// Whether it is this mark. Linear in the spelling, as all tests of a spelling are.
    #[tactic(auto, unfolding(crate::specs::Words::is_mark))]
    pub fn is_mark(&self, spelling: &[u8]) -> bool
        ensures { result ≡ spec.is_mark spelling.now self.now }
    {
        matches!(*self.kind, TokenKind::Mark) && self.spelling == spelling
    }

    /// Whether it is this name.
    #[tactic(auto, unfolding(crate::specs::Words::is_name))]
    pub fn is_name(&self, spelling: &[u8]) -> bool
        ensures { result ≡ spec.is_name spelling.now self.now }
    {
        matches!(*self.kind, TokenKind::Name) && self.spelling == spelling
    }

    /// Whether it is a name. Constant.
    #[tactic(auto, unfolding(crate::specs::Words::is_any_name))]
    pub fn is_any_name(&self) -> bool
        ensures { result ≡ spec.is_any_name self.now }
    {
        matches!(*self.kind, TokenKind::Name)
    }

    /// Whether it is a number. Constant.
    #[tactic(auto, unfolding(crate::specs::Words::is_number))]
    pub fn is_number(&self) -> bool
        ensures { result ≡ spec.is_number self.now }
    {
        matches!(*self.kind, TokenKind::Number)
    }

    /// Whether it is the text of a string. Constant.
    #[tactic(auto, unfolding(crate::specs::Words::is_text))]
    pub fn is_text(&self) -> bool
        ensures { result ≡ spec.is_text self.now }
    {
        matches!(*self.kind, TokenKind::Text(_))
    }

    /// Whether it is one of these marks.
    #[tactic(auto, unfolding(crate::specs::Words::is_mark_among))]
    pub fn is_mark_among(&self, spellings: &[&[u8]]) -> bool
        ensures { result ≡ spec.is_mark_among (map (λ k. k.now) spellings.now) self.now }
    {
        matches!(*self.kind, TokenKind::Mark) && is_one_of(spellings, self.spelling)
    }

    /// Whether it is one of these names.
    #[tactic(auto, unfolding(crate::specs::Words::is_name_among))]
    pub fn is_name_among(&self, spellings: &[&[u8]]) -> bool
        ensures { result ≡ spec.is_name_among (map (λ k. k.now) spellings.now) self.now }
    {
        matches!(*self.kind, TokenKind::Name) && is_one_of(spellings, self.spelling)
    }

    /// The letters of a Text; none of any other word.
    #[tactic(auto, unfolding(crate::specs::Words::letters_of))]
    pub fn text(&self) -> &'a [u8]
        ensures { result.now ≡ spec.letters_of self.now }
    {
        match self.kind {
            TokenKind::Text(letters) => letters.items(),
            _ => &[],
        }
    }

    /// The word's spelling, as letters of its own.
    pub fn letters(&self, alloc: Global) -> Result<Letters, ScriptFault>
        ensures letters { IfOk result (λ l. l ≡ self.now.spelling) }
        ensures only_memory { IfErr result (λ e. e ≡ ScriptFault.Memory) }
    {
        letters(alloc, self.spelling)
    }

    /// The offset in the file at which it begins. Constant.
    pub fn at(&self) -> usize
        ensures { result ≡ self.now.at }
    {
        self.at
    }

    /// Whether an LF stands before it. It looks through all that stands between the token before it and it.
    pub fn later(&self) -> bool
        ensures { result ≡ self.now.later }
    {
        self.gap.contains(&b'\n')
    }

    /// The word's bytes as they stand in the file, which are UTF-8. Constant.
    pub fn spelling(&self) -> &'a [u8]
        ensures bytes { result.now ≡ self.now.spelling }
        ensures utf8 { IsUtf8 result.now }
    {
        self.spelling
    }
}

/// The words from a place on. A contract sees the list of them, and the file's size in bytes.
#[derive(Drop)]
pub struct Words<'a> {
    text: &'a [u8],
    /// Where the token before ends.
    end: usize,
    tokens: &'a [Token],
}

impl<'a> Model for Words<'a> {
    ghost use Rattle.std.specs.Prelude.{◌≤◌, length};
    ghost use Rattle.js_scan.specs.Tokens.{InOrder};
    ghost use Rattle.js_scan.specs.Utf8.{AreTexts};
    ghost use Rattle.jq_words.specs.Words.{Rest, words_behind};

    ghost Value = { Rest };

    ghost view = { λ w. record { words = words_behind w.text.now w.end w.tokens.now; size = length w.text.now } };

    ghost invariant = { λ w. InOrder w.end (length w.text.now) w.tokens.now × AreTexts w.text.now w.tokens.now };
}

impl<'a> Words<'a> {
    /// All words of a file.
    #[tactic(auto, unfolding(crate::specs::Words::words))]
    pub fn new(text: &'a [u8], tokens: &'a [Token]) -> Self
        requires in_order { InOrder 0 (length text.now) tokens.now }
        requires text { AreTexts text.now tokens.now }
        ensures { result ≡ spec.file text.now tokens.now }
    {
        Words {
            text,
            end: 0,
            tokens,
        }
    }

    /// A second reference to these words, to look ahead.
    pub fn again(&self) -> Words<'a>
        ensures { result ≡ self.now }
    {
        Words {
            text: self.text,
            end: self.end,
            tokens: self.tokens,
        }
    }

    /// The file's size in bytes. Constant.
    pub fn size(&self) -> usize
        ensures { result ≡ self.now.size }
    {
        self.text.len()
    }

    /// The words behind the first, to look ahead.
    pub fn behind(&self) -> Words<'a>
        ensures { result ≡ spec.past 1 self.now }
    {
        let mut rest = self.again();
        rest.pass();
        rest
    }

    /// The first of the words, so many of them.
    #[tactic(auto, using(crate::proofs::Orders::front_in_order, crate::proofs::Orders::front_texts, crate::proofs::Orders::front_words, crate::proofs::Orders::all_words))]
    pub fn front(&self, count: usize) -> Words<'a>
        ensures { result ≡ spec.front count self.now }
    {
        if self.tokens.len() <= count {
            return self.again();
        }
        let (tokens, _) = self.tokens.split_at(count);
        Words {
            text: self.text,
            end: self.end,
            tokens,
        }
    }

    /// Passes so many words.
    #[tactic(auto, using(crate::proofs::Files::itself, crate::proofs::Files::of_rest, crate::proofs::Files::is_rest, crate::proofs::Files::one_more_passed, crate::proofs::Files::some_passed))]
    pub fn pass_all(&mut self, count: usize)
        ensures passed { self.new ≡ spec.past count self.old }
        ensures rest { InFile IsRest self.old self.new }
        ensures behind { 0 < count → InFile IsBehind self.old self.new }
    {
        for i in 0..count {
            self.pass();
        }
    }

    /// The first word. Words can be counted.
    #[tactic(auto, unfolding(crate::specs::Words::words_behind), using(crate::proofs::Orders::first_within, crate::proofs::Orders::as_many))]
    pub fn first(&self) -> Option<Word<'a>>
        ensures some { IfSome result (λ w. self.now.words ≡ w ∷ drop 1 self.now.words) }
        ensures none { IfNone result (self.now.words ≡ []) }
        ensures few { length self.now.words ≤ usize.MAX }
    {
        match self.tokens.split_first() {
            None => None,
            Some((token, _)) => Some(Word {
                kind: &token.kind,
                spelling: &self.text[token.from..token.to],
                at: token.from,
                gap: &self.text[self.end..token.from],
            }),
        }
    }

    /// Goes on behind the first word.
    #[tactic(auto, unfolding(crate::specs::Words::words_behind), using(crate::proofs::Rests::passed))]
    pub fn pass(&mut self)
        ensures passed { self.new ≡ spec.past 1 self.old }
        ensures rest { InFile IsBehind self.old self.new }
    {
        if let Some((token, behind)) = self.tokens.split_first() {
            self.end = token.to;
            self.tokens = behind;
        }
    }
}

/// Whether the first word is this mark.
#[tactic(auto, unfolding(crate::specs::Words::first_is))]
pub fn begins(words: &Words<'_>, spelling: &[u8]) -> bool
    ensures gives { result ≡ spec.begins spelling.now words.now.words }
    ensures some { IsTrue result → 0 < length words.now.words }
{
    match words.first() {
        None => false,
        Some(word) => word.is_mark(spelling),
    }
}

/// Whether the first word is this name.
#[tactic(auto, unfolding(crate::specs::Words::first_is))]
pub fn begins_name(words: &Words<'_>, spelling: &[u8]) -> bool
    ensures gives { result ≡ spec.begins_name spelling.now words.now.words }
    ensures some { IsTrue result → 0 < length words.now.words }
{
    match words.first() {
        None => false,
        Some(word) => word.is_name(spelling),
    }
}

/// Whether the first word is one of these names.
#[tactic(auto, unfolding(crate::specs::Words::first_is))]
pub fn begins_name_among(words: &Words<'_>, names: &[&[u8]]) -> bool
    ensures { spec.first_is (spec.is_name_among (map (λ k. k.now) names.now)) words.now.words ≡ result }
{
    match words.first() {
        None => false,
        Some(word) => word.is_name_among(names),
    }
}

/// Whether the first word is a name. Constant.
#[tactic(auto, unfolding(crate::specs::Words::first_is))]
pub fn begins_any_name(words: &Words<'_>) -> bool
    ensures { result ≡ spec.first_is spec.is_any_name words.now.words }
{
    match words.first() {
        None => false,
        Some(word) => word.is_any_name(),
    }
}

/// The word, where it is one alone.
#[tactic(auto, using(crate::proofs::FitSteps::one_word, crate::proofs::FitSteps::no_word, crate::proofs::FitSteps::two_words))]
pub fn only<'a>(words: &Words<'a>) -> Option<Word<'a>>
    ensures some { IfSome result (λ w. words.now.words ≡ w ∷ []) }
    ensures none { IfNone result (spec.is_one words.now.words ≡ false) }
{
    let Some(word) = words.first() else {
        return None;
    };
    if words.behind().first().is_some() {
        return None;
    }
    Some(word)
}

/// The offset of the first word, or the file's length.
#[tactic(auto, unfolding(crate::specs::Words::place))]
pub fn place(words: &Words<'_>) -> usize
    ensures { result ≡ spec.place words.now.size words.now.words }
{
    match words.first() {
        None => words.size(),
        Some(word) => word.at(),
    }
}

/// Passes a mark that is wanted.
#[tactic(auto, unfolding(crate::specs::Words::want))]
pub fn want(spelling: &[u8], words: &mut Words<'_>) -> Result<(), ScriptFault>
    ensures gives { Leaves words.new.words result (spec.want words.old.size spelling.now words.old.words) }
    ensures rest { OnOk result (InFile IsBehind words.old words.new) }
{
    if !begins(words, spelling) {
        return Err(ScriptFault::UnknownForm(place(words)));
    }
    words.pass();
    Ok(())
}

/// Passes an opening bracket that is wanted, where so many may still be opened.
#[tactic(auto, unfolding(crate::specs::Words::want_open))]
pub fn want_open(room: usize, spelling: &[u8], words: &mut Words<'_>) -> Result<(), ScriptFault>
    ensures gives { Leaves words.new.words result (spec.want_open words.old.size room spelling.now words.old.words) }
    ensures rest { OnOk result (InFile IsBehind words.old words.new) }
    ensures opened { OnOk result (0 < room) }
{
    if !begins(words, spelling) {
        return Err(ScriptFault::UnknownForm(place(words)));
    }
    if room == 0 {
        return Err(ScriptFault::TooDeep(place(words)));
    }
    words.pass();
    Ok(())
}

/// Whether a statement may be over before these words.
#[tactic(auto, unfolding(crate::specs::Words::end_fits))]
pub fn end_fits(words: &Words<'_>) -> bool
    ensures { result ≡ spec.end_fits words.now.words }
{
    match words.first() {
        None => true,
        Some(word) => word.is_mark(b";") || word.is_mark(b"}") || word.later(),
    }
}

/// Passes the end of a statement.
#[tactic(auto, unfolding(crate::specs::Words::end), using(crate::proofs::Files::itself, crate::proofs::Files::is_rest))]
pub fn end(words: &mut Words<'_>) -> Result<(), ScriptFault>
    ensures gives { Leaves words.new.words result (spec.end words.old.size words.old.words) }
    ensures rest { OnOk result (InFile IsRest words.old words.new) }
{
    if begins(words, b";") {
        words.pass();
        return Ok(());
    }
    if end_fits(words) {
        return Ok(());
    }
    Err(ScriptFault::UnknownForm(place(words)))
}

/// Passes a name that is wanted, whichever it is.
#[tactic(auto, unfolding(crate::specs::Words::want_name))]
pub fn want_name<'a>(words: &mut Words<'a>) -> Result<&'a [u8], ScriptFault>
    ensures gives { Finds (λ n. n.now) words.new.words result (spec.want_name words.old.size words.old.words) }
    ensures rest { OnOk result (InFile IsBehind words.old words.new) }
{
    let Some(word) = words.first() else {
        return Err(ScriptFault::UnknownForm(words.size()));
    };
    if !word.is_any_name() {
        return Err(ScriptFault::UnknownForm(word.at()));
    }
    words.pass();
    Ok(word.spelling())
}
