//! The parser of selectors, from left to right.
ghost use Rattle.std.specs.Prelude.{◌≡◌, ◌≤◌, ◌<◌, length, IfOk, OnOk, IfErr, IfSome, option_map};
ghost use Rattle.text_bytes.specs.Rests.{IsRest};
ghost use Rattle.sel_text.specs.Grammar as grammar;
ghost use Rattle.sel_text.specs.Machine as machine;
ghost use Rattle.sel_text.specs.Reading as spec;
ghost use Rattle.sel_text.specs.Readable.{IsReadable};
ghost use Rattle.sel_text.specs.Results.{Gives, Reads, IsFront, word_of, begun_of, left_of, IsShorter};
ghost use Rattle.sel_text.specs.Drafts.{draft_of, IsPaired, Enters, ReadsOn};
ghost use Rattle.sel_text.specs.Views.{selector_of};

use crate::bytes::behind_gap;
use crate::faults::{MOST_PARTS, SelFault, Skip};
use crate::grammar::{Begun, Word, any_part, first_part, join_at, left_at, part_of};
use crate::selectors::{Atoms, Compound, Compounds, Join, Joins, Selector};
use std::alloc::Global;
use std::mem::replace;
use text_bytes::with_value;
use tp_base::{Atom, AtomKind, AtomTable};

/// A selector that is read, up to a place of its text, which ends at the offset `to`: the table of names, the finished
/// compounds, each with the join on its right, the atoms of the last one, and whether it has a part. Pseudo parts are
/// dropped, or there are none.
#[derive(Drop)]
pub(crate) struct Draft {
    drops: bool,
    to: usize,
    names: AtomTable,
    parts: Vec<Compound>,
    joins: Vec<Join>,
    atoms: Vec<Atom>,
    started: bool,
}

// Enters a name as it is spelled in the table: the names of types are lowered, and those of attributes with their values.
fn enter(
    alloc: Global,
    kind: AtomKind,
    name: &[u8],
    atoms: &mut AtomTable,
) -> Result<Atom, SelFault>
    ensures { Enters atoms.old (kind, spec.spelled kind name.now) atoms.new result }
{
    match kind {
        AtomKind::Element | AtomKind::Attr => {
            let mut lowered = Vec::from_slice(alloc, name)?;
            lowered.as_mut_slice().make_ascii_lowercase();
            intern(kind, &lowered, atoms)
        }
        _ => intern(kind, name, atoms),
    }
}

// Enters a word.
#[tactic(auto, using(crate::proofs::Fronts::front_itself))]
fn enter_word(alloc: Global, word: Word<'_>, atoms: &mut AtomTable) -> Result<Atom, SelFault>
    ensures { Enters atoms.old (spec.table_name (word_of word.entry)) atoms.new result }
{
    match word {
        Word::Named(kind, name) => enter(alloc, kind, name, atoms),
        Word::Asked(name, None) => enter(alloc, AtomKind::Attr, name, atoms),
        Word::Asked(name, Some(value)) => {
            let text = with_value(alloc, name, value)?;
            enter(alloc, AtomKind::Attr, &text, atoms)
        }
    }
}

#[tactic(auto, using(crate::proofs::Fronts::front_itself, crate::proofs::Fronts::front_grown))]
fn intern(kind: AtomKind, name: &[u8], atoms: &mut AtomTable) -> Result<Atom, SelFault>
    ensures { Enters atoms.old (kind, name.now) atoms.new result }
{
    let atom = atoms.intern(kind, name)?;
    Ok(atom)
}

impl Draft {
    // One part more.
    #[tactic(auto, unfolding(crate::specs::Machine::with_word), using(crate::proofs::Fronts::front_itself))]
    fn add_word(&mut self, word: Option<Word<'_>>) -> Result<(), SelFault>
        requires { IsPaired self.old }
        ensures gives { Gives (λ _. draft_of self.new) result (machine.with_word (draft_of self.old) (option_map word_of word.entry)) }
        ensures reads_on { ReadsOn self.old self.new result }
    {
        if let Some(word) = word {
            let atom = enter_word(*self.parts.allocator(), word, &mut self.names)?;
            self.atoms.push(atom)?;
        }
        self.started = true;
        Ok(())
    }

    // The compound ends, and a join follows it.
    #[tactic(auto, unfolding(crate::specs::Machine::with_join), using(crate::proofs::Fronts::front_itself))]
    fn add_join(&mut self, join: Join) -> Result<(), SelFault>
        requires { IsPaired self.old }
        ensures joined { OnOk result (draft_of self.new ≡ machine.with_join (draft_of self.old) join) }
        ensures memory { IfErr result (λ e. e ≡ SelFault.Memory) }
        ensures reads_on { ReadsOn self.old self.new result }
    {
        let atoms = replace(&mut self.atoms, Vec::new(*self.parts.allocator()));
        self.parts.push(Compound {
            atoms: Atoms::new(atoms),
        })?;
        self.joins.push(join)?;
        self.started = false;
        Ok(())
    }

    // A part that begins, or the fault of the text that doesn't.
    #[tactic(auto, unfolding(crate::specs::Machine::with_part), using(text_bytes::proofs::Rests::of_rest, crate::proofs::Fronts::front_itself))]
    fn read_part<'a>(
        &mut self,
        part: Option<Begun<'a>>,
        text: &'a [u8],
    ) -> Result<&'a [u8], SelFault>
        requires within { length text.now ≤ self.old.to }
        requires rest { IfSome part (λ b. IsRest text.now (left_of b)) }
        requires shorter { IfSome part (IsShorter text.now) }
        requires paired { IsPaired self.old }
        ensures gives { Gives (λ r. (draft_of self.new, r.now)) result
            (machine.with_part self.old.to (draft_of self.old) (option_map begun_of part.entry) text.now) }
        ensures rest { IfOk result (λ r. IsRest text.now r.now) }
        ensures shorter { IfOk result (λ r. length r.now < length text.now) }
        ensures reads_on { ReadsOn self.old self.new result }
    {
        let begun = part.ok_or(left_at(self.to, text, text))?;
        let (word, rest) = part_of(self.to, begun, text)?;
        self.add_word(word)?;
        Ok(rest)
    }

    // The first part of a compound, of which there may be only so many.
    #[tactic(auto, unfolding(crate::specs::Machine::first_step), using(crate::proofs::Fronts::front_itself))]
    fn first_step<'a>(&mut self, text: &'a [u8]) -> Result<&'a [u8], SelFault>
        requires within { length text.now ≤ self.old.to }
        requires paired { IsPaired self.old }
        ensures gives { Gives (λ r. (draft_of self.new, r.now)) result (machine.first_step self.old.drops self.old.to (draft_of self.old) text.now) }
        ensures rest { IfOk result (λ r. IsRest text.now r.now) }
        ensures shorter { IfOk result (λ r. length r.now < length text.now) }
        ensures reads_on { ReadsOn self.old self.new result }
    {
        let part = first_part(self.drops, text).ok_or(left_at(self.to, text, text))?;
        if self.parts.len() >= MOST_PARTS {
            return Err(SelFault::Skipped(Skip::Long, self.to - text.len()));
        }
        self.read_part(Some(part), text)
    }

    // Behind a part: a join, a further part, or the end.
    #[tactic(auto, using(crate::proofs::Fronts::front_itself, text_bytes::proofs::Rests::of_rest, crate::proofs::Steps::at_join, crate::proofs::Steps::at_end, crate::proofs::Steps::at_part, crate::proofs::Steps::at_fault))]
    fn later_step<'a>(&mut self, text: &'a [u8]) -> Result<&'a [u8], SelFault>
        requires within { length text.now ≤ self.old.to }
        requires some { 0 < length text.now }
        requires paired { IsPaired self.old }
        ensures gives { Gives (λ r. (draft_of self.new, r.now)) result (machine.later_step self.old.drops self.old.to (draft_of self.old) text.now) }
        ensures rest { IfOk result (λ r. IsRest text.now r.now) }
        ensures shorter { IfOk result (λ r. length r.now < length text.now) }
        ensures reads_on { ReadsOn self.old self.new result }
    {
        let (join, rest) = join_at(self.to, text)?;
        if let Some(join) = join {
            self.add_join(join)?;
            return Ok(rest);
        }
        if rest.is_empty() {
            return Ok(rest);
        }
        self.read_part(any_part(self.drops, rest), rest)
    }

    // One part or join more: the text behind it.
    #[tactic(auto, unfolding(crate::specs::Machine::step))]
    fn step<'a>(&mut self, text: &'a [u8]) -> Result<&'a [u8], SelFault>
        requires within { length text.now ≤ self.old.to }
        requires some { 0 < length text.now }
        requires paired { IsPaired self.old }
        ensures gives { Gives (λ r. (draft_of self.new, r.now)) result (machine.step self.old.drops self.old.to (draft_of self.old) text.now) }
        ensures rest { IfOk result (λ r. IsRest text.now r.now) }
        ensures shorter { IfOk result (λ r. length r.now < length text.now) }
        ensures reads_on { ReadsOn self.old self.new result }
    {
        if self.started {
            self.later_step(text)
        } else {
            self.first_step(text)
        }
    }

    // The selector, where a compound isn't wanted any more.
    #[tactic(auto, unfolding(crate::specs::Machine::finished))]
    fn finish(&mut self) -> Result<Selector, SelFault>
        requires { IsPaired self.old }
        ensures gives { Gives selector_of result (machine.finished self.old.to (draft_of self.old)) }
        ensures names { self.new.names ≡ self.old.names }
    {
        if !self.started {
            return Err(SelFault::Skipped(Skip::Bad, self.to));
        }
        let alloc = *self.parts.allocator();
        let mut parts = replace(&mut self.parts, Vec::new(alloc));
        parts.push(Compound {
            atoms: Atoms::new(replace(&mut self.atoms, Vec::new(alloc))),
        })?;
        Ok(Selector {
            parts: Compounds::new(parts),
            joins: Joins::new(replace(&mut self.joins, Vec::new(alloc))),
        })
    }

    // The selector of a text.
    #[tactic(auto, using(crate::proofs::Runs::begins, crate::proofs::Runs::goes_on, crate::proofs::Runs::fails, crate::proofs::Runs::ends, crate::proofs::Fronts::front_itself, crate::proofs::Fronts::front_of_front))]
    fn read(&mut self, text: &[u8]) -> Result<Selector, SelFault>
        requires within { length text.now ≤ self.old.to }
        requires none { draft_of self.old ≡ machine.empty_draft self.old.names }
        ensures reads { Reads selector_of result self.new.names (spec.read_piece self.old.drops self.old.to text.now self.old.names) }
        ensures front { IsFront self.old.names self.new.names }
    {
        let mut rest = behind_gap(true, text);
        'items: while !rest.is_empty() {
            rest = self.step(rest)?;
        }
        self.finish()
    }
}

/// A selector that white space and comments may surround, up to the offset `to`. Pseudo parts are dropped, or there
/// are none. Linear in the text.
#[tactic(auto, using(crate::proofs::Sound::read_readable))]
pub(crate) fn read_piece(
    alloc: Global,
    drops: bool,
    to: usize,
    text: &[u8],
    atoms: &mut AtomTable,
) -> Result<Selector, SelFault>
    requires { length text.now ≤ to }
    ensures reads { Reads selector_of result atoms.new (spec.read_piece drops to text.now atoms.old) }
    ensures readable { IfOk result (λ s. IsReadable atoms.new (selector_of s)) }
    ensures front { IsFront atoms.old atoms.new }
{
    let mut draft = Draft {
        drops,
        to,
        names: replace(atoms, AtomTable::new(alloc)),
        parts: Vec::new(alloc),
        joins: Vec::new(alloc),
        atoms: Vec::new(alloc),
        started: false,
    };
    let found = draft.read(text);
    *atoms = draft.names;
    found
}

/// Reads the judged form of the selector that stands between two offsets of a text, for a sheet: some pseudo parts
/// are dropped. White space and comments may surround it. The names that were read before a refusal stay in the
/// table. Linear in the selector.
#[tactic(auto, unfolding(crate::specs::Reading::read_selector))]
pub fn read_selector(
    alloc: Global,
    text: &[u8],
    from: usize,
    to: usize,
    atoms: &mut AtomTable,
) -> Result<Selector, SelFault>
    requires from { from ≤ to }
    requires to { to ≤ length text.now }
    ensures reads { Reads selector_of result atoms.new (spec.read_selector text.now from to atoms.old) }
    ensures readable { IfOk result (λ s. IsReadable atoms.new (selector_of s)) }
    ensures front { IsFront atoms.old atoms.new }
{
    read_piece(alloc, true, to, &text[from..to], atoms)
}
