//! A string argument read as selectors, compounds, classes or an attribute.
ghost use Rattle.std.specs.Prelude.{◌≡◌, ◌≢◌, ◌<◌, true, false, [], length, take, drop, map, IfOk, IfErr, IfSome, IfNone};
ghost use Rattle.std.specs.List.{list_all};
ghost use Rattle.tp_base.specs.Names.{with_name};
ghost use Rattle.tp_base.specs.declared.atoms.AtomKind.TheVariants as kind;
ghost use Rattle.html_tokens.specs.Words.{word_len};
ghost use Rattle.sel_text.specs.Results.{IsFront};
ghost use Rattle.sel_text.specs.Selectors.{simple};
ghost use Rattle.sel_text.specs.Views.{selector_of};
ghost use Rattle.jq_words.specs.Brackets.{is_empty};
ghost use Rattle.jq_words.specs.Results.{Finds, Leaves};
ghost use Rattle.jq_words.specs.declared.faults.ScriptFault.TheVariants.{Memory, ComplexArgument};
ghost use Rattle.jq_cursor.specs.Selections as spec;

use html_tokens::word_len;
use jq_words::ScriptFault;
use sel_text::{Compound, SelFault, Selector, read_strict_list};
use std::alloc::Global;
use text_bytes::{is_blank, is_set_apart};
use tp_base::{AtomFault, AtomKind, AtomTable, ClassSet, NoMemory};

/// The list of selectors in the letters of an argument, whose first Text stands at an offset. Names read before a refusal stay in the
/// table. Linear in the letters.
#[tactic(auto, unfolding(crate::specs::Selections::selectors))]
pub fn selectors(
    alloc: Global,
    at: usize,
    letters: &[u8],
    atoms: &mut AtomTable,
) -> Result<Vec<Selector>, ScriptFault>
    ensures gives { Finds (λ v. map selector_of v.items) atoms.new result (spec.selectors at letters.now atoms.old) }
    ensures front { IsFront atoms.old atoms.new }
{
    match read_strict_list(alloc, letters, atoms) {
        Ok(found) => Ok(found),
        Err(SelFault::Skipped(_, _)) => Err(ScriptFault::ComplexArgument(at)),
        Err(SelFault::TooManyAtoms) => Err(ScriptFault::TooManyAtoms(at)),
        Err(SelFault::Memory) => Err(ScriptFault::Memory),
    }
}

// The compound that a selector is, where it is one alone.
#[tactic(auto, using(crate::proofs::SelectionSteps::alone, crate::proofs::SelectionSteps::joined))]
fn only_compound(selector: &Selector) -> Result<Option<Compound>, NoMemory>
    ensures alone { IfOk result (λ r. IfSome r (λ c. selector_of selector.now ≡ simple c.atoms)) }
    ensures joined { IfOk result (λ r. IfNone r (is_empty (selector_of selector.now).outer ≡ false)) }
{
    if !selector.joins.items().is_empty() {
        return Ok(None);
    }
    Ok(Some(selector.parts.items()[0].copy()?))
}

// The compounds that selectors are, where each is one alone.
#[tactic(auto, using(crate::proofs::SelectionSteps::all_more, crate::proofs::SelectionSteps::all_fail, crate::proofs::SelectionSteps::subjects_more, crate::proofs::SelectionSteps::all_end))]
fn only_compounds(
    alloc: Global,
    at: usize,
    selectors: &[Selector],
) -> Result<Vec<Compound>, ScriptFault>
    ensures all { IfOk result (λ v. list_all (λ t. is_empty t.outer) (map selector_of selectors.now) ≡ true) }
    ensures subjects { IfOk result (λ v. map (λ t. t.subject) (map selector_of selectors.now) ≡ map (λ c. c.atoms) v.items) }
    ensures not_all { IfErr result (λ e. e ≢ Memory → list_all (λ t. is_empty t.outer) (map selector_of selectors.now) ≡ false) }
    ensures fault { IfErr result (λ e. e ≢ Memory → e ≡ ComplexArgument at) }
{
    let mut found = Vec::new(alloc);
    let mut left = selectors;
    'selectors: while let Some((first, others)) = left.split_first() {
        let Some(only) = only_compound(first)? else {
            return Err(ScriptFault::ComplexArgument(at));
        };
        found.push(only)?;
        left = others;
    }
    Ok(found)
}

/// The list of compounds in the letters of an argument, whose first Text stands at an offset. Linear in the letters.
#[tactic(auto, unfolding(crate::specs::Selections::compounds))]
pub fn compounds(
    alloc: Global,
    at: usize,
    letters: &[u8],
    atoms: &mut AtomTable,
) -> Result<Vec<Compound>, ScriptFault>
    ensures gives { Finds (λ v. map (λ c. c.atoms) v.items) atoms.new result (spec.compounds at letters.now atoms.old) }
    ensures front { IsFront atoms.old atoms.new }
{
    let found = selectors(alloc, at, letters, atoms)?;
    only_compounds(alloc, at, &found)
}

// Adds the class that the text begins with, and lends the text behind it.
#[tactic(auto, using(tp_base::proofs::Fronts::front_grown, tp_base::proofs::Fronts::front_itself))]
fn add_class<'t>(
    at: usize,
    set: &mut ClassSet,
    text: &'t [u8],
    atoms: &mut AtomTable,
) -> Result<&'t [u8], ScriptFault>
    requires { 0 < word_len text.now }
    ensures gives { Leaves (set.new, atoms.new) result (spec.and_class at set.old (with_name atoms.old (kind.Class, take (word_len text.now) text.now))) }
    ensures rest { IfOk result (λ r. r.now ≡ drop (word_len text.now) text.now) }
    ensures shorter { IfOk result (λ r. length r.now < length text.now) }
    ensures front { IsFront atoms.old atoms.new }
{
    let (class, rest) = text.split_at(word_len(text));
    match atoms.intern(AtomKind::Class, class) {
        Ok(atom) => {
            set.add(atom)?;
            Ok(rest)
        }
        Err(AtomFault::TooManyAtoms) => Err(ScriptFault::TooManyAtoms(at)),
        Err(AtomFault::Memory) => Err(ScriptFault::Memory),
    }
}

/// The classes in the letters of an argument, parted by white space. Linear in the letters but for look-ups.
#[tactic(auto, using(crate::proofs::ClassSteps::blank, crate::proofs::ClassSteps::goes_on, crate::proofs::ClassSteps::fails, crate::proofs::ClassSteps::ends, html_tokens::proofs::WordLemmas::some_word, crate::proofs::ClassSteps::opened, tp_base::proofs::Fronts::front_of_front, tp_base::proofs::Fronts::front_itself))]
pub fn class_set(
    alloc: Global,
    at: usize,
    letters: &[u8],
    atoms: &mut AtomTable,
) -> Result<ClassSet, ScriptFault>
    ensures gives { Finds (λ c. c) atoms.new result (spec.class_set at letters.now atoms.old) }
    ensures front { IsFront atoms.old atoms.new }
{
    let mut set = ClassSet::new(alloc);
    let mut rest = letters;
    'classes: while let Some((first, behind)) = rest.split_first() {
        if is_blank(*first) {
            rest = behind;
        } else {
            rest = add_class(at, &mut set, rest, atoms)?;
        }
    }
    Ok(set)
}

fn in_attribute(byte: u8) -> bool
    ensures { result ≡ spec.in_attribute byte }
{
    !(is_blank(byte) || matches!(byte, b'/' | b'>' | b'=' | b'"' | b'\''))
}

fn are_in_attribute(letters: &[u8]) -> bool
    ensures { result ≡ list_all spec.in_attribute letters.now }
{
    letters.iter().all(|b| in_attribute(*b))
}

/// Whether letters are the name of an attribute that a script may give. Linear in them.
#[tactic(auto, unfolding(crate::specs::Selections::is_attribute))]
pub fn is_attribute(letters: &[u8]) -> bool
    ensures { result ≡ spec.is_attribute letters.now }
{
    match letters {
        [] => false,
        _ => are_in_attribute(letters) && !is_set_apart(letters),
    }
}

/// Adds the atom of an attribute's name or value, which is lowered, for an argument whose first Text stands at an offset.
#[tactic(auto, unfolding(crate::specs::Selections::with_attribute), using(tp_base::proofs::Fronts::front_grown, tp_base::proofs::Fronts::front_itself))]
pub fn add_attribute(
    alloc: Global,
    at: usize,
    text: &[u8],
    set: &mut ClassSet,
    atoms: &mut AtomTable,
) -> Result<(), ScriptFault>
    ensures gives { Leaves (set.new, atoms.new) result (spec.with_attribute at text.now set.old atoms.old) }
    ensures front { IsFront atoms.old atoms.new }
{
    let mut lowered = Vec::from_slice(alloc, text)?;
    lowered.as_mut_slice().make_ascii_lowercase();
    match atoms.intern(AtomKind::Attr, &lowered) {
        Ok(atom) => {
            set.add(atom)?;
            Ok(())
        }
        Err(AtomFault::TooManyAtoms) => Err(ScriptFault::TooManyAtoms(at)),
        Err(AtomFault::Memory) => Err(ScriptFault::Memory),
    }
}
