//! For each name of an open element the innermost one that has it.
ghost use Rattle.std.specs.Prelude.{◌≡◌, ◌<◌, ◌≤◌, ℕ, List, if◌then◌else◌, length, get_or, bytes_eq, IfSome, IfOk, OnOk};
ghost use Rattle.html_tokens.specs.Bytes.{lowered};
ghost use Rattle.html_tokens.specs.Names.{is_raw};
ghost use Rattle.html_table.specs.Elements.{kind_of};
ghost use Rattle.html_table.specs.NamePlaces.{place_in, IsNumber, Fits};

use crate::elements::{Element, Kind};
use crate::name_notes::NameNotes;
use html_tokens::is_raw;
use indexmap::IndexSet;
use std::alloc::Global;
use tp_base::NoMemory;

/// A name in lower case.
pub fn lowered(alloc: Global, name: &[u8]) -> Result<Vec<u8>, NoMemory>
    ensures { IfOk result (λ v. v.items ≡ lowered name.now) }
{
    let mut bytes = Vec::from_slice(alloc, name)?;
    bytes.as_mut_slice().make_ascii_lowercase();
    Ok(bytes)
}

/// For each name the place of the innermost open element that has it, counted from the outermost on; 0 where none has it.
#[derive(Drop)]
pub(crate) struct NamePlaces {
    /// Each name has a number, for good.
    names: IndexSet<Vec<u8>>,
    /// By the number of the name.
    places: Vec<usize>,
    /// Of names as they are written.
    known: NameNotes<Known>,
}

// What is known of a name: the kind of its elements, whether they are raw, and its number.
#[derive(Clone, Copy)]
struct Known {
    kind: Kind,
    is_raw: bool,
    number: usize,
}

// Begins the places up to this number.
fn begin(places: &mut Vec<usize>, number: usize) -> Result<(), NoMemory>
    ensures begun { OnOk result (number < length places.new.items) }
    ensures same { (i : ℕ) → get_or places.new.items i 0 ≡ get_or places.old.items i 0 }
    ensures longer { length places.old.items ≤ length places.new.items }
    ensures few { (n : ℕ) → length places.old.items ≤ n → number < n → length places.new.items ≤ n }
{
    'places: while places.len() <= number {
        places.push(0)?;
    }
    Ok(())
}

impl NamePlaces {
    pub(crate) fn new(alloc: Global) -> Self
        ensures none { (q : List ℕ) → place_in result q ≡ 0 }
        ensures fits { Fits result }
    {
        NamePlaces {
            names: IndexSet::new(alloc),
            places: Vec::new(alloc),
            known: NameNotes::new(alloc),
        }
    }

    /// The kind of elements of this name as it is written, and whether they are raw, if it is known. Linear in the name.
    #[tactic(auto, using(crate::proofs::KnownLemmas::kind_known, crate::proofs::KnownLemmas::raw_known))]
    pub(crate) fn kind(&self, name: &[u8]) -> Option<(Kind, bool)>
        requires fits { Fits self.now }
        ensures kind { IfSome result (λ r. r.0 ≡ kind_of (lowered name.now)) }
        ensures raw { IfSome result (λ r. r.1 ≡ is_raw (lowered name.now)) }
    {
        match self.known.get(name) {
            Some(known) => Some((known.kind, known.is_raw)),
            None => None,
        }
    }

    /// The kind of elements of a name as it is written, and its place. Linear in the name, on average.
    #[tactic(auto, using(crate::proofs::KnownLemmas::kind_known, crate::proofs::KnownLemmas::place_known, crate::proofs::KnownLemmas::number_known))]
    pub(crate) fn get(&self, name: &[u8]) -> Result<(Kind, usize), NoMemory>
        requires fits { Fits self.now }
        ensures kind { IfOk result (λ r. r.0 ≡ kind_of (lowered name.now)) }
        ensures place { IfOk result (λ r. r.1 ≡ place_in self.now (lowered name.now)) }
    {
        match self.known.get(name) {
            Some(known) => Ok((known.kind, self.at(known.number))),
            None => self.get_unknown(name),
        }
    }

    // The same, where the name isn't known as it is written.
    fn get_unknown(&self, name: &[u8]) -> Result<(Kind, usize), NoMemory>
        requires fits { Fits self.now }
        ensures kind { IfOk result (λ r. r.0 ≡ kind_of (lowered name.now)) }
        ensures place { IfOk result (λ r. r.1 ≡ place_in self.now (lowered name.now)) }
    {
        let lower = lowered(*self.names.allocator(), name)?;
        let kind = Element::new(name).kind;
        Ok((kind, self.get_lowered(lower.as_slice())))
    }

    // The place of a name in lower case. Linear in the name, on average.
    fn get_lowered(&self, name: &[u8]) -> usize
        requires fits { Fits self.now }
        ensures { result ≡ place_in self.now name.now }
    {
        match self.names.get_index_of(name) {
            Some(number) => match self.places.get(number) {
                Some(place) => *place,
                None => 0,
            },
            None => 0,
        }
    }

    /// The place of the name of a number. Constant.
    pub(crate) fn at(&self, number: usize) -> usize
        requires { number < length self.now.places.items }
        ensures { result ≡ get_or self.now.places.items number 0 }
    {
        self.places[number]
    }

    /// The number of a name as it is written, which it has from now on. Linear in the name, on average.
    #[tactic(auto, using(crate::proofs::KnownLemmas::number_known))]
    pub(crate) fn enter(&mut self, name: &[u8]) -> Result<usize, NoMemory>
        requires fits { Fits self.old }
        ensures number { IfOk result (λ n. IsNumber self.new n (lowered name.now)) }
        ensures same { (q : List ℕ) → place_in self.new q ≡ place_in self.old q }
        ensures kept { (n : ℕ) (q : List ℕ) → IsNumber self.old n q → IsNumber self.new n q }
        ensures fits { Fits self.new }
    {
        match self.known.get(name) {
            Some(known) => Ok(known.number),
            None => self.enter_new(name),
        }
    }

    // The same, where the name isn't known as it is written. It is from now on.
    fn enter_new(&mut self, name: &[u8]) -> Result<usize, NoMemory>
        requires fits { Fits self.old }
        ensures number { IfOk result (λ n. IsNumber self.new n (lowered name.now)) }
        ensures same { (q : List ℕ) → place_in self.new q ≡ place_in self.old q }
        ensures kept { (n : ℕ) (q : List ℕ) → IsNumber self.old n q → IsNumber self.new n q }
        ensures fits { Fits self.new }
    {
        let lower = lowered(*self.names.allocator(), name)?;
        let number = self.enter_lowered(lower)?;
        let kind = Element::new(name).kind;
        let is_raw = is_raw(name);
        self.known.put(
            name,
            Known {
                kind,
                is_raw,
                number,
            },
        )?;
        Ok(number)
    }

    // The number of a name in lower case, which it has from now on. Linear in the name, on average.
    fn enter_lowered(&mut self, name: Vec<u8>) -> Result<usize, NoMemory>
        requires fits { Fits self.old }
        ensures number { IfOk result (λ n. IsNumber self.new n name.items) }
        ensures same { (q : List ℕ) → place_in self.new q ≡ place_in self.old q }
        ensures kept { (n : ℕ) (q : List ℕ) → IsNumber self.old n q → IsNumber self.new n q }
        ensures fits { Fits self.new }
    {
        let (number, _) = self.names.insert_full(name)?;
        begin(&mut self.places, number)?;
        Ok(number)
    }

    /// Changes the place of the name of a number. Constant.
    pub(crate) fn put(&mut self, number: usize, place: usize)
        requires within { number < length self.old.places.items }
        requires fits { Fits self.old }
        ensures put { (n : List ℕ) → IsNumber self.old number n → (q : List ℕ) → place_in self.new q ≡ (if bytes_eq n q then place else place_in self.old q) }
        ensures kept { (n : ℕ) (q : List ℕ) → IsNumber self.old n q → IsNumber self.new n q }
        ensures fits { Fits self.new }
    {
        self.places[number] = place;
    }
}
