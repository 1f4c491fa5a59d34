//! A set of numbers in the order of insertion, with a table of their places.
ghost use Rattle.std.specs.Prelude.{◌≡◌, ◌==◌, ◌<◌, ◌≤◌, ℕ, length, get_or, None, IfOk, OnOk};
ghost use Rattle.guard_simplify.specs.Firsts.{with_new, different, place_of};
ghost use Rattle.guard_simplify.specs.NumberSets.{IsNoted, ArePlaces};

use std::alloc::Global;
use std::marker::Model;
use tp_base::NoMemory;

/// Numbers in their order, and for each number below a bound its first place among them, if it has one. A contract sees the
/// list of the numbers.
#[derive(Drop)]
pub(crate) struct NumberSet {
    numbers: Vec<usize>,
    places: Vec<Option<usize>>,
}

impl Model for NumberSet {
    ghost use Rattle.std.specs.Prelude.{List, ℕ};
    ghost use Rattle.guard_simplify.specs.NumberSets.{ArePlaces};

    ghost Value = { List ℕ };

    ghost view = { λ s. s.numbers.items };

    ghost invariant = { λ s. ArePlaces s.places.items s.numbers.items };
}

// What is noted at a number.
fn noted_at(places: &[Option<usize>], number: usize) -> Option<usize>
    ensures { result ≡ get_or places.now number None }
{
    match places.get(number) {
        Some(place) => *place,
        None => None,
    }
}

// Makes the table reach a number.
fn reach(places: &mut Vec<Option<usize>>, number: usize) -> Result<(), NoMemory>
    ensures there { OnOk result (number < length places.new.items) }
    ensures same { OnOk result ((k : ℕ) → get_or places.new.items k None ≡ get_or places.old.items k None) }
{
    'places: while places.len() <= number {
        places.push(None)?;
    }
    Ok(())
}

// Notes a place at a number. Linear in the number, where it is the largest so far.
fn note(places: &mut Vec<Option<usize>>, number: usize, place: usize) -> Result<(), NoMemory>
    ensures { OnOk result (IsNoted places.old.items places.new.items number place) }
{
    reach(places, number)?;
    places[number] = Some(place);
    Ok(())
}

// Puts a number that isn't there yet behind the others.
#[tactic(auto, using(crate::proofs::NumberSetLemmas::stays, crate::proofs::NumberSetLemmas::grows, crate::proofs::NumberSetLemmas::placed_more))]
fn add(
    numbers: &mut Vec<usize>,
    places: &mut Vec<Option<usize>>,
    number: usize,
) -> Result<(), NoMemory>
    requires { ArePlaces places.old.items numbers.old.items }
    ensures once { OnOk result (numbers.new.items ≡ with_new (λ x y. x == y) numbers.old.items number) }
    ensures are { OnOk result (ArePlaces places.new.items numbers.new.items) }
{
    match noted_at(places.as_slice(), number) {
        Some(_) => Ok(()),
        None => {
            note(places, number, numbers.len())?;
            numbers.push(number)?;
            Ok(())
        }
    }
}

impl NumberSet {
    /// The different ones of these numbers, in the order in which they come. Linear in them and in the largest.
    pub(crate) fn of(alloc: Global, all: &[usize]) -> Result<NumberSet, NoMemory>
        ensures { IfOk result (λ s. s ≡ different (λ x y. x == y) all.now) }
    {
        let mut numbers = Vec::new(alloc);
        let mut places = Vec::new(alloc);
        let mut rest = all;
        'each: while let Some((number, later)) = rest.split_first() {
            add(&mut numbers, &mut places, *number)?;
            rest = later;
        }
        Ok(NumberSet { numbers, places })
    }

    /// The numbers. Constant.
    pub(crate) fn numbers(&self) -> &[usize]
        ensures { result.now ≡ self.now }
    {
        self.numbers.as_slice()
    }

    /// How many there are. Constant.
    pub(crate) fn len(&self) -> usize
        ensures len { result ≡ length self.now }
    {
        self.numbers.len()
    }

    /// The place of a number among these; their count where it isn't there. Constant.
    #[tactic(auto, using(crate::proofs::NumberSetLemmas::found_place, crate::proofs::NumberSetLemmas::missing_place, crate::proofs::NumberSetLemmas::found_short))]
    pub(crate) fn place(&self, number: usize) -> usize
        ensures place { result ≡ place_of (λ x y. x == y) number self.now }
        ensures within { result ≤ length self.now }
    {
        match noted_at(self.places.as_slice(), number) {
            Some(place) => place,
            None => self.numbers.len(),
        }
    }
}
