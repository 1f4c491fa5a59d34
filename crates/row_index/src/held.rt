//! A list of places that allocates no memory for fewer than two.
ghost use Rattle.std.specs.Prelude.{◌≡◌, ◌∷◌, [], ◌++◌, IfOk, OnOk, OnErr};
ghost use Rattle.row_index.specs.Held.{places_of};

use std::alloc::Global;
use tp_base::NoMemory;

/// No place, one place, or several. Only several allocate memory.
#[derive(Drop)]
pub(crate) enum Held {
    Empty,
    One(usize),
    More(Vec<usize>),
}

// A list of two places.
fn two(alloc: Global, first: usize, second: usize) -> Result<Vec<usize>, NoMemory>
    ensures { IfOk result (λ v. v.items ≡ first ∷ second ∷ []) }
{
    let mut places = Vec::new(alloc);
    places.push(first)?;
    places.push(second)?;
    Ok(places)
}

impl Held {
    /// The places. Constant.
    pub(crate) fn places(&self) -> &[usize]
        ensures { result.now ≡ places_of self.now }
    {
        match self {
            Held::Empty => &[],
            Held::One(place) => std::slice::from_ref(place),
            Held::More(places) => places.as_slice(),
        }
    }

    /// Appends a place. Amortized constant.
    pub(crate) fn push(&mut self, alloc: Global, place: usize) -> Result<(), NoMemory>
        ensures ok { OnOk result (places_of self.new ≡ places_of self.old ++ place ∷ []) }
        ensures err { OnErr result (places_of self.new ≡ places_of self.old) }
    {
        match self {
            Held::Empty => *self = Held::One(place),
            Held::One(first) => *self = Held::More(two(alloc, *first, place)?),
            Held::More(places) => places.push(place)?,
        }
        Ok(())
    }
}
