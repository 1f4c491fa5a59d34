//! Whether chains are written the same.
ghost use Rattle.std.specs.Prelude.{◌≡◌, ◌≤◌, true, map, take, length, List};
ghost use Rattle.sel_text.specs.Views.{selector_of};
ghost use Rattle.jq_stmts.specs.Views.{root_of, call_of, chain_of};

use jq_stmts::{Call, Chain, Root};
use sel_text::{Compound, Selector};

// Types whose values are compared by their views.
trait Compared {
    ghost Seen: { Type 0 };

    ghost seen: { Self → Seen };

    // Whether two values surely have the same view. A wrong no only costs time. Linear in the shorter.
    fn is_surely_same(&self, other: &Self) -> bool
        ensures { result ≡ true → seen self.now ≡ seen other.now };
}

// The length of the longest common prefix. Linear in it.
fn shared<T: Compared>(first: &[T], second: &[T]) -> usize
    ensures in_first { result ≤ length first.now }
    ensures in_second { result ≤ length second.now }
    ensures same { take result (map T.seen first.now) ≡ take result (map T.seen second.now) }
{
    let mut count = 0;
    'items: while count < first.len() && count < second.len() {
        if !first[count].is_surely_same(&second[count]) {
            return count;
        }
        count += 1;
    }
    count
}

// Whether two lists are the same. Linear in the shorter.
fn all_same<T: Compared>(first: &[T], second: &[T]) -> bool
    ensures { result ≡ true → map T.seen first.now ≡ map T.seen second.now }
{
    first.len() == second.len() && shared(first, second) == first.len()
}

impl Compared for Compound {
    ghost use Rattle.std.specs.Prelude.{ℕ};

    ghost Seen = { List ℕ };

    ghost seen = { λ c. c.atoms };

    fn is_surely_same(&self, other: &Compound) -> bool {
        self.atoms.items() == other.atoms.items()
    }
}

impl Compared for Selector {
    ghost use Rattle.sel_text.specs.Selectors as spec;

    ghost Seen = { spec.Selector };

    ghost seen = { selector_of };

    fn is_surely_same(&self, other: &Selector) -> bool {
        self.joins.items() == other.joins.items()
            && all_same(self.parts.items(), other.parts.items())
    }
}

impl Compared for Call {
    ghost use Rattle.jq_sem.specs.Statements as spec;

    ghost Seen = { spec.Call };

    ghost seen = { call_of };

    fn is_surely_same(&self, other: &Call) -> bool {
        match (self, other) {
            (Call::Find(first), Call::Find(second))
            | (Call::Children(first), Call::Children(second))
            | (Call::Parent(first), Call::Parent(second))
            | (Call::Parents(first), Call::Parents(second))
            | (Call::Filter(first), Call::Filter(second))
            | (Call::Has(first), Call::Has(second))
            | (Call::Around(first), Call::Around(second))
            | (Call::Near(first), Call::Near(second)) => all_same(first.items(), second.items()),
            (Call::Add(first), Call::Add(second)) => all_same(first.items(), second.items()),
            (Call::End, Call::End) => true,
            _ => false,
        }
    }
}

// Whether two chains begin with the same set. Linear in the shorter.
fn same_root(first: &Root, second: &Root) -> bool
    ensures { result ≡ true → root_of first.now ≡ root_of second.now }
{
    match (first, second) {
        (Root::List(ours), Root::List(others)) => all_same(ours.items(), others.items()),
        (Root::This, Root::This) => true,
        _ => false,
    }
}

impl Compared for Chain {
    ghost use Rattle.jq_sem.specs.Statements as spec;

    ghost Seen = { spec.Chain };

    ghost seen = { chain_of };

    fn is_surely_same(&self, other: &Chain) -> bool {
        same_root(&self.root, &other.root) && all_same(self.calls.items(), other.calls.items())
    }
}

/// The number of chains in the common prefix of two lists. Linear in the shorter list.
pub(crate) fn shared_front(first: &[Chain], second: &[Chain]) -> usize
    ensures in_first { result ≤ length first.now }
    ensures in_second { result ≤ length second.now }
    ensures same { take result (map chain_of first.now) ≡ take result (map chain_of second.now) }
{
    shared(first, second)
}
