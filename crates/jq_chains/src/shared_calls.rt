//! A persistent list of calls, which several chains share.
ghost use Rattle.std.specs.Prelude.{◌≡◌, ◌||◌, not, nat_lt, [], ◌∷◌, ◌++◌, map, IfOk};
ghost use Rattle.jq_stmts.specs.Sharp.{wide_call};
ghost use Rattle.jq_stmts.specs.Statements.{stands};
ghost use Rattle.jq_stmts.specs.Views.{call_of};
ghost use Rattle.jq_words.specs.Brackets.{is_empty};
ghost use Rattle.jq_chains.specs.MarkedCalls.{marked_of};
ghost use Rattle.jq_chains.specs.Links.{how_many};
ghost use Rattle.jq_chains.specs.SharedCalls as spec;

use crate::marked_calls::MarkedCall;
use jq_stmts::Call;
use std::alloc::Global;
use std::marker::Model;
use std::rc::Rc;
use tp_base::NoMemory;

// The last of some calls, and those before it.
enum Link {
    Start,
    After(MarkedCall, Rc<Link>),
}

/// A loop, since a script can have millions of calls.
impl Drop for Link {
    fn drop(mut self) {
        loop {
            match self {
                Link::Start => return,
                Link::After(_, earlier) => match Rc::into_inner(earlier) {
                    None => return,
                    Some(link) => self = link,
                },
            }
        }
    }
}

// How many calls stand: one more than others, or none. A list has no end, where a number would have one.
enum Standing {
    Nothing,
    OneMore(Rc<Standing>),
}

/// A loop, as of `Link`.
impl Drop for Standing {
    fn drop(mut self) {
        loop {
            match self {
                Standing::Nothing => return,
                Standing::OneMore(others) => match Rc::into_inner(others) {
                    None => return,
                    Some(standing) => self = standing,
                },
            }
        }
    }
}

// How many calls stand, with one call more.
fn and_one(alloc: Global, standing: Rc<Standing>, call: &Call) -> Result<Rc<Standing>, NoMemory>
    ensures { IfOk result (λ n. how_many n.value ≡ spec.and_standing (how_many standing.value) (call_of call.now)) }
{
    match call {
        Call::End => match &*standing {
            Standing::Nothing => Ok(standing),
            Standing::OneMore(others) => Ok(others.clone()?),
        },
        _ => Ok(Rc::new(alloc, Standing::OneMore(standing))?),
    }
}

fn is_some(standing: &Rc<Standing>) -> bool
    ensures { result ≡ nat_lt 0 (how_many standing.now.value) }
{
    matches!(**standing, Standing::OneMore(_))
}

// Whether there is a call of `parents`, with one call more.
fn and_parents(before: bool, call: &Call) -> bool
    ensures { result ≡ (before || spec.is_parents (call_of call.now)) }
{
    match call {
        Call::Parents(_) => true,
        _ => before,
    }
}

/// Calls, from the first one on. A contract sees the list of them.
#[derive(Drop)]
pub struct SharedCalls {
    last: Rc<Link>,
    /// The calls that stand, as each `end` takes the last one back.
    left: Rc<Standing>,
    /// Whether one is of `parents`, also one that was taken back.
    parents: bool,
}

impl Model for SharedCalls {
    ghost use Rattle.std.specs.Prelude.{◌≡◌, List, [], length, map};
    ghost use Rattle.jq_stmts.specs.Statements.{matched, stands};
    ghost use Rattle.jq_chains.specs.declared.marked_calls.MarkedCall.{MarkedCall};
    ghost use Rattle.jq_chains.specs.Links.{calls_to, how_many};
    ghost use Rattle.jq_chains.specs.MarkedCalls.{judged_of};
    ghost use Rattle.jq_chains.specs.SharedCalls.{has_parents};

    ghost Value = { List MarkedCall };

    ghost view = { λ c. calls_to c.last.value };

    ghost invariant = { λ c. (how_many c.left.value ≡ length (stands (matched []) (map judged_of (calls_to c.last.value))).1) × (c.parents ≡ has_parents (map judged_of (calls_to c.last.value))) };
}

impl SharedCalls {
    /// An empty list of calls. Constant.
    pub fn none(alloc: Global) -> Result<Self, NoMemory>
        ensures { IfOk result (λ c. c ≡ []) }
    {
        Ok(SharedCalls {
            last: Rc::new(alloc, Link::Start)?,
            left: Rc::new(alloc, Standing::Nothing)?,
            parents: false,
        })
    }

    /// A second reference to the calls. Constant: both share them.
    pub fn share(&self) -> Result<Self, NoMemory>
        ensures { IfOk result (λ c. c ≡ self.now) }
    {
        Ok(SharedCalls {
            last: self.last.clone()?,
            left: self.left.clone()?,
            parents: self.parents,
        })
    }

    /// One call more. Constant.
    #[tactic(auto, using(crate::proofs::SharedCallSteps::one_standing, crate::proofs::SharedCallSteps::one_of_parents))]
    pub fn with_call(self, alloc: Global, call: MarkedCall) -> Result<Self, NoMemory>
        ensures { IfOk result (λ c. c ≡ self ++ call ∷ []) }
    {
        let left = and_one(alloc, self.left, &call.call)?;
        let parents = and_parents(self.parents, &call.call);
        Ok(SharedCalls {
            last: Rc::new(alloc, Link::After(call, self.last))?,
            left,
            parents,
        })
    }

    /// Whether one of them stands, so that the set of a chain with them has one before it. Constant.
    #[tactic(auto, using(crate::proofs::SharedCallSteps::any_standing))]
    pub fn any_stands(&self) -> bool
        ensures { (root : _) → not (is_empty (stands root (map wide_call (map marked_of self.now))).1) ≡ result }
    {
        is_some(&self.left)
    }

    /// Whether one of them is of `parents`, also one that was taken back. Constant.
    #[tactic(auto, using(crate::proofs::SharedCallSteps::some_parents))]
    pub fn has_parents(&self) -> bool
        ensures { spec.has_parents (map wide_call (map marked_of self.now)) ≡ result }
    {
        self.parents
    }

    /// Copies of the calls. Linear in them.
    #[tactic(auto, using(crate::proofs::SharedCallSteps::one_copied))]
    pub fn copy(&self, alloc: Global) -> Result<Vec<MarkedCall>, NoMemory>
        ensures { IfOk result (λ v. map marked_of v.items ≡ map marked_of self.now) }
    {
        let mut copies = Vec::new(alloc);
        let mut link: &Link = &self.last;
        'calls: while let Link::After(call, earlier) = link {
            copies.push(call.copy()?)?;
            link = earlier;
        }
        copies.reverse();
        Ok(copies)
    }
}
