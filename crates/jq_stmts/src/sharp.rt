//! Statements with sharp calls. A sharp call selects less than the wide call by which it is judged.
ghost use Rattle.std.specs.Prelude.{◌≡◌};
ghost use Rattle.jq_stmts.specs.SharpViews as spec;

use crate::stmts::Stmt;
use tp_base::Items;

/// Which part of a wide call's set a sharp call keeps.
#[derive(Clone, Copy, Debug, PartialEq, Eq)]
pub enum SharpKind {
    /// For `Around`: upward from each node of the set before, the first node that fits.
    Closest,
    /// For `Near`: the nodes that have a sibling in the set before.
    Siblings,
    /// For `Filter`: the first node in document order.
    First,
}

/// A mark at a wide call: the script has a sharp call there. By its kind a mark stands at `Around`, at `Near`, or at `Filter` of one
/// compound without atoms. At any other call it has no effect.
#[derive(Clone, Copy, Debug, PartialEq, Eq)]
pub struct Sharp {
    /// The index of the chain's handler, where the outermost has 0; none for the statement's own chain.
    pub handler: Option<u32>,
    /// The index of the call in its chain, from 0 on.
    pub call: u32,
    pub kind: SharpKind,
}

impl Sharp {
    fn is_at(&self, handler: Option<usize>, call: usize) -> bool
        ensures { result ≡ spec.is_at self.now handler call }
    {
        self.call as usize == call && is_same(self.handler, handler)
    }
}

// Whether both are the same handler, or both are none.
fn is_same(handler: Option<u32>, other: Option<usize>) -> bool
    ensures { result ≡ spec.is_same handler other }
{
    match (handler, other) {
        (None, None) => true,
        (Some(one), Some(two)) => one as usize == two,
        _ => false,
    }
}

/// The marks of a statement's sharp calls. A contract sees the list of them.
pub type Sharps = Items<Sharp>;

/// The kind of the first mark at a call, if the call is marked. It is a call of a handler's chain or, without a handler, of the
/// statement's own chain. Linear in the marks, which are few.
pub fn kind_at(sharp: &[Sharp], handler: Option<usize>, call: usize) -> Option<SharpKind>
    ensures { result ≡ spec.kind_at sharp.now handler call }
{
    let mut rest = sharp;
    'marks: while let Some((first, others)) = rest.split_first() {
        if first.is_at(handler, call) {
            return Some(first.kind);
        }
        rest = others;
    }
    None
}

/// The wide statement, by which a statement is judged, and the marks of its sharp calls.
#[derive(Drop)]
pub struct ExactStmt {
    pub wide: Stmt,
    pub sharp: Sharps,
}
