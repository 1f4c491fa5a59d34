//! Calls and chains with marks. A mark names the sharp call in whose place a wider one is judged.
ghost use Rattle.std.specs.Prelude.{◌≡◌, IfOk};
ghost use Rattle.jq_stmts.specs.Sharp.{plain};
ghost use Rattle.jq_stmts.specs.Views.{call_of};
ghost use Rattle.jq_chains.specs.MarkedCalls.{marked_of};

use jq_stmts::{Call, Root, SharpKind};
use tp_base::NoMemory;

/// A call that is judged, and what is kept of its set, where it isn't all. At a call that isn't of its kind a mark says nothing.
#[derive(Drop)]
pub struct MarkedCall {
    pub call: Call,
    pub kind: Option<SharpKind>,
}

impl MarkedCall {
    /// A call that is judged as it is.
    pub fn plain(call: Call) -> Self
        ensures { marked_of result ≡ plain (call_of call) }
    {
        MarkedCall { call, kind: None }
    }

    /// A copy of the call. Constant: both share the compounds or selectors.
    pub fn copy(&self) -> Result<MarkedCall, NoMemory>
        ensures { IfOk result (λ c. marked_of c ≡ marked_of self.now) }
    {
        let call = self.call.copy()?;
        Ok(MarkedCall {
            call,
            kind: self.kind,
        })
    }
}

/// A set to begin with, and the calls after it.
#[derive(Drop)]
pub struct MarkedChain {
    pub root: Root,
    pub calls: Vec<MarkedCall>,
}
