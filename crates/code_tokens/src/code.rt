//! Code as its tokens.
ghost use Rattle.std.specs.Prelude.{◌≡◌, length, IfOk};
ghost use Rattle.code_tokens.specs.Code as spec;
ghost use Rattle.code_tokens.specs.Pairs.{AreOthers, pairs_of as bracket_pairs};

use crate::members::with_members;
use crate::pairs::{others_of, pairs_of, with_alone};
use code_scan::{Token, scan};
use std::alloc::Global;
use tp_base::{Items, NoMemory};

/// Code as its tokens.
#[derive(Drop)]
pub struct Code {
    pub tokens: Items<Token>,
    /// For each token the number of the bracket that belongs to it, where it is a bracket that has one.
    pub others: Items<Option<usize>>,
    /// The offsets at which it isn't sure what is meant: first those of what stands there, then those of brackets that have no other.
    pub unread: Items<usize>,
}

/// The tokens of code. No code is refused. Linear in it, in time and in memory.
pub fn read_code(alloc: Global, text: &[u8]) -> Result<Code, NoMemory>
    ensures tokens { IfOk result (λ c. c.tokens ≡ spec.code_tokens text.now) }
    ensures others { IfOk result (λ c. AreOthers (bracket_pairs text.now c.tokens) (length c.tokens) c.others) }
    ensures unread { IfOk result (λ c. c.unread ≡ spec.unread_places text.now) }
{
    let scanned = scan(alloc, text)?;
    let tokens = with_members(text, scanned.tokens)?;
    let pairs = pairs_of(alloc, text, tokens.items())?;
    let others = others_of(alloc, tokens.items().len(), &pairs)?;
    let unread = with_alone(scanned.unread.into_items(), text, tokens.items(), &others)?;
    Ok(Code {
        tokens,
        others: Items::new(others),
        unread: Items::new(unread),
    })
}
