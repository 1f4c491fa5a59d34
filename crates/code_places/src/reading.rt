//! What is known of the brackets of code.
ghost use Rattle.std.specs.Prelude.{◌≡◌, IfOk};
ghost use Rattle.code_places.specs.Enclosing.{enclosing as brackets_around};
ghost use Rattle.code_places.specs.Patterns.{patterns as patterns_in};
ghost use Rattle.code_places.specs.Steps.{stepped as stepped_in};

use crate::brackets::{Brackets, enclosing};
use crate::patterns::patterns;
use crate::script::Script;
use crate::steps::stepped;
use std::alloc::Global;
use tp_base::{Items, NoMemory};

/// What is known of the brackets of code. Linear in it.
pub fn read_brackets(alloc: Global, script: &Script<'_>) -> Result<Brackets, NoMemory>
    ensures enclosing { IfOk result (λ b. b.enclosing ≡ brackets_around script.now.code.now) }
    ensures patterns { IfOk result (λ b. b.patterns ≡ patterns_in script.now.text.now script.now.code.now) }
    ensures stepped { IfOk result (λ b. b.stepped ≡ stepped_in script.now.text.now script.now.code.now) }
{
    let around = enclosing(alloc, script.code)?;
    let patterns = patterns(alloc, script, &around)?;
    let stepped = stepped(alloc, script)?;
    Ok(Brackets {
        enclosing: Items::new(around),
        patterns: Items::new(patterns),
        stepped: Items::new(stepped),
    })
}
