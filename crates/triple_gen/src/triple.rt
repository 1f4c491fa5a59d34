//! The three files of a ring.
ghost use Rattle.std.specs.Prelude.{◌≡◌, ◌≤◌, ◌<◌, length, IfOk};
ghost use Rattle.tp_base.specs.declared.places.TheConstants.{MOST_BYTES};
ghost use Rattle.triple_gen.specs.Ring as spec;

use crate::texts::Text;
use std::alloc::Global;
use tp_base::NoMemory;

/// How many boxes a ring has at most.
pub const MOST_BOXES: u32 = 200;

/// A page, a style sheet and a script.
#[derive(Drop)]
pub struct Triple {
    pub page: Text,
    pub sheet: Text,
    pub script: Text,
}

/// The triple of a ring of `n` boxes. Of the four selectors of each box three are used, the third after `2 n` steps, and the
/// last is not. Linear in what is written.
pub fn generate(alloc: Global, n: u32) -> Result<Triple, NoMemory>
    requires few { n ≤ MOST_BOXES }
    ensures page { IfOk result (λ t. t.page ≡ spec.page n) }
    ensures sheet { IfOk result (λ t. t.sheet ≡ spec.sheet n) }
    ensures script { IfOk result (λ t. t.script ≡ spec.script n) }
    ensures small_page { IfOk result (λ t. length t.page ≤ MOST_BYTES) }
    ensures small_sheet { IfOk result (λ t. length t.sheet ≤ MOST_BYTES) }
    ensures small_script { IfOk result (λ t. length t.script ≤ MOST_BYTES) }
{
    let page = page(alloc, n)?;
    let sheet = sheet(alloc, n)?;
    let script = script(alloc, n)?;
    Ok(Triple {
        page,
        sheet,
        script,
    })
}

#[tactic(auto, using(crate::proofs::RingLemmas::one_more))]
fn page(alloc: Global, n: u32) -> Result<Text, NoMemory>
    ensures { IfOk result (λ t. t ≡ spec.page n) }
{
    let mut text = Text::new(alloc);
    'boxes: for i in 0..n {
        text.page_line(i)?;
    }
    Ok(text)
}

#[tactic(auto, using(crate::proofs::RingLemmas::one_more))]
fn sheet(alloc: Global, n: u32) -> Result<Text, NoMemory>
    ensures { IfOk result (λ t. t ≡ spec.sheet n) }
{
    let mut text = Text::new(alloc);
    'boxes: for i in 0..n {
        text.sheet_lines(i)?;
    }
    Ok(text)
}

fn script(alloc: Global, n: u32) -> Result<Text, NoMemory>
    requires { n ≤ MOST_BOXES }
    ensures { IfOk result (λ t. t ≡ spec.script n) }
{
    let mut text = Text::new(alloc);
    'boxes: for i in 0..n {
        text.script_line(i, (i + 1) % n)?;
    }
    text.put(b"$('.t').addClass('on');\n")?;
    Ok(text)
}
