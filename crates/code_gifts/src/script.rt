//! A script, with what is known of it.
ghost use Rattle.std.specs.Prelude.{◌≡◌};

use code_places::Brackets;
use code_tokens::Code;
use sheet_asks::Asked;

/// A script, with what is known of it, and what the sheet asks for.
#[derive(Drop)]
pub struct Script<'s, 't> {
    pub text: &'s [u8],
    pub code: &'s Code,
    pub brackets: &'s Brackets,
    pub asked: &'s Asked<'t>,
}

impl<'s, 't> Script<'s, 't> {
    // The script, as its values see it.
    pub(crate) fn of_values(&self) -> code_values::Script<'s>
        ensures text { result.text ≡ self.now.text }
        ensures code { result.code ≡ self.now.code }
    {
        code_values::Script {
            text: self.text,
            code: self.code,
        }
    }

    // The script, as its places see it.
    pub(crate) fn of_places(&self) -> code_places::Script<'s>
        ensures text { result.text ≡ self.now.text }
        ensures code { result.code ≡ self.now.code }
    {
        code_places::Script {
            text: self.text,
            code: self.code,
        }
    }
}
