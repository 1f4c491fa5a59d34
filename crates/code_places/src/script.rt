//! Code with its text.
use code_tokens::Code;

/// Code, and the text whose bytes its tokens are.
#[derive(Clone, Copy)]
pub struct Script<'a> {
    pub text: &'a [u8],
    pub code: &'a Code,
}
