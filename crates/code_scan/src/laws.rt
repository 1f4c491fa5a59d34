//! What holds of all code.
ghost use Rattle.code_scan.specs.SameTokens.{ReadsTheSame};

/// On a plain text that the scanner of the subset accepts, both give the same tokens, but for members that texts ask for.
#[tactic(auto, using(crate::proofs::SameLaw::same_tokens))]
pub fn read_the_same(text: &[u8])
    ensures { ReadsTheSame text.now }
{}
