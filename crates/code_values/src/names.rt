//! Names that are looked for.
ghost use Rattle.std.specs.Prelude.{◌≡◌, map};
ghost use Rattle.text_bytes.specs.Attributes.{is_among as stands_among};

/// Whether a name is one of these. Linear in it, for each of them.
pub(crate) fn is_among(names: &[&[u8]], name: &[u8]) -> bool
    ensures { result ≡ stands_among (map (λ n. n.now) names.now) name.now }
{
    let mut left = names;
    'names: while let [first, others @ ..] = left {
        if *first == name {
            return true;
        }
        left = others;
    }
    false
}
