//! The files that a page's scripts are in.
ghost use Rattle.std.specs.Prelude.{◌≡◌, ◌≤◌, length};
ghost use Rattle.std.specs.List.{prefix_len};
ghost use Rattle.code_sources.specs.Scripts as spec;

use std::marker::Model;

/// The names of the scripts that are handed in. A contract sees the list of them.
#[derive(Drop)]
pub(crate) struct Scripts<'a> {
    pub(crate) names: &'a [&'a [u8]],
}

impl<'a> Model for Scripts<'a> {
    ghost use Rattle.std.specs.Prelude.{ℕ, List, map};

    ghost Value = { List (List ℕ) };

    ghost view = { λ s. map (λ n. n.now) s.names.now };
}

fn in_path(b: u8) -> bool
    ensures { result ≡ spec.in_path b }
{
    !(b == b'?' || b == b'#')
}

// Linear in it.
fn path_len(address: &[u8]) -> usize
    ensures gives { result ≡ prefix_len spec.in_path address.now }
    ensures within { result ≤ length address.now }
{
    address.iter().take_while(|b| in_path(**b)).count()
}

fn path_of(address: &[u8]) -> &[u8]
    ensures { result.now ≡ spec.path_of address.now }
{
    address.split_at(path_len(address)).0
}

// Linear in the text.
#[tactic(auto, using(crate::proofs::FileSteps::begins, crate::proofs::FileSteps::slash, crate::proofs::FileSteps::other, crate::proofs::FileSteps::ends))]
fn last_part(text: &[u8]) -> &[u8]
    ensures { result.now ≡ spec.last_part text.now }
{
    let mut found = text;
    let mut rest = text;
    'bytes: while let Some((first, behind)) = rest.split_first() {
        if *first == b'/' {
            found = behind;
        }
        rest = behind;
    }
    found
}

fn is_between_words(b: u8) -> bool
    ensures { result ≡ spec.is_between_words b }
{
    b == b'.' || b == b'-' || b.is_ascii_digit()
}

// How many dots, hyphens and digits a text begins with. Linear in them.
fn between_len(text: &[u8]) -> usize
    ensures gives { result ≡ prefix_len spec.is_between_words text.now }
    ensures within { result ≤ length text.now }
{
    text.iter().take_while(|b| is_between_words(**b)).count()
}

#[tactic(auto, unfolding(crate::specs::Scripts::behind_word))]
fn behind_word<'a>(word: &[u8], text: &'a [u8]) -> &'a [u8]
    ensures { result.now ≡ spec.behind_word word.now text.now }
{
    if !text.starts_with(word) {
        return text;
    }
    let rest = text.split_at(word.len()).1;
    rest.split_at(between_len(rest)).1
}

#[tactic(auto, unfolding(crate::specs::Scripts::is_jquery))]
fn is_jquery(file: &[u8]) -> bool
    ensures { result ≡ spec.is_jquery file.now }
{
    file.starts_with(b"jquery")
        && file.ends_with(b".js")
        && behind_word(b"min", behind_word(b"slim", behind_word(b"jquery", file)))
            == b"js".as_slice()
}

fn is_handed_in(scripts: &Scripts<'_>, file: &[u8]) -> bool
    ensures { result ≡ spec.is_handed_in scripts.now file.now }
{
    let mut left = scripts.names;
    'scripts: while let [first, others @ ..] = left {
        if last_part(first) == file {
            return true;
        }
        left = others;
    }
    false
}

/// Whether an address is jQuery's, or that of a script that is handed in. Linear in them.
#[tactic(auto, unfolding(crate::specs::Scripts::is_known))]
pub(crate) fn is_known(scripts: &Scripts<'_>, address: &[u8]) -> bool
    ensures { result ≡ spec.is_known scripts.now address.now }
{
    let file = last_part(path_of(address));
    is_jquery(file) || is_handed_in(scripts, file)
}
