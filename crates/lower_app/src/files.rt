//! Files whose bytes have places.
ghost use Rattle.std.specs.Prelude.{◌≡◌, ◌≤◌, drop, length, All, IfOk};
ghost use Rattle.tp_base.specs.Cursor.{IsAt};
ghost use Rattle.tp_base.specs.Places as spec;
ghost use Rattle.tp_base.specs.declared.places.TheConstants.{MOST_BYTES};

use std::alloc::Global;
use std::marker::Model;
use tp_base::{Cursor, NoMemory, Place};

// How many bytes are between two places that are kept.
const STEP: usize = 256;

/// A file by its word and its text, with places at every so many bytes of the text.
#[derive(Drop)]
pub struct Placed<'a> {
    pub(crate) word: &'a [u8],
    text: &'a [u8],
    marks: Vec<Cursor>,
}

impl<'a> Model for Placed<'a> {
    ghost use Rattle.std.specs.Prelude.{◌≤◌, length, All};
    ghost use Rattle.tp_base.specs.Cursor.{IsAt};
    ghost use Rattle.tp_base.specs.declared.places.TheConstants.{MOST_BYTES};
    ghost use Rattle.lower_app.specs.Files.{File};

    ghost Value = { File };

    ghost view = { λ f. record { word = f.word.now; text = f.text.now } };

    ghost invariant = { λ f. (length f.text.now ≤ MOST_BYTES) × All (IsAt f.text.now) f.marks.items };
}

// Places at every so many bytes, and at the front. Linear in the text.
fn marks_in(alloc: Global, text: &[u8]) -> Result<Vec<Cursor>, NoMemory>
    requires { length text.now ≤ MOST_BYTES }
    ensures { IfOk result (λ v. All (IsAt text.now) v.items) }
{
    let mut marks = Vec::new(alloc);
    let mut cursor = Cursor::new();
    let mut at = 0;
    'marks: while at <= text.len() {
        cursor.place_at(text, at);
        marks.push(cursor)?;
        at += STEP;
    }
    Ok(marks)
}

// The last one that isn't behind an offset, if one is kept. Constant.
fn mark_before(text: &[u8], marks: &[Cursor], at: usize) -> Cursor
    requires { All (IsAt text.now) marks.now }
    ensures { IsAt text.now result }
{
    match marks.get(at / STEP) {
        Some(mark) => *mark,
        None => Cursor::new(),
    }
}

impl<'a> Placed<'a> {
    /// Linear in the text.
    pub fn new(alloc: Global, word: &'a [u8], text: &'a [u8]) -> Result<Self, NoMemory>
        requires { length text.now ≤ MOST_BYTES }
        ensures word { IfOk result (λ f. f.word ≡ word.now) }
        ensures text { IfOk result (λ f. f.text ≡ text.now) }
    {
        let marks = marks_in(alloc, text)?;
        Ok(Placed { word, text, marks })
    }

    /// The place of an offset. Constant.
    pub(crate) fn place_at(&self, at: usize) -> Place
        ensures { result ≡ spec.place_at self.now.text at }
    {
        let mut mark = mark_before(self.text, &self.marks, at);
        mark.place_at(self.text, at)
    }

    /// What begins at an offset. Constant.
    pub(crate) fn behind(&self, at: usize) -> &'a [u8]
        ensures { result.now ≡ drop at self.now.text }
    {
        match self.text.split_at_checked(at) {
            Some((_, behind)) => behind,
            None => b"",
        }
    }
}
