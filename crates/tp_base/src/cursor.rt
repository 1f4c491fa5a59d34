//! A cursor that walks a text from front to end and gives the places of bytes.
ghost use Rattle.std.specs.Prelude.{◌≡◌, ◌≤◌, length};
ghost use Rattle.tp_base.specs.declared.places.TheConstants.{MOST_BYTES};
ghost use Rattle.tp_base.specs.Cursor.{IsAt};
ghost use Rattle.tp_base.specs.Places as spec;

use crate::places::Place;

/// An offset in a text, and its place.
#[derive(Clone, Copy)]
pub struct Cursor {
    pub offset: usize,
    pub place: Place,
}

impl Cursor {
    /// At the text's beginning.
    pub fn new() -> Cursor
        ensures start { result.offset ≡ 0 }
        ensures here { (text : _) → IsAt text result }
    {
        Cursor {
            offset: 0,
            place: Place { line: 1, column: 1 },
        }
    }

    /// The place of an offset, which is that of the text's end where it is past it. Linear in the bytes between the last offset and
    /// this one, or in all before this one where it comes before the last one.
    #[tactic(auto, using(crate::proofs::PlaceLemmas::take_within))]
    pub fn place_at(&mut self, text: &[u8], offset: usize) -> Place
        requires here { IsAt text.now self.old }
        requires in_limit { length text.now ≤ MOST_BYTES }
        ensures place { result ≡ spec.place_at text.now offset }
        ensures here { IsAt text.now self.new }
    {
        let offset = offset.min(text.len());
        if offset < self.offset {
            *self = Cursor::new();
        }
        self.go_on(text, offset);
        self.place
    }

    fn go_on(&mut self, text: &[u8], offset: usize)
        requires here { IsAt text.now self.old }
        requires ahead { self.old.offset ≤ offset }
        requires in_text { offset ≤ length text.now }
        requires in_limit { length text.now ≤ MOST_BYTES }
        ensures there { self.new.offset ≡ offset }
        ensures here { IsAt text.now self.new }
    {
        'bytes: while self.offset < offset {
            if text[self.offset] == b'\n' {
                self.place.line += 1;
                self.place.column = 1;
            } else {
                self.place.column += 1;
            }
            self.offset += 1;
        }
    }
}
