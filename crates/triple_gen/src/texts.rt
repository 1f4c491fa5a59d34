//! The lines of the three files for one box.
ghost use Rattle.std.specs.Prelude.{◌≡◌, [], ◌++◌, OnOk};
ghost use Rattle.std.specs.Fmt.{decimal};
ghost use Rattle.triple_gen.specs.Ring as spec;

use std::alloc::Global;
use std::marker::Model;
use tp_base::NoMemory;

/// Bytes of a file. A contract sees the list of them.
#[derive(Drop)]
pub struct Text {
    items: Vec<u8>,
}

impl Model for Text {
    ghost use Rattle.std.specs.Prelude.{List, ℕ};

    ghost Value = { List ℕ };

    ghost view = { λ t. t.items.items };
}

impl Text {
    /// An empty text.
    pub fn new(alloc: Global) -> Self
        ensures { result ≡ [] }
    {
        Text {
            items: Vec::new(alloc),
        }
    }

    /// The bytes.
    pub fn items(&self) -> &[u8]
        ensures { result.now ≡ self.now }
    {
        self.items.as_slice()
    }

    /// The bytes, to be kept without the text.
    pub fn into_items(self) -> Vec<u8>
        ensures { result.items ≡ self }
    {
        self.items
    }

    pub(crate) fn put(&mut self, bytes: &[u8]) -> Result<(), NoMemory>
        ensures { OnOk result (self.new ≡ self.old ++ bytes.now) }
    {
        self.items.extend_from_slice(bytes)?;
        Ok(())
    }

    // The bytes, and then the number.
    #[tactic(auto, using(std::proofs::Common::append_assoc))]
    fn put_with(&mut self, bytes: &[u8], number: u32) -> Result<(), NoMemory>
        ensures { OnOk result (self.new ≡ self.old ++ bytes.now ++ decimal number) }
    {
        self.put(bytes)?;
        let digits = number.to_string(*self.items.allocator())?;
        self.put(digits.as_bytes())
    }

    /// The line of the page: a box, and in it a paragraph.
    pub(crate) fn page_line(&mut self, i: u32) -> Result<(), NoMemory>
        ensures { OnOk result (self.new ≡ self.old ++ spec.page_line i) }
    {
        self.put_with(b"<div class=\"k", i)?;
        self.put_with(b"\" id=\"n", i)?;
        self.put(b"\"><p class=\"t\"></p></div>\n")
    }

    /// The lines of the sheet.
    pub(crate) fn sheet_lines(&mut self, i: u32) -> Result<(), NoMemory>
        ensures { OnOk result (self.new ≡ self.old ++ spec.sheet_lines i) }
    {
        self.sheet_line(b".k", b" .g", i, b"{}\n")?;
        self.put_with(b".k", i)?;
        self.put(b" > p.on{}\n")?;
        self.put_with(b"#n", i)?;
        self.sheet_line(b" .k", b" .k", i, b"{}\n")?;
        self.put_with(b".g", i)?;
        self.put(b" > p{}\n")
    }

    // Two names of the box, and what ends them.
    #[tactic(auto, using(std::proofs::Common::append_assoc))]
    fn sheet_line(
        &mut self,
        first: &[u8],
        second: &[u8],
        i: u32,
        end: &[u8],
    ) -> Result<(), NoMemory>
        ensures { OnOk result (self.new ≡ self.old ++ first.now ++ decimal i ++ second.now ++ decimal i ++ end.now) }
    {
        self.put_with(first, i)?;
        self.put_with(second, i)?;
        self.put(end)
    }

    /// The line of the script: the box gets the next one as a child.
    pub(crate) fn script_line(&mut self, i: u32, next: u32) -> Result<(), NoMemory>
        ensures { OnOk result (self.new ≡ self.old ++ spec.script_line i next) }
    {
        self.put_with(b"$('.k", i)?;
        self.put_with(b"').append('<div class=\"k", next)?;
        self.put_with(b" g", i)?;
        self.put(b"\"></div>');\n")
    }
}
