//! The lines of files, and all of them in one text.
ghost use Rattle.std.specs.Prelude.{◌≡◌, IfOk};
ghost use Rattle.std.specs.List.{flat_map};
ghost use Rattle.lower_app.specs.Output as spec;

use crate::files::Placed;
use crate::given::{Entry, Form};
use crate::lines::{assumption_line, statement_line};
use std::alloc::Global;
use tp_base::{Items, NoMemory};

/// The line of an entry, in its file. Linear in it.
pub fn line_in(alloc: Global, file: &Placed<'_>, entry: &Entry) -> Result<Vec<u8>, NoMemory>
    ensures { IfOk result (λ line. line.items ≡ spec.line_in file.now entry.now) }
{
    let at = entry.origin.at;
    let place = file.place_at(at);
    match entry.form {
        Form::Assumed(kind) => assumption_line(alloc, file.word, place, file.behind(at), kind),
        Form::Given(is_any_name) => {
            statement_line(alloc, file.word, place, entry.key.items(), is_any_name)
        }
    }
}

/// Lines, one after the other. Linear in them.
pub fn joined(alloc: Global, lines: &[Items<u8>]) -> Result<Vec<u8>, NoMemory>
    ensures { IfOk result (λ text. text.items ≡ flat_map (λ line. line) lines.now) }
{
    let mut text = Vec::new(alloc);
    'lines: for line in lines {
        text.extend_from_slice(line.items())?;
    }
    Ok(text)
}
