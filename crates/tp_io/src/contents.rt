//! Names with their bytes, held in memory.
ghost use Rattle.std.specs.Prelude.{◌≡◌, ◌≢◌, [], Some, option_map};
ghost use Rattle.tp_io.specs.MemoryFiles.{contents_of, held, answer_to};

use crate::files::LoadFault;
use tp_base::MOST_BYTES;

/// The bytes of the first entry of this name.
pub(crate) fn held<'a>(mut entries: &'a [(String, Vec<u8>)], name: &str) -> Option<&'a [u8]>
    ensures { option_map (λ b. b.now) result ≡ held (contents_of entries.entry.now) name.now }
{
    while let [entry, rest @ ..] = entries {
        if entry.0.as_str() == name {
            return Some(entry.1.as_slice());
        }
        entries = rest;
    }
    None
}

/// Copies the bytes of a file, and says whether they are too many.
pub(crate) fn copy_file(bytes: &[u8], into: &mut Vec<u8>) -> Result<(), LoadFault>
    requires { into.old.items ≡ [] }
    ensures answer { result ≢ Err LoadFault.Memory → result ≡ answer_to (Some bytes.now) }
    ensures copied { result ≢ Err LoadFault.Memory → into.new.items ≡ bytes.now }
    ensures no_memory { result ≡ Err LoadFault.Memory → into.new.items ≡ [] }
{
    into.extend_from_slice(bytes)?;
    if bytes.len() > MOST_BYTES as usize {
        return Err(LoadFault::TooLarge);
    }
    Ok(())
}
