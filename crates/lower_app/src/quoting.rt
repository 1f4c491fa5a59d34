//! Texts of the output, in quotes.
ghost use Rattle.std.specs.Prelude.{◌≡◌, ◌++◌, OnOk};
ghost use Rattle.std.specs.List.{flat_map};
ghost use Rattle.lower_app.specs.Quoting as spec;

use tp_base::NoMemory;

fn push_byte(line: &mut Vec<u8>, byte: u8) -> Result<(), NoMemory>
    ensures { OnOk result (line.new.items ≡ line.old.items ++ spec.in_quotes byte) }
{
    if byte == b'\\' || byte == b'\'' {
        line.extend_from_slice(&[b'\\', byte])?;
    } else if byte == b'\n' {
        line.extend_from_slice(b"\\n")?;
    } else {
        line.push(byte)?;
    }
    Ok(())
}

fn push_bytes(line: &mut Vec<u8>, text: &[u8]) -> Result<(), NoMemory>
    ensures { OnOk result (line.new.items ≡ line.old.items ++ flat_map spec.in_quotes text.now) }
{
    'bytes: for byte in text {
        push_byte(line, *byte)?;
    }
    Ok(())
}

/// Puts a text in quotes behind a line. Linear in it.
#[tactic(auto, unfolding(crate::specs::Quoting::quoted), using(crate::proofs::LineSteps::three))]
pub(crate) fn push_quoted(line: &mut Vec<u8>, text: &[u8]) -> Result<(), NoMemory>
    ensures { OnOk result (line.new.items ≡ line.old.items ++ spec.quoted text.now) }
{
    line.extend_from_slice(b"'")?;
    push_bytes(line, text)?;
    line.extend_from_slice(b"'")?;
    Ok(())
}
