//! The values of options as numbers.
ghost use Rattle.std.specs.Prelude.{◌≡◌, if◌then◌else◌, Some, None};
ghost use Rattle.command_words.specs.Orders as spec;

/// How many digits a value has at most.
pub const MOST_DIGITS: usize = 10;

fn is_number(text: &[u8]) -> bool
    ensures { result ≡ spec.is_number text.now }
{
    if text.is_empty() || text.len() > MOST_DIGITS {
        return false;
    }
    'digits: for byte in text {
        if !byte.is_ascii_digit() {
            return false;
        }
    }
    true
}

/// The number that the text writes, where it is in the range. Linear in the text.
pub(crate) fn number_of(text: &str, least: u32, most: u32) -> Option<u32>
    ensures { result ≡ (if spec.is_between least most text.now then Some (spec.number text.now) else None) }
{
    if !is_number(text.as_bytes()) {
        return None;
    }
    let Ok(number) = text.parse::<u32>() else {
        return None;
    };
    if least <= number && number <= most {
        Some(number)
    } else {
        None
    }
}
