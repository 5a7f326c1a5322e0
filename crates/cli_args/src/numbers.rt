//! Numbers of the command line.

ghost use Rattle.std.specs.Prelude.{◌≡◌};
ghost use Rattle.std.specs.Char.{is_ascii_digit};
ghost use Rattle.std.specs.List.{list_all};
ghost use Rattle.cli_args.specs.Number as spec;

/// The number from `least` to `most` that the text says in one to ten decimal digits, or `None`.
pub(crate) fn number(text: &str, least: u32, most: u32) -> Option<u32>
    ensures { result ≡ spec.number least most text.now }
{
    if !is_number(text) {
        return None;
    }
    let value: u32 = text.parse().ok()?;
    if least <= value && value <= most {
        Some(value)
    } else {
        None
    }
}

/// Whether the text is one to ten digits.
fn is_number(text: &str) -> bool
    ensures { result ≡ spec.is_number text.now }
{
    let bytes = text.as_bytes();
    1 <= bytes.len() && bytes.len() <= 10 && all_digits(bytes)
}

/// Whether all bytes are digits.
fn all_digits(bytes: &[u8]) -> bool
    ensures { result ≡ list_all is_ascii_digit bytes.now }
{
    bytes.iter().all(|b| b.is_ascii_digit())
}
