ghost use Rattle.std.specs.Prelude.{◌≡◌};
ghost use Rattle.text_terms.specs.Fields.{is_blank, is_letter, is_digit};
ghost use Rattle.wkt_terms.specs.Runs.{is_number_byte, lower};

/// Whether a byte is a space or a tab.
pub fn is_blank(b: u8) -> bool
    ensures { result ≡ is_blank b }
{
    b == b' ' || b == b'\t'
}

/// Whether a byte is an ASCII letter.
pub fn is_letter(b: u8) -> bool
    ensures { result ≡ is_letter b }
{
    (b'A'..=b'Z').contains(&b) || (b'a'..=b'z').contains(&b)
}

/// Whether a byte is a decimal digit.
pub fn is_digit(b: u8) -> bool
    ensures { result ≡ is_digit b }
{
    (b'0'..=b'9').contains(&b)
}

/// Whether a byte is a digit, a sign or a point.
pub fn is_number_byte(b: u8) -> bool
    ensures { result ≡ is_number_byte b }
{
    is_digit(b) || b == b'+' || b == b'-' || b == b'.'
}

/// A letter in lower case; other bytes as they are.
pub(crate) fn lower(b: u8) -> u8
    ensures { result ≡ lower b }
{
    if (b'A'..=b'Z').contains(&b) {
        b + 32
    } else {
        b
    }
}
