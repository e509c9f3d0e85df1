// Kinds of bytes of a line.
#![tactic(auto, unfolding(crate::specs::ReadField::is_blank, crate::specs::ReadField::is_digit, crate::specs::ReadField::is_letter, crate::specs::ReadField::is_octal))]

ghost use Rattle.std.specs.Prelude.{◌≡◌};
ghost use Rattle.midicsv.specs.ReadField.{is_blank, is_digit, is_letter, is_octal};

// A space or a tab.
pub fn is_blank(c: u8) -> bool
    ensures { result ≡ is_blank c }
{
    c == b' ' || c == b'\t'
}

// 0 to 9.
pub fn is_digit(c: u8) -> bool
    ensures { result ≡ is_digit c }
{
    c.is_ascii_digit()
}

// 0 to 7.
pub fn is_octal(c: u8) -> bool
    ensures { result ≡ is_octal c }
{
    matches!(c, b'0'..=b'7')
}

// A letter or an underscore.
pub fn is_letter(c: u8) -> bool
    ensures { result ≡ is_letter c }
{
    c.is_ascii_alphabetic() || c == b'_'
}
