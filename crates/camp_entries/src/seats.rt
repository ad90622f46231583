//! The texts of seats: 32 hexadecimal digits.
ghost use Rattle.std.specs.Prelude.{◌≡◌, ◌<◌, ◌++◌, IfOk, OnOk};
ghost use Rattle.std.specs.Char.{digit_char};
ghost use Rattle.camp_entries.specs.Inside.{IsSeatOfDigits};
ghost use Rattle.camp_entries.specs.Texts.{seat_text};

use std::alloc::{AllocError, Global};
use std::str;

/// The number of digits of a seat.
pub(crate) const SEAT_DIGITS: usize = 32;

/// Renders a seat.
pub(crate) fn seat_text(alloc: Global, seat: u128) -> Result<Vec<u8>, AllocError>
    ensures { IfOk result (λ text. text.items ≡ seat_text seat) }
{
    let mut text = Vec::new(alloc);
    let mut rest = seat;
    for _ in 0..SEAT_DIGITS {
        text.insert(0, hex_digit((rest % 16) as u8))?;
        rest /= 16;
    }
    Ok(text)
}

// Renders a hexadecimal digit.
fn hex_digit(digit: u8) -> u8
    requires { digit < 16 }
    ensures { result ≡ digit_char digit }
{
    if digit < 10 {
        b'0' + digit
    } else {
        b'a' - 10 + digit
    }
}

/// Parses the digits of a seat.
pub(crate) fn parse_seat(digits: &[u8]) -> Option<u128>
    ensures { IsSeatOfDigits digits.now seat_text result }
{
    let Ok(text) = str::from_utf8(digits) else {
        return None;
    };
    match u128::from_str_radix(text, 16) {
        Ok(seat) => Some(seat),
        Err(_) => None,
    }
}
