//! The first lines of entries.
ghost use Rattle.std.specs.Prelude.{◌≡◌, ◌++◌, ◌<◌, ◌^◌, ◌≤◌, ℕ, Some, length, IfSome, OnOk};
ghost use Rattle.std.specs.Fmt.{decimal};
ghost use Rattle.camp_entries.specs.Inside.{IsHeadOf};
ghost use Rattle.camp_entries.specs.Texts.{text_of_head};

use crate::notes::line_len;
use crate::seats::{parse_seat, seat_text};
use itoa::Buffer;
use std::alloc::AllocError;
use std::str;

/// The first line of an entry: its seat, its number, and the length of the line with its line feed in bytes.
#[derive(Drop)]
pub(crate) struct Head {
    pub(crate) seat: u128,
    pub(crate) number: u64,
    pub(crate) len: usize,
}

/// Appends the first line of an entry.
pub(crate) fn append_head(text: &mut Vec<u8>, seat: u128, number: u64) -> Result<(), AllocError>
    ensures text { OnOk result (text.new.items ≡ text.old.items ++ text_of_head seat number) }
    ensures seat { seat < 2 ^ 128 }
    ensures number { number < 2 ^ 64 }
{
    let digits = seat_text(*text.allocator(), seat)?;
    let mut decimal = Buffer::new();
    text.extend_from_slice(b"entry ")?;
    text.extend_from_slice(&digits)?;
    text.push(b' ')?;
    text.extend_from_slice(decimal.format(number).as_bytes())?;
    Ok(text.push(b'\n')?)
}

/// Parses the first line of an entry.
pub(crate) fn parse_head(text: &[u8]) -> Option<Head>
    ensures head { IsHeadOf text.now result }
    ensures within { IfSome result (λ head. head.len ≤ length text.now) }
{
    let Some(len) = line_len(text) else {
        return None;
    };
    if len < 40 {
        return None;
    }
    let Some(seat) = parse_seat(&text[6..38]) else {
        return None;
    };
    let Some(number) = parse_number(&text[39..len - 1]) else {
        return None;
    };
    Some(Head { seat, number, len })
}

/// Parses decimal digits.
pub(crate) fn parse_number(digits: &[u8]) -> Option<u64>
    ensures { (number : ℕ) → number < 2 ^ 64 → decimal number ≡ digits.now → result ≡ Some number }
{
    let Ok(text) = str::from_utf8(digits) else {
        return None;
    };
    match text.parse::<u64>() {
        Ok(number) => Some(number),
        Err(_) => None,
    }
}
