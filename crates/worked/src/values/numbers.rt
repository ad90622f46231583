//! Shared lists of numbers, written as ranges: `0..40 66..67`.

use crate::words::number_of;
use bstr::ByteSlice;
use camp_notation::NotationError;
use camp_share::{Share, SharedList};
use std::alloc::{AllocError, Global};

/// An element, whose copies do not allocate.
#[derive(Clone, Copy, PartialEq, Eq, Drop)]
pub(crate) struct Number(pub(crate) u32);

impl Share for Number {
    fn share(&self) -> Result<Number, AllocError> {
        Ok(*self)
    }
}

pub(crate) type Numbers = SharedList<Number>;

/// Parses a number.
pub(crate) fn read_number(text: &[u8]) -> Result<u32, NotationError> {
    number_of(text).ok_or(NotationError::BadNumber)
}

/// Parses a list.
pub(crate) fn read_numbers(alloc: Global, text: &[u8]) -> Result<Numbers, NotationError> {
    let mut items = Vec::new(alloc);
    for row in text.fields() {
        push_row(&mut items, row)?;
    }
    Ok(SharedList::from_items(alloc, &items)?)
}

fn push_row(items: &mut Vec<Number>, row: &[u8]) -> Result<(), NotationError> {
    let Some((from, to)) = row.split_once_str(b"..") else {
        return Err(NotationError::Expected('.'));
    };
    for number in read_number(from)?..read_number(to)? {
        items.push(Number(number))?;
    }
    Ok(())
}

/// Renders a list.
pub(crate) fn numbers_text(alloc: Global, numbers: &Numbers) -> Result<String, AllocError> {
    let mut text = String::new(alloc);
    let mut row = Row { from: 0, to: 0 };
    for number in numbers.iter() {
        if number.0 == row.to && row.from < row.to {
            row.to = row.to.saturating_add(1);
        } else {
            row.append(&mut text)?;
            row = Row::of(number.0);
        }
    }
    row.append(&mut text)?;
    Ok(text)
}

/// A range of consecutive numbers, `from..to`, of a list.
#[derive(Clone, Copy)]
struct Row {
    from: u32,
    to: u32,
}

impl Row {
    fn of(number: u32) -> Row {
        Row {
            from: number,
            to: number.saturating_add(1),
        }
    }

    fn append(self, text: &mut String) -> Result<(), AllocError> {
        if self.from == self.to {
            return Ok(());
        }
        if !text.is_empty() {
            text.push(' ')?;
        }
        let (from, to) = (self.from, self.to);
        let row = format!(in *text.allocator(); "{from}..{to}")?;
        text.push_str(&row)
    }
}
