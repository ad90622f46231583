//! Rows: items in brackets with commas between them.
use crate::NotationError;
use crate::cursors::Cursor;

/// A collection whose items are parsed one by one.
pub(crate) trait Row {
    /// Parses one more item.
    fn read_next(&mut self, cursor: &mut Cursor) -> Result<(), NotationError>;
}

/// The opening and the closing bracket of a row.
pub(crate) type Brackets = [u8; 2];

pub(crate) const SQUARE: Brackets = [b'[', b']'];

pub(crate) const CURLY: Brackets = [b'{', b'}'];

/// Parses a row: items in brackets, separated by a comma and a space.
pub(crate) fn read_row<R: Row + Drop>(
    row: R,
    brackets: Brackets,
    cursor: &mut Cursor,
) -> Result<R, NotationError> {
    let mut row = row;
    read_into(&mut row, brackets, cursor)?;
    Ok(row)
}

fn read_into<R: Row>(
    row: &mut R,
    brackets: Brackets,
    cursor: &mut Cursor,
) -> Result<(), NotationError> {
    let [open, close] = brackets;
    cursor.expect(&[open], open as char)?;
    if cursor.take(&[close]) {
        return Ok(());
    }
    for _ in 0..cursor.len() {
        row.read_next(cursor)?;
        if cursor.take(&[close]) {
            return Ok(());
        }
        cursor.expect(b", ", ',')?;
    }
    Err(NotationError::Expected(close as char))
}
