//! Reading catches.
ghost use Rattle.std.specs.Prelude.{◌≡◌, IfOk};
ghost use Rattle.camp_notation.specs.Catches.{catch_text, catches_text};

use crate::context_readings::{read_member, read_members};
use crate::cursors::Cursor;
use crate::readings::{read_item, read_items};
use crate::rows::{Row, SQUARE, read_row};
use crate::{NotationError, catch_text, catches_text};
use camp_catch::{Catch, Conflictor};
use camp_ctx::{Contexted, CtxSet};
use camp_prim::Named;
use camp_share::Shared;
use std::alloc::Global;

/// Parses a catch.
pub fn read_catch(alloc: Global, known: &[Named], text: &[u8]) -> Result<Catch, NotationError>
    ensures text { IfOk result (λ j. text.now ≡ catch_text known.now j) }
{
    let mut cursor = Cursor::new(alloc, known, text);
    let j = read_catch_there(&mut cursor)?;
    cursor.expect_written(text, catch_text(alloc, known, &j))?;
    Ok(j)
}

/// Parses a list of catches.
pub fn read_catches(
    alloc: Global,
    known: &[Named],
    text: &[u8],
) -> Result<Vec<Shared<Catch>>, NotationError>
    ensures text { IfOk result (λ list. text.now ≡ catches_text known.now list.items) }
{
    let mut cursor = Cursor::new(alloc, known, text);
    let list = read_row_of_catches(&mut cursor)?;
    cursor.expect_written(text, catches_text(alloc, known, &list))?;
    Ok(list)
}

fn read_row_of_catches(cursor: &mut Cursor) -> Result<Vec<Shared<Catch>>, NotationError> {
    read_row(Vec::new(cursor.alloc), SQUARE, cursor)
}

impl Row for Vec<Shared<Catch>> {
    fn read_next(&mut self, cursor: &mut Cursor) -> Result<(), NotationError> {
        let j = read_shared(cursor)?;
        Ok(self.push(j)?)
    }
}

fn read_shared(cursor: &mut Cursor) -> Result<Shared<Catch>, NotationError> {
    let j = read_catch_there(cursor)?;
    Ok(Shared::new(cursor.alloc, j)?)
}

fn read_catch_there(cursor: &mut Cursor) -> Result<Catch, NotationError> {
    if cursor.take(b"(") {
        read_conflictor(cursor)
    } else {
        read_plain(cursor)
    }
}

fn read_plain(cursor: &mut Cursor) -> Result<Catch, NotationError> {
    cursor.expect(b"[", '[')?;
    let a = read_item(cursor)?;
    cursor.expect(b"]", ']')?;
    Ok(Catch::Plain(a))
}

// Parses a conflictor after its opening parenthesis.
fn read_conflictor(cursor: &mut Cursor) -> Result<Catch, NotationError> {
    let effect = read_items(cursor)?;
    let conflicts = read_conflicts(cursor)?;
    let identity = read_last_member(cursor)?;
    Ok(Catch::Conflictor(Conflictor {
        effect,
        conflicts,
        identity,
    }))
}

fn read_conflicts(cursor: &mut Cursor) -> Result<CtxSet, NotationError> {
    cursor.expect(b", ", ',')?;
    read_members(cursor)
}

fn read_last_member(cursor: &mut Cursor) -> Result<Contexted, NotationError> {
    cursor.expect(b", ", ',')?;
    let identity = read_member(cursor)?;
    cursor.expect(b")", ')')?;
    Ok(identity)
}
