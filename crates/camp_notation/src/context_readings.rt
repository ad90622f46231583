//! Reading contexted patches and sets.
ghost use Rattle.std.specs.Prelude.{◌≡◌, IfOk};
ghost use Rattle.camp_notation.specs.Contexts.{contexted_text, set_text};

use crate::cursors::Cursor;
use crate::readings::{read_item, read_items};
use crate::rows::{CURLY, Row, read_row};
use crate::{NotationError, contexted_text, set_text};
use camp_ctx::{Contexted, CtxSet};
use camp_prim::Named;
use camp_seq::Seq;
use std::alloc::Global;

/// Parses a contexted patch.
pub fn read_contexted(
    alloc: Global,
    known: &[Named],
    text: &[u8],
) -> Result<Contexted, NotationError>
    ensures text { IfOk result (λ x. text.now ≡ contexted_text known.now x) }
{
    let mut cursor = Cursor::new(alloc, known, text);
    let x = read_member(&mut cursor)?;
    cursor.expect_written(text, contexted_text(alloc, known, &x))?;
    Ok(x)
}

/// Parses a set. Members out of the order of their labels, or with equal labels, give the fault `WrittenOtherwise`.
pub fn read_set(alloc: Global, known: &[Named], text: &[u8]) -> Result<CtxSet, NotationError>
    ensures text { IfOk result (λ xs. text.now ≡ set_text known.now xs) }
{
    let mut cursor = Cursor::new(alloc, known, text);
    let xs = read_members(&mut cursor)?;
    cursor.expect_written(text, set_text(alloc, known, &xs))?;
    Ok(xs)
}

pub(crate) fn read_members(cursor: &mut Cursor) -> Result<CtxSet, NotationError> {
    read_row(CtxSet::empty(cursor.alloc), CURLY, cursor)
}

impl Row for CtxSet {
    fn read_next(&mut self, cursor: &mut Cursor) -> Result<(), NotationError> {
        let x = read_member(cursor)?;
        *self = self.insert(&x)?;
        Ok(())
    }
}

pub(crate) fn read_member(cursor: &mut Cursor) -> Result<Contexted, NotationError> {
    let context = read_context(cursor)?;
    let patch = read_patch(cursor)?;
    Ok(Contexted::new(cursor.alloc, context, patch)?)
}

fn read_patch(cursor: &mut Cursor) -> Result<Named, NotationError> {
    cursor.expect(b":", ':')?;
    read_item(cursor)
}

// Parses a context: nothing before the colon, a list in brackets, or one primitive.
fn read_context(cursor: &mut Cursor) -> Result<Seq, NotationError> {
    if cursor.stands_at(b"[") {
        return read_items(cursor);
    }
    if cursor.stands_at(b":") {
        return Ok(Seq::empty(cursor.alloc));
    }
    let p = read_item(cursor)?;
    let mut context = Seq::empty(cursor.alloc);
    context.push(p)?;
    Ok(context)
}
