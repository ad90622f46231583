//! Encoding and decoding of blocks. A block is a commit mark, the head of a text, and the text.
ghost use Rattle.std.specs.Prelude.{◌≡◌, ◌≢◌, ◌↔◌, ◌++◌, [], ◌∷◌, List, ℕ, Some, length, IfOk, IfErr, IsTrue, MatchOption};
ghost use Rattle.camp_store.specs.Blocks.{AllFit, FitsInBlock, IsBlock, IsEnd, blocks, body, chain, closed_mark, digest_after, head, is_closed};
ghost use Rattle.camp_store.specs.Logs.{IsEncodeFault, texts_of};

use crate::StoreFault;
use hex::FromHex;
use sha2::{Digest as _, Sha256};
use std::alloc::{AllocError, Global};

/// The digest of a list of texts, computed one text after the other.
pub type Digest = [u8; 32];

/// The commit mark of a block that counts.
pub(crate) const OPEN_MARK: u8 = b'=';

/// The commit mark at which the texts of a file end.
pub(crate) const CLOSED_MARK: u8 = b'~';

/// The length of a head in bytes: 8 digits, a space, 16 digits, and a line feed.
pub(crate) const HEAD_LEN: usize = 26;

/// Computes the digest of texts and one more; `before` is the digest of those before it.
pub(crate) fn digest_after(before: &Digest, text: &[u8]) -> Digest
    ensures { result ≡ digest_after before.now text.now }
{
    let mut hasher = Sha256::new();
    hasher.update(before.as_slice());
    hasher.update(text);
    hasher.finalize()
}

/// Encodes the head of a text from its length and its digest.
fn encode_head(alloc: Global, size: u32, digest: &Digest) -> Result<Vec<u8>, AllocError>
    ensures { IfOk result (λ line. (before text : List ℕ) → length text ≡ size → digest.now ≡ digest_after before text
        → line.items ≡ head before text) }
{
    let mut line = Vec::with_capacity(alloc, HEAD_LEN)?;
    line.extend_from_slice(hex::encode(alloc, size.to_be_bytes())?.as_bytes())?;
    line.push(b' ')?;
    line.extend_from_slice(hex::encode(alloc, &digest[..8])?.as_bytes())?;
    line.push(b'\n')?;
    Ok(line)
}

/// Decodes the length of a text from its head.
fn decode_size(line: &[u8]) -> Option<u32>
    requires { length line.now ≡ 26 }
    ensures { (before text : List ℕ) → FitsInBlock text → line.now ≡ head before text → result ≡ Some (length text) }
{
    match <[u8; 4] as FromHex>::from_hex(&line[..8]) {
        Ok(bytes) => Some(u32::from_be_bytes(bytes)),
        Err(_) => None,
    }
}

/// Encodes the blocks of texts and a closed mark; `before` is the digest of the texts before them. Also returns the
/// digest of all.
pub(crate) fn encode(
    alloc: Global,
    before: &Digest,
    texts: &[Vec<u8>],
) -> Result<(Vec<u8>, Digest), StoreFault>
    ensures bytes { IfOk result (λ r. r.0.items ≡ blocks before.now (texts_of texts.now) ++ closed_mark ∷ []) }
    ensures digest { IfOk result (λ r. r.1 ≡ chain before.now (texts_of texts.now)) }
    ensures fit { IfOk result (λ r. AllFit (texts_of texts.now)) }
    ensures refused { IfErr result (IsEncodeFault (texts_of texts.now)) }
{
    let mut bytes = Vec::new(alloc);
    let mut digest = *before;
    for text in texts {
        let Ok(size) = u32::try_from(text.len()) else {
            return Err(StoreFault::TooLong);
        };
        digest = digest_after(&digest, text);
        bytes.push(OPEN_MARK)?;
        bytes.extend_from_slice(&encode_head(alloc, size, &digest)?)?;
        bytes.extend_from_slice(text)?;
    }
    bytes.push(CLOSED_MARK)?;
    Ok((bytes, digest))
}

/// A decoded text, the digest of all texts up to it, and the bytes after it.
#[derive(Clone, Copy)]
pub(crate) struct Block<'a> {
    pub(crate) text: &'a [u8],
    pub(crate) digest: Digest,
    pub(crate) rest: &'a [u8],
}

/// Decodes a text and its head at the start of bytes; `None` if there is no complete one.
fn first_body<'a>(
    alloc: Global,
    before: &Digest,
    bytes: &'a [u8],
) -> Result<Option<Block<'a>>, AllocError>
    ensures { IfOk result (λ found. MatchOption found
        ((text rest : List ℕ) → FitsInBlock text → bytes.now ≢ body before.now text ++ rest)
        (λ block. (bytes.now ≡ body before.now block.text.now ++ block.rest.now) × FitsInBlock block.text.now
        × (block.digest ≡ digest_after before.now block.text.now))) }
{
    if bytes.len() < HEAD_LEN {
        return Ok(None);
    }
    let (found, after) = bytes.split_at(HEAD_LEN);
    let size = match decode_size(found) {
        Some(size) => size,
        None => return Ok(None),
    };
    if after.len() < size as usize {
        return Ok(None);
    }
    let (text, rest) = after.split_at(size as usize);
    let digest = digest_after(before, text);
    let line = encode_head(alloc, size, &digest)?;
    if found != line.as_slice() {
        return Ok(None);
    }
    Ok(Some(Block { text, digest, rest }))
}

/// Decodes the block at the start of bytes; `None` if there is no complete one that counts.
pub(crate) fn first_block<'a>(
    alloc: Global,
    before: &Digest,
    bytes: &'a [u8],
) -> Result<Option<Block<'a>>, AllocError>
    ensures { IfOk result (λ found. MatchOption found
        ((text rest : List ℕ) → ¬ (IsBlock before.now text rest bytes.now))
        (λ block. IsBlock before.now block.text.now block.rest.now bytes.now
        × (block.digest ≡ digest_after before.now block.text.now))) }
{
    let [mark, after @ ..] = bytes else {
        return Ok(None);
    };
    if *mark == CLOSED_MARK {
        return Ok(None);
    }
    match first_body(alloc, before, after)? {
        Some(block) => Ok(Some(block)),
        None => Ok(None),
    }
}

/// True if no block begins with these bytes.
pub(crate) fn is_end(bytes: &[u8]) -> bool
    ensures { IsTrue result ↔ IsEnd bytes.now }
{
    match bytes {
        [] | [_] => true,
        [mark, ..] => *mark == CLOSED_MARK,
    }
}

/// True if the bytes begin with a closed mark.
pub(crate) fn is_closed(bytes: &[u8]) -> bool
    ensures { result ≡ is_closed bytes.now }
{
    match bytes {
        [] => false,
        [sign, ..] => *sign == CLOSED_MARK,
    }
}
