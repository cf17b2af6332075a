//! The lines of a text, the words of a line, and the bytes that a word writes.

ghost use Rattle.script.specs.Lines.{blank, closed, words_of, lines_of, bytes_of};
ghost use Rattle.std.specs.Prelude.{◌≡◌, ◌++◌, map, is_ok, IfOk, if◌then◌else◌, vec_items};
ghost use Rattle.std.specs.Option.{option_map};

use crate::hex_byte;
use std::alloc::{AllocError, Global};

// A word that begins with this is a comment, with all that follows it on its line.
const COMMENT: u8 = b'#';

// The lines of a text: a line feed ends one, and is no part of it. The last has no end.
pub fn lines_of(heap: Global, text: &str) -> Result<Vec<&str>, AllocError>
    ensures { IfOk result (λ v. map (λ x. x.now) v.items ≡ lines_of text.now) }
{
    text.split('\n').collect(heap)
}

// Whether a byte parts words.
fn is_blank(byte: u8) -> bool
    ensures { result ≡ blank byte }
{
    matches!(byte, b' ' | b'\t'..=b'\r')
}

// A word that has come to its end goes behind the others; no bytes are no word.
fn close<'a>(all: &mut Vec<&'a str>, word: &'a str) -> Result<(), AllocError>
    ensures { map (λ x. x.now) all.new.items ≡ (if is_ok result then map (λ x. x.now) all.old.items ++ closed word.now else map (λ x. x.now) all.old.items) }
{
    if !word.is_empty() {
        all.push(word)?;
    }
    Ok(())
}

// The words of a line up to a comment.
// Kept: `split_ascii_whitespace` leaves out the byte 11, a `split` of text at these six tells of a piece no more than its
// length, and the pieces of a `split` of bytes would have to be shown to be text again.
pub fn words_of(heap: Global, line: &str) -> Result<Vec<&str>, AllocError>
    ensures { IfOk result (λ v. map (λ x. x.now) v.items ≡ words_of line.now) }
{
    let mut all = Vec::new(heap);
    let mut start = 0;
    for (i, byte) in line.as_bytes().iter().enumerate() {
        if is_blank(*byte) {
            close(&mut all, &line[start..i])?;
            start = i + 1;
        } else if start == i && *byte == COMMENT {
            return Ok(all);
        }
    }
    close(&mut all, &line[start..])?;
    Ok(all)
}

// The bytes that a word writes in hexadecimal, or `-` for none; nothing where it does not.
pub fn bytes_of(heap: Global, word: &str) -> Result<Option<Vec<u8>>, AllocError>
    ensures { IfOk result (λ o. option_map vec_items o ≡ bytes_of word.now) }
{
    let mut all = Vec::new(heap);
    if word == "-" {
        return Ok(Some(all));
    }
    // Looked at before any byte is kept, so that a word of an odd length takes no memory.
    if word.len() % 2 != 0 {
        return Ok(None);
    }
    let mut rest = word.as_bytes();
    while let [high, low, tail @ ..] = rest {
        match hex_byte(*high, *low) {
            Some(byte) => all.push(byte)?,
            None => return Ok(None),
        }
        rest = tail;
    }
    Ok(rest.is_empty().then_some(all))
}
