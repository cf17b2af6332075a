//! What a line of a script says.
//!
//! open strict, open permissive (`-` may stand before the mode), len ID, read ID OFFSET COUNT, readhex ID OFFSET COUNT,
//! write ID OFFSET HEX, fill ID OFFSET COUNT BYTE, pat ID OFFSET COUNT SEED, resize ID LEN, room, header, entry ID, minifat.
//! HEX is `-` for no bytes. `fill` and `pat` write COUNT bytes: one and the same, or a pattern.

ghost use Rattle.calls.specs.Scripts.{of_two, of_three};
ghost use Rattle.edits.specs.Scripts.{mode_of, alone, one, opening, resize, two, read, read_hex, write, three, same, pattern_at, pattern, four, edit_of, line_of, asked, Says, wrong_text};
ghost use Rattle.script.specs.Words.{within, short_of, number_of};
ghost use Rattle.script.specs.Lines.{bytes_of, words_of};
ghost use Rattle.std.specs.Option.{option_map};
ghost use Rattle.std.specs.Prelude.{◌≡◌, map, IfOk, vec_items, Some};

use calls::answers::LONGEST;
use calls::faults::Fault;
use minifat::Validation;
use script::lines::{bytes_of, words_of};
use script::{number, number_32};
use std::alloc::{AllocError, Global};
use std::fmt;

// A call of a workbook.
#[derive(Drop)]
pub enum Edit {
    Open(Validation),
    Len(u32),
    Read(u32, u64, u64),
    ReadHex(u32, u64, u64),
    Write(u32, u64, Vec<u8>),
    Resize(u32, u64),
    Room,
    Header,
    Entry(u32),
    Links,
}

// Words that are no call.
#[derive(Debug, Drop)]
pub struct NotACall;

impl fmt::Display for NotACall {
    ghost output = { λ w. Some (wrong_text w) };

    fn fmt<W: fmt::Write>(&self, f: &mut fmt::Formatter<W>) -> fmt::Result {
        write!(f, "not a workbook call")
    }
}

// How strictly to open, by its name.
fn mode_of(word: &str) -> Option<Validation>
    ensures { result ≡ mode_of word.now }
{
    match word {
        "strict" => Some(Validation::Strict),
        "permissive" => Some(Validation::Permissive),
        _ => None,
    }
}

// A name alone.
fn name_edit(name: &str) -> Option<Edit>
    ensures { option_map asked result ≡ alone name.now }
{
    match name {
        "room" => Some(Edit::Room),
        "header" => Some(Edit::Header),
        "minifat" => Some(Edit::Links),
        _ => None,
    }
}

// A name with a mode or an id.
fn one_edit(name: &str, first: &str) -> Option<Edit>
    ensures { option_map asked result ≡ one name.now first.now }
{
    match name {
        "open" => Some(Edit::Open(mode_of(first)?)),
        "len" => Some(Edit::Len(number_32(first)?)),
        "entry" => Some(Edit::Entry(number_32(first)?)),
        _ => None,
    }
}

// The words behind `open`, where there are two.
fn open_edit(first: &str, mode: &str) -> Option<Edit>
    ensures { option_map asked result ≡ opening first.now mode.now }
{
    if first != "-" {
        return None;
    }
    Some(Edit::Open(mode_of(mode)?))
}

// The words behind `resize`.
fn resize_edit(id: &str, length: &str) -> Option<Edit>
    ensures { option_map asked result ≡ of_two resize (short_of id.now) (number_of length.now) }
{
    Some(Edit::Resize(number_32(id)?, number(length)?))
}

// A name with `-` and a mode, or with an id and a length.
fn two_edit(name: &str, first: &str, second: &str) -> Option<Edit>
    ensures { option_map asked result ≡ two name.now first.now second.now }
{
    match name {
        "open" => open_edit(first, second),
        "resize" => resize_edit(first, second),
        _ => None,
    }
}

// The words behind `read`.
fn read_edit(id: &str, at: &str, count: &str) -> Option<Edit>
    ensures { option_map asked result ≡ of_three read (short_of id.now) (number_of at.now) (number_of count.now) }
{
    Some(Edit::Read(number_32(id)?, number(at)?, number(count)?))
}

// The words behind `readhex`.
fn hex_edit(id: &str, at: &str, count: &str) -> Option<Edit>
    ensures { option_map asked result ≡ of_three read_hex (short_of id.now) (number_of at.now) (number_of count.now) }
{
    Some(Edit::ReadHex(number_32(id)?, number(at)?, number(count)?))
}

// An id, an offset, and the bytes that are written there.
fn write_edit(id: &str, at: &str, bytes: Option<Vec<u8>>) -> Option<Edit>
    ensures { option_map asked result ≡ of_three write (short_of id.now) (number_of at.now) (option_map vec_items bytes) }
{
    Some(Edit::Write(number_32(id)?, number(at)?, bytes?))
}

// A name with an id, an offset, and a count or bytes.
fn three_edit(
    heap: Global,
    name: &str,
    id: &str,
    at: &str,
    third: &str,
) -> Result<Option<Edit>, AllocError>
    ensures { IfOk result (λ c. option_map asked c ≡ three name.now id.now at.now third.now) }
{
    match name {
        "read" => Ok(read_edit(id, at, third)),
        "readhex" => Ok(hex_edit(id, at, third)),
        "write" => Ok(write_edit(id, at, bytes_of(heap, third)?)),
        _ => Ok(None),
    }
}

// The byte that a word writes as a number.
fn byte_of(word: &str) -> Option<u8>
    ensures { result ≡ within 255 (number_of word.now) }
{
    u8::try_from(number(word)?).ok()
}

// The bytes of `fill`: one and the same, so many times.
fn filled(heap: Global, count: &str, byte: &str) -> Result<Option<Vec<u8>>, AllocError>
    ensures { IfOk result (λ o. option_map vec_items o ≡ of_two same (number_of count.now) (within 255 (number_of byte.now))) }
{
    let (Some(count), Some(byte)) = (number(count), byte_of(byte)) else {
        return Ok(None);
    };
    let bytes = vec![in heap; byte; count.min(LONGEST) as usize]?;
    Ok(Some(bytes))
}

// The byte at a place of a pattern. Each number is taken modulo 256 first, so that none of the sums is too large.
fn pattern_byte(seed: u64, i: u64) -> u8
    ensures { result ≡ pattern_at seed i }
{
    ((31 * (seed % 256) + 7 * (i % 256) + 13 * (i / 256 % 256)) % 256) as u8
}

// The first bytes of a pattern.
fn pattern(heap: Global, count: u64, seed: u64) -> Result<Vec<u8>, AllocError>
    ensures { IfOk result (λ v. vec_items v ≡ pattern count seed) }
{
    (0..count.min(LONGEST))
        .map(|i| pattern_byte(seed, i))
        .collect(heap)
}

// The bytes of `pat`: those of a pattern.
fn patterned(heap: Global, count: &str, seed: &str) -> Result<Option<Vec<u8>>, AllocError>
    ensures { IfOk result (λ o. option_map vec_items o ≡ of_two pattern (number_of count.now) (number_of seed.now)) }
{
    let (Some(count), Some(seed)) = (number(count), number(seed)) else {
        return Ok(None);
    };
    Ok(Some(pattern(heap, count, seed)?))
}

// A name with an id, an offset, a count, and a byte or a seed.
fn four_edit(
    heap: Global,
    name: &str,
    id: &str,
    at: &str,
    count: &str,
    last: &str,
) -> Result<Option<Edit>, AllocError>
    ensures { IfOk result (λ c. option_map asked c ≡ four name.now id.now at.now count.now last.now) }
{
    match name {
        "fill" => Ok(write_edit(id, at, filled(heap, count, last)?)),
        "pat" => Ok(write_edit(id, at, patterned(heap, count, last)?)),
        _ => Ok(None),
    }
}

// The call that words are.
fn edit_of(heap: Global, words: &[&str]) -> Result<Option<Edit>, AllocError>
    ensures { IfOk result (λ c. option_map asked c ≡ edit_of (map (λ x. x.now) words.now)) }
{
    match words {
        [name] => Ok(name_edit(name)),
        [name, first] => Ok(one_edit(name, first)),
        [name, first, second] => Ok(two_edit(name, first, second)),
        [name, id, at, third] => three_edit(heap, name, id, at, third),
        [name, id, at, count, last] => four_edit(heap, name, id, at, count, last),
        _ => Ok(None),
    }
}

// What the words of a line say: a call, or nothing where there is no word.
pub fn parse_words(heap: Global, words: &[&str]) -> Result<Option<Edit>, Fault<NotACall>>
    ensures { Says result (line_of (map (λ x. x.now) words.now)) }
{
    if words.is_empty() {
        return Ok(None);
    }
    let edit = edit_of(heap, words)?.ok_or(Fault::Wrong(NotACall))?;
    Ok(Some(edit))
}

// What a line says: a call, or nothing where it has no word.
pub fn parse(heap: Global, line: &str) -> Result<Option<Edit>, Fault<NotACall>>
    ensures { Says result (line_of (words_of line.now)) }
{
    let words = words_of(heap, line)?;
    parse_words(heap, words.as_slice())
}
