//! What a line of a script says.
//!
//! begin COUNT, extend HEAD COUNT, cut HEAD COUNT, free HEAD, units HEAD, room, read HEAD OFFSET COUNT, write HEAD OFFSET
//! HEX. HEX is `-` for no bytes.

ghost use Rattle.calls.specs.Scripts.{alone, one, two, reading, writing, three, call_of, line_of, asked, Says, wrong_text};
ghost use Rattle.script.specs.Words.{short_of, number_of};
ghost use Rattle.script.specs.Lines.{bytes_of, words_of};
ghost use Rattle.std.specs.Option.{option_map};
ghost use Rattle.std.specs.Prelude.{◌≡◌, map, IfOk, vec_items, Some};

use crate::faults::Fault;
use script::lines::{bytes_of, words_of};
use script::{number, number_32};
use std::alloc::{AllocError, Global};
use std::fmt;

// A call against a chain store.
#[derive(Drop)]
pub enum Call {
    Begin(u32),
    Extend(u32, u32),
    Cut(u32, u32),
    Free(u32),
    Units(u32),
    Room,
    Read(u32, u64, u64),
    Write(u32, u64, Vec<u8>),
}

// Words that are no call.
#[derive(Debug, Drop)]
pub struct NotACall;

impl fmt::Display for NotACall {
    ghost output = { λ w. Some (wrong_text w) };

    fn fmt<W: fmt::Write>(&self, f: &mut fmt::Formatter<W>) -> fmt::Result {
        write!(f, "not a chain call")
    }
}

// A name alone.
fn name_call(name: &str) -> Option<Call>
    ensures { option_map asked result ≡ alone name.now }
{
    match name {
        "room" => Some(Call::Room),
        _ => None,
    }
}

// A name with a head or a count.
fn one_call(name: &str, first: &str) -> Option<Call>
    ensures { option_map asked result ≡ one name.now (short_of first.now) }
{
    let number = number_32(first)?;
    match name {
        "begin" => Some(Call::Begin(number)),
        "free" => Some(Call::Free(number)),
        "units" => Some(Call::Units(number)),
        _ => None,
    }
}

// A name with a head and a count.
fn two_call(name: &str, first: &str, second: &str) -> Option<Call>
    ensures { option_map asked result ≡ two name.now (short_of first.now) (short_of second.now) }
{
    let (head, count) = (number_32(first)?, number_32(second)?);
    match name {
        "extend" => Some(Call::Extend(head, count)),
        "cut" => Some(Call::Cut(head, count)),
        _ => None,
    }
}

// The words behind `read`.
fn read_call(head: &str, at: &str, count: &str) -> Option<Call>
    ensures { option_map asked result ≡ reading (short_of head.now) (number_of at.now) (number_of count.now) }
{
    Some(Call::Read(number_32(head)?, number(at)?, number(count)?))
}

// The words behind `write`, the last as the bytes that it writes.
fn write_call(head: &str, at: &str, bytes: Option<Vec<u8>>) -> Option<Call>
    ensures { option_map asked result ≡ writing (short_of head.now) (number_of at.now) (option_map vec_items bytes) }
{
    Some(Call::Write(number_32(head)?, number(at)?, bytes?))
}

// A name with a head, an offset, and a count or bytes.
fn three_call(
    heap: Global,
    name: &str,
    head: &str,
    at: &str,
    third: &str,
) -> Result<Option<Call>, AllocError>
    ensures { IfOk result (λ c. option_map asked c ≡ three name.now head.now at.now third.now) }
{
    match name {
        "read" => Ok(read_call(head, at, third)),
        "write" => Ok(write_call(head, at, bytes_of(heap, third)?)),
        _ => Ok(None),
    }
}

// The call that words are.
fn call_of(heap: Global, words: &[&str]) -> Result<Option<Call>, AllocError>
    ensures { IfOk result (λ c. option_map asked c ≡ call_of (map (λ x. x.now) words.now)) }
{
    match words {
        [name] => Ok(name_call(name)),
        [name, first] => Ok(one_call(name, first)),
        [name, first, second] => Ok(two_call(name, first, second)),
        [name, head, at, third] => three_call(heap, name, head, at, third),
        _ => Ok(None),
    }
}

// What the words of a line say: a call, or nothing where there is no word.
pub fn parse_words(heap: Global, words: &[&str]) -> Result<Option<Call>, Fault<NotACall>>
    ensures { Says result (line_of (map (λ x. x.now) words.now)) }
{
    if words.is_empty() {
        return Ok(None);
    }
    let call = call_of(heap, words)?.ok_or(Fault::Wrong(NotACall))?;
    Ok(Some(call))
}

// What a line says: a call, or nothing where it has no word.
pub fn parse(heap: Global, line: &str) -> Result<Option<Call>, Fault<NotACall>>
    ensures { Says result (line_of (words_of line.now)) }
{
    let words = words_of(heap, line)?;
    parse_words(heap, words.as_slice())
}
