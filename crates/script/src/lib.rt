//! The words of a script: numbers, and the names of two links.

#![tactic(auto)]

ghost use Rattle.script.specs.Words.{worth, more, numeral, number_of, short_of, byte_of, hashed};
ghost use Rattle.std.specs.Prelude.{◌≡◌, Some, fold};

pub mod lines;

// What a byte is worth as a hexadecimal digit, as each decimal digit is too.
fn digit(byte: u8) -> Option<u64>
    ensures { result ≡ worth byte }
{
    char::from(byte).to_digit(16).map(u64::from)
}

// The number with one digit more; nothing where the byte is no digit of the base, or the number too large.
fn push_digit(base: u64, number: u64, byte: u8) -> Option<u64>
    ensures { result ≡ more base (Some number) byte }
{
    let worth = digit(byte)?;
    if worth >= base {
        return None;
    }
    number.checked_mul(base)?.checked_add(worth)
}

// The number that digits of a base write; nothing for no digits, for another byte, and from 2^64 on.
fn digits(base: u64, text: &[u8]) -> Option<u64>
    ensures { result ≡ numeral base text.now }
{
    if text.is_empty() {
        return None;
    }
    text.iter()
        .try_fold(0, |number, byte| push_digit(base, number, *byte))
}

// The number that a word writes: in decimal, after 0x in hexadecimal, or END or FREE.
pub fn number(word: &str) -> Option<u64>
    ensures { result ≡ number_of word.now }
{
    match word {
        "END" => Some(0xffff_fffe),
        "FREE" => Some(0xffff_ffff),
        _ => match word.strip_prefix("0x") {
            Some(hex) => digits(16, hex.as_bytes()),
            None => digits(10, word.as_bytes()),
        },
    }
}

// The same of 32 bits: a link, a place or an id.
pub fn number_32(word: &str) -> Option<u32>
    ensures { result ≡ short_of word.now }
{
    u32::try_from(number(word)?).ok()
}

// The byte that two hexadecimal digits write.
pub fn hex_byte(high: u8, low: u8) -> Option<u8>
    ensures { result ≡ byte_of high low }
{
    Some((digit(high)? * 16 + digit(low)?) as u8)
}

// The 64-bit FNV-1a hash of bytes.
pub fn fnv(bytes: &[u8]) -> u64
    ensures { result ≡ fold hashed 0xcbf29ce484222325 bytes.now }
{
    bytes.iter().fold(0xcbf2_9ce4_8422_2325, |hash, byte| {
        (hash ^ u64::from(*byte)).wrapping_mul(0x100_0000_01b3)
    })
}
