//! A link table as a text writes it, and which of its places are listed.

ghost use Rattle.calls.specs.Tables.{pushed, words_into, table_of, Reads, Stops, Lists, word_text, wrong_text, listing_text};
ghost use Rattle.links.specs.Held.{links_of};
ghost use Rattle.std.specs.Prelude.{◌≡◌, map, Some, Ok, Err, MatchResult, [], ◌∷◌, IsErr};

use crate::faults::Fault;
use links::LinkTable;
use links::consts::FREE_SECTOR;
use links::held::Links;
use links::walks::on_chain;
use script::lines::{lines_of, words_of};
use script::number_32;
use std::alloc::Global;
use std::fmt;

// Why a word does not go into a table.
#[derive(Clone, Copy, PartialEq, Eq, Debug)]
pub enum WordFault {
    NoLink,
    TooMany,
}

impl fmt::Display for WordFault {
    ghost output = { λ f. Some (word_text f) };

    fn fmt<W: fmt::Write>(&self, f: &mut fmt::Formatter<W>) -> fmt::Result {
        match self {
            WordFault::NoLink => write!(f, "no link: write a number below 2^32, END or FREE"),
            WordFault::TooMany => write!(f, "one link too many: a table has at most 4096"),
        }
    }
}

// A word that does not go into a table, in a line that is counted from 1.
#[derive(Debug, Drop)]
pub struct BadWord {
    pub line: u64,
    pub word: String,
    pub fault: WordFault,
}

impl fmt::Display for BadWord {
    ghost output = { λ b. Some (wrong_text b) };

    fn fmt<W: fmt::Write>(&self, f: &mut fmt::Formatter<W>) -> fmt::Result {
        let BadWord { line, word, fault } = self;
        write!(f, "line {line}: '{word}' is {fault}")
    }
}

// The link that the word says goes behind the others; or nothing is changed.
fn push_word(table: &mut Links, word: &str) -> Result<(), WordFault>
    ensures { let due = pushed word.now (links_of table.old) in MatchResult result (λ _. due ≡ Ok (links_of table.new)) (λ f. (due ≡ Err f) × (links_of table.new ≡ links_of table.old)) }
{
    let link = number_32(word).ok_or(WordFault::NoLink)?;
    table.push(link).then_some(()).ok_or(WordFault::TooMany)
}

// The link that a word of a line says goes behind the others; or word and line are told, and nothing is changed. Memory is
// asked for only where the word does not go into the table.
pub fn read_word(
    heap: Global,
    table: &mut Links,
    line: u64,
    word: &str,
) -> Result<(), Fault<BadWord>>
    ensures { let due = words_into line (word.now ∷ []) (links_of table.old) in MatchResult result (λ _. due ≡ Ok (links_of table.new)) (λ f. Stops f due × (links_of table.new ≡ links_of table.old) × IsErr due) }
{
    // Kept: `map_err` cannot make this fault, whose word is copied and may find no memory.
    if let Err(fault) = push_word(table, word) {
        let word = String::from_str(heap, word)?;
        return Err(Fault::Wrong(BadWord { line, word, fault }));
    }
    Ok(())
}

// The links that the words of a line say go behind the others, up to one that does not.
fn read_words(
    heap: Global,
    table: &mut Links,
    line: u64,
    words: &[&str],
) -> Result<(), Fault<BadWord>>
    ensures { let due = words_into line (map (λ x. x.now) words.now) (links_of table.old) in MatchResult result (λ _. due ≡ Ok (links_of table.new)) (λ f. Stops f due) }
{
    for word in words {
        read_word(heap, table, line, word)?;
    }
    Ok(())
}

// The table that a text writes, line by line.
pub fn read_table(heap: Global, text: &str) -> Result<Links, Fault<BadWord>>
    ensures { Reads result (table_of text.now) }
{
    let lines = lines_of(heap, text)?;
    let mut table = Links::new();
    for (i, line) in lines.as_slice().iter().enumerate() {
        let words = words_of(heap, line)?;
        read_words(heap, &mut table, i as u64 + 1, words.as_slice())?;
    }
    Ok(table)
}

// The two lists of places that stand on no chain.
#[derive(Clone, Copy)]
pub enum Listing {
    Free,
    OnNoChain,
}

impl fmt::Display for Listing {
    ghost output = { λ l. Some (listing_text l) };

    fn fmt<W: fmt::Write>(&self, f: &mut fmt::Formatter<W>) -> fmt::Result {
        match self {
            Listing::Free => write!(f, "free"),
            Listing::OnNoChain => write!(f, "on no chain"),
        }
    }
}

impl Listing {
    pub fn holds(self, table: &Links, place: u32) -> bool
        ensures { Lists self (links_of table.now) place result }
    {
        let free = table.get(place) == Some(FREE_SECTOR);
        match self {
            Listing::Free => free,
            Listing::OnNoChain => !free && !on_chain(table, place),
        }
    }
}
