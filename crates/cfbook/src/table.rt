//! `cfbook links`: reads a link table and prints what the check and the walks tell of it.

use calls::tables::{Listing, read_word};
use links::LinkTable;
use links::checks::check;
use links::held::Links;
use links::walks::units;
use std::alloc::Global;
use std::{fmt, iter};

// A table, to be printed as what the check and the walks tell of it.
#[derive(Drop)]
struct Report<'a>(&'a Links);

// The places that a listing holds, rising.
fn show_listing<W: fmt::Write>(
    listing: Listing,
    table: &Links,
    f: &mut fmt::Formatter<W>,
) -> fmt::Result {
    write!(f, "{listing}:")?;
    let mut places = (0..table.count())
        .filter(|place| listing.holds(table, *place))
        .peekable();
    if places.peek().is_none() {
        write!(f, " none")?;
    }
    for place in places {
        write!(f, " {place}")?;
    }
    writeln!(f)
}

// The chain of a head: its places in order.
fn show_chain<W: fmt::Write>(
    table: &Links,
    head: u32,
    count: u32,
    f: &mut fmt::Formatter<W>,
) -> fmt::Result {
    write!(f, "chain {head}:")?;
    for place in iter::successors(Some(head), |place| table.get(*place)).take(count as usize) {
        write!(f, " {place}")?;
    }
    writeln!(f)
}

fn show_links<W: fmt::Write>(table: &Links, f: &mut fmt::Formatter<W>) -> fmt::Result {
    let count = table.count();
    writeln!(f, "ok {count} links")?;
    for place in 0..count {
        if let Some(length) = units(table, place) {
            show_chain(table, place, length, f)?;
        }
    }
    show_listing(Listing::Free, table, f)?;
    show_listing(Listing::OnNoChain, table, f)
}

impl fmt::Display for Report<'_> {
    fn fmt<W: fmt::Write>(&self, f: &mut fmt::Formatter<W>) -> fmt::Result {
        match check(self.0) {
            Ok(()) => show_links(self.0, f),
            Err(fault) => writeln!(f, "{fault}"),
        }
    }
}

// The table that a text writes; a word that begins with # starts a comment.
// Kept: beside that of `calls`, as the program parts words at other white space too, and holds one word at a time. The words
// of a line are had by the same two steps as in `chains`: an iterator with a closure is no type that a function could answer.
fn read_table(heap: Global, text: &str) -> anyhow::Result<Links> {
    let mut table = Links::new();
    for (i, line) in text.lines().enumerate() {
        for word in line
            .split_whitespace()
            .take_while(|word| !word.starts_with('#'))
        {
            read_word(heap, &mut table, i as u64 + 1, word)?;
        }
    }
    Ok(table)
}

pub fn run(rt: &HostRuntime, text: &str) -> anyhow::Result<()> {
    let table = read_table(rt.alloc(), text)?;
    rt.print(Report(&table))?;
    Ok(())
}
