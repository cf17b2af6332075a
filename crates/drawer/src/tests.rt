//! Entries and header words, and the edges of the chain calls, on a fresh drawer. The program has no call for the first.

use crate::Drawer;
use links::consts::END_OF_CHAIN;
use store::entries::{Entry, ObjType, Words};
use store::faults::Refusal;
use store::stores::{ChainStore, Host};

#[test]
fn fresh_entries_and_words(rt: HostRuntime) {
    let mut d = Drawer::new();
    assert_eq!(rt; d.entries(), 16);
    assert_eq!(rt; d.entry(0), Ok(Entry::empty(ObjType::Root)));
    assert_eq!(rt; d.entry(1), Ok(Entry::empty(ObjType::Stream)));
    assert_eq!(rt; d.entry(15), Ok(Entry::empty(ObjType::Stream)));
    assert_eq!(rt;
        d.words(),
        Words {
            start: END_OF_CHAIN,
            count: 0,
        }
    );
}

#[test]
fn an_id_past_the_entries(rt: HostRuntime) {
    let mut d = Drawer::new();
    assert_eq!(rt; d.entry(16), Err(Refusal::NoEntry.at(2, 16)));
    assert_eq!(rt;
        d.set_entry(0xffff_ffff, 1, 1),
        Err(Refusal::NoEntry.at(2, 0xffff_ffff))
    );
}

#[test]
fn one_entry_is_set_and_keeps_its_kind(rt: HostRuntime) {
    let mut d = Drawer::new();
    assert_eq!(rt; d.set_entry(0, 3, 64), Ok(()));
    assert_eq!(rt;
        d.entry(0),
        Ok(Entry {
            kind: ObjType::Root,
            start: 3,
            length: 64,
        })
    );
    assert_eq!(rt;
        d.entry(1),
        Ok(Entry::empty(ObjType::Stream)),
        "the next one is as it was"
    );
}

#[test]
fn words_are_set(rt: HostRuntime) {
    let mut d = Drawer::new();
    d.set_words(Words { start: 7, count: 2 });
    assert_eq!(rt; d.words(), Words { start: 7, count: 2 });
}

#[test]
fn old_bytes_do_not_show_again(rt: HostRuntime) {
    let mut d = Drawer::new();
    assert_eq!(rt; d.begin(1), Ok(0));
    assert_eq!(rt; d.write(0, 511, &[9]), Ok(()));
    assert_eq!(rt; d.free(0), Ok(()));
    assert_eq!(rt; d.begin(1), Ok(0), "the same unit");
    let mut byte = [5];
    assert_eq!(rt; d.read(0, 511, &mut byte), Ok(()));
    assert_eq!(rt; byte[0], 0);
}

#[test]
fn a_refused_read_leaves_the_buffer(rt: HostRuntime) {
    let mut d = Drawer::new();
    assert_eq!(rt; d.begin(1), Ok(0));
    let mut bytes = [5, 6];
    assert_eq!(rt; d.read(0, 511, &mut bytes), Err(Refusal::PastEnd.at(2, 0)));
    assert_eq!(rt; bytes[0], 5);
    assert_eq!(rt; bytes[1], 6);
}
