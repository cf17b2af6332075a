//! A mini store over a drawer, and what its calls leave in the drawer: header words and root entry.

use crate::minis::fresh;
use drawer::Drawer;
use minialloc::MiniStore;
use minifat::Validation;
use store::entries::{Entry, ObjType, Words};
use store::faults::Refusal;

// The mini store as it is when it is shut and opened again: its stack is filled anew.
fn reopened(mut store: MiniStore<Drawer>) -> MiniStore<Drawer> {
    store.shut();
    if let Ok(table) = store.read_table(Validation::Strict) {
        store.install(table);
    }
    store
}

// Five chains of one mini sector, and the second and fourth removed: END FREE END FREE END.
fn with_gaps(first: u32, second: u32) -> MiniStore<Drawer> {
    let mut store = fresh();
    for _ in 0..5 {
        let _ = store.begin_mini_chain(1);
    }
    let _ = store.free_mini_chain(first);
    let _ = store.free_mini_chain(second);
    store
}

#[test]
fn a_fresh_drawer_opens(rt: HostRuntime) {
    let mut store = fresh();
    assert!(rt; store.is_open());
    assert_eq!(rt; store.mini_room(), 480);
    assert_eq!(rt; store.host_room(), 64);
    store.shut();
    assert!(rt; !store.is_open());
    assert_eq!(rt; store.mini_room(), 0);
    assert_eq!(rt; store.begin_mini_chain(1), Err(Refusal::NoRoom.at(3, 0)));
}

#[test]
fn gaps_are_taken_from_the_last_that_was_freed(rt: HostRuntime) {
    let mut store = with_gaps(1, 3);
    assert_eq!(rt; store.begin_mini_chain(1), Ok(3));
    assert_eq!(rt; store.begin_mini_chain(1), Ok(1));
    assert_eq!(rt; store.begin_mini_chain(1), Ok(5));
    let mut store = with_gaps(3, 1);
    assert_eq!(rt; store.begin_mini_chain(1), Ok(1));
    assert_eq!(rt; store.begin_mini_chain(1), Ok(3));
    assert_eq!(rt; store.begin_mini_chain(1), Ok(5));
}

#[test]
fn gaps_are_taken_from_the_highest_after_opening(rt: HostRuntime) {
    let mut store = reopened(with_gaps(3, 1));
    assert_eq!(rt; store.begin_mini_chain(1), Ok(3));
    assert_eq!(rt; store.begin_mini_chain(1), Ok(1));
    assert_eq!(rt; store.begin_mini_chain(1), Ok(5));
}

#[test]
fn two_mini_sectors_freed_and_taken_again(rt: HostRuntime) {
    let mut store = fresh();
    assert_eq!(rt; store.begin_mini_chain(2), Ok(0));
    assert_eq!(rt; store.begin_mini_chain(1), Ok(2));
    assert_eq!(rt; store.write_mini_chain(0, 62, &[1, 2, 3, 4]), Ok(()));
    assert_eq!(rt; store.free_mini_chain(0), Ok(()));
    // From the head on: 0, then 1, which is taken first.
    assert_eq!(rt; store.begin_mini_chain(2), Ok(1));
    assert_eq!(rt; store.mini_units(0), Err(Refusal::NotHead.at(3, 0)));
    let mut bytes = [9; 4];
    assert_eq!(rt; store.read_mini_chain(1, 62, &mut bytes), Ok(()));
    assert_eq!(rt; bytes, [0; 4]);
    // The second of the chain is the mini sector that was the head.
    assert_eq!(rt; store.write_mini_chain(1, 64, &[5]), Ok(()));
    assert_eq!(rt; store.host_read(1, 0, &mut bytes), Ok(()));
    assert_eq!(rt; bytes, [5, 0, 0, 0]);
}

#[test]
fn a_table_past_128_links_and_back(rt: HostRuntime) {
    let mut store = fresh();
    assert_eq!(rt; store.begin_mini_chain(128), Ok(0));
    assert_eq!(rt; store.words(), Words { start: 0, count: 1 });
    assert_eq!(rt; store.host_room(), 64 - 1 - 16);
    assert_eq!(rt; store.extend_mini_chain(0, 1), Ok(()));
    assert_eq!(rt; store.words(), Words { start: 0, count: 2 });
    assert_eq!(rt; store.host_room(), 64 - 2 - 17);
    assert_eq!(rt;
        store.entry(0),
        Ok(Entry {
            kind: ObjType::Root,
            start: 1,
            length: 129 * 64,
        })
    );
    assert_eq!(rt; store.cut_mini_chain(0, 128), Ok(()));
    assert_eq!(rt;
        store.entry(0),
        Ok(Entry {
            kind: ObjType::Root,
            start: 1,
            length: 128 * 64,
        })
    );
    // Neither sector goes, and neither is added again.
    assert_eq!(rt; store.words(), Words { start: 0, count: 2 });
    assert_eq!(rt; store.host_room(), 64 - 2 - 17);
    assert_eq!(rt; store.extend_mini_chain(0, 1), Ok(()));
    assert_eq!(rt; store.words(), Words { start: 0, count: 2 });
    assert_eq!(rt; store.host_room(), 64 - 2 - 17);
    assert_eq!(rt; store.mini_units(0), Ok(129));
}

#[test]
fn a_drawer_filled_and_emptied(rt: HostRuntime) {
    let mut store = fresh();
    assert_eq!(rt; store.begin_mini_chain(480), Ok(0));
    assert_eq!(rt; store.mini_room(), 0);
    assert_eq!(rt; store.host_room(), 0);
    assert_eq!(rt; store.begin_mini_chain(1), Err(Refusal::NoRoom.at(3, 0)));
    assert_eq!(rt;
        store.extend_mini_chain(0, 1),
        Err(Refusal::NoRoom.at(3, 0))
    );
    assert_eq!(rt;
        store.write_mini_chain(0, 479 * 64 + 60, &[1, 2, 3, 4]),
        Ok(())
    );
    assert_eq!(rt; store.free_mini_chain(0), Ok(()));
    assert_eq!(rt; store.mini_room(), 480);
    assert_eq!(rt;
        store.entry(0),
        Ok(Entry {
            kind: ObjType::Root,
            start: 4,
            length: 0,
        })
    );
    assert_eq!(rt; store.words(), Words { start: 0, count: 4 });
    let mut store = reopened(store);
    assert_eq!(rt; store.mini_room(), 480);
    assert_eq!(rt; store.begin_mini_chain(480), Ok(0));
    let mut bytes = [9; 4];
    assert_eq!(rt; store.read_mini_chain(0, 479 * 64 + 60, &mut bytes), Ok(()));
    assert_eq!(rt; bytes, [0; 4]);
}
