//! The edges: no link, one link, rings, shared and dangling pointers, a full table.

use crate::checks::LinkFault;
use crate::consts::{DIFAT_SECTOR, END_OF_CHAIN, FAT_SECTOR, FREE_SECTOR, INVALID_SECTOR};
use crate::held::Links;
use crate::stacked::Stacked;
use crate::walks::{Walked, is_head, place_at, units, walk};
use crate::{LinkTable, checks};
use std::test::Fail;

fn table(links: &[u32]) -> Links {
    let mut t = Links::new();
    for link in links {
        let _ = t.push(*link);
    }
    t
}

#[test]
fn empty(rt: HostRuntime) {
    let t = table(&[]);
    assert_eq!(rt; checks::check(&t), Ok(()));
    assert_eq!(rt; t.count(), 0);
    assert_eq!(rt; t.get(0), None);
    assert_eq!(rt; units(&t, 0), None);
    assert_eq!(rt; place_at(&t, 0, 0), None);
}

#[test]
fn one_link(rt: HostRuntime) {
    let t = table(&[END_OF_CHAIN]);
    assert_eq!(rt; checks::check(&t), Ok(()));
    assert!(rt; is_head(&t, 0));
    assert!(rt; !is_head(&t, 1));
    assert!(rt; !is_head(&t, END_OF_CHAIN));
    assert_eq!(rt; units(&t, 0), Some(1));
    assert_eq!(rt; place_at(&t, 0, 0), Some(0));
    assert_eq!(rt; place_at(&t, 0, 1), None);
}

#[test]
fn pointer_to_itself(rt: HostRuntime) {
    let t = table(&[0]);
    assert_eq!(rt;
        checks::check(&t),
        Ok(()),
        "a ring breaks no rule of the check"
    );
    assert!(rt; !is_head(&t, 0));
    assert_eq!(rt;
        walk(&t, 0, 7),
        Walked {
            places: 7,
            stop: 0,
            last: 0,
        }
    );
}

#[test]
fn shared_pointer(rt: HostRuntime) {
    let fault = LinkFault::Shared(1);
    assert_eq!(rt; checks::check(&table(&[2, 2, END_OF_CHAIN])), Err(fault));
    assert_eq!(rt; fault.number(), 7);
    assert_eq!(rt; fault.place(), 1);
}

#[test]
fn dangling_pointers(rt: HostRuntime) {
    let fault = LinkFault::Dangling(1);
    assert_eq!(rt;
        checks::check(&table(&[END_OF_CHAIN, 2])),
        Err(fault),
        "one past the end"
    );
    assert_eq!(rt;
        checks::check(&table(&[END_OF_CHAIN, 2, FREE_SECTOR])),
        Err(fault),
        "to a FREE link"
    );
    assert_eq!(rt; fault.number(), 6);
    assert_eq!(rt; fault.place(), 1);
}

#[test]
fn dangling_comes_before_shared(rt: HostRuntime) {
    assert_eq!(rt;
        checks::check(&table(&[2, 2, FREE_SECTOR])),
        Err(LinkFault::Dangling(0))
    );
    assert_eq!(rt;
        checks::check(&table(&[3, 3, 9, END_OF_CHAIN])),
        Err(LinkFault::Shared(1))
    );
}

#[test]
fn numbers_that_are_no_links(rt: HostRuntime) {
    let t = table(&[INVALID_SECTOR, DIFAT_SECTOR, FAT_SECTOR, 0]);
    assert_eq!(rt; checks::check(&t), Ok(()));
    assert!(rt; !is_head(&t, 0), "pointed to");
    assert!(rt; !is_head(&t, 1), "leads to no END");
    assert!(rt; !is_head(&t, 3), "leads to no END");
}

#[test]
fn set_and_get(rt: HostRuntime) {
    let mut t = table(&[END_OF_CHAIN, FREE_SECTOR]);
    assert!(rt; t.set(1, 0));
    assert!(rt; !t.set(2, 0));
    assert_eq!(rt; t.get(1), Some(0));
    assert_eq!(rt; t.get(2), None);
    assert_eq!(rt; units(&t, 1), Some(2));
    assert_eq!(rt; place_at(&t, 1, 1), Some(0));
    assert!(rt; !is_head(&t, 0));
}

#[test]
fn full_table_in_one_chain(rt: HostRuntime) {
    let mut t = Links::new();
    for place in 1..4096 {
        assert!(rt; t.push(place));
    }
    assert!(rt; t.push(END_OF_CHAIN));
    assert!(rt; !t.push(END_OF_CHAIN), "there are 4,096");
    assert_eq!(rt; checks::check(&t), Ok(()));
    assert_eq!(rt; units(&t, 0), Some(4096));
    assert_eq!(rt; place_at(&t, 0, 4095), Some(4095));
    assert_eq!(rt; place_at(&t, 0, 4096), None);
    assert!(rt; !is_head(&t, 4095));
}

#[test]
fn cloned(rt: HostRuntime) -> Result<(), Fail> {
    let t = table(&[2, END_OF_CHAIN]);
    let copy = t.clone()?;
    assert_eq!(rt; copy.count(), 2);
    assert_eq!(rt; copy.get(0), Some(2));
    assert_eq!(rt; copy.get(1), Some(END_OF_CHAIN));
    Ok(())
}

#[test]
fn shorter(rt: HostRuntime) {
    let mut t = table(&[5, 1, 7, 3]);
    assert_eq!(rt; t.pop(), Some(3));
    t.retain_below(7);
    assert_eq!(rt; t.count(), 2);
    assert_eq!(rt; t.get(1), Some(1));
    t.truncate(1);
    t.truncate(3);
    assert_eq!(rt; t.pop(), Some(5));
    assert_eq!(rt; t.pop(), None);
}

#[test]
fn taken_from_the_stack(rt: HostRuntime) -> Result<(), Fail> {
    let Ok(mut s) = Stacked::load(table(&[FREE_SECTOR, END_OF_CHAIN, FREE_SECTOR])) else {
        assert!(rt; false, "refused");
        return Ok(());
    };
    assert_eq!(rt; s.free(), 2);
    assert_eq!(rt; s.append(1), Some(2));
    assert_eq!(rt; s.append(1), None, "no longer the last");
    assert_eq!(rt; s.take(), Some(0));
    assert_eq!(rt; s.take(), Some(3), "one more link");
    assert_eq!(rt; units(s.links(), 1), Some(2));
    assert_eq!(rt; s.cut_off(1), Some(2));
    assert_eq!(rt; s.cut_off(4), None);
    assert_eq!(rt; units(s.links(), 2), Some(1));
    Ok(())
}

#[test]
fn trimmed(rt: HostRuntime) -> Result<(), Fail> {
    let Ok(mut s) = Stacked::load(table(&[FREE_SECTOR, END_OF_CHAIN, FREE_SECTOR, FREE_SECTOR]))
    else {
        assert!(rt; false, "refused");
        return Ok(());
    };
    assert_eq!(rt; s.trim(), 2);
    assert_eq!(rt; s.trim(), 0);
    assert_eq!(rt; s.free(), 1);
    assert_eq!(rt; s.take(), Some(0));
    assert_eq!(rt; s.take(), Some(2));
    Ok(())
}
