//! A workbook over a drawer: what its calls answer one after the other.

use drawer::Drawer;
use minifat::Validation;
use std::alloc::AllocError;
use std::test::Fail;
use store::faults::{Fault, Refusal};
use workbook::Workbook;
use workbook::streams::Room;

// A workbook over a fresh drawer, opened.
fn fresh() -> Workbook<Drawer> {
    let mut book = Workbook::new(Drawer::new());
    let _ = book.open(Validation::Strict);
    book
}

// What the workbook refuses, with no fault below.
fn refused(refusal: Refusal, place: u32) -> Fault {
    Fault {
        refusal,
        layer: 4,
        place,
        lower: None,
    }
}

// Whether a stream is so long, and has one byte throughout between two places.
fn has(book: &mut Workbook<Drawer>, id: u32, len: u64, from: u64, to: u64, byte: u8) -> bool {
    let mut bytes = [byte; 9000];
    let count = to.saturating_sub(from).min(9000) as usize;
    let got = book.read(id, from, &mut bytes[..count]);
    book.len(id) == Ok(len) && got == Ok(count) && bytes.iter().all(|b| *b == byte)
}

#[test]
fn a_shut_one_refuses(rt: HostRuntime) {
    let mut book = Workbook::new(Drawer::new());
    assert_eq!(rt; book.len(1), Err(refused(Refusal::Shut, 0)));
    assert_eq!(rt;
        book.read(1, 0, &mut [0; 4]),
        Err(refused(Refusal::Shut, 0))
    );
    assert_eq!(rt; book.write(1, 0, &[1]), Err(refused(Refusal::Shut, 0)));
    assert_eq!(rt; book.resize(1, 1), Err(refused(Refusal::Shut, 0)));
    assert_eq!(rt; book.room(), Err(refused(Refusal::Shut, 0)));
    assert_eq!(rt; book.open(Validation::Permissive), Ok(()));
    assert_eq!(rt;
        book.room(),
        Ok(Room {
            host: 64,
            mini: 480
        })
    );
    // Again, as it is open.
    assert_eq!(rt; book.write(1, 0, &[1; 70]), Ok(()));
    assert_eq!(rt; book.open(Validation::Strict), Ok(()));
    assert_eq!(rt; book.open(Validation::Strict), Ok(()));
    assert!(rt; has(&mut book, 1, 70, 0, 70, 1));
    assert_eq!(rt;
        book.room(),
        Ok(Room {
            host: 62,
            mini: 478
        })
    );
}

#[test]
fn no_stream_has_such_an_id(rt: HostRuntime) {
    let mut book = fresh();
    let past = Fault {
        lower: Some(Refusal::NoEntry.at(2, 16)),
        ..refused(Refusal::NotStream, 16)
    };
    assert_eq!(rt; book.len(16), Err(past));
    assert_eq!(rt; book.write(16, 5, &[1]), Err(past));
    assert_eq!(rt; book.resize(16, 0x100_0001), Err(past));
    assert_eq!(rt; book.len(0), Err(refused(Refusal::NotStream, 0)));
    assert_eq!(rt; book.entry(16), Err(Refusal::NoEntry.at(2, 16)));
}

#[test]
fn what_a_stream_grows_by_is_zeros(rt: HostRuntime) {
    let mut book = fresh();
    // The mini sector holds other bytes before: the stream's own, and those of one that was there earlier.
    assert_eq!(rt; book.write(1, 0, &[7; 200]), Ok(()));
    assert_eq!(rt; book.resize(1, 0), Ok(()));
    assert_eq!(rt; book.write(2, 0, &[8; 64]), Ok(()));
    assert_eq!(rt; book.resize(2, 10), Ok(()));
    assert_eq!(rt; book.resize(2, 70), Ok(()));
    assert!(rt; has(&mut book, 2, 70, 0, 10, 8));
    assert!(rt; has(&mut book, 2, 70, 10, 70, 0));
    // In the host.
    assert_eq!(rt; book.write(3, 0, &[9; 5120]), Ok(()));
    assert_eq!(rt; book.resize(3, 4100), Ok(()));
    assert_eq!(rt; book.resize(3, 9000), Ok(()));
    assert!(rt; has(&mut book, 3, 9000, 0, 4100, 9));
    assert!(rt; has(&mut book, 3, 9000, 4100, 9000, 0));
}

#[test]
fn a_move_keeps_the_bytes(rt: HostRuntime) {
    let mut book = fresh();
    assert_eq!(rt; book.write(1, 0, &[5; 4095]), Ok(()));
    assert_eq!(rt;
        book.room(),
        Ok(Room {
            host: 64 - 1 - 8,
            mini: 416
        })
    );
    // Up: its mini sectors are free, the units that hold them stay.
    assert_eq!(rt; book.write(1, 4095, &[5; 2]), Ok(()));
    assert!(rt; has(&mut book, 1, 4097, 0, 4097, 5));
    assert_eq!(rt;
        book.room(),
        Ok(Room {
            host: 64 - 1 - 8 - 9,
            mini: 408
        })
    );
    assert_eq!(rt; book.links().len(), 0);
    // Down, and up behind what was kept.
    assert_eq!(rt; book.resize(1, 65), Ok(()));
    assert!(rt; has(&mut book, 1, 65, 0, 65, 5));
    assert_eq!(rt;
        book.room(),
        Ok(Room {
            host: 64 - 1 - 8,
            mini: 478
        })
    );
    assert_eq!(rt; book.links().len(), 2);
    assert_eq!(rt; book.resize(1, 4096), Ok(()));
    assert!(rt; has(&mut book, 1, 4096, 0, 65, 5));
    assert!(rt; has(&mut book, 1, 4096, 65, 4096, 0));
}

#[test]
fn a_refused_call_changes_nothing(rt: HostRuntime) -> Result<(), Fail> {
    let mut book = fresh();
    let _ = book.write(1, 0, &[1; 100]);
    let _ = book.write(2, 0, &[2; 5000]);
    let room = book.room();
    let words = book.header();
    let links = book.links().to_vec(rt.alloc())?;
    assert_eq!(rt;
        book.write(1, 101, &[3]),
        Err(refused(Refusal::PastLength, 1))
    );
    assert_eq!(rt;
        book.resize(1, 0x100_0001),
        Err(refused(Refusal::TooLong, 1))
    );
    assert_eq!(rt; book.resize(1, 40_000), Err(refused(Refusal::NoRoom, 1)));
    assert_eq!(rt; book.resize(2, 40_000), Err(refused(Refusal::NoRoom, 2)));
    assert_eq!(rt;
        book.write(2, 5001, &[]),
        Err(refused(Refusal::PastLength, 2))
    );
    let mut bytes = [9; 4];
    assert!(rt; book.read(16, 0, &mut bytes).is_err());
    assert_eq!(rt; bytes, [9; 4]);
    assert_eq!(rt; book.room(), room);
    assert_eq!(rt; book.header(), words);
    assert_eq!(rt; book.links(), links.as_slice());
    assert!(rt; has(&mut book, 1, 100, 0, 100, 1));
    assert!(rt; has(&mut book, 2, 5000, 0, 5000, 2));
    Ok(())
}

#[test]
fn a_write_of_nothing(rt: HostRuntime) {
    let mut book = fresh();
    assert_eq!(rt; book.write(1, 0, &[]), Ok(()));
    assert_eq!(rt; book.len(1), Ok(0));
    assert_eq!(rt; book.write(1, 0, &[1; 64]), Ok(()));
    assert_eq!(rt; book.write(1, 64, &[]), Ok(()));
    assert_eq!(rt;
        book.write(1, 65, &[]),
        Err(refused(Refusal::PastLength, 1))
    );
    assert!(rt; has(&mut book, 1, 64, 0, 64, 1));
    assert_eq!(rt;
        book.room(),
        Ok(Room {
            host: 62,
            mini: 479
        })
    );
    assert_eq!(rt; book.read(1, 64, &mut [0; 1]), Ok(0));
    assert_eq!(rt; book.read(1, 0, &mut []), Ok(0));
}

// Makes streams of one length until one is refused; answers its id.
fn fill(book: &mut Workbook<Drawer>, len: u64) -> u32 {
    for id in 1..16 {
        if book.resize(id, len) == Err(refused(Refusal::NoRoom, id)) {
            return id;
        }
    }
    16
}

fn empty(book: &mut Workbook<Drawer>) {
    for id in 1..16 {
        let _ = book.resize(id, 0);
    }
}

#[test]
fn a_drawer_filled_and_emptied(rt: HostRuntime) {
    let mut book = fresh();
    assert_eq!(rt; fill(&mut book, 4096), 9, "eight streams of eight units");
    assert_eq!(rt; book.room(), Ok(Room { host: 0, mini: 0 }));
    empty(&mut book);
    assert_eq!(rt;
        book.room(),
        Ok(Room {
            host: 64,
            mini: 480
        })
    );
    // What small streams took stays with MiniFAT and mini stream.
    assert_eq!(rt;
        fill(&mut book, 4095),
        8,
        "seven streams of 64 mini sectors"
    );
    assert_eq!(rt; book.room(), Ok(Room { host: 4, mini: 32 }));
    assert_eq!(rt; book.resize(8, 2048), Ok(()));
    assert_eq!(rt; book.room(), Ok(Room { host: 0, mini: 0 }));
    empty(&mut book);
    assert_eq!(rt; book.room(), Ok(Room { host: 0, mini: 480 }));
    assert_eq!(rt; book.links().len(), 0);
    assert_eq!(rt; book.header().count, 4);
}

// A stream, and beside it a plain copy of its bytes.
#[derive(Drop)]
struct Copied {
    id: u32,
    copy: Vec<u8>,
}

impl Copied {
    // Another length, by a number, for both.
    fn resize(&mut self, book: &mut Workbook<Drawer>, number: u32) -> Result<bool, AllocError> {
        let len = number % 6000;
        self.copy.resize(len as usize, 0)?;
        Ok(book.resize(self.id, u64::from(len)) == Ok(()))
    }

    // So many bytes for both, at a place by a number.
    fn write(
        &mut self,
        book: &mut Workbook<Drawer>,
        number: u32,
        src: &[u8],
    ) -> Result<bool, AllocError> {
        let len = self.copy.len();
        let at = (number as usize).min(len);
        let end = at.saturating_add(src.len());
        self.copy.resize(len.max(end), 0)?;
        for (to, from) in self.copy.iter_mut().skip(at).zip(src) {
            *to = *from;
        }
        Ok(book.write(self.id, at as u64, src) == Ok(()))
    }

    // Whether both have the same bytes.
    fn is_same(&self, book: &mut Workbook<Drawer>) -> bool {
        let mut bytes = [0; 9000];
        let got = book.read(self.id, 0, &mut bytes);
        got == Ok(self.copy.len()) && bytes.starts_with(self.copy.as_slice())
    }
}

#[test]
fn two_streams_beside_each_other(rt: HostRuntime) -> Result<(), Fail> {
    let mut book = fresh();
    let mut one = Copied {
        id: 1,
        copy: Vec::new(rt.alloc()),
    };
    let mut other = Copied {
        id: 2,
        copy: Vec::new(rt.alloc()),
    };
    let mut number: u32 = 1;
    for step in 0..60u8 {
        number = number.wrapping_mul(1_103_515_245).wrapping_add(12345);
        let stream = if step % 2 == 0 { &mut one } else { &mut other };
        let drawn = number / 65536;
        let accepted = if drawn % 3 == 0 {
            stream.resize(&mut book, drawn / 3)?
        } else {
            let src = [step + 1; 1500];
            stream.write(&mut book, drawn % 7000, &src[..(drawn % 1501) as usize])?
        };
        assert!(rt; accepted, "at step {step}");
        assert!(rt;
            one.is_same(&mut book) && other.is_same(&mut book),
            "at step {step}"
        );
    }
    Ok(())
}
