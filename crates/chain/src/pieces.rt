//! Copying at an offset of a chain, split into pieces that lie in one unit. Drawer, file and mini store read and write
//! their chains by this text and by no other.

ghost use Rattle.std.specs.Prelude.{◌≡◌, ℕ, ◌+◌, ◌*◌, ◌^◌, ◌<◌, ◌≤◌, length, take, drop, slice_index, nat_le};
ghost use Rattle.chain.specs.Units.{View, Whole, cell, content, put, at_start, On, piece, done_by, Moved, Wrote};

// Units of one size, each on a chain or on none. Its calls are made by the functions below alone.
pub trait Units {
    ghost view: { Self → View };

    // What the units rest on.
    // Kept: a clause. A view that borrows host and table, with this as ghost field, was tried: a generic function that is
    // lent it must then promise that it still holds those borrows (`shape_of-self` stays open), so a clause stands there.
    ghost sound: { Self → Type 0 };

    ghost whole: { (s : Self) → sound s → Whole (view s) };

    // The size of a unit in bytes.
    fn unit_len(&self) -> usize
        ensures { result ≡ (view self.now).unit };

    // The place behind the one at this rank of the head's chain, where there is one.
    fn next(&mut self, head: u32, place: u32, rank: usize) -> u32
        requires sound { sound self.old }
        requires here { place ≡ slice_index ((view self.old).path head) rank }
        requires more { rank + 1 < length ((view self.old).path head) }
        ensures next { result ≡ slice_index ((view self.old).path head) (rank + 1) }
        ensures same { view self.new ≡ view self.old }
        ensures sound { sound self.new };

    // Reads from a unit.
    fn read_unit(&mut self, place: u32, at: usize, out: &mut [u8])
        requires sound { sound self.old }
        requires unit { place * (view self.old).unit + (view self.old).unit ≤ length (view self.old).bytes }
        requires inside { at + length out.old ≤ (view self.old).unit }
        ensures read { out.new ≡ take (length out.old) (drop at (cell (view self.old).unit (view self.old).bytes place)) }
        ensures same { view self.new ≡ view self.old }
        ensures sound { sound self.new };

    // Writes into a unit.
    fn write_unit(&mut self, place: u32, at: usize, src: &[u8])
        requires sound { sound self.old }
        requires unit { place * (view self.old).unit + (view self.old).unit ≤ length (view self.old).bytes }
        requires inside { at + length src.now ≤ (view self.old).unit }
        ensures put { view self.new ≡ put (view self.old) place at src.now }
        ensures sound { sound self.new };
}

// The part of a copy that lies in one unit: the unit and the offset in it, and which bytes of the buffer it is.
#[derive(Drop)]
struct Piece {
    place: u32,
    off: usize,
    from: usize,
    to: usize,
}

// How far a copy along a chain has come: from which offset on, the unit that it is at, and the bytes done.
#[derive(Clone, Copy)]
pub struct Cursor {
    head: u32,
    at: usize,
    place: u32,
    rank: usize,
    done: usize,
}

impl Cursor {
    // At the head, with nothing done.
    fn new(head: u32, at: usize) -> Cursor
        ensures { result ≡ at_start head at }
    {
        Cursor {
            head,
            at,
            place: head,
            rank: 0,
            done: 0,
        }
    }

    // On to the unit where the next byte lies: the piece there of a copy of so many bytes, or nothing where all are done.
    fn next_piece<S: Units>(&mut self, s: &mut S, total: usize) -> Option<Piece>
        requires sound { S.Units.sound s.old }
        requires on { On (S.Units.view s.old) self.old }
        requires whole { self.old.at + total ≤ length (content (S.Units.view s.old) self.old.head) }
        requires fits { self.old.at + total < 2 ^ 32 }
        ensures sound { S.Units.sound s.new }
        ensures same { S.Units.view s.new ≡ S.Units.view s.old }
        ensures told { result ≡ piece (S.Units.view s.old) self.old total }
        ensures moved { Moved (S.Units.view s.old) self.old self.new (done_by self.old result) }
    {
        if self.done >= total {
            return None;
        }
        let unit = s.unit_len();
        let next = self.at + self.done;
        for rank in self.rank..next / unit {
            self.place = s.next(self.head, self.place, rank);
        }
        self.rank = next / unit;
        let off = next % unit;
        let from = self.done;
        self.done += (unit - off).min(total - from);
        Some(Piece {
            place: self.place,
            off,
            from,
            to: self.done,
        })
    }
}

// Whether so many bytes from an offset on lie within a chain of so many bytes.
pub fn within(long: u64, at: u64, count: usize) -> bool
    ensures { result ≡ nat_le (at + count) long }
{
    count as u64 <= long && at <= long - count as u64
}

// Fills the buffer with the bytes of a chain from an offset on. Called by the stores, once they have seen that the chain
// has these bytes.
pub fn read_chain<S: Units>(s: &mut S, head: u32, at: usize, out: &mut [u8])
    requires sound { S.Units.sound s.old }
    requires whole { at + length out.old ≤ length (content (S.Units.view s.old) head) }
    requires fits { at + length out.old < 2 ^ 32 }
    ensures sound { S.Units.sound s.new }
    ensures same { S.Units.view s.new ≡ S.Units.view s.old }
    ensures read { out.new ≡ take (length out.old) (drop at (content (S.Units.view s.old) head)) }
{
    let mut c = Cursor::new(head, at);
    while let Some(p) = c.next_piece(s, out.len()) {
        s.read_unit(p.place, p.off, &mut out[p.from..p.to]);
    }
}

// Lays bytes over those of a chain from an offset on. Called by the stores, once they have seen that the chain has these
// bytes.
pub fn write_chain<S: Units>(s: &mut S, head: u32, at: usize, src: &[u8])
    requires sound { S.Units.sound s.old }
    requires whole { at + length src.now ≤ length (content (S.Units.view s.old) head) }
    requires fits { at + length src.now < 2 ^ 32 }
    ensures sound { S.Units.sound s.new }
    ensures wrote { Wrote (S.Units.view s.old) (S.Units.view s.new) head at src.now }
{
    let mut c = Cursor::new(head, at);
    while let Some(p) = c.next_piece(s, src.len()) {
        s.write_unit(p.place, p.off, &src[p.from..p.to]);
    }
}
