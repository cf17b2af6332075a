//! What a host notes beside its chains: entries and header words; and the extent of a stream.

ghost use Rattle.links.specs.Links.{END};
ghost use Rattle.std.specs.Cmp.{on_per, on_equiv, partial_equiv_from_equiv, nat_eq_equiv};
ghost use Rattle.std.specs.Prelude.{◌≡◌, ◌==◌, nat_eq};
ghost use Rattle.store.specs.Kinds.{kind_of, byte_of};

use links::consts::END_OF_CHAIN;

// What kind of object an entry is. A damaged image can have a byte there that stands for none of the four; it is kept.
#[derive(Clone, Copy, Debug)]
pub enum ObjType {
    Unallocated,
    Storage,
    Stream,
    Root,
    Unknown(u8),
}

impl ObjType {
    // Whether it is the root's, by the byte that it stands for.
    pub fn is_root(self) -> bool
        ensures { result ≡ (byte_of self == 5) }
    {
        u8::from(self) == 5
    }

    // Whether it is a stream's, by the byte that it stands for.
    pub fn is_stream(self) -> bool
        ensures { result ≡ (byte_of self == 2) }
    {
        u8::from(self) == 2
    }
}

// By the byte that they stand for, as it is all that a host keeps of them.
impl PartialEq for ObjType {
    ghost eq = { λ a b. nat_eq (byte_of a) (byte_of b) };

    ghost laws = { on_per byte_of (partial_equiv_from_equiv nat_eq_equiv) };

    fn eq(&self, other: &ObjType) -> bool {
        u8::from(*self) == u8::from(*other)
    }
}

impl Eq for ObjType {
    ghost laws = { on_equiv byte_of nat_eq_equiv };
}

impl From<u8> for ObjType {
    ghost from_gives = { λ b r. r ≡ kind_of b };

    fn from(byte: u8) -> ObjType {
        match byte {
            0 => ObjType::Unallocated,
            1 => ObjType::Storage,
            2 => ObjType::Stream,
            5 => ObjType::Root,
            other => ObjType::Unknown(other),
        }
    }
}

impl From<ObjType> for u8 {
    ghost from_gives = { λ k r. r ≡ byte_of k };

    fn from(kind: ObjType) -> u8 {
        match kind {
            ObjType::Unallocated => 0,
            ObjType::Storage => 1,
            ObjType::Stream => 2,
            ObjType::Root => 5,
            ObjType::Unknown(byte) => byte,
        }
    }
}

// A directory entry: what kind of object it is, where it starts, and how long it is.
#[derive(Clone, Copy, PartialEq, Eq, Debug)]
pub struct Entry {
    pub kind: ObjType,
    pub start: u32,
    pub length: u64,
}

impl Entry {
    // An entry of no bytes.
    pub fn empty(kind: ObjType) -> Entry
        ensures { result ≡ record { kind = kind; start = END; length = 0 } }
    {
        Entry {
            kind,
            start: END_OF_CHAIN,
            length: 0,
        }
    }
}

// The header words: where the MiniFAT starts, and how many sectors it has.
#[derive(Clone, Copy, PartialEq, Eq, Debug)]
pub struct Words {
    pub start: u32,
    pub count: u32,
}
