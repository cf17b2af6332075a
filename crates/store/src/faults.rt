//! What a refusal tells (docs/REFUSALS.md).

ghost use Rattle.links.specs.Check as check;
ghost use Rattle.std.specs.Prelude.{◌≡◌, Some};
ghost use Rattle.store.specs.Refusals.{number_of, place_text, fault_text, whole_text};

use links::checks::LinkFault;
use std::fmt;

// Why a call was refused, with the number of each refusal. The list is closed.
#[derive(Clone, Copy, PartialEq, Eq, Debug)]
pub enum Refusal {
    Shut = 1,
    NotStream = 2,
    PastLength = 3,
    TooLong = 4,
    NoRoom = 5,
    DanglingPointer = 6,
    SharedPointer = 7,
    TableOverRoot = 8,
    BadMinifat = 9,
    BadRoot = 10,
    BadStream = 11,
    SharedHead = 12,
    BadImage = 13,
    NotHead = 14,
    PastEnd = 15,
    BadCount = 16,
    NoEntry = 17,
}

impl Refusal {
    pub fn number(self) -> u8
        ensures { result ≡ number_of self }
    {
        self as u8
    }

    // The refusal of a store, by its layer, at a place.
    pub fn at(self, layer: u8, place: u32) -> StoreFault
        ensures { result ≡ record { refusal = self; layer = layer; place = place } }
    {
        StoreFault {
            refusal: self,
            layer,
            place,
        }
    }
}

// What the check of a table found, as a refusal.
impl From<LinkFault> for Refusal {
    ghost from_gives = { λ f r. number_of r ≡ check.number_of f };

    fn from(fault: LinkFault) -> Refusal {
        match fault {
            LinkFault::Dangling(_) => Refusal::DanglingPointer,
            LinkFault::Shared(_) => Refusal::SharedPointer,
        }
    }
}

// A store's fault: what was refused, the store's layer, and the place.
// Kept: the layer is a number, as hosts of other crates number their layers from 5 on.
#[derive(Clone, Copy, PartialEq, Eq, Debug)]
pub struct StoreFault {
    pub refusal: Refusal,
    pub layer: u8,
    pub place: u32,
}

// Number, layer and place of a store's fault, as both kinds of faults are printed with them.
#[derive(Clone, Copy)]
struct Place(StoreFault);

impl fmt::Display for Place {
    ghost output = { λ p. Some (place_text p.0) };

    fn fmt<W: fmt::Write>(&self, f: &mut fmt::Formatter<W>) -> fmt::Result {
        let number = self.0.refusal.number();
        let layer = self.0.layer;
        let place = self.0.place;
        write!(f, "{number} layer {layer} place {place}")
    }
}

impl fmt::Display for StoreFault {
    ghost output = { λ f. Some (fault_text f) };

    fn fmt<W: fmt::Write>(&self, f: &mut fmt::Formatter<W>) -> fmt::Result {
        let place = Place(*self);
        write!(f, "refused {place}")
    }
}

// The fault of a layer above: with it, whole, the store's fault that caused it, where one did.
// Kept: its own fields, as definitions name all four of them side by side, and what it tells is no store's fault.
#[derive(Clone, Copy, PartialEq, Eq, Debug)]
pub struct Fault {
    pub refusal: Refusal,
    pub layer: u8,
    pub place: u32,
    pub lower: Option<StoreFault>,
}

impl Fault {
    // The same cause, told as another refusal: that of the layer which it stopped.
    pub fn told_as(self, refusal: Refusal, layer: u8, place: u32) -> Fault
        ensures { result ≡ record { refusal = refusal; layer = layer; place = place; lower = self.lower } }
    {
        Fault {
            refusal,
            layer,
            place,
            ..self
        }
    }
}

impl fmt::Display for Fault {
    ghost output = { λ f. Some (whole_text f) };

    fn fmt<W: fmt::Write>(&self, f: &mut fmt::Formatter<W>) -> fmt::Result {
        let own = self.refusal.at(self.layer, self.place);
        match self.lower {
            None => write!(f, "{own}"),
            Some(lower) => {
                let cause = Place(lower);
                write!(f, "{own} by {cause}")
            }
        }
    }
}

// A store's fault carried up: it is told, and kept whole as the cause.
impl From<StoreFault> for Fault {
    ghost from_gives = { λ f r. r ≡ record { refusal = f.refusal; layer = f.layer; place = f.place; lower = Some f } };

    fn from(fault: StoreFault) -> Fault {
        Fault {
            refusal: fault.refusal,
            layer: fault.layer,
            place: fault.place,
            lower: Some(fault),
        }
    }
}
