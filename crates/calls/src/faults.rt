//! Why a text is not read: something in it is wrong, or there was no memory.

ghost use Rattle.calls.specs.Faults.{fault_text};
ghost use Rattle.calls.specs.declared.faults.Fault.TheVariants.{Memory};
ghost use Rattle.std.specs.Prelude.{◌≡◌};

use std::alloc::AllocError;
use std::error::Error;
use std::fmt;

// What is wrong with a text, or that there was no memory to read it.
#[derive(Debug, Drop)]
pub enum Fault<E> {
    Wrong(E),
    Memory(AllocError),
}

impl<E: fmt::Display> fmt::Display for Fault<E> {
    ghost output = { fault_text E.output };

    fn fmt<W: fmt::Write>(&self, f: &mut fmt::Formatter<W>) -> fmt::Result {
        match self {
            Fault::Wrong(wrong) => write!(f, "{wrong}"),
            Fault::Memory(error) => write!(f, "{error}"),
        }
    }
}

impl<E: fmt::Debug + fmt::Display + Drop> Error for Fault<E> {}

impl<E> From<AllocError> for Fault<E> {
    ghost from_gives = { λ e r. r ≡ Memory e };

    fn from(error: AllocError) -> Fault<E> {
        Fault::Memory(error)
    }
}
