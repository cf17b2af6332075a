//! The extent of a stream: where its chain starts, and how many bytes it has.

ghost use Rattle.links.specs.Links.{END};
ghost use Rattle.store.specs.Extents.{possible};
ghost use Rattle.std.specs.Prelude.{◌≡◌, true, false, MatchOption};

use links::consts::END_OF_CHAIN;

// A start with a length. With length 0 there is no start, which is END, and with any other length there is one.
#[derive(Clone, Copy)]
pub struct Extent {
    start: u32,
    length: u64,
    ghost can: { possible start length ≡ true },
}

impl Extent {
    // The extent of a start and a length, or nothing where there can be none.
    // Kept: an if. By `then` it was tried: that what the closure makes can be an extent stays open there (`invariant_of-result`).
    pub fn new(start: u32, length: u64) -> Option<Extent>
        ensures { MatchOption result (possible start length ≡ false) (λ e. (possible start length ≡ true) × (e.start ≡ start) × (e.length ≡ length)) }
    {
        if (start == END_OF_CHAIN) == (length == 0) {
            Some(Extent { start, length })
        } else {
            None
        }
    }

    // The extent of no bytes.
    pub fn empty() -> Extent
        ensures { (result.start ≡ END) × (result.length ≡ 0) }
    {
        Extent {
            start: END_OF_CHAIN,
            length: 0,
        }
    }

    pub fn start(self) -> u32
        ensures { result ≡ self.start }
    {
        self.start
    }

    pub fn length(self) -> u64
        ensures { result ≡ self.length }
    {
        self.length
    }
}
