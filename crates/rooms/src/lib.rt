//! How far the table of a mini store can grow over a host.

#![tactic(auto)]

ghost use Rattle.std.specs.Prelude.{◌≡◌, ◌+◌, ◌-◌};
ghost use Rattle.rooms.specs.Rooms.{fits, growth, fats_needed, minis_needed, up};

// The host's unit in bytes, the links of the table, the root length in mini sectors, the sectors of the MiniFAT and of the
// mini stream, and the host's room.
#[derive(Clone, Copy)]
pub struct Ground {
    pub unit: u32,
    pub links: u32,
    pub root: u32,
    pub fats: u32,
    pub minis: u32,
    pub spare: u32,
}

// How many sectors are missing for `more` items besides `count`, where a sector holds `each` of them and `have` sectors are
// there. A sector that holds nothing counts as enough, as the division by 0 in the specification gives 0.
#[tactic(auto, using(crate::proofs::Rooms::ceil_up))]
fn missing(count: u32, more: u32, each: u32, have: u32) -> u64
    ensures { result ≡ up (count + more) each - have }
{
    if each == 0 {
        return 0;
    }
    let items = u64::from(count) + u64::from(more);
    items
        .div_ceil(u64::from(each))
        .saturating_sub(u64::from(have))
}

impl Ground {
    // The sectors that growing by `more` places adds to the MiniFAT.
    pub fn need_fats(self, more: u32) -> u64
        ensures { result ≡ fats_needed self more }
    {
        missing(self.links, more, self.unit / 4, self.fats)
    }

    // The sectors that growing by `more` places adds to the mini stream.
    pub fn need_minis(self, more: u32) -> u64
        ensures { result ≡ minis_needed self more }
    {
        missing(self.root, more, self.unit / 64, self.minis)
    }

    // Whether the table can grow by `more` places.
    pub fn fits(self, more: u32) -> bool
        ensures { result ≡ fits self more }
    {
        let need = self.need_fats(more) + self.need_minis(more);
        u64::from(self.links) + u64::from(more) <= 4096 && need <= u64::from(self.spare)
    }

    // The most places that the table can grow by. Each number below one that fits also fits, so bisection finds it, in at
    // most 13 tries.
    // Kept: a loop, as the library's bisection, `partition_point`, searches a slice, and here there is none.
    #[tactic(auto, using(crate::proofs::Rooms::bisected))]
    pub fn growth(self) -> u32
        ensures { result ≡ growth self }
    {
        let mut low = 0;
        let mut high = 4097;
        while low + 1 < high {
            let middle = (low + high) / 2;
            if self.fits(middle) {
                low = middle;
            } else {
                high = middle;
            }
        }
        low
    }
}
