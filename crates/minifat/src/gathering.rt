//! The links of a chain's bytes, gathered block by block.

ghost use Rattle.std.specs.Prelude.{◌≡◌, ◌*◌, take, fold};
ghost use Rattle.minifat.specs.Gathered.{gathering_of, gathering_in, none, added, gathered, due_blocks};
ghost use Rattle.minifat.specs.Table.{all_links};
ghost use Rattle.store.specs.Meaning.{bytes_of};
ghost use Rattle.store.specs.Refusals.{answer};

use links::LinkTable;
use links::consts::FREE_SECTOR;
use links::held::Links;
use store::faults::StoreFault;
use store::stores::ChainStore;

// What is read at once.
pub const BLOCK: u32 = 512;

// The first 4,096 links, and how many of all there are up to the last that is not FREE; 4,097 stands for all above.
// Kept: one number, as an Option would be made and taken apart at each link, for a test that stands once.
#[derive(Clone, Copy)]
pub struct Gathered {
    pub links: Links,
    pub used: u32,
}

impl Gathered {
    // No link.
    pub fn new() -> Gathered
        ensures { gathering_of result ≡ none }
    {
        Gathered {
            links: Links::new(),
            used: 0,
        }
    }

    // One link more. Past 4,096 it is only looked at.
    fn add(&mut self, link: u32)
        ensures { gathering_of self.new ≡ added (gathering_of self.old) link }
    {
        if link != FREE_SECTOR {
            self.used = self.links.count() + 1;
        }
        self.links.push(link);
    }

    // The links of a block of bytes more.
    pub fn add_block(&mut self, block: &[u8])
        ensures { gathering_of self.new ≡ fold added (gathering_of self.old) (all_links block.now) }
    {
        let (links, _) = block.as_chunks::<4>();
        for link in links {
            self.add(u32::from_le_bytes(*link));
        }
    }
}

// The links of the first so many blocks of a chain, or the store's refusal of a block.
pub fn gather<S: ChainStore>(store: &mut S, head: u32, blocks: u32) -> Result<Gathered, StoreFault>
    ensures told { gathering_in result ≡ answer (due_blocks (S.ChainStore.meaning store.old) S.ChainStore.LAYER head blocks) (gathered (all_links (take (blocks * 512) (bytes_of (S.ChainStore.meaning store.old) head)))) }
    ensures left { S.ChainStore.meaning store.new ≡ S.ChainStore.meaning store.old }
{
    let mut all = Gathered::new();
    for rank in 0..blocks {
        let mut block = [0; BLOCK as usize];
        store.read(head, u64::from(rank) * BLOCK as u64, &mut block)?;
        all.add_block(&block);
    }
    Ok(all)
}
