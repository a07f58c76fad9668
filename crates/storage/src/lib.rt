// How storage behaves, by the next byte of the strip: one insertion, one removal. An inner layer, not delivered: it is made of a table
// in order (Ordered), which the checks of a whole call have tested.
#![tactic(auto)]

ghost use Rattle.strips.specs.Strips.{byte_at};
ghost use Rattle.rules.specs.Table.{capacity};
ghost use Rattle.rules.specs.Storage.{insertion, removal};
ghost use Rattle.table.specs.Holding.{Ordered};

use rules::{Fault, Posting};
use strips::next_byte;
use table::{insert, remove};

// A lent table in order whose storage behaves by a strip: the list, how many postings it has, and the bytes that are left. Each step
// reads the first of them; past the end reads 0.
#[derive(Drop)]
pub struct Storage<'a, 's> {
    pub numbers: &'a mut [u32],
    pub used: usize,
    pub strip: &'s [u8],
    ghost ordered: { Ordered numbers.now used },
}

impl<'a, 's> Storage<'a, 's> {
    ghost use Rattle.storage.specs.Leaving.{holding, InsertionIn, RemovalIn};

    // Byte 0 inserts, or fails full where there is no room; byte 1 or 2 fails unchanged.
    #[tactic(auto, using(crate::proofs::Bytes::stored_is, crate::proofs::Bytes::full_is, crate::proofs::Bytes::clear_is, table::proofs::Keeping::carries_ordered, table::proofs::Keeping::carries_postings))]
    pub fn insert(&mut self, p: Posting) -> Result<(), Fault>
        ensures { InsertionIn (insertion (byte_at self.old.strip.now 0) (capacity self.old.numbers.now) p (holding self.old))
            result self.old self.new }
    {
        let byte = next_byte(&mut self.strip);
        if byte != 0 {
            return Err(Fault::Store);
        }
        if self.used == self.numbers.len() / 3 {
            return Err(Fault::Full);
        }
        self.used = insert(self.numbers, self.used, p);
        Ok(())
    }

    // Byte 0 removes; byte 1 fails unchanged; byte 2 fails with the posting gone.
    #[tactic(auto, using(crate::proofs::Bytes::kept_is, crate::proofs::Bytes::gone_is, table::proofs::Keeping::carries_ordered, table::proofs::Keeping::carries_postings))]
    pub fn remove(&mut self, p: Posting) -> Result<(), Fault>
        ensures { RemovalIn (removal (byte_at self.old.strip.now 0) p (holding self.old)) result self.old self.new }
    {
        let byte = next_byte(&mut self.strip);
        if byte != 1 {
            self.used = remove(self.numbers, self.used, p);
        }
        if byte == 0 { Ok(()) } else { Err(Fault::Store) }
    }
}
