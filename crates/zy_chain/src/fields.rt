ghost use Rattle.zy_chain.specs.Entries.{IsEntryInRange};
ghost use Rattle.zy_chain.specs.Fields.{entry_fields, entry-exact, entry-in_range};

use crate::Entry;
use std::alloc::Global;
use zy_base::{Bytes, ClientId, Stamp, Want};
use zy_wire::{Cut, GetFault, Put, Spelled};

impl Spelled for Entry {
    ghost spelling = { entry_fields };

    ghost in_range = { IsEntryInRange };

    ghost exact = { entry-exact };

    ghost fits_in_range = { entry-in_range };

    #[tactic(auto, unfolding(crate::specs::Fields::entry_fields))]
    fn put(&self, out: &mut Put) -> Result<(), Want> {
        out.u32(self.client.0)?;
        out.u64(self.stamp.0)?;
        out.bytes16(self.op.as_slice())
    }

    #[tactic(auto, unfolding(crate::specs::Fields::entry_fields))]
    fn get(alloc: Global, cut: &mut Cut<'_>) -> Result<Entry, GetFault> {
        let mut ahead = cut.ahead();
        let entry = Entry {
            client: ClientId(ahead.u32()?),
            stamp: Stamp(ahead.u62(0)?),
            op: Bytes::from_slice(alloc, ahead.bytes16(1100)?)?,
        };
        *cut = ahead;
        Ok(entry)
    }
}
