// The frames that were sent.
ghost use Rattle.std.specs.Prelude.{◌≡◌, length, option_copied};
ghost use Rattle.zy_world.specs.Shows.{Shows};
ghost use Rattle.zy_world_law.specs.World.{World as Whole, mail_at};

use crate::{Mail, World};
use zy_base::Machine;

impl<M: Machine> World<M> {
    /// How many frames were sent. They have the numbers from 1 to this one, in the order of their sending.
    pub fn sent(&self) -> u64
        ensures { (g : Whole M.State) → Shows g self.now → result ≡ length g.bag }
    {
        self.bag.mails.len() as u64
    }

    /// The frame of this number. `None` exactly for 0 and for a number above that of the last one.
    pub fn mail(&self, number: u64) -> Option<&Mail>
        ensures { (g : Whole M.State) → Shows g self.now → option_copied result ≡ mail_at g number }
    {
        self.bag.frame(number)
    }
}
