//! What a step brings: the texts of the entries that it executed.

ghost use Rattle.std.specs.Prelude.{◌≡◌, ◌∷◌, [], OnOk, Err};
ghost use Rattle.std.specs.List.{AllByRecursion, flat_map};
ghost use Rattle.zy_base.specs.declared.ids.Digest.{Digest as Sum};
ghost use Rattle.zy_chain.specs.Entries.{IsEntryInRange};
ghost use Rattle.zy_world_law.specs.Texts.{got_texts, snapshot_texts};
ghost use Rattle.zy_world_setup.specs.Kept.{Keeps, Clashes};
ghost use Rattle.zy_world_setup.specs.declared.fault.TextFault.TheVariants.{Clash};

use crate::fault::TextFault;
use crate::kept::KeptTexts;
use zy_base::Bytes;
use zy_table::{Gains, Got};

impl KeptTexts {
    /// Keeps what a step brings, entry by entry: the entry's bytes, the link of its history, its reply, and the snapshot
    /// where there is one. After a fault the texts before it may be kept.
    pub fn keep_step(&mut self, gains: &Gains) -> Result<(), TextFault>
        requires { AllByRecursion (λ got. IsEntryInRange got.entry) gains.now }
        ensures keeps { OnOk result (Keeps (flat_map got_texts gains.now) self.old self.new) }
        ensures clash { (d : Sum) → result ≡ Err (Clash d) → Clashes (flat_map got_texts gains.now) self.old d }
    {
        let gains = gains.as_slice();
        for got in gains {
            self.keep_got(got)?;
        }
        Ok(())
    }

    fn keep_got(&mut self, got: &Got) -> Result<(), TextFault>
        requires { IsEntryInRange got.now.entry }
        ensures keeps { OnOk result (Keeps (got_texts got.now) self.old self.new) }
        ensures clash { (d : Sum) → result ≡ Err (Clash d) → Clashes (got_texts got.now) self.old d }
    {
        self.keep_linked(&got.before, &got.entry)?;
        self.keep(got.reply.as_slice())?;
        self.keep_snapshot(&got.snapshot)
    }

    fn keep_snapshot(&mut self, snapshot: &Option<Bytes>) -> Result<(), TextFault>
        ensures keeps { OnOk result (Keeps (snapshot_texts snapshot.now) self.old self.new) }
        ensures clash { (d : Sum) → result ≡ Err (Clash d) → Clashes (snapshot_texts snapshot.now) self.old d }
    {
        match snapshot {
            None => Ok(()),
            Some(snapshot) => self.keep(snapshot.as_slice()),
        }
    }
}
