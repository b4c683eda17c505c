//! The snapshot at the stable place, for replicas that lack what lies before it.

ghost use Rattle.std.specs.Prelude.{◌≡◌, Some, None, IfOk, IfErr};
ghost use Rattle.zy_vframes.specs.declared.frame.ViewFrame.TheVariants as frames;
ghost use Rattle.zy_check.specs.declared.states.StateFault.TheVariants as faults;
ghost use Rattle.zy_check.specs.States.{IsFaultOf, digest_of, fetch_cause, frame_cause};

use crate::Checkpoints;
use sha2::{Digest as Hasher, Sha256};
use std::alloc::Global;
use zy_base::{Bytes, Cause, Digest, Place, Want};
use zy_parts::Fetch;
use zy_vframes::ViewFrame;

/// Why no snapshot is sent.
#[derive(Debug, Drop)]
pub enum StateFault {
    /// Another one is stable.
    Refused(Cause),
    /// Want of memory.
    Want,
}

impl From<Want> for StateFault {
    ghost from_gives = { λ _ e. e ≡ faults.Want };

    fn from(_: Want) -> StateFault {
        StateFault::Want
    }
}

impl Checkpoints {
    /// Why another's wish isn't met: what is stable lies behind the place or before it, or has another digest. Takes no
    /// memory.
    pub fn fetch_cause(&self, wanted: &Fetch) -> Option<Cause>
        ensures { result ≡ fetch_cause self.now.stable wanted.now }
    {
        let stable = self.stable_check();
        if wanted.place < stable.place {
            return Some(Cause::OldPlace);
        }
        if stable.place < wanted.place {
            return Some(Cause::Behind(wanted.place));
        }
        if stable.state != wanted.state {
            return Some(Cause::WrongState(stable.state, wanted.state));
        }
        None
    }

    /// The frame that brings the stable snapshot, which is given, to one who wants it.
    pub fn state_frame(
        &self,
        alloc: Global,
        wanted: &Fetch,
        snapshot: &[u8],
    ) -> Result<ViewFrame, StateFault>
        ensures frame { IfOk result (λ frame. frame ≡ frames.State wanted.now.place snapshot.now) }
        ensures stable { IfOk result (λ frame. fetch_cause self.now.stable wanted.now ≡ None) }
        ensures refused { IfErr result (IsFaultOf (fetch_cause self.now.stable wanted.now)) }
    {
        match self.fetch_cause(wanted) {
            Some(cause) => Err(StateFault::Refused(cause)),
            None => Ok(ViewFrame::State {
                place: wanted.place,
                snapshot: Bytes::from_slice(alloc, snapshot)?,
            }),
        }
    }
}

/// Whether a frame brings the snapshot at the wanted place that has the wanted digest. `Unmatched` where it brings none, or
/// one at another place; `WrongState` where the digest is another. Takes no memory.
pub fn take_state(wanted: Place, digest: &Digest, frame: &ViewFrame) -> Result<(), Cause>
    ensures taken { IfOk result (λ _. frame_cause (record { place = wanted; state = digest.now }) frame.now ≡ None) }
    ensures refused { IfErr result (λ cause. frame_cause (record { place = wanted; state = digest.now }) frame.now ≡ Some cause) }
{
    match frame {
        ViewFrame::State { place, snapshot } if *place == wanted => {
            let found = digest_of(snapshot);
            if found == *digest {
                Ok(())
            } else {
                Err(Cause::WrongState(*digest, found))
            }
        }
        _ => Err(Cause::Unmatched),
    }
}

fn digest_of(bytes: &Bytes) -> Digest
    ensures { result ≡ digest_of bytes.now }
{
    let mut hasher = Sha256::new();
    hasher.update(bytes.as_slice());
    Digest(hasher.finalize())
}
