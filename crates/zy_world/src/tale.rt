ghost use Rattle.std.specs.Prelude.{◌≡◌, ◌↔◌, true, IfOk, IfNone, OnOk, IsErrOf};
ghost use Rattle.zy_base.specs.declared.ids.Party.{Party as Somebody};
ghost use Rattle.zy_seal.specs.Sealing.{spent_one, signatures_by};
ghost use Rattle.zy_world_setup.specs.Telling.{IsToldBy};
ghost use Rattle.zy_world.specs.Tale.{IsTale, is_short_tale, is_statement, told_in};

use std::alloc::Global;
use zy_base::{Bytes, Items, View, Want};
use zy_parts::{Ask, Signed};
use zy_seal::{SealFault, Sealer};
use zy_world_setup::{Setup, Tellable, order_frame, spec_frame};

/// What a liar or a forger is told to sign.
#[derive(Drop)]
pub(crate) enum Tale {
    /// The order whose history is that of these requests.
    Order {
        view: View,
        asks: Items<Signed<Ask>>,
    },
    /// Likewise a speculative response with this reply.
    Spec {
        view: View,
        asks: Items<Signed<Ask>>,
        reply: Bytes,
    },
    Statement(Tellable),
}

impl Tale {
    /// Whether the frame, signed by a key of this setup, is no longer than a frame may be.
    pub(crate) fn is_short(&self, alloc: Global, setup: &Setup) -> Result<bool, Want>
        requires { IsTale self.now }
        ensures { IfOk result (λ short. (party : Somebody) → short ≡ is_short_tale setup.now party self.now) }
    {
        match self {
            Tale::Order { .. } => Ok(true),
            Tale::Spec { .. } => Ok(true),
            Tale::Statement(statement) => statement.is_short(alloc, setup),
        }
    }

    /// The frame, signed with the next signature. `None` where it is longer than a frame may be; the signature is spent then too.
    /// `KeySpent` exactly where no signature is left.
    pub(crate) fn frame(
        self,
        alloc: Global,
        sealer: &mut Sealer,
    ) -> Result<Option<Bytes>, SealFault>
        requires { IsTale self }
        ensures frame { IfOk result (IsToldBy (told_in self) sealer.old) }
        ensures long { IfOk result (λ bytes. IfNone bytes (is_statement self ≡ true)) }
        ensures spent_one { OnOk result (sealer.new ≡ spent_one sealer.old) }
        ensures spent { IsErrOf result SealFault.KeySpent ↔ (sealer.old.key.next ≡ signatures_by sealer.old.key.height) }
        ensures unchanged { IsErrOf result SealFault.KeySpent → sealer.new ≡ sealer.old }
    {
        match self {
            Tale::Order { view, asks } => {
                let frame = order_frame(alloc, sealer, view, asks.as_slice())?;
                Ok(Some(frame))
            }
            Tale::Spec { view, asks, reply } => {
                let frame = spec_frame(alloc, sealer, view, asks.as_slice(), reply)?;
                Ok(Some(frame))
            }
            Tale::Statement(statement) => statement.frame(alloc, sealer),
        }
    }
}
