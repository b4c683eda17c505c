ghost use Rattle.std.specs.Prelude.{◌≡◌, ◌≢◌, ◌↔◌, ℕ, true, None, Some, Err, IfOk, IfNone, OnOk, IsErrOf};
ghost use Rattle.zy_seal.specs.Sealing.{SealerState, spent_one, signatures_by};
ghost use Rattle.zy_seal.specs.declared.sealer.SealFault.TheVariants.{KeySpent};
ghost use Rattle.zy_world_setup.specs.Telling.{IsToldBy};
ghost use Rattle.zy_world.specs.Tale.{IsAnswered, IsSpent, IsTale, is_statement, told_in};
ghost use Rattle.zy_world.specs.Shown.{key_in, with_key};
ghost use Rattle.zy_world_law.specs.Setup.{sealer_of};

use crate::seat::{put_in, take_from};
use crate::tale::Tale;
use std::alloc::Global;
use std::marker::Model;
use zy_base::{Bytes, ClientId, Party, ReplicaId};
use zy_seal::{SealFault, Sealer};
use zy_world_setup::Setup;

/// The keys of the liars, each at its next signature, none where a party doesn't lie.
#[derive(Drop)]
pub(crate) struct Liars {
    pub(crate) replicas: Vec<Option<Sealer>>,
    pub(crate) clients: Vec<Option<Sealer>>,
}

impl Model for Liars {
    ghost use Rattle.zy_world.specs.Shown.{Keyed};

    ghost Value = { Keyed };

    ghost view = { λ k. record { replicas = k.replicas.items; clients = k.clients.items } };
}

impl Liars {
    // The liar's key, which is taken out.
    fn take(&mut self, liar: Party) -> Option<Sealer>
        ensures taken { result ≡ key_in self.old liar }
        ensures left { self.new ≡ with_key self.old liar None }
    {
        match liar {
            Party::Replica(ReplicaId(id)) => take_from(&mut self.replicas, id as usize),
            Party::Client(ClientId(id)) => take_from(&mut self.clients, id as usize),
        }
    }

    // Changes nothing where there is no such party.
    fn put(&mut self, liar: Party, key: Sealer)
        ensures { self.new ≡ with_key self.old liar (Some key) }
    {
        match liar {
            Party::Replica(ReplicaId(id)) => put_in(&mut self.replicas, id as usize, key),
            Party::Client(ClientId(id)) => put_in(&mut self.clients, id as usize, key),
        }
    }

    /// A liar signs with its next signature. `None` exactly where the frame would be too long, whether a signature is left or not; none is
    /// spent then. Else `KeySpent` where no signature is left.
    pub(crate) fn sign(
        &mut self,
        alloc: Global,
        setup: &Setup,
        liar: Party,
        tale: Tale,
    ) -> Result<Option<Bytes>, SealFault>
        requires { IsTale tale }
        ensures told { (number : ℕ) → key_in self.old liar ≡ Some (sealer_of setup.now liar number) → IfOk result (IsAnswered setup.now liar number tale self.old self.new) }
        ensures spent { (number : ℕ) → key_in self.old liar ≡ Some (sealer_of setup.now liar number) → result ≡ Err KeySpent → IsSpent setup.now liar number tale self.old self.new }
    {
        let short = tale.is_short(alloc, setup)?;
        if short {
            self.sign_next(alloc, liar, tale)
        } else {
            Ok(None)
        }
    }

    // Signs with the next signature, however long the frame is.
    fn sign_next(
        &mut self,
        alloc: Global,
        liar: Party,
        tale: Tale,
    ) -> Result<Option<Bytes>, SealFault>
        requires { IsTale tale }
        ensures frame { (key : SealerState) → key_in self.old liar ≡ Some key → IfOk result (IsToldBy (told_in tale) key) }
        ensures long { IfOk result (λ bytes. IfNone bytes (is_statement tale ≡ true)) }
        ensures spent_one { (key : SealerState) → key_in self.old liar ≡ Some key → OnOk result (self.new ≡ with_key self.old liar (Some (spent_one key))) }
        ensures left { (key : SealerState) → key_in self.old liar ≡ Some key → OnOk result (key.key.next ≢ signatures_by key.key.height) }
        ensures spent { (key : SealerState) → key_in self.old liar ≡ Some key → result ≡ Err KeySpent → key.key.next ≡ signatures_by key.key.height }
        ensures same { (key : SealerState) → key_in self.old liar ≡ Some key → result ≡ Err KeySpent → self.new ≡ self.old }
    {
        match self.take(liar) {
            None => Err(SealFault::KeySpent),
            Some(key) => self.sign_with(alloc, liar, key, tale),
        }
    }

    // The key takes its place again behind the frame that it signs.
    fn sign_with(
        &mut self,
        alloc: Global,
        liar: Party,
        mut key: Sealer,
        tale: Tale,
    ) -> Result<Option<Bytes>, SealFault>
        requires { IsTale tale }
        ensures frame { IfOk result (IsToldBy (told_in tale) key) }
        ensures long { IfOk result (λ bytes. IfNone bytes (is_statement tale ≡ true)) }
        ensures spent_one { OnOk result (self.new ≡ with_key self.old liar (Some (spent_one key))) }
        ensures spent { IsErrOf result SealFault.KeySpent ↔ (key.key.next ≡ signatures_by key.key.height) }
        ensures unchanged { IsErrOf result SealFault.KeySpent → self.new ≡ with_key self.old liar (Some key) }
    {
        let told = tale.frame(alloc, &mut key);
        key.take_in();
        self.put(liar, key);
        told
    }
}
