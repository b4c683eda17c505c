ghost use Rattle.std.specs.Prelude.{◌≡◌, ◌≤◌, ◌++◌, ◌∷◌, [], IfOk, OnOk};
ghost use Rattle.zy_world_setup.specs.Starting.{client_sealers, replica_sealers};
ghost use Rattle.zy_world_law.specs.Setup.{key_of_party, keys_of, public_key_of, sealer_of};
ghost use Rattle.zy_seal.specs.Sealing.{signatures_by};

use crate::setup::Setup;
use std::alloc::Global;
use zy_base::{ClientId, Party, ReplicaId, Want};
use zy_lms::HssKey;
use zy_seal::{Directory, Sealer, party_id, party_seed};

/// The party with its key, derived from the seed, whose next signature has this number. Its top tree is built.
pub fn sealer_at(alloc: Global, setup: &Setup, party: Party, number: u32) -> Result<Sealer, Want>
    requires { number ≤ signatures_by setup.now.height }
    ensures { IfOk result (λ sealer. sealer ≡ sealer_of setup.now party number) }
{
    let key = key_at(alloc, setup, party, number)?;
    Ok(Sealer::new(alloc, party, key))
}

fn key_at(alloc: Global, setup: &Setup, party: Party, number: u32) -> Result<HssKey, Want>
    requires { number ≤ signatures_by setup.now.height }
    ensures { IfOk result (λ key. key ≡ key_of_party setup.now party number) }
{
    let seed = party_seed(&setup.seed, party);
    let id = party_id(&setup.seed, party);
    HssKey::make(alloc, &seed, &id, setup.height, setup.ots, number)
}

/// The keys of all parties.
#[derive(Drop)]
pub struct Keyring {
    /// Each replica with its key at signature 0, by their numbers.
    pub replicas: Vec<Sealer>,
    /// Each client likewise.
    pub clients: Vec<Sealer>,
    /// Their public keys, with one store of signatures for all that copy them.
    pub directory: Directory,
}

impl Keyring {
    /// Each party's top tree is built once.
    pub fn of(alloc: Global, setup: &Setup) -> Result<Keyring, Want>
        ensures replicas { IfOk result (λ keys. keys.replicas.items ≡ replica_sealers setup.now) }
        ensures clients { IfOk result (λ keys. keys.clients.items ≡ client_sealers setup.now) }
        ensures directory { IfOk result (λ keys. keys.directory ≡ keys_of setup.now) }
    {
        let replicas = replica_keys(alloc, setup)?;
        let clients = client_keys(alloc, setup)?;
        Ok(Keyring {
            replicas: replicas.sealers,
            clients: clients.sealers,
            directory: Directory::new(alloc, replicas.public, clients.public).with_store(),
        })
    }
}

// Parties with their keys at signature 0, and their public keys.
#[derive(Drop)]
struct Keys {
    sealers: Vec<Sealer>,
    public: Vec<[u8; 60]>,
}

impl Keys {
    fn new(alloc: Global) -> Keys
        ensures sealers { result.sealers.items ≡ [] }
        ensures public { result.public.items ≡ [] }
    {
        Keys {
            sealers: Vec::new(alloc),
            public: Vec::new(alloc),
        }
    }

    // One party more.
    fn add(&mut self, alloc: Global, setup: &Setup, party: Party) -> Result<(), Want>
        ensures sealers { OnOk result (self.new.sealers.items ≡ self.old.sealers.items ++ sealer_of setup.now party 0 ∷ []) }
        ensures public { OnOk result (self.new.public.items ≡ self.old.public.items ++ public_key_of setup.now party ∷ []) }
    {
        let key = key_at(alloc, setup, party, 0)?;
        self.public.push(key.public())?;
        self.sealers.push(Sealer::new(alloc, party, key))?;
        Ok(())
    }
}

#[tactic(auto, unfolding(zy_world_law::specs::Setup::keys_of))]
fn replica_keys(alloc: Global, setup: &Setup) -> Result<Keys, Want>
    ensures sealers { IfOk result (λ keys. keys.sealers.items ≡ replica_sealers setup.now) }
    ensures public { IfOk result (λ keys. keys.public.items ≡ (keys_of setup.now).replicas) }
{
    let mut keys = Keys::new(alloc);
    for id in 0..setup.counts.n as u8 {
        keys.add(alloc, setup, Party::Replica(ReplicaId(id)))?;
    }
    Ok(keys)
}

#[tactic(auto, unfolding(zy_world_law::specs::Setup::keys_of))]
fn client_keys(alloc: Global, setup: &Setup) -> Result<Keys, Want>
    ensures sealers { IfOk result (λ keys. keys.sealers.items ≡ client_sealers setup.now) }
    ensures public { IfOk result (λ keys. keys.public.items ≡ (keys_of setup.now).clients) }
{
    let mut keys = Keys::new(alloc);
    for id in 0..setup.clients {
        keys.add(alloc, setup, Party::Client(ClientId(id)))?;
    }
    Ok(keys)
}
