//! The world that a setup begins with.

ghost use Rattle.std.specs.Prelude.{◌≡◌, ◌≤◌, ◌<◌, ◌++◌, ◌∷◌, [], ℕ, length, map, nat_eq, if◌then◌else◌, None, Some, IfOk, OnOk};
ghost use Rattle.std.specs.List.{list_any, range_with_len};
ghost use Rattle.zy_base.specs.declared.ids.Party.TheVariants as parties;
ghost use Rattle.zy_world_setup.specs.Starting.{IsStart, client_sealers, replica_sealers};
ghost use Rattle.zy_world.specs.Shows.{Shows};
ghost use Rattle.zy_world.specs.Starting.{replica_seat, client_seat, replica_key, client_key};
ghost use Rattle.zy_world_law.specs.Setup.{sealer_of};
ghost use Rattle.zy_world_law.specs.World.{start as start_of_world};

use crate::World;
use crate::agreed::Agreed;
use crate::bag::Bag;
use crate::liars::Liars;
use crate::mutes::Muted;
use crate::seats::Seats;
use std::alloc::Global;
use zy_base::{ClientId, Machine, ReplicaId, Stamp, Want};
use zy_client::Client;
use zy_replica::Replica;
use zy_seal::{Directory, Sealer};
use zy_world_setup::{KeptTexts, Keyring, SaidTexts, Setup};

impl<M: Machine> World<M> {
    /// The world before its first event: each key at its signature 0, each client at the stamp 0, and nothing sent.
    pub fn start(alloc: Global, setup: Setup) -> Result<World<M>, Want>
        requires { IsStart setup }
        ensures { IfOk result (λ world. Shows (start_of_world M.rules setup) world) }
    {
        let Keyring {
            replicas,
            clients,
            directory,
        } = Keyring::of(alloc, &setup)?;
        let replicas = seat_replicas(alloc, &setup, &directory, replicas)?;
        let clients = seat_clients(alloc, &setup, &directory, clients)?;
        let muted = Muted::none(alloc, replicas.seats.len(), clients.seats.len())?;
        let said = SaidTexts::start(
            alloc,
            setup.counts.n,
            &setup.liars,
            setup.clients,
            &setup.lying_clients,
        )?;
        Ok(World {
            alloc,
            setup,
            directory,
            seats: Seats {
                replicas: replicas.seats,
                clients: clients.seats,
            },
            liars: Liars {
                replicas: replicas.keys,
                clients: clients.keys,
            },
            bag: Bag::new(alloc),
            muted,
            agreed: Agreed::none(),
            texts: KeptTexts::new(alloc)?,
            said,
        })
    }
}

// Parties in their seats, and the keys of those that lie.
#[derive(Drop)]
struct Row<T> {
    seats: Vec<Option<T>>,
    keys: Vec<Option<Sealer>>,
}

impl<T: Drop> Row<T> {
    fn new(alloc: Global) -> Row<T>
        ensures seats { result.seats.items ≡ [] }
        ensures keys { result.keys.items ≡ [] }
    {
        Row {
            seats: Vec::new(alloc),
            keys: Vec::new(alloc),
        }
    }

    fn seat(&mut self, party: T) -> Result<(), Want>
        ensures seats { OnOk result (self.new.seats.items ≡ self.old.seats.items ++ Some party ∷ []) }
        ensures keys { OnOk result (self.new.keys.items ≡ self.old.keys.items ++ None ∷ []) }
    {
        self.seats.push(Some(party))?;
        self.keys.push(None)?;
        Ok(())
    }

    fn leave(&mut self, liar: Sealer) -> Result<(), Want>
        ensures seats { OnOk result (self.new.seats.items ≡ self.old.seats.items ++ None ∷ []) }
        ensures keys { OnOk result (self.new.keys.items ≡ self.old.keys.items ++ Some liar ∷ []) }
    {
        self.seats.push(None)?;
        self.keys.push(Some(liar))?;
        Ok(())
    }
}

fn seat_replicas<M: Machine>(
    alloc: Global,
    setup: &Setup,
    directory: &Directory,
    sealers: Vec<Sealer>,
) -> Result<Row<Replica<M>>, Want>
    requires start { IsStart setup.now }
    requires sealers { sealers.items ≡ replica_sealers setup.now }
    requires replicas { length directory.now.replicas ≤ setup.now.counts.n }
    requires clients { length directory.now.clients ≤ 64 }
    ensures seats { IfOk result (λ row. row.seats.items ≡ map (replica_seat M.rules setup.now directory.now) (range_with_len 0 setup.now.counts.n)) }
    ensures keys { IfOk result (λ row. row.keys.items ≡ map (replica_key setup.now) (range_with_len 0 setup.now.counts.n)) }
{
    let mut row = Row::new(alloc);
    for sealer in sealers {
        let id = ReplicaId(row.seats.len() as u8);
        seat_replica(alloc, setup, directory, id, sealer, &mut row)?;
    }
    Ok(row)
}

fn seat_replica<M: Machine>(
    alloc: Global,
    setup: &Setup,
    directory: &Directory,
    id: ReplicaId,
    sealer: Sealer,
    row: &mut Row<Replica<M>>,
) -> Result<(), Want>
    requires least { 4 ≤ setup.now.interval }
    requires most { setup.now.interval ≤ 32 }
    requires me { id.0 < setup.now.counts.n }
    requires replicas { length directory.now.replicas ≤ setup.now.counts.n }
    requires clients { length directory.now.clients ≤ 64 }
    requires sealer { sealer ≡ sealer_of setup.now (parties.Replica id) 0 }
    ensures seats { OnOk result (row.new.seats.items ≡ row.old.seats.items ++ replica_seat M.rules setup.now directory.now id.0 ∷ []) }
    ensures keys { OnOk result (row.new.keys.items ≡ row.old.keys.items ++ replica_key setup.now id.0 ∷ []) }
{
    if setup.liars.contains(&id) {
        return row.leave(sealer.beside(directory));
    }
    row.seat(Replica::start(
        alloc,
        setup.counts,
        id,
        setup.interval,
        sealer,
        directory.clone()?,
    )?)
}

fn seat_clients(
    alloc: Global,
    setup: &Setup,
    directory: &Directory,
    sealers: Vec<Sealer>,
) -> Result<Row<Client>, Want>
    requires start { IsStart setup.now }
    requires sealers { sealers.items ≡ client_sealers setup.now }
    ensures seats { IfOk result (λ row. row.seats.items ≡ map (client_seat setup.now directory.now) (range_with_len 0 setup.now.clients)) }
    ensures keys { IfOk result (λ row. row.keys.items ≡ map (client_key setup.now) (range_with_len 0 setup.now.clients)) }
{
    let mut row = Row::new(alloc);
    for sealer in sealers {
        let id = ClientId(row.seats.len() as u32);
        seat_client(alloc, setup, directory, id, sealer, &mut row)?;
    }
    Ok(row)
}

fn seat_client(
    alloc: Global,
    setup: &Setup,
    directory: &Directory,
    id: ClientId,
    sealer: Sealer,
    row: &mut Row<Client>,
) -> Result<(), Want>
    requires { sealer ≡ sealer_of setup.now (parties.Client id) 0 }
    ensures seats { OnOk result (row.new.seats.items ≡ row.old.seats.items ++ client_seat setup.now directory.now id.0 ∷ []) }
    ensures keys { OnOk result (row.new.keys.items ≡ row.old.keys.items ++ client_key setup.now id.0 ∷ []) }
{
    if setup.lying_clients.contains(&id) {
        return row.leave(sealer.beside(directory));
    }
    row.seat(Client::start(
        alloc,
        setup.counts,
        id,
        sealer,
        directory.clone()?,
        Stamp(0),
    )?)
}
