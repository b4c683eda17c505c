// Four replicas and a client, each with a key of its own from a seed of zeros.

ghost use Rattle.std.specs.Prelude.{◌≤◌, length, IfOk};

use std::alloc::Global;
use std::test::Fail;
use zy_base::{Bytes, ClientId, Counts, Party, ReplicaId, Stamp, Want};
use zy_client::Client;
use zy_lms::{Height, HssKey};
use zy_node::Node;
use zy_ots::OtsType;
use zy_replica::Replica;
use zy_seal::{Directory, Sealer, party_id, party_seed};
use zy_space::Space;

/// The one client.
pub(crate) const ASKER: Party = Party::Client(ClientId(0));

// `cas ("lock" *) ("lock" 1)`, and the reply `true`.
const LOCK: [u8; 25] =
    *b"\x04\x02\x02\x04lock\x00\x02\x02\x04lock\x01\x00\x00\x00\x00\x00\x00\x00\x01";

/// What the client asks for: to take a lock.
pub(crate) fn lock_operation(alloc: Global) -> Result<Bytes, Want>
    ensures { IfOk result (λ op. length op ≤ 1100) }
{
    Bytes::from_slice(alloc, &LOCK)
}

fn key(alloc: Global, party: Party, next: u32) -> Result<HssKey, Want>
    requires { next ≤ 1024 }
{
    let (seed, id) = (party_seed(&[0; 32], party), party_id(&[0; 32], party));
    HssKey::make(alloc, &seed, &id, Height::H5, OtsType::W4, next)
}

fn public(alloc: Global, party: Party) -> Result<[u8; 60], Want> {
    Ok(key(alloc, party, 0)?.public())
}

fn replica_key(alloc: Global, id: u8) -> Result<[u8; 60], Want> {
    public(alloc, Party::Replica(ReplicaId(id)))
}

fn directory_of(
    alloc: Global,
    replicas: &[[u8; 60]; 4],
    clients: &[[u8; 60]; 1],
) -> Result<Directory, Want>
    ensures replicas { IfOk result (λ d. length d.replicas ≤ 4) }
    ensures clients { IfOk result (λ d. length d.clients ≤ 64) }
{
    let replicas = Vec::from_slice(alloc, replicas)?;
    let clients = Vec::from_slice(alloc, clients)?;
    Ok(Directory::new(alloc, replicas, clients))
}

/// The keys of a group in which nothing is verified.
pub(crate) fn no_keys(alloc: Global) -> Result<Directory, Want>
    ensures replicas { IfOk result (λ d. length d.replicas ≤ 4) }
    ensures clients { IfOk result (λ d. length d.clients ≤ 64) }
{
    directory_of(alloc, &[[0; 60]; 4], &[[0; 60]])
}

/// The public keys of all.
pub(crate) fn directory(alloc: Global) -> Result<Directory, Want>
    ensures replicas { IfOk result (λ d. length d.replicas ≤ 4) }
    ensures clients { IfOk result (λ d. length d.clients ≤ 64) }
{
    let replicas = [
        replica_key(alloc, 0)?,
        replica_key(alloc, 1)?,
        replica_key(alloc, 2)?,
        replica_key(alloc, 3)?,
    ];
    directory_of(alloc, &replicas, &[public(alloc, ASKER)?])
}

/// The client, whose next signature has this number.
pub(crate) fn client_at(alloc: Global, next: u32, directory: Directory) -> Result<Client, Fail>
    requires { next ≤ 1024 }
{
    let counts = Counts::plain(1).ok_or("one may lie")?;
    let sealer = Sealer::new(alloc, ASKER, key(alloc, ASKER, next)?);
    Ok(Client::start(alloc, counts, ClientId(0), sealer, directory, Stamp(0))?)
}

/// The replica with this number.
pub(crate) fn node(alloc: Global, id: u8, directory: Directory) -> Result<Node<Space>, Fail>
    requires replicas { length directory.replicas ≤ 4 }
    requires clients { length directory.clients ≤ 64 }
{
    let counts = Counts::plain(1).ok_or("one may lie")?;
    let me = ReplicaId(id);
    if id >= 4 || counts.n < 4 {
        return Err(Fail::from("four replicas"));
    }
    let key = key(alloc, Party::Replica(me), 0)?;
    let sealer = Sealer::new(alloc, Party::Replica(me), key);
    let replica = Replica::start(alloc, counts, me, 8, sealer, directory)?;
    Ok(Node::new(alloc, replica))
}
