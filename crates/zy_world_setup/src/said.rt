ghost use Rattle.std.specs.Prelude.{◌≡◌, ℕ, ◌≤◌, [], ◌++◌, List, map, slice_get, nat_eq, if◌then◌else◌, Option, None, Some, option_map, IfOk, OnOk};
ghost use Rattle.zy_base.specs.declared.ids.Party.{Party as Speaker};
ghost use Rattle.zy_seal.specs.Screening.{answer_to};
ghost use Rattle.zy_world_law.specs.Honest.{is_unsaid, is_yes};
ghost use Rattle.zy_world_law.specs.Reading.{parts_of as parts_in_frame};
ghost use Rattle.zy_world_setup.specs.Reading.{IsInRange};
ghost use Rattle.zy_world_law.specs.World.{correct_in, seats};
ghost use Rattle.zy_world_setup.specs.Said.{AreShown, SaysAt, also_said, forger_among, is_among, is_forged_by, none_said, told_by};

use crate::reading::parts_of;
use crate::text_set::TextSet;
use std::alloc::Global;
use std::marker::Model;
use zy_base::{ClientId, Party, ReplicaId, Said, Want};
use zy_parts::Part;
use zy_seal::{Directory, SealAnswer, check};
use zy_table::AnyFrame;

/// The texts that each correct party signed. Nothing is known of a liar.
#[derive(Drop)]
pub struct SaidTexts {
    alloc: Global,
    replicas: Vec<Option<TextSet>>,
    clients: Vec<Option<TextSet>>,
}

impl Model for SaidTexts {
    ghost use Rattle.zy_world_setup.specs.Said.{Told};

    ghost Value = { Told };

    ghost view = { λ s. record { replicas = s.replicas.items; clients = s.clients.items } };
}

impl SaidTexts {
    /// So many replicas and clients of which these lie, and none of the others said anything yet.
    pub fn start(
        alloc: Global,
        replicas: u64,
        liars: &[ReplicaId],
        clients: u32,
        lying_clients: &[ClientId],
    ) -> Result<SaidTexts, Want>
        requires { replicas ≤ 64 }
        ensures { IfOk result (λ said. said ≡ none_said replicas (map (λ id. id.0) liars.now) clients (map (λ id. id.0) lying_clients.now)) }
    {
        Ok(SaidTexts {
            alloc,
            replicas: replica_seats(alloc, replicas, liars)?,
            clients: client_seats(alloc, clients, lying_clients)?,
        })
    }

    /// A party signed some more texts; of a liar they aren't kept. A text that it signed before takes no memory. After
    /// `Want` some of them may stand there.
    pub fn add(&mut self, party: Party, more: Said) -> Result<(), Want>
        ensures { OnOk result ((said : Speaker → Option (List (List ℕ))) → AreShown said self.old → AreShown (also_said said party (map (λ spoken. spoken.text) more)) self.new) }
    {
        match party {
            Party::Replica(id) => {
                add_at(&mut self.replicas, id.0 as usize, more)?;
                Ok(())
            }
            Party::Client(id) => {
                add_at(&mut self.clients, id.0 as usize, more)?;
                Ok(())
            }
        }
    }

    /// The correct party under whose key the first part of the frame verifies that the party didn't sign. Signatures are
    /// verified only on texts that weren't signed.
    pub fn forger(&self, directory: &Directory, frame: &AnyFrame) -> Result<Option<Party>, Want>
        requires { IsInRange frame.now }
        ensures { IfOk result (λ by. (said : Speaker → Option (List (List ℕ))) → AreShown said self.now → by ≡ forger_among directory.now said (parts_in_frame frame.now)) }
    {
        let parts = parts_of(self.alloc, frame)?;
        Ok(self.forger_in(directory, &parts))
    }

    fn forger_in(&self, directory: &Directory, parts: &[Part]) -> Option<Party>
        ensures { result ≡ forger_among directory.now (told_by self.now) parts.now }
    {
        let part = parts.iter().find(|part| self.is_forged(directory, part))?;
        Some(part.by)
    }

    fn is_forged(&self, directory: &Directory, part: &Part) -> bool
        ensures { result ≡ is_forged_by directory.now (told_by self.now) part.now }
    {
        self.is_unsaid(part.by, part.text.as_slice()) && verifies(directory, part)
    }

    // A correct party signed other texts.
    fn is_unsaid(&self, party: Party, text: &[u8]) -> bool
        ensures { result ≡ is_unsaid (told_by self.now party) text.now }
    {
        match party {
            Party::Replica(id) => is_unsaid_at(&self.replicas, id.0 as usize, text),
            Party::Client(id) => is_unsaid_at(&self.clients, id.0 as usize, text),
        }
    }
}

fn verifies(directory: &Directory, part: &Part) -> bool
    ensures { result ≡ is_yes (answer_to directory.now part.now) }
{
    match check(
        directory,
        part.by,
        part.text.as_slice(),
        part.sig.as_slice(),
    ) {
        SealAnswer::Yes => true,
        SealAnswer::UnknownParty => false,
        SealAnswer::BadSignature => false,
    }
}

fn is_unsaid_at(seats: &[Option<TextSet>], at: usize, text: &[u8]) -> bool
    ensures { result ≡ is_unsaid (correct_in (slice_get seats.now at)) text.now }
{
    match seats.get(at) {
        Some(Some(texts)) => !texts.has(text),
        Some(None) => false,
        None => false,
    }
}

fn add_at(seats: &mut Vec<Option<TextSet>>, at: usize, more: Said) -> Result<(), Want>
    ensures { OnOk result (SaysAt at (map (λ spoken. spoken.text) more) seats.old.items seats.new.items) }
{
    if let Some(seat) = seats.get_mut(at) {
        add_in(seat, more)?;
    }
    Ok(())
}

fn add_in(seat: &mut Option<TextSet>, more: Said) -> Result<(), Want>
    ensures { OnOk result ((q : List ℕ) → is_among q seat.new ≡ is_among q (option_map (λ texts. texts ++ map (λ spoken. spoken.text) more) seat.old)) }
{
    if let Some(texts) = seat {
        texts.add_all(more)?;
    }
    Ok(())
}

fn replica_seats(
    alloc: Global,
    count: u64,
    liars: &[ReplicaId],
) -> Result<Vec<Option<TextSet>>, Want>
    requires { count ≤ 64 }
    ensures { IfOk result (λ v. v.items ≡ seats count (map (λ id. id.0) liars.now) (λ id. [])) }
{
    let mut seats = Vec::new(alloc);
    for id in 0..count {
        seats.push(seat(alloc, liars.contains(&ReplicaId(id as u8))))?;
    }
    Ok(seats)
}

fn client_seats(alloc: Global, count: u32, lying: &[ClientId]) -> Result<Vec<Option<TextSet>>, Want>
    ensures { IfOk result (λ v. v.items ≡ seats count (map (λ id. id.0) lying.now) (λ id. [])) }
{
    let mut seats = Vec::new(alloc);
    for id in 0..count {
        seats.push(seat(alloc, lying.contains(&ClientId(id))))?;
    }
    Ok(seats)
}

fn seat(alloc: Global, lies: bool) -> Option<TextSet>
    ensures { result ≡ (if lies then None else Some []) }
{
    if lies {
        None
    } else {
        Some(TextSet::new(alloc))
    }
}
