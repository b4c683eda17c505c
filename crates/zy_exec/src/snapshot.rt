//! A snapshot's bytes, as they are read.

ghost use Rattle.std.specs.Prelude.{◌≡◌, false, ℕ, List, length, Option, IfOk, IsErrOf};
ghost use Rattle.zy_wire.specs.Spelling.{whole};
ghost use Rattle.zy_exec.specs.declared.known.Known.{Known};
ghost use Rattle.zy_exec.specs.declared.install_fault.InstallFault.TheVariants.{NotState};
ghost use Rattle.zy_exec.specs.Snapshot.{listed, snapshot_fields};
ghost use Rattle.zy_exec.specs.Reading.{Spells, is_rising, IsSpelledBy};

use crate::install_fault::InstallFault;
use crate::known::{CLIENTS, Known, nothing};
use crate::row::Row;
use std::alloc::Global;
use zy_base::Items;
use zy_wire::{Cut, get_list};

// The most bytes that a machine's state may have.
const MAX_STATE: usize = 2_300_000;

// The clients' parts, and the bytes of the state.
#[tactic(auto, unfolding(crate::specs::Snapshot::snapshot_fields))]
fn parts<'a>(alloc: Global, bytes: &'a [u8]) -> Result<(Items<Row>, &'a [u8]), InstallFault>
    ensures { Spells (λ x. (x.0, x.1.now)) result (whole snapshot_fields bytes.now) }
{
    let mut cut = Cut::new(bytes);
    let rows = get_list::<Row>(alloc, &mut cut, 0, CLIENTS as u16)?;
    let state = cut.bytes32(MAX_STATE)?;
    cut.end()?;
    Ok((rows, state))
}

// A slot for each client. `NotState` only where the clients don't rise, or one isn't below 64.
fn slots_of(alloc: Global, rows: Items<Row>) -> Result<Vec<Option<Known>>, InstallFault>
    ensures listed { IfOk result (λ slots. listed 0 slots.items ≡ rows) }
    ensures all { IfOk result (λ slots. length slots.items ≡ 64) }
    ensures not_state { IsErrOf result NotState → is_rising 0 rows ≡ false }
{
    let mut slots = nothing(alloc)?;
    let mut least = 0;
    for row in rows.into_vec() {
        let Row { client, known } = row;
        if client.0 < least || client.0 >= CLIENTS as u32 {
            return Err(InstallFault::NotState);
        }
        slots[client.0 as usize] = Some(known);
        least = client.0 + 1;
    }
    Ok(slots)
}

/// What a snapshot's bytes spell: what is known of each client, and the bytes of the machine's state. `NotState` only
/// where they spell no such two.
pub fn read_snapshot<'a>(
    alloc: Global,
    bytes: &'a [u8],
) -> Result<(Vec<Option<Known>>, &'a [u8]), InstallFault>
    ensures read { IfOk result (λ read. IsSpelledBy bytes.now read.0.items read.1.now) }
    ensures not_state { IsErrOf result NotState → (known : List (Option Known)) (state : List ℕ) → IsSpelledBy bytes.now known state → ⊥ }
{
    let (rows, state) = parts(alloc, bytes)?;
    let known = slots_of(alloc, rows)?;
    Ok((known, state))
}
