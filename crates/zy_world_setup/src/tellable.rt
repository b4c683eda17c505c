ghost use Rattle.std.specs.Prelude.{◌≡◌, ◌⊎◌, ◌↔◌, ℕ, length, nat_le, IfOk, OnOk, IsErrOf, option_map};
ghost use Rattle.std.specs.Option.{ForSome};
ghost use Rattle.std.specs.Result.{result_ok};
ghost use Rattle.zy_base.specs.declared.ids.Party.{Party as Speaker};
ghost use Rattle.zy_frames.specs.Frames.{IsFrameInRange};
ghost use Rattle.zy_seal.specs.Sealing.{spent_one, signatures_by};
ghost use Rattle.zy_seal.specs.declared.sealer.SealFault.{SealFault};
ghost use Rattle.zy_world_setup.specs.Telling.{IsEncoded, IsTellable, fields_told, telling_of};
ghost use Rattle.zy_table.specs.Sending.{spelling_of};
ghost use Rattle.zy_table.specs.declared.deeds.AnyFrame.TheVariants as any;
ghost use Rattle.zy_wire.specs.Getting.{Decodes};
ghost use Rattle.zy_wire.specs.Kind.{frame_limit};
ghost use Rattle.zy_wire.specs.Spelling.{whole};
ghost use Rattle.zy_world_law.specs.Liars.{statement_numbered, statement_told};
ghost use Rattle.zy_world_law.specs.Setup.{sealer_of};

use crate::frames::{encoded, encoded_view};
use crate::setup::Setup;
use std::alloc::Global;
use zy_base::{Bytes, Want};
use zy_frames::Frame;
use zy_parts::{Ask, Began, Change, Check, Fetch, Hate, Hole, Local, New, Statement};
use zy_seal::{SealFault, Sealer, signature_len};
use zy_vframes::ViewFrame;
use zy_wire::{Cut, GetFault, MAX_FRAME, Put, Spelled};

/// A statement that whoever has a key can be told to sign by its number and fields. Each goes in its own frame.
#[derive(Debug, Drop)]
pub enum Tellable {
    Ask(Ask),
    Local(Local),
    Hole(Hole),
    Hate(Hate),
    Check(Check),
    Change(Change),
    New(New),
    Began(Began),
    Fetch(Fetch),
}

/// The statement whose number and fields all of the bytes spell. `None` where they spell none of these.
#[tactic(auto, unfolding(zy_world_law::specs::Liars::statement_told))]
pub fn read_statement(alloc: Global, bytes: &[u8]) -> Result<Option<Tellable>, Want>
    ensures value { IfOk result (λ told. option_map telling_of told ≡ statement_told bytes.now) }
    ensures in_range { IfOk result (λ told. ForSome told IsTellable) }
{
    match bytes {
        [] => Ok(None),
        [number, fields @ ..] => read_numbered(alloc, *number, fields),
    }
}

// The statement of this number whose fields the bytes spell.
fn read_numbered(alloc: Global, number: u8, fields: &[u8]) -> Result<Option<Tellable>, Want>
    ensures value { IfOk result (λ told. option_map telling_of told ≡ statement_numbered number fields.now) }
    ensures in_range { IfOk result (λ told. ForSome told IsTellable) }
{
    match number {
        1 => Ok(read_fields(alloc, fields)?.map(Tellable::Ask)),
        4 => Ok(read_fields(alloc, fields)?.map(Tellable::Local)),
        6 => Ok(read_fields(alloc, fields)?.map(Tellable::Hole)),
        7 => Ok(read_fields(alloc, fields)?.map(Tellable::Hate)),
        8 => Ok(read_fields(alloc, fields)?.map(Tellable::Check)),
        9 => Ok(read_fields(alloc, fields)?.map(Tellable::Change)),
        10 => Ok(read_fields(alloc, fields)?.map(Tellable::New)),
        11 => Ok(read_fields(alloc, fields)?.map(Tellable::Began)),
        12 => Ok(read_fields(alloc, fields)?.map(Tellable::Fetch)),
        _ => Ok(None),
    }
}

// The statement whose fields all of the bytes spell.
fn read_fields<S: Statement>(alloc: Global, bytes: &[u8]) -> Result<Option<S>, Want>
    ensures value { IfOk result (λ stmt. stmt ≡ result_ok (whole S.spelling bytes.now)) }
    ensures in_range { IfOk result (λ stmt. ForSome stmt S.in_range) }
{
    match read_whole(alloc, bytes) {
        Ok(stmt) => Ok(Some(stmt)),
        Err(GetFault::Frame(_)) => Ok(None),
        Err(GetFault::Want) => Err(Want),
    }
}

fn read_whole<S: Spelled>(alloc: Global, bytes: &[u8]) -> Result<S, GetFault>
    ensures value { Decodes result (whole S.spelling bytes.now) }
    ensures in_range { IfOk result S.in_range }
{
    let mut cut = Cut::new(bytes);
    let value = S::get(alloc, &mut cut)?;
    cut.end()?;
    Ok(value)
}

impl Tellable {
    /// Whether the frame with the statement, with any signature of a key of this setup, is no longer than a frame may be.
    pub fn is_short(&self, alloc: Global, setup: &Setup) -> Result<bool, Want>
        requires { IsTellable self.now }
        ensures { IfOk result (λ short. (party : Speaker) (number : ℕ) → short ≡ nat_le (length (spelling_of (telling_of self.now (sealer_of setup.now party number)))) frame_limit) }
    {
        // Beside the fields and the signature: the version, the kind, the signer, and the signature's length.
        let others = 9 + signature_len(setup.height, setup.ots);
        let fields = self.fields_len(alloc)?;
        Ok(fields <= MAX_FRAME - others)
    }

    // How many bytes its fields have.
    fn fields_len(&self, alloc: Global) -> Result<usize, Want>
        requires { IsTellable self.now }
        ensures { IfOk result (λ len. len ≡ length (fields_told self.now)) }
    {
        match self {
            Tellable::Ask(ask) => spelled_len(alloc, ask),
            Tellable::Local(local) => spelled_len(alloc, local),
            Tellable::Hole(hole) => spelled_len(alloc, hole),
            Tellable::Hate(hate) => spelled_len(alloc, hate),
            Tellable::Check(check) => spelled_len(alloc, check),
            Tellable::Change(change) => spelled_len(alloc, change),
            Tellable::New(new) => spelled_len(alloc, new),
            Tellable::Began(began) => spelled_len(alloc, began),
            Tellable::Fetch(fetch) => spelled_len(alloc, fetch),
        }
    }

    /// The frame with the statement, signed with the next signature. `None` where it is longer than a frame may be; the signature is spent
    /// then too. `KeySpent` exactly where no signature is left.
    pub fn frame(self, alloc: Global, sealer: &mut Sealer) -> Result<Option<Bytes>, SealFault>
        requires { IsTellable self }
        ensures frame { IfOk result (IsEncoded (telling_of self sealer.old)) }
        ensures spent_one { OnOk result (sealer.new ≡ spent_one sealer.old) }
        ensures spent { IsErrOf result SealFault.KeySpent ↔ (sealer.old.key.next ≡ signatures_by sealer.old.key.height) }
        ensures unchanged { IsErrOf result SealFault.KeySpent → sealer.new ≡ sealer.old }
        // After `Want` the signature may be spent.
        ensures want { IsErrOf result SealFault.Want → (sealer.new ≡ sealer.old) ⊎ (sealer.new ≡ spent_one sealer.old) }
    {
        match self {
            Tellable::Ask(ask) => Ok(told(alloc, Frame::Request(sealer.seal(ask)?))?),
            Tellable::Local(local) => Ok(told(alloc, Frame::LocalCommit(sealer.seal(local)?))?),
            Tellable::Hole(hole) => Ok(told(alloc, Frame::FillHole(sealer.seal(hole)?))?),
            Tellable::Hate(hate) => Ok(told(alloc, Frame::Hate(sealer.seal(hate)?))?),
            Tellable::Check(check) => Ok(told(alloc, Frame::Checkpoint(sealer.seal(check)?))?),
            Tellable::Change(change) => {
                Ok(encoded_view(alloc, ViewFrame::ViewChange(sealer.seal(change)?))?)
            }
            Tellable::New(new) => Ok(encoded_view(alloc, ViewFrame::NewView(sealer.seal(new)?))?),
            Tellable::Began(began) => {
                Ok(encoded_view(alloc, ViewFrame::ViewConfirm(sealer.seal(began)?))?)
            }
            Tellable::Fetch(fetch) => Ok(encoded_view(
                alloc,
                ViewFrame::Fetch(sealer.seal(fetch)?),
            )?),
        }
    }
}

fn spelled_len<S: Spelled>(alloc: Global, value: &S) -> Result<usize, Want>
    requires { S.in_range value.now }
    ensures { IfOk result (λ len. len ≡ length (S.spelling.spell value.now)) }
{
    let mut out = Put::new(alloc);
    value.put(&mut out)?;
    Ok(out.len())
}

// No frame of normal operation is too long.
fn told(alloc: Global, frame: Frame) -> Result<Option<Bytes>, Want>
    requires { IsFrameInRange frame }
    ensures { IfOk result (IsEncoded (any.Plain frame)) }
{
    Ok(Some(encoded(alloc, frame)?))
}
