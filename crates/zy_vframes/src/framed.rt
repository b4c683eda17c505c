ghost use Rattle.zy_wire.specs.Getting.{Took};
ghost use Rattle.zy_vframes.specs.ViewFrames.{kind_of_frame, fields_of, FitsFrame, IsFrameInRange, frame_at, view_certificate, state};
ghost use Rattle.zy_vframes.specs.ViewFrameLaws.{frame-laws};

use crate::{ViewCert, ViewFrame};
use std::alloc::Global;
use zy_base::{Bytes, FrameFault, Place, Want};
use zy_parts::Signed;
use zy_wire::{Cut, Framed, GetFault, Put, Spelled, get_list, put_list};

impl Framed for ViewFrame {
    ghost kind_of = { kind_of_frame };

    ghost fields_of = { fields_of };

    ghost fits = { FitsFrame };

    ghost in_range = { IsFrameInRange };

    ghost fields_at = { frame_at };

    ghost laws = { frame-laws };

    fn kind(&self) -> u8 {
        match self {
            ViewFrame::ViewChange(_) => 11,
            ViewFrame::NewView(_) => 12,
            ViewFrame::ViewConfirm(_) => 13,
            ViewFrame::ViewCert(_) => 14,
            ViewFrame::Fetch(_) => 15,
            ViewFrame::State { .. } => 16,
        }
    }

    #[tactic(auto, unfolding(crate::specs::ViewFrames::fields_of, crate::specs::ViewFrames::FitsFrame))]
    fn put_fields(&self, out: &mut Put) -> Result<(), Want> {
        match self {
            ViewFrame::ViewChange(change) => change.put(out),
            ViewFrame::NewView(new) => new.put(out),
            ViewFrame::ViewConfirm(began) => began.put(out),
            ViewFrame::ViewCert(ViewCert { new, begans }) => {
                new.put(out)?;
                put_list(begans, out)
            }
            ViewFrame::Fetch(fetch) => fetch.put(out),
            ViewFrame::State { place, snapshot } => {
                out.u64(place.0)?;
                out.bytes32(snapshot.as_slice())
            }
        }
    }

    #[tactic(auto, unfolding(crate::specs::ViewFrames::frame_at))]
    fn get_fields(alloc: Global, kind: u8, cut: &mut Cut<'_>) -> Result<ViewFrame, GetFault> {
        match kind {
            11 => Ok(ViewFrame::ViewChange(Signed::get(alloc, cut)?)),
            12 => Ok(ViewFrame::NewView(Signed::get(alloc, cut)?)),
            13 => Ok(ViewFrame::ViewConfirm(Signed::get(alloc, cut)?)),
            14 => Ok(ViewFrame::ViewCert(view_cert(alloc, cut)?)),
            15 => Ok(ViewFrame::Fetch(Signed::get(alloc, cut)?)),
            16 => {
                let (place, snapshot) = state(alloc, cut)?;
                Ok(ViewFrame::State { place, snapshot })
            }
            _ => Err(GetFault::Frame(FrameFault::Kind)),
        }
    }
}

fn view_cert(alloc: Global, cut: &mut Cut<'_>) -> Result<ViewCert, GetFault>
    ensures { Took (λ f. f) view_certificate cut.old result cut.new }
{
    let new = Signed::get(alloc, cut)?;
    let begans = get_list(alloc, cut, 1, 16)?;
    Ok(ViewCert { new, begans })
}

fn state(alloc: Global, cut: &mut Cut<'_>) -> Result<(Place, Bytes), GetFault>
    ensures { Took (λ x. (x.0.0, x.1)) state cut.old result cut.new }
{
    let place = Place(cut.u62(0)?);
    let snapshot = Bytes::from_slice(alloc, cut.bytes32(MAX_SNAPSHOT)?)?;
    Ok((place, snapshot))
}

// Any length that four bytes hold: the limit on a frame is the one that counts.
const MAX_SNAPSHOT: usize = 0xffff_ffff;
