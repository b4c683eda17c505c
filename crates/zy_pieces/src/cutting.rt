ghost use Rattle.std.specs.Prelude.{◌≡◌, ◌*◌, ◌≤◌, length, IfOk};
ghost use Rattle.zy_pieces.specs.Pieces.{cut_of, datagram_of, payload_at};
ghost use Rattle.zy_wire.specs.Kind.{frame_limit};

use crate::piece::{HEADER_LEN, MAX_PAYLOAD, VERSION};
use sha2::{Digest as Hasher, Sha256};
use std::alloc::Global;
use zy_base::{Bytes, Digest, Want};

/// The datagrams of a frame of 1 to 8,388,608 bytes, one for each piece, in order.
#[tactic(auto, using(crate::proofs::CutLemmas::rounded_up))]
pub fn cut(alloc: Global, frame: &[u8]) -> Result<Vec<Bytes>, Want>
    requires some_byte { 1 ≤ length frame.now }
    requires not_too_long { length frame.now ≤ frame_limit }
    ensures { IfOk result (λ datagrams. datagrams.items ≡ cut_of frame.now) }
{
    let digest = Digest(Sha256::digest(frame));
    let count = frame.len().div_ceil(MAX_PAYLOAD);
    let mut datagrams = Vec::with_capacity(alloc, count)?;
    for index in 0..count {
        let payload = payload_at(frame, index);
        datagrams.push(datagram(alloc, &digest, index as u16, count as u16, payload)?)?;
    }
    Ok(datagrams)
}

// The bytes of the piece with this place.
#[tactic(auto, using(std::proofs::lemmas::List::take_min))]
fn payload_at(frame: &[u8], index: usize) -> &[u8]
    requires { 8192 * index ≤ length frame.now }
    ensures payload { result.now ≡ payload_at frame.now index }
    ensures len { length result.now ≤ 8192 }
{
    let (_, rest) = frame.split_at(MAX_PAYLOAD * index);
    &rest[..MAX_PAYLOAD.min(rest.len())]
}

fn datagram(
    alloc: Global,
    digest: &Digest,
    index: u16,
    count: u16,
    payload: &[u8],
) -> Result<Bytes, Want>
    requires { length payload.now ≤ 8192 }
    ensures { IfOk result (λ bytes. bytes ≡ datagram_of (record { digest = digest.now; index = index; count = count; payload = payload.now })) }
{
    let mut bytes = Vec::with_capacity(alloc, HEADER_LEN + payload.len())?;
    bytes.push(VERSION)?;
    bytes.extend_from_slice(&digest.0)?;
    bytes.extend_from_slice(&index.to_be_bytes())?;
    bytes.extend_from_slice(&count.to_be_bytes())?;
    bytes.extend_from_slice(payload)?;
    Ok(Bytes::from(bytes))
}
