ghost use Rattle.std.specs.Prelude.{◌≡◌, ℕ, ◌<◌, ◌≤◌, List, ◌++◌, length, Result, Ok, OnOk, IfOk, IsErrOf};
ghost use Rattle.zy_base.specs.declared.frame_fault.FrameFault.{FrameFault};
ghost use Rattle.zy_wire.specs.Kind.{frame_limit};
ghost use Rattle.zy_wire.specs.Getting.{TookAt, Decodes};
ghost use Rattle.zy_wire.specs.Framing.{frame_bytes, framed_in, IsFraming};

use crate::{Cut, EncodeFault, GetFault, MAX_FRAME, Put, VERSION, kind_of};
use std::alloc::Global;
use zy_base::{Bytes, Want};

/// A value of one of several kinds, each with its fields.
pub trait Framed: Drop {
    // The number of its kind.
    ghost kind_of: { Self → ℕ };

    // The bytes of its fields.
    ghost fields_of: { Self → List ℕ };

    // What has a spelling.
    ghost fits: { Self → Type 0 };

    // What it may hold, beside what its types say.
    ghost in_range: { Self → Type 0 };

    // The fields of a kind, and the bytes after them.
    ghost fields_at: { ℕ → List ℕ → Result (Self × List ℕ) FrameFault };

    /// The number of its kind.
    fn kind(&self) -> u8
        ensures { result ≡ kind_of self.now };

    /// Writes its fields at the end. After `Want` some of the bytes may stand there.
    fn put_fields(&self, out: &mut Put) -> Result<(), Want>
        requires { in_range self.now }
        ensures { OnOk result (fits self.now × (out.new ≡ out.old ++ fields_of self.now)) };

    /// Reads the fields of a kind. After a refusal the reader stands anywhere.
    fn get_fields(alloc: Global, kind: u8, cut: &mut Cut<'_>) -> Result<Self, GetFault>
        ensures { TookAt (fields_at kind) cut.old result cut.new };

    ghost laws: { IsFraming kind_of fields_of fits in_range fields_at };
}

/// The value that all of the bytes spell: the version, a kind, its fields and nothing behind them. The fault is the
/// first one from the left.
pub fn decode<F: Framed>(alloc: Global, bytes: &[u8]) -> Result<F, GetFault>
    // What is decoded was spelled so.
    ensures found { IfOk result (λ x. F.fits x × (bytes.now ≡ frame_bytes F.kind_of F.fields_of x) × (length bytes.now ≤ frame_limit)) }
    ensures in_range { IfOk result F.in_range }
    // What is spelled so is decoded, unless memory runs out.
    ensures only { (x : F) → F.fits x → bytes.now ≡ frame_bytes F.kind_of F.fields_of x → length bytes.now ≤ frame_limit → Decodes result (Ok x) }
    // Which fault it is.
    ensures exact { Decodes result (framed_in F.fields_at bytes.now) }
{
    read(alloc, bytes)
}

#[tactic(auto, unfolding(crate::specs::Framing::framed_in))]
fn read<F: Framed>(alloc: Global, bytes: &[u8]) -> Result<F, GetFault>
    ensures { Decodes result (framed_in F.fields_at bytes.now) }
{
    let kind = kind_of(bytes)?;
    let mut cut = Cut::new(&bytes[2..]);
    let value = F::get_fields(alloc, kind, &mut cut)?;
    cut.end()?;
    Ok(value)
}

/// The one spelling of a value: the version, the kind and the fields. `TooLong` exactly where it has more than
/// 8,388,608 bytes.
pub fn encode<F: Framed>(alloc: Global, value: &F) -> Result<Bytes, EncodeFault>
    requires { F.in_range value.now }
    ensures ok { IfOk result (λ b. (b ≡ frame_bytes F.kind_of F.fields_of value.now) × (length b ≤ frame_limit)) }
    ensures fits { OnOk result (F.fits value.now) }
    ensures too_long { IsErrOf result EncodeFault.TooLong → F.fits value.now × (frame_limit < length (frame_bytes F.kind_of F.fields_of value.now)) }
{
    let mut out = Put::new(alloc);
    out.raw(&[VERSION, value.kind()])?;
    value.put_fields(&mut out)?;
    if out.len() > MAX_FRAME {
        return Err(EncodeFault::TooLong);
    }
    Ok(out.done())
}
