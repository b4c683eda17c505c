// The lower keys of two levels (RFC 8554, section 6.2).

ghost use Rattle.std.specs.Prelude.{◌≡◌, ◌^◌, ◌<◌, ◌++◌, IfOk, IfSome};
ghost use Rattle.std.specs.Int.{w32, to_be_bytes};
ghost use Rattle.zy_lms.specs.Height.{levels_of};
ghost use Rattle.zy_lms.specs.KeyState.{at_leaf};
ghost use Rattle.zy_lms.specs.Lms.{signature_of};
ghost use Rattle.zy_lms.specs.Hss.{IsLowerKey};

use crate::key::LmsKey;
use zy_base::{Bytes, Want};

/// The first number of a signature: how many public keys it has, one fewer than there are levels.
pub(crate) const SIGNED_KEYS: u32 = 1;

/// The length of an LMS public key in bytes.
pub(crate) const PUBLIC_LEN: usize = 56;

/// A lower key with the leaf of the top key that it lies under.
#[derive(Drop)]
pub(crate) struct LowerKey {
    pub(crate) leaf: u32,
    pub(crate) key: LmsKey,
    // The top key's signature of its public key, and that key: signed_pub_key[0].
    pub(crate) signed: Bytes,
}

impl LowerKey {
    /// The lower key under a leaf, made and signed: as long a work as making the top key.
    pub(crate) fn under(top: &LmsKey, leaf: u32) -> Result<LowerKey, Want>
        requires { leaf < 2 ^ levels_of top.now.height }
        ensures at { IfOk result (λ l. l.leaf ≡ leaf) }
        ensures lower { IfOk result (λ l. IsLowerKey top.now l.leaf l.key l.signed) }
    {
        let key = top.key_under(leaf)?;
        let signed = signed_key(top, leaf, &key.public())?;
        Ok(LowerKey { leaf, key, signed })
    }

    /// A signature of two levels, whose lower signature is by this leaf. One leaf must not sign two messages.
    pub(crate) fn signature(&self, leaf: u32, message: &[u8]) -> Result<Bytes, Want>
        requires { leaf < 2 ^ levels_of self.now.key.height }
        ensures { IfOk result (λ s. s ≡ to_be_bytes w32 1 ++ self.now.signed ++ signature_of (at_leaf self.now.key leaf) message.now) }
    {
        let len = 4 + PUBLIC_LEN + 2 * self.key.signature_len();
        let mut out = self.key.room_for(len)?;
        out.extend_from_slice(&SIGNED_KEYS.to_be_bytes())?;
        out.extend_from_slice(self.signed.as_slice())?;
        Ok(self.key.signature_onto(out, leaf, message)?.into())
    }
}

/// The lower key under a leaf: the kept one, if it lies there, else made anew.
pub(crate) fn lower_at(kept: Option<LowerKey>, top: &LmsKey, leaf: u32) -> Result<LowerKey, Want>
    requires within { leaf < 2 ^ levels_of top.now.height }
    requires is_lower { IfSome kept (λ l. IsLowerKey top.now l.leaf l.key l.signed) }
    ensures at { IfOk result (λ l. l.leaf ≡ leaf) }
    ensures lower { IfOk result (λ l. IsLowerKey top.now l.leaf l.key l.signed) }
{
    if let Some(lower) = kept {
        if lower.leaf == leaf {
            return Ok(lower);
        }
    }
    LowerKey::under(top, leaf)
}

// A lower public key behind the signature of it by a leaf of the top key.
fn signed_key(top: &LmsKey, leaf: u32, public: &[u8; 56]) -> Result<Bytes, Want>
    requires { leaf < 2 ^ levels_of top.now.height }
    ensures { IfOk result (λ s. s ≡ signature_of (at_leaf top.now leaf) public.now ++ public.now) }
{
    let out = top.room_for(top.signature_len() + PUBLIC_LEN)?;
    let mut out = top.signature_onto(out, leaf, public)?;
    out.extend_from_slice(public)?;
    Ok(out.into())
}
