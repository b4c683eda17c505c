//! Texts in two pieces, which are compared as they lie.

ghost use Rattle.std.specs.Prelude.{◌≡◌, ◌++◌, IfOk};
ghost use Rattle.std.specs.Str.{bytes_eq};

use std::alloc::Global;
use zy_base::{Bytes, Want};

// Whether a text is both pieces in a row.
pub(crate) fn is_joined(text: &[u8], front: &[u8], rest: &[u8]) -> bool
    ensures { result ≡ bytes_eq text.now (front.now ++ rest.now) }
{
    match text.strip_prefix(front) {
        Some(behind) => behind == rest,
        None => false,
    }
}

pub(crate) fn bytes_joined(alloc: Global, front: &[u8], rest: &[u8]) -> Result<Bytes, Want>
    ensures { IfOk result (λ text. text ≡ front.now ++ rest.now) }
{
    let mut text = Vec::with_capacity(alloc, front.len() + rest.len())?;
    text.extend_from_slice(front)?;
    text.extend_from_slice(rest)?;
    Ok(Bytes::from(text))
}
