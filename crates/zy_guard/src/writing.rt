//! The texts of replies.

ghost use Rattle.std.specs.Prelude.{◌≡◌, IfOk};
ghost use Rattle.zy_guard.specs.declared.values.GuardReply.{GuardReply};
ghost use Rattle.zy_guard.specs.Bytes.{guard_reply_bytes};
ghost use Rattle.zy_guard.specs.GuardedSpace.{IsGuardReply};
ghost use Rattle.zy_guard.specs.Lines as lines;

use std::alloc::Global;
use zy_base::{Bytes, Want};
use zy_tuple::{ReplyFault, reply_read, reply_text};

/// The text of the reply that these bytes spell. Bytes that spell none are `raw` and their digits in lower case.
pub fn greply_text(alloc: Global, bytes: &[u8]) -> Result<Bytes, Want>
    ensures said { (reply : GuardReply) → IsGuardReply reply → bytes.now ≡ guard_reply_bytes reply → IfOk result (λ text. text ≡ lines.guard_reply_text reply) }
    ensures raw { ((reply : GuardReply) → IsGuardReply reply → bytes.now ≡ guard_reply_bytes reply → ⊥) → IfOk result (λ text. text ≡ lines.raw_text bytes.now) }
{
    match reply_read(alloc, bytes) {
        Ok(reply) => reply_text(alloc, &reply),
        Err(ReplyFault::NotReply) => other_text(alloc, bytes),
        Err(ReplyFault::Want) => Err(Want),
    }
}

// The text of bytes that spell no reply of the tuple space.
fn other_text(alloc: Global, bytes: &[u8]) -> Result<Bytes, Want>
    ensures { IfOk result (λ text. text ≡ lines.other_text bytes.now) }
{
    let text = match bytes {
        [7, rule @ 1..=4] => format!(in alloc; "denied {rule}")?,
        _ => {
            let digits = hex::encode(alloc, bytes)?;
            format!(in alloc; "raw {digits}")?
        }
    };
    Ok(Bytes::from(text.into_bytes()))
}
