//! The text of a reply's bytes.

ghost use Rattle.std.specs.Prelude.{◌≡◌, ◌++◌, codes, IfOk};
ghost use Rattle.hex.specs.Hex.{encode_lower};
ghost use Rattle.zy_report.specs.Lines as lines;

use std::alloc::Global;
use zy_base::{Bytes, Want};
use zy_tuple::{ReplyFault, reply_read, reply_text};

/// The text of the reply that these bytes spell. Bytes that spell none are `raw` and their digits in lower case.
/// It is the end of a completion line, and has no line feed.
pub fn reply_line(alloc: Global, reply: &[u8]) -> Result<Bytes, Want>
    ensures { IfOk result (λ text. text ≡ lines.reply_line reply.now) }
{
    match reply_read(alloc, reply) {
        Ok(reply) => reply_text(alloc, &reply),
        Err(ReplyFault::NotReply) => raw_text(alloc, reply),
        Err(ReplyFault::Want) => Err(Want),
    }
}

fn raw_text(alloc: Global, bytes: &[u8]) -> Result<Bytes, Want>
    ensures { IfOk result (λ text. text ≡ codes "raw " ++ encode_lower bytes.now) }
{
    let digits = hex::encode(alloc, bytes)?;
    let text = format!(in alloc; "raw {digits}")?;
    Ok(Bytes::from(text.into_bytes()))
}
