ghost use Rattle.std.specs.Prelude.{◌≡◌, ◌∷◌, ◌++◌, ◌≤◌, [], length, None, Some, option_copied, IfOk, IsErr, IsOk, OnOk, OnErr, Err};
ghost use Rattle.zy_base.specs.declared.ids.Digest.{Digest as Sum};
ghost use Rattle.zy_book.specs.declared.fault.KeepFault.TheVariants.{Clash as Other};
ghost use Rattle.zy_chain.specs.Entries.{bytes_of_request};
ghost use Rattle.zy_frames.specs.Frames.{IsFrameInRange};
ghost use Rattle.zy_parts.specs.Statements.{IsAskInRange};
ghost use Rattle.zy_world_law.specs.Texts.{ask_texts, digest_of, frame_texts, texts_of};
ghost use Rattle.zy_world_law.specs.World.{first_texts};
ghost use Rattle.zy_world_setup.specs.Kept.{Clashes, IsShown, Keeps, look_up};
ghost use Rattle.zy_world_setup.specs.Reading.{IsInRange};
ghost use Rattle.zy_world_setup.specs.declared.fault.TextFault.TheVariants.{Clash};

use crate::fault::TextFault;
use crate::joined::{digest_joined, front_of};
use std::alloc::Global;
use std::marker::Model;
use zy_base::{ClientId, Digest, Party, Stamp, Want};
use zy_book::{Book, KeepFault};
use zy_chain::EMPTY_HEAD;
use zy_frames::Frame;
use zy_parts::{Ask, Signed};
use zy_table::AnyFrame;

/// Texts, one under each SHA-256 value (FIPS 180-4). Contracts see the digests with their texts, in any order.
#[derive(Drop)]
pub struct KeptTexts {
    book: Book,
}

impl Model for KeptTexts {
    ghost use Rattle.zy_world_setup.specs.Kept.{Pairs};

    ghost Value = { Pairs };

    ghost view = { λ kept. kept.book };
}

impl KeptTexts {
    /// The empty text alone, under the head of the empty history.
    pub fn new(alloc: Global) -> Result<KeptTexts, Want>
        ensures { IfOk result (IsShown first_texts) }
    {
        let mut book = Book::new(alloc);
        match book.keep(EMPTY_HEAD, &[], &[]) {
            Ok(()) => Ok(KeptTexts { book }),
            Err(_) => Err(Want),
        }
    }

    /// The text that is kept under a digest.
    pub fn text(&self, digest: &Digest) -> Option<&[u8]>
        ensures { option_copied result ≡ look_up self.now digest.now }
    {
        self.book.text(digest)
    }

    /// Keeps a text, unless another is kept under its digest. A text that is kept already takes no memory.
    pub fn keep(&mut self, text: &[u8]) -> Result<(), TextFault>
        ensures keeps { OnOk result (Keeps (text.now ∷ []) self.old self.new) }
        ensures clash { (d : Sum) → result ≡ Err (Clash d) → Clashes (text.now ∷ []) self.old d }
        ensures err { OnErr result (self.new ≡ self.old) }
    {
        self.keep_joined(&[], text)?;
        Ok(())
    }

    // The text of two pieces in a row. Beside it its digest.
    pub(crate) fn keep_joined(&mut self, front: &[u8], rest: &[u8]) -> Result<Digest, TextFault>
        ensures digest { IfOk result (λ d. d ≡ digest_of (front.now ++ rest.now)) }
        ensures keeps { OnOk result (Keeps ((front.now ++ rest.now) ∷ []) self.old self.new) }
        ensures clash { (d : Sum) → result ≡ Err (Clash d) → Clashes ((front.now ++ rest.now) ∷ []) self.old d }
        ensures err { OnErr result (self.new ≡ self.old) }
    {
        let digest = digest_joined(front, rest);
        let kept = self.book.keep(digest, front, rest);
        answered(kept, digest)
    }

    /// Keeps what a frame brings: the entry of a client's request, a reply, of each entry that is reported its bytes and its
    /// link, or a snapshot. After a fault the texts before it may be kept.
    pub fn keep_frame(&mut self, frame: &AnyFrame) -> Result<(), TextFault>
        requires { IsInRange frame.now }
        ensures keeps { OnOk result (Keeps (texts_of frame.now) self.old self.new) }
        ensures clash { (d : Sum) → result ≡ Err (Clash d) → Clashes (texts_of frame.now) self.old d }
    {
        match frame {
            AnyFrame::Plain(frame) => self.keep_plain(frame),
            AnyFrame::View(frame) => self.keep_view_frame(frame),
        }
    }

    // What a frame of normal operation brings.
    fn keep_plain(&mut self, frame: &Frame) -> Result<(), TextFault>
        requires { IsFrameInRange frame.now }
        ensures keeps { OnOk result (Keeps (frame_texts frame.now) self.old self.new) }
        ensures clash { (d : Sum) → result ≡ Err (Clash d) → Clashes (frame_texts frame.now) self.old d }
        ensures err { OnErr result (self.new ≡ self.old) }
    {
        match frame {
            Frame::Request(ask) => self.keep_ask(ask),
            Frame::Order(both) => self.keep_ask(&both.ask),
            Frame::SpecResponse { reply, .. } => self.keep(reply.as_slice()),
            Frame::ConfirmReq { ask, .. } => self.keep_ask(ask),
            Frame::Commit(_) => Ok(()),
            Frame::LocalCommit(_) => Ok(()),
            Frame::FillHole(_) => Ok(()),
            Frame::Hate(_) => Ok(()),
            Frame::Pom(_, _) => Ok(()),
            Frame::Checkpoint(_) => Ok(()),
        }
    }

    fn keep_ask(&mut self, ask: &Signed<Ask>) -> Result<(), TextFault>
        requires { IsAskInRange ask.now.stmt }
        ensures keeps { OnOk result (Keeps (ask_texts ask.now) self.old self.new) }
        ensures clash { (d : Sum) → result ≡ Err (Clash d) → Clashes (ask_texts ask.now) self.old d }
        ensures err { OnErr result (self.new ≡ self.old) }
    {
        match ask.by {
            Party::Client(client) => {
                self.keep_entry(client, ask.stmt.stamp, ask.stmt.op.as_slice())?;
                Ok(())
            }
            Party::Replica(_) => Ok(()),
        }
    }

    // An entry's bytes, which lie in two pieces. Beside them the entry's digest.
    pub(crate) fn keep_entry(
        &mut self,
        client: ClientId,
        stamp: Stamp,
        op: &[u8],
    ) -> Result<Digest, TextFault>
        requires { length op.now ≤ 1100 }
        ensures digest { IfOk result (λ d. d ≡ digest_of (bytes_of_request client stamp op.now)) }
        ensures keeps { OnOk result (Keeps (bytes_of_request client stamp op.now ∷ []) self.old self.new) }
        ensures clash { (d : Sum) → result ≡ Err (Clash d) → Clashes (bytes_of_request client stamp op.now ∷ []) self.old d }
        ensures err { OnErr result (self.new ≡ self.old) }
    {
        let front = front_of(client, stamp, op.len() as u16);
        self.keep_joined(&front, op)
    }
}

// What a book answers, with the digest of the text that it was to keep.
fn answered(kept: Result<(), KeepFault>, digest: Digest) -> Result<Digest, TextFault>
    ensures digest { IfOk result (λ d. d ≡ digest) }
    ensures kept { OnOk result (IsOk kept) }
    ensures clash { (d : Sum) → result ≡ Err (Clash d) → (kept ≡ Err Other) × (d ≡ digest) }
    ensures err { OnErr result (IsErr kept) }
{
    match kept {
        Ok(()) => Ok(digest),
        Err(KeepFault::Clash) => Err(TextFault::Clash(digest)),
        Err(KeepFault::Want) => Err(TextFault::Want),
    }
}
