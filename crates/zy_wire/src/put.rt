ghost use Rattle.std.specs.Prelude.{◌≡◌, ◌↔◌, IsTrue, ℕ, List, [], ◌++◌, length, OnOk, OnErr, take, ◌<◌, ◌^◌};
ghost use Rattle.std.specs.Int.{w8, w16, w32, w64};
ghost use Rattle.zy_wire.specs.Spelling.{bytes_of};
ghost use Rattle.zy_wire.specs.Fields.{party_bytes, IsParty};

use crate::party_array;
use std::alloc::Global;
use std::marker::Model;
use zy_base::{Bytes, Digest, Party, Want};

/// Bytes that are written at the end. Contracts see the bytes so far. A writer that answers `Want` leaves them as
/// they were. The room grows by doubling.
#[derive(Drop)]
pub struct Put {
    bytes: Vec<u8>,
}

impl Model for Put {
    ghost Value = { List ℕ };

    ghost view = { λ p. p.bytes.items };
}

impl Put {
    /// No bytes. Takes no memory.
    pub fn new(alloc: Global) -> Put
        ensures { result ≡ [] }
    {
        Put {
            bytes: Vec::new(alloc),
        }
    }

    pub fn len(&self) -> usize
        ensures { result ≡ length self.now }
    {
        self.bytes.len()
    }

    pub fn is_empty(&self) -> bool
        ensures { IsTrue result ↔ (self.now ≡ []) }
    {
        self.bytes.is_empty()
    }

    pub fn raw(&mut self, bytes: &[u8]) -> Result<(), Want>
        ensures ok { OnOk result (self.new ≡ self.old ++ bytes.now) }
        ensures err { OnErr result (self.new ≡ self.old) }
    {
        self.bytes.extend_from_slice(bytes)?;
        Ok(())
    }

    #[tactic(auto, unfolding(crate::specs::Spelling::bytes_of))]
    pub fn u8(&mut self, x: u8) -> Result<(), Want>
        ensures ok { OnOk result (self.new ≡ self.old ++ bytes_of w8 x) }
        ensures err { OnErr result (self.new ≡ self.old) }
    {
        self.raw(&x.to_be_bytes())
    }

    #[tactic(auto, unfolding(crate::specs::Spelling::bytes_of))]
    pub fn u16(&mut self, x: u16) -> Result<(), Want>
        ensures ok { OnOk result (self.new ≡ self.old ++ bytes_of w16 x) }
        ensures err { OnErr result (self.new ≡ self.old) }
    {
        self.raw(&x.to_be_bytes())
    }

    #[tactic(auto, unfolding(crate::specs::Spelling::bytes_of))]
    pub fn u32(&mut self, x: u32) -> Result<(), Want>
        ensures ok { OnOk result (self.new ≡ self.old ++ bytes_of w32 x) }
        ensures err { OnErr result (self.new ≡ self.old) }
    {
        self.raw(&x.to_be_bytes())
    }

    #[tactic(auto, unfolding(crate::specs::Spelling::bytes_of))]
    pub fn u64(&mut self, x: u64) -> Result<(), Want>
        ensures ok { OnOk result (self.new ≡ self.old ++ bytes_of w64 x) }
        ensures err { OnErr result (self.new ≡ self.old) }
    {
        self.raw(&x.to_be_bytes())
    }

    pub fn digest(&mut self, x: &Digest) -> Result<(), Want>
        ensures ok { OnOk result (self.new ≡ self.old ++ x.now.0) }
        ensures err { OnErr result (self.new ≡ self.old) }
        ensures fits { length x.now.0 ≡ 32 }
    {
        let bytes = x.0;
        self.raw(&bytes)
    }

    pub fn party(&mut self, x: Party) -> Result<(), Want>
        ensures ok { OnOk result (self.new ≡ self.old ++ party_bytes x) }
        ensures err { OnErr result (self.new ≡ self.old) }
        ensures fits { IsParty x }
    {
        let bytes = party_array(x);
        self.raw(&bytes)
    }

    /// The length in two bytes, and the bytes.
    pub fn bytes16(&mut self, bytes: &[u8]) -> Result<(), Want>
        requires { length bytes.now < 2 ^ 16 }
        ensures ok { OnOk result (self.new ≡ self.old ++ (bytes_of w16 (length bytes.now) ++ bytes.now)) }
        ensures err { OnErr result (self.new ≡ self.old) }
    {
        let start = self.bytes.len();
        self.u16(bytes.len() as u16)?;
        self.raw_or_cut(bytes, start)
    }

    /// The length in four bytes, and the bytes.
    pub fn bytes32(&mut self, bytes: &[u8]) -> Result<(), Want>
        requires { length bytes.now < 2 ^ 32 }
        ensures ok { OnOk result (self.new ≡ self.old ++ (bytes_of w32 (length bytes.now) ++ bytes.now)) }
        ensures err { OnErr result (self.new ≡ self.old) }
    {
        let start = self.bytes.len();
        self.u32(bytes.len() as u32)?;
        self.raw_or_cut(bytes, start)
    }

    // Writes the bytes, or goes back to the first `len`.
    fn raw_or_cut(&mut self, bytes: &[u8], len: usize) -> Result<(), Want>
        ensures ok { OnOk result (self.new ≡ self.old ++ bytes.now) }
        ensures err { OnErr result (self.new ≡ take len self.old) }
    {
        let written = self.raw(bytes);
        if written.is_err() {
            self.bytes.truncate(len);
        }
        written
    }

    /// The bytes. Takes no memory.
    pub fn done(self) -> Bytes
        ensures { result ≡ self }
    {
        let Put { bytes } = self;
        Bytes::from(bytes)
    }
}
