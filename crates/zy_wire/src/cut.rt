ghost use Rattle.std.specs.Prelude.{◌≡◌, ℕ, ◌+◌, ◌^◌, ◌<◌, ◌≤◌, List, [], length, IfOk, if◌then◌else◌};
ghost use Rattle.std.specs.Int.{w8, w16, w32, w64};
ghost use Rattle.zy_wire.specs.Spelling.{word, exactly, number, ended};
ghost use Rattle.zy_wire.specs.Fields.{u62, digest, party, IsParty, bytes16, bytes32};
ghost use Rattle.zy_wire.specs.Reading.{Reads, ReadsBy};

use std::marker::Model;
use zy_base::{ClientId, Digest, FrameFault, Party, ReplicaId};

/// Bytes that are read from the left. Contracts see the bytes that are left. No reader takes memory, and one that
/// answers a fault leaves the bytes as they were.
#[derive(Drop)]
pub struct Cut<'a> {
    left: &'a [u8],
}

impl<'a> Model for Cut<'a> {
    ghost Value = { List ℕ };

    ghost view = { λ c. c.left.now };
}

impl<'a> Cut<'a> {
    pub fn new(bytes: &'a [u8]) -> Cut<'a>
        ensures { result ≡ bytes.now }
    {
        Cut { left: bytes }
    }

    /// Another reader of the bytes that are left. What it reads is read from this one only once it takes its place.
    pub fn ahead(&self) -> Cut<'a>
        ensures { result ≡ self.now }
    {
        Cut { left: self.left }
    }

    /// So many bytes as they are. `Short` where fewer are left.
    #[tactic(auto, unfolding(crate::specs::Spelling::exactly_at))]
    pub fn take(&mut self, len: usize) -> Result<&'a [u8], FrameFault>
        ensures read { ReadsBy (λ s. s.now) (exactly len) self.old result self.new }
        ensures len { IfOk result (λ s. length s.now ≡ len) }
    {
        if self.left.len() < len {
            return Err(FrameFault::Short);
        }
        let (front, rest) = self.left.split_at(len);
        self.left = rest;
        Ok(front)
    }

    #[tactic(auto, unfolding(crate::specs::Spelling::word_at, crate::specs::Spelling::exactly_at))]
    pub fn u8(&mut self) -> Result<u8, FrameFault>
        ensures { Reads (word w8) self.old result self.new }
    {
        let bytes = self.take(1)?;
        Ok(bytes[0])
    }

    #[tactic(auto, unfolding(crate::specs::Spelling::word_at, crate::specs::Spelling::exactly_at))]
    pub fn u16(&mut self) -> Result<u16, FrameFault>
        ensures { Reads (word w16) self.old result self.new }
    {
        let bytes = self.take(2)?;
        Ok(u16::from_be_bytes([bytes[0], bytes[1]]))
    }

    #[tactic(auto, unfolding(crate::specs::Spelling::word_at, crate::specs::Spelling::exactly_at))]
    pub fn u32(&mut self) -> Result<u32, FrameFault>
        ensures { Reads (word w32) self.old result self.new }
    {
        let bytes = self.take(4)?;
        Ok(u32::from_be_bytes([bytes[0], bytes[1], bytes[2], bytes[3]]))
    }

    #[tactic(auto, unfolding(crate::specs::Spelling::word_at, crate::specs::Spelling::exactly_at))]
    pub fn u64(&mut self) -> Result<u64, FrameFault>
        ensures { Reads (word w64) self.old result self.new }
    {
        let bytes = self.take(8)?;
        Ok(u64::from_be_bytes([
            bytes[0], bytes[1], bytes[2], bytes[3], bytes[4], bytes[5], bytes[6], bytes[7],
        ]))
    }

    #[tactic(auto, unfolding(crate::specs::Fields::digest_at))]
    pub fn digest(&mut self) -> Result<Digest, FrameFault>
        ensures read { Reads digest self.old result self.new }
        ensures in_range { IfOk result (λ d. length d.0 ≡ 32) }
    {
        let bytes = self.take(32)?;
        let mut digest = [0; 32];
        digest.copy_from_slice(bytes);
        Ok(Digest(digest))
    }

    /// A number of 64 bits below 2^62: a view, a place or a stamp. `Range` where it is below `least` or too large.
    #[tactic(auto, unfolding(crate::specs::Spelling::number_at))]
    pub fn u62(&mut self, least: u64) -> Result<u64, FrameFault>
        ensures read { Reads (u62 least) self.old result self.new }
        ensures in_range { IfOk result (λ n. (least ≤ n) × (n < 2 ^ 62)) }
    {
        let mut ahead = self.ahead();
        let number = ahead.u64()?;
        if number < least || number >= 1 << 62 {
            return Err(FrameFault::Range);
        }
        *self = ahead;
        Ok(number)
    }

    /// The count of a list: `Range` where it isn't from `min` to `max`.
    #[tactic(auto, unfolding(crate::specs::Spelling::number_at))]
    pub fn count(&mut self, min: u16, max: u16) -> Result<u16, FrameFault>
        ensures read { Reads (number w16 min (max + 1)) self.old result self.new }
        ensures in_range { IfOk result (λ n. (min ≤ n) × (n ≤ max)) }
    {
        let mut ahead = self.ahead();
        let count = ahead.u16()?;
        if count < min || count > max {
            return Err(FrameFault::Range);
        }
        *self = ahead;
        Ok(count)
    }

    /// A byte of 0 or 1: `Range` where it is another.
    #[tactic(auto, unfolding(crate::specs::Spelling::number_at))]
    pub fn flag(&mut self) -> Result<bool, FrameFault>
        ensures { ReadsBy (λ b. if b then 1 else 0) (number w8 0 2) self.old result self.new }
    {
        let mut ahead = self.ahead();
        let flag = match ahead.u8()? {
            0 => false,
            1 => true,
            _ => return Err(FrameFault::Range),
        };
        *self = ahead;
        Ok(flag)
    }

    /// A party's five bytes: `Range` where the first is neither 0 nor 1, or a replica is above 255.
    #[tactic(auto, unfolding(crate::specs::Fields::party_at))]
    pub fn party(&mut self) -> Result<Party, FrameFault>
        ensures read { Reads party self.old result self.new }
        ensures in_range { IfOk result IsParty }
    {
        let mut ahead = self.ahead();
        let kind = ahead.u8()?;
        let number = ahead.u32()?;
        let party = match kind {
            0 => match u8::try_from(number) {
                Ok(id) => Party::Replica(ReplicaId(id)),
                Err(_) => return Err(FrameFault::Range),
            },
            1 => Party::Client(ClientId(number)),
            _ => return Err(FrameFault::Range),
        };
        *self = ahead;
        Ok(party)
    }

    /// A length of two bytes and that many bytes: `Range` where the length is above `max`.
    #[tactic(auto, unfolding(crate::specs::Fields::bytes_at, crate::specs::Spelling::number_at))]
    pub fn bytes16(&mut self, max: usize) -> Result<&'a [u8], FrameFault>
        ensures read { ReadsBy (λ s. s.now) (bytes16 max) self.old result self.new }
        ensures in_range { IfOk result (λ s. length s.now ≤ max) }
    {
        let mut ahead = self.ahead();
        let len = ahead.u16()? as usize;
        if len > max {
            return Err(FrameFault::Range);
        }
        let bytes = ahead.take(len)?;
        *self = ahead;
        Ok(bytes)
    }

    /// The same with a length of four bytes.
    #[tactic(auto, unfolding(crate::specs::Fields::bytes_at, crate::specs::Spelling::number_at))]
    pub fn bytes32(&mut self, max: usize) -> Result<&'a [u8], FrameFault>
        ensures read { ReadsBy (λ s. s.now) (bytes32 max) self.old result self.new }
        ensures in_range { IfOk result (λ s. length s.now ≤ max) }
    {
        let mut ahead = self.ahead();
        let len = ahead.u32()? as usize;
        if len > max {
            return Err(FrameFault::Range);
        }
        let bytes = ahead.take(len)?;
        *self = ahead;
        Ok(bytes)
    }

    /// `Trailing` exactly where bytes are left.
    pub fn end(&mut self) -> Result<(), FrameFault>
        ensures answer { result ≡ ended tt self.old }
        ensures left { self.new ≡ self.old }
    {
        if self.left.is_empty() {
            Ok(())
        } else {
            Err(FrameFault::Trailing)
        }
    }
}
