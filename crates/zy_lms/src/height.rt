ghost use Rattle.std.specs.Prelude.{◌≡◌, ◌^◌, ◌≤◌};

use zy_ots::OtsType;

/// The height of an LMS tree over SHA-256 with m = 32.
#[derive(Clone, Copy, Debug, PartialEq, Eq)]
pub enum Height {
    /// LMS_SHA256_M32_H5: 32 leaves.
    H5,
    /// LMS_SHA256_M32_H10: 1,024 leaves.
    H10,
}

impl Height {
    ghost use Rattle.zy_lms.specs.Height.{type_number_of, height_with, levels_of, signatures_of};
    ghost use Rattle.zy_lms.specs.Lms.{signature_len_of};

    /// The number of the LMS type of this height in the registry of RFC 8554.
    pub fn number(self) -> u32
        ensures { result ≡ type_number_of self }
    {
        match self {
            Height::H5 => 5,
            Height::H10 => 6,
        }
    }

    /// The height whose LMS type has this number.
    pub fn from_number(number: u32) -> Option<Height>
        ensures { result ≡ height_with number }
    {
        match number {
            5 => Some(Height::H5),
            6 => Some(Height::H10),
            _ => None,
        }
    }

    /// How many levels lie above the leaves.
    pub fn levels(self) -> usize
        ensures { result ≡ levels_of self }
    {
        match self {
            Height::H5 => 5,
            Height::H10 => 10,
        }
    }

    /// How many leaves a tree of this height has.
    pub fn leaf_count(self) -> u32
        ensures { result ≡ 2 ^ levels_of self }
    {
        match self {
            Height::H5 => 32,
            Height::H10 => 1024,
        }
    }

    /// How many signatures a key of two levels of such trees gives.
    pub fn signature_count(self) -> u32
        ensures { result ≡ signatures_of self }
    {
        match self {
            Height::H5 => 1_024,
            Height::H10 => 1_048_576,
        }
    }
    /// The length in bytes of a signature by a tree of this height over one-time keys of this type.
    pub(crate) fn signature_len(self, ots: OtsType) -> usize
        ensures value { result ≡ signature_len_of self ots }
        ensures short { result ≤ 2508 }
    {
        8 + ots.signature_len() + 32 * self.levels()
    }
}
