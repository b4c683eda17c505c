ghost use Rattle.std.specs.Prelude.{◌≡◌};

/// The LM-OTS types over SHA-256 with n = 32 that are spoken here.
#[derive(Clone, Copy, Debug, PartialEq, Eq)]
pub enum OtsType {
    /// LMOTS_SHA256_N32_W4: coefficients of 4 bits, 67 chains of 15 steps.
    W4,
    /// LMOTS_SHA256_N32_W8: coefficients of 8 bits, 34 chains of 255 steps.
    W8,
}

impl OtsType {
    ghost use Rattle.zy_ots.specs.OtsType.{number_of, type_with, chain_count_of, checksum_shift_of, last_place_of, digest_coef_count_of, signature_len_of};

    /// The number of the type in the registry of RFC 8554.
    pub fn number(self) -> u32
        ensures { result ≡ number_of self }
    {
        match self {
            OtsType::W4 => 3,
            OtsType::W8 => 4,
        }
    }

    /// The type that has this number.
    pub fn from_number(number: u32) -> Option<OtsType>
        ensures { result ≡ type_with number }
    {
        match number {
            3 => Some(OtsType::W4),
            4 => Some(OtsType::W8),
            _ => None,
        }
    }

    /// The length of a signature in bytes.
    pub fn signature_len(self) -> usize
        ensures { result ≡ signature_len_of self }
    {
        match self {
            OtsType::W4 => 2180,
            OtsType::W8 => 1124,
        }
    }

    pub(crate) fn chain_count(self) -> u16
        ensures { result ≡ chain_count_of self }
    {
        match self {
            OtsType::W4 => 67,
            OtsType::W8 => 34,
        }
    }

    // The place where a chain ends, which is the greatest coefficient.
    pub(crate) fn last_place(self) -> u8
        ensures { result ≡ last_place_of self }
    {
        match self {
            OtsType::W4 => 15,
            OtsType::W8 => 255,
        }
    }

    pub(crate) fn digest_coef_count(self) -> usize
        ensures { result ≡ digest_coef_count_of self }
    {
        match self {
            OtsType::W4 => 64,
            OtsType::W8 => 32,
        }
    }

    pub(crate) fn checksum_shift(self) -> u32
        ensures { result ≡ checksum_shift_of self }
    {
        match self {
            OtsType::W4 => 4,
            OtsType::W8 => 0,
        }
    }
}
