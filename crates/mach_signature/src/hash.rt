//! The hashes of a code directory (`cs_blobs.h`, CS_HASHTYPE).

ghost use Rattle.std.specs.Prelude.{◌≡◌, take};
ghost use Rattle.std.specs.Str.{bytes_eq};
ghost use Rattle.mach_signature.specs.Hashes as defined;
ghost use Rattle.mach_signature.specs.Hashes.{hash_bytes, hash_of};

use mach_base::array_at;
use sha1::Sha1;
use sha2::{Digest, Sha256, Sha384};

/// The hash that a code directory uses.
#[derive(Clone, Copy, Debug, PartialEq)]
pub enum HashType {
    /// SHA-1: 20 bytes.
    Sha1,
    /// SHA-256: 32 bytes.
    Sha256,
    /// SHA-256, cut to 20 bytes.
    Sha256Truncated,
    /// SHA-384: 48 bytes.
    Sha384,
}

/// All bytes of a hash.
#[derive(Clone, Copy)]
pub enum HashBytes {
    /// Those of SHA-1, or of SHA-256 cut to 20 bytes.
    Of20([u8; 20]),
    /// Those of SHA-256.
    Of32([u8; 32]),
    /// Those of SHA-384.
    Of48([u8; 48]),
}

impl HashBytes {
    /// Returns the bytes.
    pub fn as_slice(&self) -> &[u8]
        ensures { result.now ≡ hash_bytes self.now }
    {
        match self {
            HashBytes::Of20(bytes) => bytes,
            HashBytes::Of32(bytes) => bytes,
            HashBytes::Of48(bytes) => bytes,
        }
    }
}

impl HashType {
    /// Returns the hash of a number, if it is one of the four.
    pub fn of(number: u8) -> Option<HashType>
        ensures { result ≡ defined.hash_type_of number }
    {
        match number {
            1 => Some(HashType::Sha1),
            2 => Some(HashType::Sha256),
            3 => Some(HashType::Sha256Truncated),
            4 => Some(HashType::Sha384),
            _ => None,
        }
    }

    /// Returns how many bytes a hash has.
    pub fn size(self) -> u8
        ensures { result ≡ defined.hash_len self }
    {
        match self {
            HashType::Sha1 => 20,
            HashType::Sha256 => 32,
            HashType::Sha256Truncated => 20,
            HashType::Sha384 => 48,
        }
    }

    /// Returns the rank of the hash. Of two code directories the one of the higher rank counts.
    pub fn rank(self) -> u8
        ensures { result ≡ defined.hash_rank self }
    {
        match self {
            HashType::Sha1 => 1,
            HashType::Sha256Truncated => 2,
            HashType::Sha256 => 3,
            HashType::Sha384 => 4,
        }
    }

    /// Whether a slot is the hash of some bytes.
    #[tactic(auto, unfolding(crate::specs::Hashes::hash_of))]
    pub fn seals(self, bytes: &[u8], slot: &[u8]) -> bool
        ensures { result ≡ bytes_eq (hash_of self bytes.now) slot.now }
    {
        match self {
            HashType::Sha1 => {
                let digest = Sha1::digest(bytes);
                digest.as_slice() == slot
            }
            HashType::Sha256 => {
                let digest = Sha256::digest(bytes);
                digest.as_slice() == slot
            }
            HashType::Sha256Truncated => {
                let digest = Sha256::digest(bytes);
                &digest[..20] == slot
            }
            HashType::Sha384 => {
                let digest = Sha384::digest(bytes);
                digest.as_slice() == slot
            }
        }
    }

    /// Returns the hash of some bytes.
    #[tactic(auto, unfolding(crate::specs::Hashes::hash_of))]
    pub fn digest(self, bytes: &[u8]) -> HashBytes
        ensures { hash_bytes result ≡ hash_of self bytes.now }
    {
        match self {
            HashType::Sha1 => HashBytes::Of20(Sha1::digest(bytes)),
            HashType::Sha256 => HashBytes::Of32(Sha256::digest(bytes)),
            HashType::Sha256Truncated => {
                let digest = Sha256::digest(bytes);
                HashBytes::Of20(array_at(&digest, 0))
            }
            HashType::Sha384 => HashBytes::Of48(Sha384::digest(bytes)),
        }
    }

    /// Returns the first 20 bytes of the hash of some bytes.
    #[tactic(auto, unfolding(crate::specs::Hashes::hash_of))]
    pub fn first_bytes(self, bytes: &[u8]) -> [u8; 20]
        ensures { result ≡ take 20 (hash_of self bytes.now) }
    {
        match self {
            HashType::Sha1 => Sha1::digest(bytes),
            HashType::Sha256 | HashType::Sha256Truncated => {
                let digest = Sha256::digest(bytes);
                array_at(&digest, 0)
            }
            HashType::Sha384 => {
                let digest = Sha384::digest(bytes);
                array_at(&digest, 0)
            }
        }
    }
}
