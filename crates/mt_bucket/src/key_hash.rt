// By which bits a key finds its bucket.
ghost use Rattle.std.specs.Prelude.{◌≡◌, ◌<◌};
ghost use Rattle.mt_bucket.specs.Hash.{hash as hash_of, high};

const START: u64 = 0xcbf2_9ce4_8422_2325;

const PRIME: u64 = 0x100_0000_01b3;

/// The hash of a key: FNV-1a of 64 bits. The relation is no part of it.
pub fn hash(key: &[u8]) -> u64
    ensures { result ≡ hash_of key.now }
{
    let mut value = START;
    for byte in key {
        value = (value ^ u64::from(*byte)).wrapping_mul(PRIME);
    }
    value
}

/// Whether the bit of this place, from 0, is set in a hash.
pub fn has_bit(hash: u64, bit: u8) -> bool
    requires { bit < 64 }
    ensures { result ≡ high bit hash }
{
    hash >> bit & 1 == 1
}
