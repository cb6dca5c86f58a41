// The new bytes of an edit: few as a rule, and then without memory of their own.
ghost use Rattle.std.specs.Prelude.{◌≡◌, length, IfOk};

use smallvec::SmallVec;
use std::alloc::{AllocError, Global};
use std::marker::Model;

// As many bytes as an entry of a bucket takes with a key of 16 bytes.
const INLINE_BYTES: usize = 24;

/// The new bytes of a range of a page. Contracts see them as the list of them.
#[derive(Debug, Drop)]
pub struct EditBytes {
    bytes: SmallVec<u8, INLINE_BYTES>,
}

impl Model for EditBytes {
    ghost use Rattle.std.specs.Prelude.{ℕ, List};

    ghost Value = { List ℕ };

    ghost view = { λ b. b.bytes.items };
}

impl EditBytes {
    /// A copy of these bytes. The only error is want of memory.
    pub fn copy_of(alloc: Global, bytes: &[u8]) -> Result<EditBytes, AllocError>
        ensures { IfOk result (λ copy. copy ≡ bytes.now) }
    {
        Ok(EditBytes {
            bytes: SmallVec::from_slice(alloc, bytes)?,
        })
    }

    /// The bytes, lent.
    pub fn as_slice(&self) -> &[u8]
        ensures { result.now ≡ self.now }
    {
        self.bytes.as_slice()
    }

    /// How many there are.
    pub fn len(&self) -> usize
        ensures { result ≡ length self.now }
    {
        self.bytes.len()
    }
}
