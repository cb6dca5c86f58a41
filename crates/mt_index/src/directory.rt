// The directory page: a byte for the number of bits that it goes by, and a pointer for each of their values.
ghost use Rattle.std.specs.Prelude.{◌≡◌, ◌==◌, ◌&&◌, ◌<◌, ◌+◌, ◌*◌, ◌%◌, ◌^◌, cond, length};
ghost use Rattle.mt_base.specs.declared.limits.TheConstants.{PAGE_BYTES};
ghost use Rattle.mt_base.specs.Ranges.{Torn};
ghost use Rattle.mt_bucket.specs.Hash.{high};
ghost use Rattle.mt_index.specs.Pages.{depth_in, pointer_at, Doubled, Redirected, Rewired};

use mt_base::PageNo;
use mt_base::limits::PAGE_BYTES;
use mt_base::ranges::{part_of, put, put_u16, u16_at};
use mt_bucket::has_bit;

/// The most bits of a hash that a directory goes by, and a bucket's keys share.
pub const MAX_DEPTH: u8 = 9;

/// Bytes of the page before its pointers.
pub const DIRECTORY_HEAD_BYTES: usize = 8;

// Bytes of a pointer.
pub(crate) const POINTER_BYTES: usize = 2;

/// How many low bits of a hash the directory goes by: at most 9, whatever the page's bytes are.
pub fn depth(directory: &[u8]) -> u8
    requires whole { length directory.now ≡ PAGE_BYTES }
    ensures { result ≡ depth_in directory.now }
{
    directory[0].min(MAX_DEPTH)
}

// The first page of the bucket of a hash.
pub(crate) fn pointer(directory: &[u8], hash: u64) -> PageNo
    requires whole { length directory.now ≡ PAGE_BYTES }
    ensures { result ≡ pointer_at directory.now (hash % 2 ^ depth_in directory.now) }
{
    let i = (hash % (1u64 << depth(directory))) as usize;
    PageNo::new(u16_at(directory, DIRECTORY_HEAD_BYTES + POINTER_BYTES * i))
}

// The directory once a bucket that goes by so many bits is two. It is doubled before if it goes by no more. Each
// pointer to the bucket whose number has the next bit names the new page.
pub(crate) fn rewired(
    directory: &[u8; PAGE_BYTES],
    bucket: PageNo,
    fresh: PageNo,
    bit: u8,
) -> [u8; PAGE_BYTES]
    requires { bit < 9 }
    ensures { Rewired bucket fresh bit directory.now result }
{
    let mut pointers = *directory;
    if bit == depth(directory) {
        double(&mut pointers);
    }
    redirect(&mut pointers, bucket, fresh, bit);
    pointers
}

// Makes the directory go by a bit more: the pointers are there twice.
fn double(directory: &mut [u8])
    requires whole { length directory.old ≡ PAGE_BYTES }
    requires room { depth_in directory.old < 9 }
    ensures { Doubled directory.old directory.new }
{
    let bits = depth(directory);
    let bytes = POINTER_BYTES * (1 << bits);
    let mut copy = [0u8; PAGE_BYTES];
    copy.copy_from_slice(directory);
    put(
        directory,
        DIRECTORY_HEAD_BYTES + bytes,
        part_of(&copy, DIRECTORY_HEAD_BYTES, bytes),
    );
    put(directory, 0, &[bits + 1]);
}

// Makes the pointers to a page whose numbers have a bit name another.
fn redirect(directory: &mut [u8], from: PageNo, to: PageNo, bit: u8)
    requires whole { length directory.old ≡ PAGE_BYTES }
    requires bit { bit < 64 }
    ensures { Redirected from to bit directory.old directory.new }
{
    for i in 0..1u16 << depth(directory) {
        redirect_one(directory, i, from, to, bit);
    }
}

// Makes one of them do so, if it is to.
fn redirect_one(directory: &mut [u8], i: u16, from: PageNo, to: PageNo, bit: u8)
    requires whole { length directory.old ≡ PAGE_BYTES }
    requires there { i < 512 }
    requires bit { bit < 64 }
    ensures pointer { pointer_at directory.new i ≡ cond (pointer_at directory.old i == from && high bit i) to
        (pointer_at directory.old i) }
    ensures rest { Torn (8 + 2 * i) 2 directory.old directory.new }
{
    let at = DIRECTORY_HEAD_BYTES + POINTER_BYTES * usize::from(i);
    if u16_at(directory, at) == from.get() && has_bit(u64::from(i), bit) {
        put_u16(directory, at, to.get());
    }
}

// The pointer at a place, from 0.
pub(crate) fn pointer_of(directory: &[u8], i: usize) -> PageNo
    requires whole { length directory.now ≡ PAGE_BYTES }
    requires there { i < 2 ^ depth_in directory.now }
    ensures { result ≡ pointer_at directory.now i }
{
    PageNo::new(u16_at(directory, DIRECTORY_HEAD_BYTES + POINTER_BYTES * i))
}
