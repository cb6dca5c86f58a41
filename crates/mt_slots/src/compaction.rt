// Packing the records of a page at its end.
ghost use Rattle.std.specs.Prelude.{◌≡◌, ◌≢◌, ◌+◌, ◌<◌, ℕ};
ghost use Rattle.mt_slots.specs.Page.{IsShaped, count, size};
ghost use Rattle.mt_slots.specs.Parts.{IsPlace, Compacted, Packed};

use crate::heads::{PAGE_HEAD_BYTES, SLOT_BYTES, offset_of, size_of, slot_count};
use mt_base::limits::PAGE_BYTES;
use mt_base::ranges::{part_of, put, put_u16};

// Moves all records to the page's end. It is for a page that has no place for a record of so many bytes in slot i. It
// changes more of the page than a record's own bytes.
pub(crate) fn compact(page: &mut [u8], i: usize, slots: usize, bytes: usize)
    requires shaped { IsShaped page.old }
    requires no_place { (at : ℕ) → IsPlace page.old i slots at bytes → ⊥ }
    ensures shaped { IsShaped page.new }
    ensures same { Compacted page.old page.new }
{
    let mut copy = [0u8; PAGE_BYTES];
    copy.copy_from_slice(page);
    pack(page, &copy);
}

// Packs a page whose bytes are those of the copy.
fn pack(page: &mut [u8], copy: &[u8])
    requires shaped { IsShaped copy.now }
    requires equal { page.old ≡ copy.now }
    ensures shaped { IsShaped page.new }
    ensures same { Compacted copy.now page.new }
{
    let mut top = PAGE_BYTES;
    for i in 0..slot_count(copy) {
        if size_of(copy, i) != 0 {
            top = move_up(page, copy, i, top);
        }
    }
}

// Moves record i in front of those that are packed, and answers where it begins.
fn move_up(page: &mut [u8], copy: &[u8], i: usize, top: usize) -> usize
    requires shaped { IsShaped copy.now }
    requires there { i < count copy.now }
    requires live { size copy.now i ≢ 0 }
    requires packed { Packed copy.now page.old i top }
    ensures { Packed copy.now page.new (i + 1) result }
{
    let bytes = size_of(copy, i);
    let to = top - bytes;
    put(page, to, part_of(copy, offset_of(copy, i), bytes));
    put_u16(page, PAGE_HEAD_BYTES + SLOT_BYTES * i, to as u16);
    to
}
