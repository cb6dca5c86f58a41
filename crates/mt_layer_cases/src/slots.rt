// A page of records that is filled, and filled again after a removal.
ghost use Rattle.std.specs.Prelude.{◌<◌, ◌≤◌, length, IfSome};
ghost use Rattle.mt_base.specs.Touched.{TouchesOnly};
ghost use Rattle.mt_slots.specs.Page.{IsShaped};

use mt_base::ranges::u16_at;
use mt_base::{Edit, RelNo, TouchedBytes, edits_of};
use mt_slots::{Insertion, check, empty, insert, live, remove, room};
use std::alloc::{AllocError, Global};
use std::test::Fail;

// The bytes of a page that no record lies in are not the page's: they may be anything.
fn page_of_ones() -> [u8; 4096]
    ensures { IsShaped result }
{
    let mut page = [1u8; 4096];
    empty(&mut page);
    page
}

// Puts a record of relation 1 into a page, and answers its slot.
fn insert_one(page: &mut [u8; 4096], key: &[u8], value: &[u8]) -> Option<u16>
    requires shaped { IsShaped page.old }
    requires key_fits { length key.now < 256 }
    requires value_fits { length value.now ≤ 4096 }
    ensures { IsShaped page.new }
{
    let Some(insertion) = insert(page, RelNo::new(1), key, value) else {
        return None;
    };
    Some(insertion.slot)
}

// Puts three records of 1,024 bytes into a page, and answers their slots.
fn fill(page: &mut [u8; 4096]) -> [Option<u16>; 3]
    requires { IsShaped page.old }
    ensures { IsShaped page.new }
{
    let value = [7u8; 1024];
    [
        insert_one(page, b"ab", &value),
        insert_one(page, b"ac", &value),
        insert_one(page, b"ad", &value),
    ]
}

// The slots of those that fill an empty page.
const FILLED: [Option<u16>; 3] = [Some(0), Some(1), Some(2)];

// A page that they fill, and the room that was there before and after it.
fn filled() -> ([u8; 4096], [Option<u16>; 3], [u16; 2])
    ensures { IsShaped result.0 }
{
    let mut page = page_of_ones();
    let before = room(&page);
    let slots = fill(&mut page);
    let left = room(&page);
    (page, slots, [before, left])
}

// Whether a page stays as it is if one more is refused.
fn has_no_room(page: &[u8; 4096]) -> bool
    requires { IsShaped page.now }
{
    let mut same = *page;
    let slot = insert_one(&mut same, b"ae", &[7u8; 1024]);
    slot.is_none() && same == *page
}

// Takes the record out of slot 1, if there are two slots.
#[tactic(auto, unfolding(mt_slots::specs::Page::count))]
fn remove_second(page: &mut [u8; 4096]) -> bool
    requires { IsShaped page.old }
    ensures { IsShaped page.new }
{
    if u16_at(page, 0) < 2 {
        return false;
    }
    remove(page, 1);
    true
}

// Puts a record into the slot that is empty: which one, and the room and how many are live before and after it.
fn fill_again(page: &mut [u8; 4096]) -> (Option<u16>, [u16; 4])
    requires { IsShaped page.old }
    ensures { IsShaped page.new }
{
    let (before, two) = (room(page), live(page));
    let slot = insert_one(page, b"af", &[7u8; 1024]);
    (slot, [before, two, room(page), live(page)])
}

#[test]
fn three_long_records_fill_a_page(rt: HostRuntime) -> Result<(), Fail> {
    let (mut page, slots, rooms) = filled();
    assert!(rt; slots == FILLED && rooms == [4088, 986]);
    assert!(rt; has_no_room(&page));
    assert!(rt; remove_second(&mut page));
    let (again, counts) = fill_again(&mut page);
    assert!(rt; again == Some(1) && counts == [2016, 2, 986, 3]);
    assert!(rt; check(&page, 2, 1024));
    Ok(())
}

// Puts four short records into a page. Answers the slots of three, the page then, and where the fourth went.
fn insert_four(page: &mut [u8; 4096]) -> ([Option<u16>; 3], [u8; 4096], Option<Insertion>)
    requires { IsShaped page.old }
    ensures { IfSome result.2 (λ fourth. TouchesOnly fourth.touched result.1 page.new) }
{
    let first = insert_one(page, b"a", b"xyz");
    let second = insert_one(page, b"b", b"xyz");
    let third = insert_one(page, b"c", b"xyz");
    let before = *page;
    let fourth = insert(page, RelNo::new(2), b"d", b"xyz");
    ([first, second, third], before, fourth)
}

// What the fourth touches: the page's head of 8 bytes, four slots of 4 bytes each, and its own 8 bytes.
const BY_FOURTH: TouchedBytes = TouchedBytes {
    head: 24,
    start: 0x0fe0,
    count: 8,
};

// Whether these are the count's low byte, the four of the slot, and the eight of the record.
fn are_of_fourth(edits: &[Edit]) -> bool {
    match edits {
        [count, slot, entry] => {
            count.bytes.as_slice() == [4].as_slice()
                && slot.bytes.as_slice() == [0x0f, 0xe0, 0, 8].as_slice()
                && entry.bytes.as_slice() == b"\x02\x01\x00\x03dxyz".as_slice()
                && entry.start == 0x0fe0
        }
        _ => false,
    }
}

// Whether the fourth touched that, and the edits from the one page to the other are those. From a page to itself
// there are none.
fn differ_by_fourth(
    alloc: Global,
    before: &[u8; 4096],
    page: &[u8; 4096],
    fourth: Option<Insertion>,
) -> Result<bool, AllocError>
    requires { IfSome fourth (λ to. TouchesOnly to.touched before.now page.now) }
{
    let Some(insertion) = fourth else {
        return Ok(false);
    };
    let touched = insertion.touched;
    let edits = edits_of(alloc, before, page, touched)?;
    let none = edits_of(alloc, page, page, TouchedBytes::whole())?;
    Ok(insertion.slot == 3 && touched == BY_FOURTH && none.is_empty() && are_of_fourth(&edits))
}

#[test]
fn an_insert_changes_three_short_ranges(rt: HostRuntime) -> Result<(), Fail> {
    let mut page = page_of_ones();
    let (slots, before, fourth) = insert_four(&mut page);
    assert!(rt; slots == [Some(0), Some(1), Some(2)]);
    assert!(rt; differ_by_fourth(rt.alloc(), &before, &page, fourth)?);
    Ok(())
}
