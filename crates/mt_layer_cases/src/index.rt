// An index in memory: entries are added until its bucket splits and its directory doubles.
ghost use Rattle.mt_index.specs.Copies.{AreWhole};
ghost use Rattle.std.specs.Prelude.{◌≡◌, ◌≤◌, length};

use mt_base::ranges::{put, u16_at};
use mt_base::{Edit, PageNo, RecordName, RelNo};
use mt_bucket::{count, depth, empty, next};
use mt_index::{Add, Gathering, Names, depth as bits, plan_add, plan_names};
use mt_space::{Changes, PageChange, Pages};
use std::alloc::{AllocError, Global};
use std::test::Fail;

/// Pages 0, 1, 3, 4 and 5 of 64, in memory.
#[derive(Drop)]
struct Copies {
    space: [u8; 4096],
    directory: [u8; 4096],
    third: [u8; 4096],
    fourth: [u8; 4096],
    fifth: [u8; 4096],
    ghost whole: { AreWhole space directory third fourth fifth },
}

impl Pages for Copies {
    ghost use Rattle.mt_index.specs.Copies.{copied, copied_whole};

    ghost is_sound = { λ c. Unit {0} };

    ghost total = { λ copies. 64 };

    ghost at_hand = { λ c p. copied c.space c.directory c.third c.fourth c.fifth p };

    ghost whole = { λ c sound p bytes there. copied_whole c.space c.directory c.third c.fourth c.fifth c.whole p bytes
        there };

    fn count(&self) -> u16 {
        64
    }

    fn page(&self, page: PageNo) -> Option<&[u8; 4096]> {
        match page.get() {
            0 => Some(&self.space),
            1 => Some(&self.directory),
            3 => Some(&self.third),
            4 => Some(&self.fourth),
            5 => Some(&self.fifth),
            _ => None,
        }
    }
}

/// An index without entries: page 3 is its only bucket.
fn formatted() -> Copies {
    let mut space = [0u8; 4096];
    put(&mut space, 0, &[1, 1, 1, 2]);
    let mut directory = [0u8; 4096];
    put(&mut directory, 8, &[0, 3]);
    let mut third = [0u8; 4096];
    empty(&mut third, 0);
    Copies {
        space,
        directory,
        third,
        fourth: [7; 4096], // whatever a free page has
        fifth: [9; 4096],
    }
}

fn patched(page: &[u8; 4096], edits: &[Edit]) -> [u8; 4096]
    ensures { length result ≡ 4096 }
{
    let mut new = *page;
    for edit in edits {
        let at = usize::from(edit.start);
        if at <= 4096 && edit.bytes.len() <= 4096 - at {
            put(&mut new, at, edit.bytes.as_slice());
        }
    }
    new
}

fn make_one(copies: &mut Copies, change: &PageChange) {
    let edits = change.edits.as_slice();
    match change.page.get() {
        0 => copies.space = patched(&copies.space, edits),
        1 => copies.directory = patched(&copies.directory, edits),
        3 => copies.third = patched(&copies.third, edits),
        4 => copies.fourth = patched(&copies.fourth, edits),
        5 => copies.fifth = patched(&copies.fifth, edits),
        _ => {}
    }
}

fn make(copies: &mut Copies, changes: &Changes) {
    for change in changes.list.as_slice() {
        make_one(copies, change);
    }
}

/// Adds the key `a` in these relations, without splits, while there is room.
fn add_from(alloc: Global, copies: &mut Copies, from: u16, to: u16) -> Result<(), AllocError>
    requires { to ≤ 60 }
{
    for relation in from..to {
        let name = RecordName {
            page: PageNo::new(6),
            slot: relation,
        };
        let answer = plan_add(alloc, copies, RelNo::new(relation), b"a", name, false)?;
        if let Add::Changes(changes) = answer {
            make(copies, &changes);
        }
    }
    Ok(())
}

fn free_pages(copies: &Copies) -> usize {
    copies.space[..64].iter().filter(|kind| **kind == 0).count()
}

/// How many pages are free, and the directory's bits and its first pointer. Of page 3 it has how deep it is, how many
/// entries it has and which page follows it.
fn summary(copies: &Copies) -> [usize; 6] {
    [
        free_pages(copies),
        usize::from(bits(&copies.directory)),
        usize::from(u16_at(&copies.directory, 8)),
        usize::from(depth(&copies.third)),
        count(&copies.third),
        usize::from(next(&copies.third).get()),
    ]
}

/// The summaries after 58 relations, after one more and after another one, and how many entries page 4 has then.
fn chained(alloc: Global) -> Result<([[usize; 6]; 3], usize), AllocError> {
    let mut copies = formatted();
    add_from(alloc, &mut copies, 0, 58)?;
    let filled = summary(&copies);
    add_from(alloc, &mut copies, 58, 59)?;
    let longer = summary(&copies);
    add_from(alloc, &mut copies, 59, 60)?;
    Ok(([filled, longer, summary(&copies)], count(&copies.fourth)))
}

#[test]
fn without_splits_it_chains_at_once(rt: HostRuntime) -> Result<(), Fail> {
    let (summaries, entries) = chained(rt.alloc())?;
    assert!(rt; summaries[0] == [60, 0, 3, 0, 58, 0] && summaries[1] == [59, 0, 3, 0, 58, 4]);
    assert!(rt; summaries[2] == [59, 0, 3, 0, 58, 4] && entries == 2);
    Ok(())
}

/// How many records a relation has, and the slot of the first, or 0 if it has none.
fn records_of(alloc: Global, copies: &Copies, relation: u16) -> Result<(usize, u16), AllocError> {
    let mut gathering = Gathering::new(alloc);
    let Names::Named = plan_names(copies, RelNo::new(relation), &mut gathering)? else {
        return Ok((100, 0));
    };
    let names = gathering.names();
    let slot = names.first().map_or(0, |name| name.slot);
    Ok((names.len(), slot))
}

/// The records of the first of 59 relations, of the last, whose entry is in page 4, and of one without entries.
fn recorded(alloc: Global) -> Result<[(usize, u16); 3], AllocError> {
    let mut copies = formatted();
    add_from(alloc, &mut copies, 0, 59)?;
    let first = records_of(alloc, &copies, 0)?;
    let last = records_of(alloc, &copies, 58)?;
    Ok([first, last, records_of(alloc, &copies, 59)?])
}

#[test]
fn names_are_found_in_overflow_pages(rt: HostRuntime) -> Result<(), Fail> {
    let records = recorded(rt.alloc())?;
    assert!(rt; records == [(1, 0), (1, 58), (0, 0)]);
    Ok(())
}
