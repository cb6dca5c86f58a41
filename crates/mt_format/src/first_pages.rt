// The pages of a device as it is formatted. `format_calls` writes them, and `fresh_layers` begins operations on them.
ghost use Rattle.std.specs.Prelude.{◌≡◌, ◌+◌, ◌≤◌, ◌<◌, ℕ, length, IfOk};
ghost use Rattle.mt_base.specs.declared.limits.TheConstants.{MAX_COUNTERS, PAGE_BYTES};
ghost use Rattle.mt_base.specs.Ranges.{Torn};
ghost use Rattle.mt_space.specs.PageLists.{bytes_of};
ghost use Rattle.mt_index.specs.Pages.{AreZero};
ghost use Rattle.mt_model.specs.Tables.{IsLimited};
ghost use Rattle.mt_counters.specs.Counters.{place_of, count_in};
ghost use Rattle.mt_format.specs.Formats.{AreFirstPages, IsFirstMap, IsFirstDirectory, IsFirstCounters, IsFirstBucket, IsFirstPage};
ghost use Rattle.mt_format.specs.Schemas.{pages_in};

use crate::Schema;
use mt_base::CtrNo;
use mt_base::limits::PAGE_BYTES;
use mt_base::ranges::{put, put_u16};
use mt_counters::put_counter;
use mt_index::DIRECTORY_HEAD_BYTES;
use mt_space::pages::{BUCKET, COUNTERS, DIRECTORY, FIXED, MAP};
use std::alloc::{AllocError, Global};

// The page of the first bucket.
const FIRST_BUCKET: u16 = 3;

// The map of a space whose pages are free but for the first four.
fn map_page() -> [u8; PAGE_BYTES]
    ensures { IsFirstMap result }
{
    let mut page = [0; PAGE_BYTES];
    put(&mut page, 0, &[FIXED, FIXED, FIXED, BUCKET]);
    page
}

// A directory that goes by no bit of a hash.
fn directory_page() -> [u8; PAGE_BYTES]
    ensures { IsFirstDirectory result }
{
    let mut page = [0; PAGE_BYTES];
    put_u16(&mut page, DIRECTORY_HEAD_BYTES, FIRST_BUCKET);
    page
}

// The counters of the schema, each at its start.
fn counters_page(schema: &Schema) -> [u8; PAGE_BYTES]
    ensures { IsFirstCounters schema.now result }
{
    let counters = schema.counters();
    let mut page = [0; PAGE_BYTES];
    put(
        &mut page,
        0,
        &[schema.relations() as u8, counters.len() as u8],
    );
    for (number, count) in counters.iter().enumerate() {
        put_counter(&mut page, CtrNo::new(number as u16), count);
    }
    page
}

// A bucket without entries.
fn bucket_page(schema: &Schema) -> [u8; PAGE_BYTES]
    ensures { IsFirstBucket schema.now result }
{
    let mut page = [0; PAGE_BYTES];
    mt_bucket::empty(&mut page, 0);
    page
}

// A page that is free.
fn zero_page() -> [u8; PAGE_BYTES]
    ensures { AreZero result 0 PAGE_BYTES }
{
    [0; PAGE_BYTES]
}

// A page as the device is formatted with it.
pub(crate) fn page_of(schema: &Schema, number: u16) -> [u8; PAGE_BYTES]
    ensures { IsFirstPage schema.now number result }
{
    match number {
        MAP => map_page(),
        DIRECTORY => directory_page(),
        COUNTERS => counters_page(schema),
        FIRST_BUCKET => bucket_page(schema),
        _ => zero_page(),
    }
}

// The pages of a device as it is formatted, in memory.
pub(crate) fn first_pages(
    alloc: Global,
    schema: &Schema,
) -> Result<Vec<[u8; PAGE_BYTES]>, AllocError>
    ensures count { IfOk result (λ pages. length pages.items ≡ pages_in schema.now) }
    ensures each { IfOk result (λ pages. AreFirstPages schema.now (bytes_of pages.items)) }
{
    let mut pages = Vec::with_capacity(alloc, usize::from(schema.pages))?;
    for number in 0..schema.pages {
        pages.push(page_of(schema, number))?;
    }
    Ok(pages)
}
