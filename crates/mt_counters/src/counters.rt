// The counters page, in place on its bytes. It has how many relations and counters the schema has, and of each
// counter its two bounds and its number.
ghost use Rattle.std.specs.Prelude.{◌≡◌, ◌+◌, ◌+ℤ◌, ◌*◌, ◌<◌, ◌≤◌, ℕ, List, All, length, map, get_or, MatchBool};
ghost use Rattle.std.specs.Bool.{OnTrue, OnFalse};
ghost use Rattle.mt_base.specs.declared.limits.TheConstants.{MAX_COUNTERS, MAX_RELATIONS, PAGE_BYTES};
ghost use Rattle.mt_base.specs.Limits.{IsCounter, IsStep};
ghost use Rattle.mt_base.specs.Ranges.{Torn};
ghost use Rattle.mt_base.specs.Touched.{TouchesOnly};
ghost use Rattle.mt_model.specs.Model.{moved, stays};
ghost use Rattle.mt_model.specs.Tables.{IsLimited, count_at, started};
ghost use Rattle.mt_counters.specs.Counters.{place_of, count_in, AreCounters};
ghost use Rattle.mt_counters.specs.Extended.{IsExtended, TakesMore};

use mt_base::limits::{MAX_COUNTERS, MAX_RELATIONS, counter_fits};
use mt_base::ranges::{i64_at, put_i64};
use mt_base::{CtrNo, TouchedBytes};
use mt_model::Count;

/// Bytes of the page before its counters.
pub const COUNTERS_HEAD_BYTES: usize = 8;

/// Bytes of a counter: its two bounds and its number.
pub const COUNTER_BYTES: usize = 24;

/// How many relations and counters a schema has.
#[derive(Clone, Copy, PartialEq, Eq, Debug)]
pub struct SchemaSizes {
    pub relations: u16,
    pub counters: u16,
}

/// How many relations and counters the page says there are.
pub fn sizes(page: &[u8]) -> SchemaSizes
    requires whole { length page.now ≡ PAGE_BYTES }
    ensures relations { result.relations ≡ get_or page.now 0 0 }
    ensures counters { result.counters ≡ get_or page.now 1 0 }
    ensures schema { (relations counters : ℕ) → AreCounters relations counters page.now →
        (result.relations ≡ relations) × (result.counters ≡ counters) }
{
    SchemaSizes {
        relations: u16::from(page[0]),
        counters: u16::from(page[1]),
    }
}

/// A counter of the page.
pub fn counter(page: &[u8], counter: CtrNo) -> Count
    requires whole { length page.now ≡ PAGE_BYTES }
    requires there { counter < MAX_COUNTERS }
    ensures { result ≡ count_in page.now counter }
{
    let at = COUNTERS_HEAD_BYTES + COUNTER_BYTES * usize::from(counter.get());
    Count {
        low: i64_at(page, at),
        high: i64_at(page, at + 8),
        number: i64_at(page, at + 16),
    }
}

/// Puts a counter into its place, with its bounds and its number. All other counters stay, and the counts of the page.
pub fn put_counter(page: &mut [u8], number: CtrNo, count: &Count)
    requires whole { length page.old ≡ PAGE_BYTES }
    requires there { number < MAX_COUNTERS }
    ensures count { count_in page.new number ≡ count.now }
    ensures rest { Torn (place_of number) COUNTER_BYTES page.old page.new }
{
    let at = COUNTERS_HEAD_BYTES + COUNTER_BYTES * usize::from(number.get());
    put_i64(page, at, count.low);
    put_i64(page, at + 8, count.high);
    put_i64(page, at + 16, count.number);
}

// Puts counters after the first ones, each at its start.
fn put_starts(page: &mut [u8], first: u16, counters: &[(i64, i64, i64)])
    requires whole { length page.old ≡ PAGE_BYTES }
    requires few { first + length counters.now ≤ MAX_COUNTERS }
    ensures size { length page.new ≡ PAGE_BYTES }
    ensures head { (i : ℕ) → i < COUNTERS_HEAD_BYTES → get_or page.new i 0 ≡ get_or page.old i 0 }
    ensures stay { (c : ℕ) → c < first → count_in page.new c ≡ count_in page.old c }
    ensures starts { (i : ℕ) → i < length counters.now →
        count_in page.new (first + i) ≡ count_at (map started counters.now) i }
{
    for (at, &(low, high, number)) in counters.iter().enumerate() {
        let count = Count { low, high, number };
        put_counter(page, CtrNo::new(first + at as u16), &count);
    }
}

/// Whether the low bound, high bound and start of each counter lie within their limits.
pub fn counters_fit(counters: &[(i64, i64, i64)]) -> bool
    ensures { MatchBool result (All (λ t. IsCounter t.0 t.1 t.2) counters.now)
        (All (λ t. IsCounter t.0 t.1 t.2) counters.now → ⊥) }
{
    for &(low, high, start) in counters {
        if !counter_fits(low, high, start) {
            return false;
        }
    }
    true
}

// Whether the schema of these sizes takes so many relations more, and these counters.
fn takes_more(sizes: SchemaSizes, relations: u16, counters: &[(i64, i64, i64)]) -> bool
    ensures { MatchBool result (TakesMore sizes.relations sizes.counters relations counters.now)
        (TakesMore sizes.relations sizes.counters relations counters.now → ⊥) }
{
    u32::from(sizes.relations) + u32::from(relations) <= u32::from(MAX_RELATIONS)
        && counters.len() <= usize::from(MAX_COUNTERS)
        && usize::from(sizes.counters) + counters.len() <= usize::from(MAX_COUNTERS)
        && counters_fit(counters)
}

/// Gives the page's schema so many relations more, and these counters after those that it has, if the sums and each
/// counter lie within their limits, and answers whether; else the page is as before. Each counter has its low bound,
/// high bound and start. The counters that were there stay.
pub fn extend(page: &mut [u8], relations: u16, counters: &[(i64, i64, i64)]) -> bool
    requires whole { length page.old ≡ PAGE_BYTES }
    ensures outcome { MatchBool result (TakesMore (get_or page.old 0 0) (get_or page.old 1 0) relations counters.now)
        (TakesMore (get_or page.old 0 0) (get_or page.old 1 0) relations counters.now → ⊥) }
    ensures done { OnTrue result (IsExtended relations (map started counters.now) page.old page.new) }
    ensures unchanged { OnFalse result (page.new ≡ page.old) }
    ensures schema { OnTrue result ((r c : ℕ) → AreCounters r c page.old →
        AreCounters (r + relations) (c + length counters.now) page.new) }
{
    let sizes = sizes(page);
    if !takes_more(sizes, relations, counters) {
        return false;
    }
    put_starts(page, sizes.counters, counters);
    page[0] = (sizes.relations + relations) as u8;
    page[1] = (usize::from(sizes.counters) + counters.len()) as u8;
    true
}

// A counter's number and a step.
fn sum_of(count: &Count, step: i64) -> i64
    requires limited { IsLimited count.now }
    requires step { IsStep step }
    ensures { result ≡ count.now.number +ℤ step }
{
    count.number + step
}

/// The bytes of a counter's number: what an add touches.
pub fn number_bytes(number: CtrNo) -> TouchedBytes
    requires { number < MAX_COUNTERS }
    ensures { (old new : List ℕ) → length old ≡ PAGE_BYTES → Torn (place_of number + 16) 8 old new →
        TouchesOnly result old new }
{
    TouchedBytes {
        head: 0,
        start: COUNTERS_HEAD_BYTES + COUNTER_BYTES * usize::from(number.get()) + 16,
        count: 8,
    }
}

/// Adds a step to a counter if the sum lies in the counter's bounds, and answers whether it does; else
/// the page is as before. All other counters stay.
pub fn add(page: &mut [u8], number: CtrNo, step: i64) -> bool
    requires whole { length page.old ≡ PAGE_BYTES }
    requires there { number < MAX_COUNTERS }
    requires limited { IsLimited (count_in page.old number) }
    requires step { IsStep step }
    ensures outcome { result ≡ stays (count_in page.old number) step }
    ensures done { OnTrue result (count_in page.new number ≡ moved (count_in page.old number) step) }
    ensures unchanged { OnFalse result (page.new ≡ page.old) }
    ensures rest { Torn (place_of number + 16) 8 page.old page.new }
    ensures kept { (relations counters : ℕ) → AreCounters relations counters page.old →
        AreCounters relations counters page.new }
{
    let count = counter(page, number);
    if !count.takes(step) {
        return false;
    }
    let at = COUNTERS_HEAD_BYTES + COUNTER_BYTES * usize::from(number.get());
    put_i64(page, at + 16, sum_of(&count, step));
    true
}

/// Whether these 4,096 bytes are the counters page of a schema of so many relations and counters. It says both
/// numbers and has zeros after them. Each counter's number lies in its bounds, which lie within 10^15 of zero. The
/// bytes after the last counter are open.
pub fn check(page: &[u8], relations: u16, counters: u16) -> bool
    requires whole { length page.now ≡ PAGE_BYTES }
    ensures { MatchBool result (AreCounters relations counters page.now) (AreCounters relations counters page.now → ⊥) }
{
    let outcome = sizes(page);
    if counters > MAX_COUNTERS || outcome.relations != relations || outcome.counters != counters {
        return false;
    }
    has_zeros(page) && are_limited(page, counters)
}

// Whether the bytes after the two numbers are zero.
fn has_zeros(page: &[u8]) -> bool
    requires whole { length page.now ≡ PAGE_BYTES }
    ensures { MatchBool result ((i : ℕ) → 2 ≤ i → i < 8 → get_or page.now i 0 ≡ 0) (((i : ℕ) → 2 ≤ i → i < 8 →
        get_or page.now i 0 ≡ 0) → ⊥) }
{
    for i in 2..COUNTERS_HEAD_BYTES {
        if page[i] != 0 {
            return false;
        }
    }
    true
}

// Whether the first counters lie within their bounds, and these within their limits.
fn are_limited(page: &[u8], counters: u16) -> bool
    requires whole { length page.now ≡ PAGE_BYTES }
    requires few { counters ≤ MAX_COUNTERS }
    ensures { MatchBool result ((c : ℕ) → c < counters → IsLimited (count_in page.now c)) (((c : ℕ) → c < counters →
        IsLimited (count_in page.now c)) → ⊥) }
{
    for c in 0..counters {
        let count = counter(page, CtrNo::new(c));
        if !counter_fits(count.low, count.high, count.number) {
            return false;
        }
    }
    true
}
