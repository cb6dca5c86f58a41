// Numbers, as the words of a command spell them.
ghost use Rattle.std.specs.Prelude.{◌≡◌, ◌∷◌, ◌++◌, ℕ, ℤ, Any, IfNone, IfOk, IfSome, MatchOption, map};
ghost use Rattle.mt_args.specs.Spelling.{SpellCounters, IsNoCounter, IsNoneWithin, IsUncut, SpellBounds, SpellsBounds, SpellsCount, SpellsCounter, SpellsWithin};

use mt_script::{number_of, signed_of};
use std::alloc::{AllocError, Global};

/// The largest number that fits 64 bits with a sign.
const LARGEST: u64 = 9_223_372_036_854_775_807;

/// The numbers of a schema, read from a command line. Whether they lie within their limits is for the schema to say.
#[derive(Debug, Drop)]
pub struct Numbers {
    /// Pages of the device.
    pub pages: u64,
    /// MiB of each of its two log areas.
    pub area: u64,
    /// Relations.
    pub relations: u64,
    /// Low, high and start of each counter.
    pub counters: Vec<(i64, i64, i64)>,
}

/// What the schema of a device is to get more, read from a command line. Whether the sums lie within their limits is
/// for the device to say.
#[derive(Debug, Drop)]
pub struct Growth {
    /// Relations more.
    pub relations: u64,
    /// Low, high and start of each counter more.
    pub counters: Vec<(i64, i64, i64)>,
}

/// The number that a word spells in decimal without leading zeros, below 2^63. The only error is want of memory.
pub(crate) fn count_of(alloc: Global, word: &[u8]) -> Result<Option<u64>, AllocError>
    ensures { IfOk result (λ o. MatchOption o ((n : ℕ) → ¬ SpellsCount word.now n) (SpellsCount word.now)) }
{
    match number_of(alloc, word)? {
        Some(number) if number <= LARGEST => Ok(Some(number)),
        Some(_) => Ok(None),
        None => Ok(None),
    }
}

/// The number from `low` to `high` that a word spells as [`count_of`] reads it. The only error is want of memory.
pub(crate) fn count_within(
    alloc: Global,
    word: &[u8],
    low: u64,
    high: u64,
) -> Result<Option<u64>, AllocError>
    ensures { IfOk result (λ o. MatchOption o (IsNoneWithin low high word.now) (SpellsWithin low high word.now)) }
{
    match count_of(alloc, word)? {
        Some(number) if low <= number && number <= high => Ok(Some(number)),
        Some(_) => Ok(None),
        None => Ok(None),
    }
}

/// What stands before the first colon, and what stands after it; `None` if there is no colon.
fn split_at_colon(bytes: &[u8]) -> Option<(&[u8], &[u8])>
    ensures found { IfSome result (λ p. (bytes.now ≡ p.0.now ++ 58 ∷ p.1.now) × IsUncut p.0.now) }
    ensures none { IfNone result (IsUncut bytes.now) }
{
    for (place, byte) in bytes.iter().enumerate() {
        if *byte == b':' {
            return Some((&bytes[..place], &bytes[place + 1..]));
        }
    }
    None
}

/// The numbers that three words spell.
fn three_of(
    alloc: Global,
    low: &[u8],
    high: &[u8],
    start: &[u8],
) -> Result<Option<(i64, i64, i64)>, AllocError>
    ensures { IfOk result (λ o. MatchOption o ((t : ℤ × ℤ × ℤ) → ¬ SpellBounds low.now high.now start.now t)
        (SpellBounds low.now high.now start.now)) }
{
    let Some(low) = signed_of(alloc, low)? else {
        return Ok(None);
    };
    let Some(high) = signed_of(alloc, high)? else {
        return Ok(None);
    };
    let Some(start) = signed_of(alloc, start)? else {
        return Ok(None);
    };
    Ok(Some((low, high, start)))
}

/// `LOW:HIGH:START`
fn bounds_of(alloc: Global, bytes: &[u8]) -> Result<Option<(i64, i64, i64)>, AllocError>
    ensures { IfOk result (λ o. MatchOption o ((t : ℤ × ℤ × ℤ) → ¬ SpellsBounds bytes.now t)
        (SpellsBounds bytes.now)) }
{
    let Some((low, rest)) = split_at_colon(bytes) else {
        return Ok(None);
    };
    let Some((high, start)) = split_at_colon(rest) else {
        return Ok(None);
    };
    three_of(alloc, low, high, start)
}

/// The bounds and the start of the counter that a word spells, `cLOW:HIGH:START`.
fn counter_of(alloc: Global, word: &[u8]) -> Result<Option<(i64, i64, i64)>, AllocError>
    ensures { IfOk result (λ o. MatchOption o (IsNoCounter word.now) (SpellsCounter word.now)) }
{
    match word {
        [b'c', bounds @ ..] => bounds_of(alloc, bounds),
        _ => Ok(None),
    }
}

/// The counters that these words spell, or `None` if one of them spells none. The only error is want of memory.
pub(crate) fn counters_of(
    alloc: Global,
    words: &[&str],
) -> Result<Option<Vec<(i64, i64, i64)>>, AllocError>
    ensures { IfOk result (λ o. MatchOption o (Any IsNoCounter (map (λ w. w.now) words.now))
        (λ counters. SpellCounters (map (λ w. w.now) words.now) counters.items)) }
{
    let mut counters = Vec::new(alloc);
    for word in words {
        match counter_of(alloc, word.as_bytes())? {
            Some(counter) => counters.push(counter)?,
            None => return Ok(None),
        }
    }
    Ok(Some(counters))
}
