// Numbers and bytes at the front of bytes. Each reader takes its value from the front and hands back
// the bytes after it.
ghost use Rattle.std.specs.Prelude.{◌≡◌, length, IfOk, IfErr};
ghost use Rattle.std.specs.Int.{w16, w32, w64};
ghost use Rattle.mt_frame.specs.declared.fields.ReadError.TheVariants.{Memory, Wrong};
ghost use Rattle.mt_frame.specs.Codec.{Gives, number_at, within_at, part_at, byte_at};

use std::alloc::{AllocError, AllocFailed};

// Why nothing was read: memory ran out, or no text of the grammar stands there.
#[derive(Clone, Copy)]
pub(crate) enum ReadError {
    Memory,
    Wrong,
}

impl From<AllocError> for ReadError {
    ghost from_gives = { λ _ e. e ≡ Memory };

    fn from(_error: AllocError) -> ReadError {
        ReadError::Memory
    }
}

impl<T: Drop> From<AllocFailed<T>> for ReadError {
    ghost from_gives = { λ _ e. e ≡ Memory };

    fn from(_error: AllocFailed<T>) -> ReadError {
        ReadError::Memory
    }
}

pub(crate) fn u64_at(bytes: &[u8]) -> Result<(u64, &[u8]), ReadError>
    ensures value { Gives (λ x. (x.0, x.1.now)) result (number_at w64 bytes.now) }
    ensures no_memory { IfErr result (λ e. e ≡ Wrong) }
{
    match bytes.split_first_chunk::<8>() {
        Some((front, rest)) => Ok((u64::from_be_bytes(*front), rest)),
        None => Err(ReadError::Wrong),
    }
}

pub(crate) fn u32_at(bytes: &[u8]) -> Result<(u32, &[u8]), ReadError>
    ensures value { Gives (λ x. (x.0, x.1.now)) result (number_at w32 bytes.now) }
    ensures no_memory { IfErr result (λ e. e ≡ Wrong) }
{
    match bytes.split_first_chunk::<4>() {
        Some((front, rest)) => Ok((u32::from_be_bytes(*front), rest)),
        None => Err(ReadError::Wrong),
    }
}

pub(crate) fn u16_at(bytes: &[u8]) -> Result<(u16, &[u8]), ReadError>
    ensures value { Gives (λ x. (x.0, x.1.now)) result (number_at w16 bytes.now) }
    ensures no_memory { IfErr result (λ e. e ≡ Wrong) }
{
    match bytes.split_first_chunk::<2>() {
        Some((front, rest)) => Ok((u16::from_be_bytes(*front), rest)),
        None => Err(ReadError::Wrong),
    }
}

#[tactic(auto, unfolding(crate::specs::Codec::within_at))]
pub(crate) fn u64_within(bytes: &[u8], low: u64, high: u64) -> Result<(u64, &[u8]), ReadError>
    ensures value { Gives (λ x. (x.0, x.1.now)) result (within_at w64 low high bytes.now) }
    ensures no_memory { IfErr result (λ e. e ≡ Wrong) }
{
    let (number, rest) = u64_at(bytes)?;
    if number < low {
        return Err(ReadError::Wrong);
    }
    if high < number {
        return Err(ReadError::Wrong);
    }
    Ok((number, rest))
}

#[tactic(auto, unfolding(crate::specs::Codec::within_at))]
pub(crate) fn u32_within(bytes: &[u8], low: u32, high: u32) -> Result<(u32, &[u8]), ReadError>
    ensures value { Gives (λ x. (x.0, x.1.now)) result (within_at w32 low high bytes.now) }
    ensures no_memory { IfErr result (λ e. e ≡ Wrong) }
{
    let (number, rest) = u32_at(bytes)?;
    if number < low {
        return Err(ReadError::Wrong);
    }
    if high < number {
        return Err(ReadError::Wrong);
    }
    Ok((number, rest))
}

#[tactic(auto, unfolding(crate::specs::Codec::within_at))]
pub(crate) fn u16_within(bytes: &[u8], low: u16, high: u16) -> Result<(u16, &[u8]), ReadError>
    ensures value { Gives (λ x. (x.0, x.1.now)) result (within_at w16 low high bytes.now) }
    ensures no_memory { IfErr result (λ e. e ≡ Wrong) }
{
    let (number, rest) = u16_at(bytes)?;
    if number < low {
        return Err(ReadError::Wrong);
    }
    if high < number {
        return Err(ReadError::Wrong);
    }
    Ok((number, rest))
}

#[tactic(auto, unfolding(crate::specs::Codec::byte_at))]
pub(crate) fn byte_within(bytes: &[u8], low: u8, high: u8) -> Result<(u8, &[u8]), ReadError>
    ensures value { Gives (λ x. (x.0, x.1.now)) result (byte_at low high bytes.now) }
    ensures no_memory { IfErr result (λ e. e ≡ Wrong) }
{
    match bytes {
        [] => Err(ReadError::Wrong),
        [number, rest @ ..] => {
            if *number < low {
                return Err(ReadError::Wrong);
            }
            if high < *number {
                return Err(ReadError::Wrong);
            }
            Ok((*number, rest))
        }
    }
}

#[tactic(auto, unfolding(crate::specs::Codec::part_at))]
pub(crate) fn part_of(bytes: &[u8], n: usize) -> Result<(&[u8], &[u8]), ReadError>
    ensures part { Gives (λ x. (x.0.now, x.1.now)) result (part_at n bytes.now) }
    ensures size { IfOk result (λ x. length x.0.now ≡ n) }
{
    if bytes.len() < n {
        return Err(ReadError::Wrong);
    }
    let (part, rest) = bytes.split_at(n);
    Ok((part, rest))
}
