// Master slots as values and as 17 bytes. Which of a device's two slots is in force is decided in mt_log.
ghost use Rattle.std.specs.Prelude.{◌≡◌};
ghost use Rattle.std.specs.Prelude.{IfErr};
ghost use Rattle.mt_frame.specs.declared.fields.ReadError.TheVariants.{Wrong};
ghost use Rattle.mt_frame.specs.Codec.{Gives};
ghost use Rattle.mt_frame.specs.Readers.{format_at, slot_at};
ghost use Rattle.mt_frame.specs.SlotText.{IsSlot, slot_text, IsSlotRead};

use crate::OPEN_GATE;
use crate::fields::{ReadError, byte_within, u16_within, u32_within, u64_within};
use byteorder::{BigEndian, ByteOrder};
use mt_base::Format;
use mt_base::limits::{MAX_AREA_MIB, MAX_EPOCH, MAX_PAGES, MIN_AREA_MIB, MIN_PAGES};

/// What an open master slot says.
#[derive(Clone, Copy, PartialEq, Eq, Debug)]
pub struct MasterSlot {
    /// The device's format, which the slot's letters name.
    pub format: Format,
    /// Which opening of an area this was, from 1 to 2^63: of two open slots the one with the higher
    /// epoch rules.
    pub epoch: u64,
    /// The log area that rules, 0 or 1.
    pub area: u8,
    /// The device's pages, 16 to 4000.
    pub pages: u16,
    /// The size of a log area in MiB, 4 to 64.
    pub mib: u8,
}

/// What the bytes of a master slot are.
#[derive(Clone, Copy, PartialEq, Eq, Debug)]
pub enum SlotRead {
    /// Its gate is closed.
    Closed,
    /// Its gate is open, but the letters are neither `MTK1` nor `MTK2`, or a number is outside its limits.
    Bad,
    /// Its gate is open, and this is what it says.
    Open(MasterSlot),
}

/// The slot's 17 bytes: open gate, `MTK1` or `MTK2`, epoch, area, pages, MiB.
pub fn encode_slot(slot: &MasterSlot) -> [u8; 17]
    requires { IsSlot slot.now }
    ensures { result ≡ slot_text slot.now }
{
    let mut epoch = [0; 8];
    BigEndian::write_u64(&mut epoch, slot.epoch);
    let mut pages = [0; 2];
    BigEndian::write_u16(&mut pages, slot.pages);
    let [e0, e1, e2, e3, e4, e5, e6, e7] = epoch;
    let [p0, p1] = pages;
    let letter = match slot.format {
        Format::One => b'1',
        Format::Two => b'2',
    };
    [
        OPEN_GATE, b'M', b'T', b'K', letter, e0, e1, e2, e3, e4, e5, e6, e7, slot.area, p0, p1,
        slot.mib,
    ]
}

// The letters MTK1.
const FIRST_LETTERS: u32 = 0x4D54_4B31;

// The letters MTK2, the next number.
const LETTERS: u32 = 0x4D54_4B32;

#[tactic(auto, unfolding(crate::specs::Readers::format_at))]
fn format_of(bytes: &[u8]) -> Result<(Format, &[u8]), ReadError>
    ensures value { Gives (λ x. (x.0, x.1.now)) result (format_at bytes.now) }
    ensures no_memory { IfErr result (λ e. e ≡ Wrong) }
{
    let (letters, rest) = u32_within(bytes, FIRST_LETTERS, LETTERS)?;
    let format = if letters == FIRST_LETTERS {
        Format::One
    } else {
        Format::Two
    };
    Ok((format, rest))
}

#[tactic(auto, unfolding(crate::specs::Readers::slot_at))]
fn slot_of(bytes: &[u8]) -> Result<(MasterSlot, &[u8]), ReadError>
    ensures value { Gives (λ x. (x.0, x.1.now)) result (slot_at bytes.now) }
    ensures no_memory { IfErr result (λ e. e ≡ Wrong) }
{
    let (_gate, rest) = byte_within(bytes, OPEN_GATE, OPEN_GATE)?;
    let (format, rest) = format_of(rest)?;
    let (epoch, rest) = u64_within(rest, 1, MAX_EPOCH)?;
    let (area, rest) = byte_within(rest, 0, 1)?;
    let (pages, rest) = u16_within(rest, MIN_PAGES, MAX_PAGES)?;
    let (mib, rest) = byte_within(rest, MIN_AREA_MIB, MAX_AREA_MIB)?;
    Ok((
        MasterSlot {
            format,
            epoch,
            area,
            pages,
            mib,
        },
        rest,
    ))
}

/// What these bytes of a master slot are.
pub fn decode_slot(bytes: &[u8; 17]) -> SlotRead
    ensures { IsSlotRead bytes.now result }
{
    if bytes[0] != OPEN_GATE {
        return SlotRead::Closed;
    }
    match slot_of(bytes) {
        Ok((slot, _rest)) => SlotRead::Open(slot),
        Err(_) => SlotRead::Bad,
    }
}
