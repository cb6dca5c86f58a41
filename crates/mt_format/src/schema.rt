// What a device is formatted with: its pages, the size of a log area, its relations and its counters.
// A `Schema` has all of them within their limits.
ghost use Rattle.std.specs.Prelude.{◌≡◌, ◌⊎◌, IfOk, IfErr, IsOk, All, map, length, MatchBool};
ghost use Rattle.mt_base.specs.Limits.{IsPageCount, IsAreaSize, IsRelationCount, IsCounterCount, IsCounter};
ghost use Rattle.mt_base.specs.declared.refusal.Refusal.{Refusal};
ghost use Rattle.mt_model.specs.Tables.{AreLimited, started};
ghost use Rattle.mt_model.specs.Views.{rows_of, counters_of, relations_of};
ghost use Rattle.mt_format.specs.Within.{IsWithinLimits};

use mt_base::Refusal;
use mt_base::limits::{
    area_size_fits, counter_count_fits, device_bytes, page_count_fits, relation_count_fits,
};
use mt_counters::counters_fit;
use mt_model::{Base, Count};
use std::alloc::Global;

/// What a device is formatted with: how many pages it has, and how large each of its two log areas is. It has how
/// many relations there are, and which counters. All of it lies within the limits.
#[derive(Drop)]
pub struct Schema {
    pub(crate) pages: u16,
    pub(crate) area_mib: u8,
    /// The relations, without rows, and the counters, each at its start.
    pub(crate) base: Base,
    ghost page_count: { IsPageCount pages },
    ghost area_size: { IsAreaSize area_mib },
    ghost relation_count: { IsRelationCount (relations_of base) },
    ghost counter_count: { IsCounterCount (length (counters_of base)) },
    ghost no_rows: { length (rows_of base) ≡ 0 },
}

// Whether all of it lies within the limits.
fn is_schema(pages: u16, area_mib: u8, relations: u16, counters: &[(i64, i64, i64)]) -> bool
    ensures { MatchBool result (IsWithinLimits pages area_mib relations counters.now)
        (IsWithinLimits pages area_mib relations counters.now → ⊥) }
{
    page_count_fits(pages)
        && area_size_fits(area_mib)
        && relation_count_fits(relations)
        && counter_count_fits(counters.len())
        && counters_fit(counters)
}

impl Schema {
    ghost use Rattle.mt_format.specs.Schemas.{pages_in, mib_in, relations_in, counters_in, device_bytes};

    /// A schema of 16 to 4000 pages, log areas of 4 to 64 MiB, 1 to 64 relations, and at most 128 counters. Each
    /// counter has its low bound, high bound and start, within 10^15 of zero, and in this order. What is outside its
    /// limits is refused with [`Refusal::BadLength`], and nothing else but by [`Refusal::NoMemory`].
    pub fn new(
        alloc: Global,
        pages: u16,
        area_mib: u8,
        relations: u16,
        counters: &[(i64, i64, i64)],
    ) -> Result<Schema, Refusal>
        ensures pages { IfOk result (λ schema. pages_in schema ≡ pages) }
        ensures area { IfOk result (λ schema. mib_in schema ≡ area_mib) }
        ensures relations { IfOk result (λ schema. relations_in schema ≡ relations) }
        ensures counters { IfOk result (λ schema. counters_in schema ≡ map started counters.now) }
        ensures within { IsOk result → IsWithinLimits pages area_mib relations counters.now }
        ensures cause { IfErr result (λ why.
            (why ≡ Refusal.BadLength) × (IsWithinLimits pages area_mib relations counters.now → ⊥)
            ⊎ (why ≡ Refusal.NoMemory) × IsWithinLimits pages area_mib relations counters.now) }
    {
        if !is_schema(pages, area_mib, relations, counters) {
            return Err(Refusal::BadLength);
        }
        let base = Base::new(alloc, relations, counters)?;
        Ok(Schema {
            pages,
            area_mib,
            base,
        })
    }

    /// How many relations there are.
    pub fn relations(&self) -> u16
        ensures { result ≡ relations_in self.now }
    {
        self.base.relations()
    }

    /// The counters in order, each at its start.
    pub fn counters(&self) -> &[Count]
        ensures counters { result.now ≡ counters_in self.now }
        ensures limited { AreLimited result.now }
    {
        self.base.counters()
    }

    /// The bytes that a device of it needs: 8192 for the master slots, 4096 for each page, and both log areas.
    pub fn device_len(&self) -> u64
        ensures { result ≡ device_bytes self.now }
    {
        device_bytes(self.pages, self.area_mib)
    }
}
