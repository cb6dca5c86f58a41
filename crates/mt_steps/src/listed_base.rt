// The base that pages hold. Surveys and inspections read it off page 2 and the pages of records: they gather the rows,
// and put them in order once.
ghost use Rattle.std.specs.Prelude.{◌≡◌, ◌+◌, ◌<◌, ◌≤◌, ℕ, ℤ, List, length, get_or, None, IfOk, OnOk};
ghost use Rattle.mt_base.specs.declared.limits.TheConstants.{MAX_RELATIONS};
ghost use Rattle.mt_index.specs.Maps.{Map};
ghost use Rattle.mt_model.specs.Model.{Base as ModelBase};
ghost use Rattle.mt_model.specs.Views.{base_of, counters_of, relations_of};
ghost use Rattle.mt_rows.specs.Rows.{AreKeysOnce};
ghost use Rattle.mt_slots.specs.Page.{IsShaped};
ghost use Rattle.mt_space.specs.Changes.{PageBytes};
ghost use Rattle.mt_space.specs.Kinds.{kind};
ghost use Rattle.mt_counters.specs.Counters.{count_in, AreCounters};
ghost use Rattle.mt_steps.specs.Held.{AreNamed, HoldsRows};
ghost use Rattle.mt_steps.specs.Listed.{AreBounds, AreInside, HasListed};

use mt_base::ranges::u16_at;
use mt_base::{Bytes, CtrNo};
use mt_counters::{counter, sizes};
use mt_model::Base;
use mt_rows::{Row, Rows};
use mt_slots::{RecordView, get};
use std::alloc::{AllocError, Global};

// The bounds and numbers of the page's counters.
fn bounds_in(alloc: Global, page: &[u8], counters: u16) -> Result<Vec<(i64, i64, i64)>, AllocError>
    requires counted { (relations : ℕ) × AreCounters relations counters page.now }
    ensures { IfOk result (λ bounds. AreBounds page.now counters bounds.items) }
{
    let mut bounds = Vec::with_capacity(alloc, usize::from(counters))?;
    for number in 0..counters {
        let count = counter(page, CtrNo::new(number));
        bounds.push_reserved((count.low, count.high, count.number));
    }
    Ok(bounds)
}

/// A base without rows, of the relations and counters that a counters page names. The only error is want of memory.
pub fn base_without_rows(alloc: Global, page: &[u8]) -> Result<Base, AllocError>
    requires few { get_or page.now 0 0 ≤ MAX_RELATIONS }
    requires counted { AreCounters (get_or page.now 0 0) (get_or page.now 1 0) page.now }
    ensures relations { IfOk result (λ base. relations_of base ≡ get_or page.now 0 0) }
    ensures counters { IfOk result (λ base. length (counters_of base) ≡ get_or page.now 1 0) }
    ensures counts { IfOk result (λ base. (c : ℕ) → c < get_or page.now 1 0
        → (base_of base).counts c ≡ count_in page.now c) }
    ensures rows { IfOk result (λ base. (r : ℕ) (k : List ℕ) → (base_of base).rows r k ≡ None) }
{
    let outcome = sizes(page);
    let bounds = bounds_in(alloc, page, outcome.counters)?;
    Base::new(alloc, outcome.relations, bounds.as_slice())
}

// A copy of a record as a row.
fn row_copy(alloc: Global, view: RecordView<'_>) -> Result<Row, AllocError>
    ensures { IfOk result (λ row. row ≡ record {
      relation = view.entry.relation;
      key = view.entry.key.now;
      value = view.entry.value.now;
    }) }
{
    let key = Bytes::copy_of(alloc, view.key)?;
    let value = Bytes::copy_of(alloc, view.value)?;
    Ok(Row {
        relation: view.relation,
        key,
        value,
    })
}

/// Lists the records of a page of records as rows, at the end of the list. An index names each record of the pages by
/// its key, so no key stands twice. The only error is want of memory; the list has then some of the rows.
pub fn list_rows(alloc: Global, rows: &mut Vec<Row>, page: &[u8]) -> Result<(), AllocError>
    requires shaped { IsShaped page.now }
    ensures listed { (pages : PageBytes) (p : ℕ) (m : Map) → pages p ≡ page.now → kind pages p ≡ 3
        → AreNamed pages m → HasListed pages p rows.old.items → OnOk result (HasListed pages (p + 1) rows.new.items) }
{
    for slot in 0..u16_at(page, 0) {
        if let Some(view) = get(page, slot) {
            rows.push(row_copy(alloc, view)?)?;
        }
    }
    Ok(())
}

/// The base with the rows that were listed from all pages: they are put in order here, once. It takes no memory.
pub fn base_of_rows(base: Base, rows: Vec<Row>) -> Base
    requires once { AreKeysOnce rows.items }
    ensures rows { (pages : PageBytes) (total : ℕ) (held : ModelBase) → AreInside total pages
        → HoldsRows pages held → HasListed pages total rows.items
        → (r : ℕ) (k : List ℕ) → (base_of result).rows r k ≡ held.rows r k }
    ensures counters { counters_of result ≡ counters_of base }
    ensures relations { relations_of result ≡ relations_of base }
{
    let rows = Rows::sorted(rows);
    base.with_rows(rows)
}
