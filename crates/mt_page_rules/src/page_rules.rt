// Whether all pages of a device break no rule of their formats, whatever their bytes are.
// A restart asks this before it plans over pages that a device had.
ghost use Rattle.std.specs.Prelude.{◌≡◌, ◌⊎◌, ◌+◌, ◌*◌, ◌<◌, ◌≤◌, ℕ, length, IfOk, IfSome, MatchBool, MatchOption};
ghost use Rattle.mt_page_rules.specs.declared.page_rules.TheConstants.{MAX_SLOTS};
ghost use Rattle.mt_base.specs.declared.limits.TheConstants.{MAX_PAGES, PAGE_BYTES};
ghost use Rattle.mt_bucket.specs.Page.{count_of, IsBucket};
ghost use Rattle.mt_index.specs.Checks.{IsSound};
ghost use Rattle.mt_space.specs.PageLists.{bytes_of, AreWhole};
ghost use Rattle.mt_space.specs.Kinds.{kind, CanBe, IsMap};
ghost use Rattle.mt_page_rules.specs.Faults.{IsFaulty};
ghost use Rattle.mt_page_rules.specs.Checks.{AreCheckedIn, AreBroken, HasSchema, IsRecordPage, AreRecordPages, HasRecord, NamesRecords, AllNameRecords, AreListedAt, HasListed, AllAreListed, IsIndexed};
ghost use Rattle.mt_page_rules.specs.Naming.{AreNamed, MarksNamed};

use mt_base::limits::{PAGE_BYTES, relation_count_fits};
use mt_base::{Format, PageNo, RecordName, RelNo};
use mt_bucket::{count, entry};
use mt_counters::{SchemaSizes, sizes};
use mt_slots::get;
use mt_space::pages::{BUCKET, COUNTERS, FIXED, FREE, MAP, RECORDS};
use std::alloc::{AllocError, Global};

// Slots of a page of records: each takes 4 bytes.
const MAX_SLOTS: u16 = 1022;

// The place of a slot among those of all pages.
fn place_of(page: usize, slot: u16) -> usize
    requires { page < PAGE_BYTES }
    ensures { result ≡ MAX_SLOTS * page + slot }
{
    usize::from(MAX_SLOTS) * page + usize::from(slot)
}

// Whether the page of this number, of so many, can be of this kind.
fn can_be(total: usize, page: usize, of: u8) -> bool
    ensures { MatchBool result (CanBe total page of) (CanBe total page of → ⊥) }
{
    if page <= usize::from(COUNTERS) {
        return of == FIXED && page < total;
    }
    match of {
        FREE => true,
        BUCKET => page < total,
        RECORDS => page < total,
        _ => false,
    }
}

/// All pages of a device in memory, of which nothing is known but that they are whole.
#[derive(Drop)]
pub struct AllPages {
    /// The bytes of each page, by its number.
    pub pages: Vec<[u8; 4096]>,
    /// The format of the device, which says how long a value may be.
    pub format: Format,
    ghost whole: { AreWhole pages.items },
    ghost some: { 16 ≤ length pages.items },
    ghost few: { length pages.items ≤ MAX_PAGES },
}

impl AllPages {
    // Whether the space map says so of a page.
    fn is_of_kind(&self, page: usize, of: u8) -> bool
        ensures { MatchBool result
            ((page < length self.now.pages.items) × (kind (bytes_of self.now.pages.items) page ≡ of))
            (page < length self.now.pages.items → kind (bytes_of self.now.pages.items) page ≡ of → ⊥) }
    {
        page < self.pages.len() && self.pages[usize::from(MAP)][page] == of
    }

    // Whether page 0 is the map of so many pages.
    fn has_map(&self) -> bool
        ensures { MatchBool result (IsMap (length self.now.pages.items) (bytes_of self.now.pages.items))
            (IsMap (length self.now.pages.items) (bytes_of self.now.pages.items) → ⊥) }
    {
        let map = &self.pages[usize::from(MAP)];
        for number in 0..PAGE_BYTES {
            if !can_be(self.pages.len(), number, map[number]) {
                return false;
            }
        }
        true
    }

    // Whether page 2 is the counters page of the schema that it has the counts of.
    fn has_schema(&self, counted: SchemaSizes) -> bool
        ensures { MatchBool result (HasSchema self.now.pages.items counted.relations counted.counters)
            (HasSchema self.now.pages.items counted.relations counted.counters → ⊥) }
    {
        let page = &self.pages[usize::from(COUNTERS)];
        relation_count_fits(counted.relations)
            && mt_counters::check(page, counted.relations, counted.counters)
    }

    // Whether a page is one of the schema, if it is of records.
    fn is_record_page(&self, page: usize, relations: u16) -> bool
        requires { page < length self.now.pages.items }
        ensures { MatchBool result (IsRecordPage self.now.format self.now.pages.items relations page)
            (IsRecordPage self.now.format self.now.pages.items relations page → ⊥) }
    {
        if !self.is_of_kind(page, RECORDS) {
            return true;
        }
        mt_slots::check(&self.pages[page], relations, self.format.value_limit())
    }

    // The first page of records whose bytes are none of the schema's.
    fn first_malformed(&self, relations: u16) -> Option<PageNo>
        ensures { MatchOption result (AreRecordPages self.now.format self.now.pages.items relations)
            (λ p. (p < length self.now.pages.items)
            × (IsRecordPage self.now.format self.now.pages.items relations p → ⊥)) }
    {
        for number in 0..self.pages.len() {
            if !self.is_record_page(number, relations) {
                return Some(PageNo::new(number as u16));
            }
        }
        None
    }

    // Whether a record of this relation and key has the name.
    fn has_record(&self, name: RecordName, relation: RelNo, key: &[u8]) -> bool
        requires { (relations : ℕ) × IsIndexed self.now.pages.items relations }
        ensures { MatchBool result (HasRecord self.now.pages.items name relation key.now)
            (HasRecord self.now.pages.items name relation key.now → ⊥) }
    {
        let page = usize::from(name.page.get());
        if !self.is_of_kind(page, RECORDS) {
            return false;
        }
        match get(&self.pages[page], name.slot) {
            Some(view) => {
                if view.relation != relation {
                    return false;
                }
                if view.key != key {
                    return false;
                }
                true
            }
            None => false,
        }
    }

    // Whether each entry of a page names a record of its relation and key, if it is of a bucket.
    fn names_records(&self, page: usize) -> bool
        requires known { (relations : ℕ) × IsIndexed self.now.pages.items relations }
        requires inside { page < length self.now.pages.items }
        ensures { MatchBool result (NamesRecords self.now.pages.items page)
            (NamesRecords self.now.pages.items page → ⊥) }
    {
        if !self.is_of_kind(page, BUCKET) {
            return true;
        }
        let bytes = &self.pages[page];
        for i in 0..count(bytes) {
            let view = entry(bytes, i);
            if !self.has_record(view.name, view.relation, view.key) {
                return false;
            }
        }
        true
    }

    // The first bucket page with an entry that names another record, or none.
    fn first_misnaming(&self) -> Option<PageNo>
        requires { (relations : ℕ) × IsIndexed self.now.pages.items relations }
        ensures { MatchOption result (AllNameRecords self.now.pages.items)
            (λ p. (p < length self.now.pages.items) × (NamesRecords self.now.pages.items p → ⊥)) }
    {
        for number in 0..self.pages.len() {
            if !self.names_records(number) {
                return Some(PageNo::new(number as u16));
            }
        }
        None
    }

    // Marks the places of the slots that the entries of a bucket page name.
    fn mark_named(&self, page: usize, marks: &mut Vec<bool>)
        requires known { (relations : ℕ) × IsIndexed self.now.pages.items relations }
        requires names { AllNameRecords self.now.pages.items }
        requires bucket { kind (bytes_of self.now.pages.items) page ≡ 2 }
        requires inside { page < length self.now.pages.items }
        requires size { length marks.old.items ≡ MAX_SLOTS * length self.now.pages.items }
        ensures { MarksNamed self.now.pages.items page
            (count_of (bytes_of self.now.pages.items page)) marks.old.items marks.new.items }
    {
        let bytes = &self.pages[page];
        for i in 0..count(bytes) {
            let name = entry(bytes, i).name;
            marks[place_of(usize::from(name.page.get()), name.slot)] = true;
        }
    }

    // A mark for each slot of each page: whether an entry of a bucket page names it.
    fn named_slots(&self, alloc: Global) -> Result<Vec<bool>, AllocError>
        requires known { (relations : ℕ) × IsIndexed self.now.pages.items relations }
        requires names { AllNameRecords self.now.pages.items }
        ensures { IfOk result (λ marks. AreNamed self.now.pages.items (length self.now.pages.items) marks.items) }
    {
        let mut marks = vec![in alloc; false; usize::from(MAX_SLOTS) * self.pages.len()]?;
        for page in 0..self.pages.len() {
            if self.is_of_kind(page, BUCKET) {
                self.mark_named(page, &mut marks);
            }
        }
        Ok(marks)
    }

    // Whether the index names the record of a slot by its name, if there is one.
    fn is_listed(&self, page: usize, slot: u16, marks: &[bool]) -> bool
        requires known { (relations : ℕ) × IsIndexed self.now.pages.items relations }
        requires names { AllNameRecords self.now.pages.items }
        requires marked { AreNamed self.now.pages.items (length self.now.pages.items) marks.now }
        requires inside { page < length self.now.pages.items }
        requires records { kind (bytes_of self.now.pages.items) page ≡ 3 }
        requires slot { slot < MAX_SLOTS }
        ensures { MatchBool result (AreListedAt self.now.pages.items page slot)
            (AreListedAt self.now.pages.items page slot → ⊥) }
    {
        match get(&self.pages[page], slot) {
            Some(_) => marks[place_of(page, slot)],
            None => true,
        }
    }

    // Whether it names each record of a page by its name, if it is of records.
    fn has_listed(&self, page: usize, marks: &[bool]) -> bool
        requires known { (relations : ℕ) × IsIndexed self.now.pages.items relations }
        requires names { AllNameRecords self.now.pages.items }
        requires marked { AreNamed self.now.pages.items (length self.now.pages.items) marks.now }
        requires inside { page < length self.now.pages.items }
        ensures { MatchBool result (HasListed self.now.pages.items page) (HasListed self.now.pages.items page → ⊥) }
    {
        if !self.is_of_kind(page, RECORDS) {
            return true;
        }
        for slot in 0..MAX_SLOTS {
            if !self.is_listed(page, slot, marks) {
                return false;
            }
        }
        true
    }

    // The first page with a record that the index names otherwise, or not at all.
    fn first_unlisted(&self, marks: &[bool]) -> Option<PageNo>
        requires known { (relations : ℕ) × IsIndexed self.now.pages.items relations }
        requires names { AllNameRecords self.now.pages.items }
        requires marked { AreNamed self.now.pages.items (length self.now.pages.items) marks.now }
        ensures { MatchOption result (AllAreListed self.now.pages.items)
            (λ p. (p < length self.now.pages.items) × (HasListed self.now.pages.items p → ⊥)) }
    {
        for number in 0..self.pages.len() {
            if !self.has_listed(number, marks) {
                return Some(PageNo::new(number as u16));
            }
        }
        None
    }

    /// The page whose own rule is broken first, in the order of the tests; `None` if no page breaks one. They are the
    /// space map, page 2 as the schema's, the pages of the index, and pages of records by their bytes, which a value
    /// breaks that is longer than the format lets one be. Then come bucket pages by an entry that names no record of
    /// its relation and key, and pages of records by one that the index does not name. The only error is want of
    /// memory, and the pages stay in any case.
    pub fn first_broken(&self, alloc: Global) -> Result<Option<PageNo>, AllocError>
        ensures found { IfOk result (λ broken. MatchOption broken
            (AreCheckedIn self.now.format self.now.pages.items)
            (λ p. AreBroken self.now.format self.now.pages.items)) }
        ensures named { IfOk result (λ broken. IfSome broken (IsFaulty self.now.format self.now.pages.items)) }
    {
        if !self.has_map() {
            return Ok(Some(PageNo::new(MAP)));
        }
        let counted = sizes(&self.pages[usize::from(COUNTERS)]);
        if !self.has_schema(counted) {
            return Ok(Some(PageNo::new(COUNTERS)));
        }
        if let Some(page) = mt_index::check(alloc, &self.pages, counted.relations)? {
            return Ok(Some(page));
        }
        if let Some(page) = self.first_malformed(counted.relations) {
            return Ok(Some(page));
        }
        if let Some(page) = self.first_misnaming() {
            return Ok(Some(page));
        }
        let marks = self.named_slots(alloc)?;
        Ok(self.first_unlisted(&marks))
    }
}
