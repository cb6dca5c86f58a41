// A change of a page as records of the log.
ghost use Rattle.std.specs.Prelude.{◌≡◌, ◌≤◌, ◌<◌, ◌+◌, ℕ, List, length, All};
ghost use Rattle.std.specs.List.{AllByRecursion};
ghost use Rattle.mt_base.specs.declared.limits.TheConstants.{BATCH_HEAD_BYTES, LARGEST_PAGE_RECORD, PAGE_BYTES};
ghost use Rattle.mt_base.specs.Edits.{patched};
ghost use Rattle.mt_frame.specs.Grammar.{IsRecord};
ghost use Rattle.mt_frame.specs.PageRecords.{lent_image, range_record, represented};
ghost use Rattle.mt_log.specs.Words.{used, area_size};
ghost use Rattle.mt_pool.specs.Writes.{AppendsAll, IsAsLeft, lent_records, records_size};

use crate::Pool;
use mt_base::limits::LARGEST_PAGE_RECORD;
use mt_base::ranges::part_of;
use mt_base::{Edit, LogPos, OpNo, PageNo, Refusal, TxnNo};
use mt_frame::PageRecord;
use mt_log::Log;
use mt_space::PageChange;

/// What is logged of a change of a page: whose it is, the image that its first record carries, and the page's bytes
/// before it. Those after it are in its edits.
#[derive(Clone, Copy)]
pub(crate) struct Change<'a> {
    pub(crate) txn: TxnNo,
    pub(crate) op: OpNo,
    pub(crate) page: PageNo,
    pub(crate) image: Option<&'a [u8]>,
    pub(crate) old: &'a [u8; 4096],
}

impl<'a> Change<'a> {
    /// The record of an edit's range, with this image. The edit's bytes are those of the page once the change is made.
    fn record_of(&self, image: Option<&'a [u8]>, edit: &'a Edit) -> PageRecord<'a>
        requires { edit.now.start + length edit.now.bytes ≤ PAGE_BYTES }
        ensures { (new : List ℕ) → IsAsLeft new edit.now → represented result ≡ range_record self.now.txn self.now.op
            self.now.page (lent_image image.entry) self.now.old.now new edit.now }
    {
        let old = self.old;
        PageRecord {
            txn: self.txn,
            op: self.op,
            page: self.page,
            image,
            start: edit.start,
            old: part_of(old, usize::from(edit.start), edit.bytes.len()),
            new: edit.bytes.as_slice(),
        }
    }
}

/// Appends a record for each edit in order, the first one with the image: all of them or none. Answers the place of the
/// last one. The only refusal is [`Refusal::NoMemory`].
fn append_all<'a>(log: &mut Log, change: &Change<'a>, edits: &'a [Edit]) -> Result<LogPos, Refusal>
    requires some { 0 < length edits.now }
    requires within { All (λ e. e.start + length e.bytes ≤ PAGE_BYTES) edits.now }
    requires left { All (IsAsLeft (patched edits.now change.now.old.now)) edits.now }
    requires grammar { AllByRecursion IsRecord (lent_records change.now edits.now) }
    requires fits { used log.old + records_size (lent_records change.now edits.now) < area_size log.old }
    requires short { records_size (lent_records change.now edits.now) ≤ BATCH_HEAD_BYTES + LARGEST_PAGE_RECORD }
    ensures { AppendsAll log.old log.new (lent_records change.now edits.now) result }
{
    let mut image = change.image;
    let mut place = LogPos::new(0);
    // After this nothing is refused, so that no record stands without the others.
    log.reserve(LARGEST_PAGE_RECORD as usize)?;
    for edit in edits {
        place = log.append_page(&change.record_of(image, edit))?;
        image = None;
    }
    Ok(place)
}

impl Pool {
    ghost use Rattle.mt_space.specs.Changes.{IsShort};
    ghost use Rattle.mt_pool.specs.Views.{IsPool, IsThere, view, pages};
    ghost use Rattle.mt_pool.specs.Writes.{due_image, due_records, IsEdited};

    /// The page's bytes, lent, if the area has no image of it yet.
    fn due_image(&self, page: PageNo) -> Option<&[u8]>
        requires pool { IsPool self.now }
        requires there { IsThere self.now page }
        requires inside { page < pages self.now }
        ensures { (seen : List ℕ) → lent_image result ≡ due_image self.now page (view self.now seen page) }
    {
        if self.needs_image(page) {
            return Some(self.view(page));
        }
        None
    }

    /// Appends what is to be logged of a change of a page in a frame, as [`append_all`] does. The first record has the
    /// page's image if the area has none yet. Each record's old bytes are lent from the frame, and its new ones from the
    /// edit.
    pub(crate) fn append_change(
        &self,
        log: &mut Log,
        txn: TxnNo,
        op: OpNo,
        change: &PageChange,
    ) -> Result<LogPos, Refusal>
        requires pool { IsPool self.now }
        requires there { IsThere self.now change.now.page }
        requires inside { change.now.page < pages self.now }
        requires edits { (seen : List ℕ) → IsShort (view self.now seen change.now.page) change.now }
        requires grammar { (seen : List ℕ) → AllByRecursion IsRecord
            (due_records self.now txn op change.now (view self.now seen change.now.page)) }
        requires fits { (seen : List ℕ) → used log.old + records_size
            (due_records self.now txn op change.now (view self.now seen change.now.page)) < area_size log.old }
        requires short { (seen : List ℕ) → records_size (due_records self.now txn op change.now
            (view self.now seen change.now.page)) ≤ BATCH_HEAD_BYTES + LARGEST_PAGE_RECORD }
        ensures { (seen : List ℕ) → AppendsAll log.old log.new
            (due_records self.now txn op change.now (view self.now seen change.now.page)) result }
    {
        let page = change.page;
        let old = self.view(page);
        let logged = Change {
            txn,
            op,
            page,
            image: self.due_image(page),
            old,
        };
        append_all(log, &logged, &change.edits)
    }

    /// Makes the edits of a change in the page's frame, the first one first, each as [`Pool::change`] does.
    pub(crate) fn change_all(&mut self, page: PageNo, edits: &[Edit], position: LogPos)
        requires pool { IsPool self.old }
        requires there { IsThere self.old page }
        requires inside { page < pages self.old }
        requires within { All (λ e. e.start + length e.bytes ≤ PAGE_BYTES) edits.now }
        requires some { 0 < length edits.now }
        requires position { 0 < position }
        ensures { IsEdited self.old self.new page edits.now position }
    {
        for edit in edits {
            let start = usize::from(edit.start);
            self.change(page, start, edit.bytes.as_slice(), position);
        }
    }
}
