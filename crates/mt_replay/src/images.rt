// The first images of a log's area, and which pages have one: a page with an image there is found without its slot.
ghost use Rattle.std.specs.Prelude.{◌≡◌, ◌∷◌, [], length, IfOk, IfErr};
ghost use Rattle.mt_base.specs.declared.refusal.Refusal.{Refusal};
ghost use Rattle.mt_frame.specs.Grammar.{IsRecord};
ghost use Rattle.mt_log.specs.Batch.{joined};
ghost use Rattle.mt_log.specs.Found.{records_of};
ghost use Rattle.mt_log.specs.Holds.{AreRecords, AreBatches, HasItsPage};
ghost use Rattle.mt_space.specs.PageLists.{AreWhole};
ghost use Rattle.mt_replay.specs.Passes.{AreFirstImages, HasMarks, Lays};

use mt_base::Refusal;
use mt_frame::Record;
use mt_log::Batch;
use std::alloc::{AllocError, Global};

/// Pages by the images of an area.
#[derive(Drop)]
pub(crate) struct Images {
    // the first image of each page, by its number, and zeros of a page that has none
    pub(crate) pages: Vec<[u8; 4096]>,
    // whether it has one
    pub(crate) imaged: Vec<bool>,
}

impl Images {
    // A page's image, if the record carries one.
    fn lay_one(&mut self, entry: &Record)
        requires marks { HasMarks self.old }
        requires grammar { IsRecord entry.now }
        requires inside { HasItsPage (length self.old.pages.items) entry.now }
        ensures { Lays (entry.now ∷ []) self.old self.new }
    {
        if let Record::Page {
            page,
            image: Some(image),
            ..
        } = entry
        {
            let number = usize::from(page.get());
            self.pages[number].copy_from_slice(image.as_slice());
            self.imaged[number] = true;
        }
    }

    // The images of a batch, from its last record on, so that the first image of a page stays.
    fn lay_records(&mut self, records: &[Record])
        requires marks { HasMarks self.old }
        requires each { AreRecords (length self.old.pages.items) records.now }
        ensures { Lays records.now self.old self.new }
    {
        let mut i = records.len();
        while i > 0 {
            i -= 1;
            self.lay_one(&records[i]);
        }
    }
}

// So many pages of zeros.
fn zero_pages(alloc: Global, count: u16) -> Result<Vec<[u8; 4096]>, AllocError>
    ensures whole { IfOk result (λ pages. AreWhole pages.items) }
    ensures count { IfOk result (λ pages. length pages.items ≡ count) }
{
    let mut pages = Vec::with_capacity(alloc, usize::from(count))?;
    for _page in 0..count {
        pages.push([0; 4096])?;
    }
    Ok(pages)
}

/// The first images in these batches of so many pages. The records are gone over once, from the last one on. The only
/// refusal is [`Refusal::NoMemory`].
pub(crate) fn images_in(alloc: Global, count: u16, batches: &[Batch]) -> Result<Images, Refusal>
    requires each { AreBatches count (records_of batches.now) }
    ensures images { IfOk result (AreFirstImages count (joined (records_of batches.now))) }
    ensures only_memory { IfErr result (λ why. why ≡ Refusal.NoMemory) }
{
    let mut images = Images {
        pages: zero_pages(alloc, count)?,
        imaged: vec![in alloc; false; usize::from(count)]?,
    };
    let mut i = batches.len();
    while i > 0 {
        i -= 1;
        images.lay_records(&batches[i].records);
    }
    Ok(images)
}
