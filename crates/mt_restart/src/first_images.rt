// The images with which an area begins: those of the pages that are lost.
ghost use Rattle.std.specs.Prelude.{◌≡◌, ◌+◌, ◌<◌, ◌≤◌, ◌↔◌, [], Some, length, IfOk, IfErr, IsTrue};
ghost use Rattle.std.specs.List.{AllByRecursion};
ghost use Rattle.mt_base.specs.declared.limits.TheConstants.{MAX_PAGES};
ghost use Rattle.mt_base.specs.declared.refusal.Refusal.{Refusal};
ghost use Rattle.mt_frame.specs.Grammar.{IsRecord, body_text};
ghost use Rattle.mt_frame.specs.declared.records.Record.{Record};
ghost use Rattle.mt_restart.specs.Turned.{AreImagesOf};

use mt_base::limits::BATCH_HEAD_BYTES;
use mt_base::{Bytes, OpNo, PageNo, Refusal, TxnNo};
use mt_frame::Record;
use std::alloc::{AllocError, Global};

// The record of a page's image.
fn image_of(alloc: Global, page: PageNo, bytes: &[u8; 4096]) -> Result<Record, AllocError>
    ensures { IfOk result (λ image. image ≡ Record.Page 0 0 page (Some bytes.now) 0 [] []) }
{
    Ok(Record::Page {
        txn: TxnNo::new(0),
        op: OpNo::new(0),
        page,
        image: Some(Bytes::copy_of(alloc, bytes)?),
        start: 0,
        old: Bytes::new(Vec::new(alloc)),
        new: Bytes::new(Vec::new(alloc)),
    })
}

/// An image of each marked page, in the order of their numbers, as the records with which an area begins. The only
/// refusal is [`Refusal::NoMemory`].
pub(crate) fn images_of(
    alloc: Global,
    pages: &[[u8; 4096]],
    marked: &[bool],
) -> Result<Vec<Record>, Refusal>
    requires count { length marked.now ≡ length pages.now }
    requires few { length pages.now ≤ MAX_PAGES }
    ensures images { IfOk result (λ images. AreImagesOf pages.now marked.now images.items) }
    ensures only_memory { IfErr result (λ why. why ≡ Refusal.NoMemory) }
{
    let mut images = Vec::new(alloc);
    for page in 0..pages.len() {
        if marked[page] {
            let image = image_of(alloc, PageNo::new(page as u16), &pages[page])?;
            images.push(image)?;
        }
    }
    Ok(images)
}

/// Whether a batch of these records fits into an area of so many bytes, with a gate after it.
pub(crate) fn images_fit(images: &[Record], bytes: u64) -> bool
    requires { AllByRecursion IsRecord images.now }
    ensures { IsTrue result ↔ (5 + length (body_text images.now) < bytes) }
{
    if bytes <= BATCH_HEAD_BYTES {
        return false;
    }
    let mut left = bytes - BATCH_HEAD_BYTES;
    for entry in images {
        let size = entry.length() as u64;
        if left <= size {
            return false;
        }
        left -= size;
    }
    true
}
