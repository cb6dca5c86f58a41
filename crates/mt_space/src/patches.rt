// A change of one page, made in its bytes: in a frame, in a copy or in a page that a restart has in memory.
ghost use Rattle.std.specs.Prelude.{◌≡◌, ◌≤◌, ◌+◌, length, All};
ghost use Rattle.mt_base.specs.declared.limits.TheConstants.{PAGE_BYTES};
ghost use Rattle.mt_base.specs.Edits.{patched};

use mt_base::Edit;

/// Makes the edits in the page's bytes, in order. Each has to lie within the page, as it does in the changes
/// that [`Changes::note`](crate::Changes::note) notes.
pub fn patch(page: &mut [u8; 4096], edits: &[Edit])
    requires { All (λ e. e.start + length e.bytes ≤ PAGE_BYTES) edits.now }
    ensures made { page.new ≡ patched edits.now page.old }
    ensures size { length page.new ≡ PAGE_BYTES }
{
    for edit in edits {
        let start = usize::from(edit.start);
        page[start..start + edit.bytes.len()].copy_from_slice(edit.bytes.as_slice());
    }
}
