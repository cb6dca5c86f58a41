// The record under a name, read off its page if that is at hand. Nothing changes.
ghost use Rattle.std.specs.Prelude.{◌≡◌, ℕ};
ghost use Rattle.mt_space.specs.Changes.{PageBytes, Agrees};
ghost use Rattle.mt_space.specs.Kinds.{kind};
ghost use Rattle.mt_file.specs.File.{IsFile};
ghost use Rattle.mt_file.specs.Plans.{IsFound};

use mt_base::{PageNo, RecordName};
use mt_slots::{RecordView, get};
use mt_space::Pages;

/// What a reading of a name finds.
#[derive(Clone, Copy, Debug)]
pub enum Lookup<'a> {
    /// This page has to be at hand first, locked to be read at least.
    Need(PageNo),
    /// The record, lent from its page.
    Record(RecordView<'a>),
    /// The name holds nothing.
    Nothing,
}

/// The record under a name of a page that holds records.
pub fn plan_read<V: Pages>(views: &V, name: RecordName) -> Lookup<'_>
    requires sound { V.is_sound views.now }
    requires good { ∥ ((pages : PageBytes) × Agrees (V.at_hand views.now) pages × IsFile pages
        × (kind pages name.page ≡ 3)) ∥₁ }
    ensures { (pages : PageBytes) → Agrees (V.at_hand views.now) pages → IsFile pages → kind pages name.page ≡ 3 →
        IsFound (V.at_hand views.now) pages name.page name.slot result }
{
    let Some(page) = views.page(name.page) else {
        return Lookup::Need(name.page);
    };
    match get(page, name.slot) {
        Some(view) => Lookup::Record(view),
        None => Lookup::Nothing,
    }
}
