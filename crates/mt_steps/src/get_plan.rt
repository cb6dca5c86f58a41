// The plan of a get: the index names the record, and its page has the value. Nothing changes.
ghost use Rattle.std.specs.Prelude.{◌≤◌, ◌<◌, ℕ, length};
ghost use Rattle.mt_base.specs.declared.limits.TheConstants.{MAX_KEY_BYTES};
ghost use Rattle.mt_index.specs.Answers.{IsSearched};
ghost use Rattle.mt_steps.specs.Acts.{HasGood};
ghost use Rattle.mt_steps.specs.Planners.{PlansGet};

use crate::act::Act;
use mt_base::{Bytes, Mode, RelNo};
use mt_file::{Lookup, plan_read};
use mt_index::{Find, Search, plan_find};
use mt_model::Reply;
use mt_space::{Changes, Pages};
use std::alloc::{AllocError, Global};

/// Plans to read the value under a key: the directory, the key's bucket and the record's page are
/// needed for read, and nothing changes.
pub(crate) fn get<V: Pages>(
    alloc: Global,
    views: &V,
    relation: RelNo,
    key: &[u8],
    search: &mut Search,
) -> Result<Act, AllocError>
    requires sound { V.is_sound views.now }
    requires good { ∥ ((relations : ℕ) × HasGood (V.at_hand views.now) relations (V.total views.now)) ∥₁ }
    requires short { length key.now ≤ MAX_KEY_BYTES }
    requires searched { IsSearched (V.at_hand views.now) (V.total views.now) relation key.now search.old }
    ensures plans { PlansGet (V.at_hand views.now) (V.total views.now) relation key.now result }
    ensures searched { IsSearched (V.at_hand views.now) (V.total views.now) relation key.now search.new }
{
    let name = match plan_find(views, relation, key, search) {
        Find::Need(page) => return Ok(Act::Lock(page, Mode::Read)),
        Find::Missing => return Ok(Act::Made(Changes::new(alloc), Reply::Missing)),
        Find::Found(name) => name,
        Find::Endless => return Ok(Act::Broken),
    };
    match plan_read(views, name) {
        Lookup::Need(page) => Ok(Act::Lock(page, Mode::Read)),
        Lookup::Record(row) => {
            let value = Bytes::copy_of(alloc, row.value)?;
            Ok(Act::Made(Changes::new(alloc), Reply::Found(value)))
        }
        Lookup::Nothing => Ok(Act::Broken),
    }
}
