// The plan that finds the record name under a relation and a key. It reads pages at hand, and changes nothing.
ghost use Rattle.std.specs.Prelude.{◌≡◌, ◌≤◌, length, Some, None};
ghost use Rattle.mt_base.specs.declared.limits.TheConstants.{MAX_KEY_BYTES};
ghost use Rattle.mt_base.specs.declared.modes.Mode.TheVariants.{Read};
ghost use Rattle.mt_index.specs.Answers.{InMaps, IsInBucket, Asks, FindNeeds, IfFound, IfMissing, IfEndless, IsSearched, IsSearchedTo, FindsName};

use crate::answers::{Find, Held, Search};
use crate::chain::holder_from;
use crate::directory::pointer;
use mt_base::{Mode, PageNo, RelNo};
use mt_bucket::hash;
use mt_space::Pages;
use mt_space::pages::DIRECTORY;

/// The name of the record under a relation and a key, or that there is none, by the pages at hand. The
/// directory and then pages of the key's bucket are needed for read. In pages that are an index it never
/// answers that they are none.
///
/// It goes on with the search: pages of the bucket that are passed are not looked at again.
pub fn plan_find<V: Pages>(views: &V, relation: RelNo, key: &[u8], search: &mut Search) -> Find
    requires sound { V.is_sound views.now }
    requires short { length key.now ≤ MAX_KEY_BYTES }
    requires searched { IsSearched (V.at_hand views.now) (V.total views.now) relation key.now search.old }
    ensures need { FindNeeds result (Asks (V.at_hand views.now) (V.total views.now) (IsInBucket key.now Read)) }
    ensures found { IfFound result (λ name. InMaps (V.at_hand views.now) (V.total views.now) (λ pages m.
        m relation key.now ≡ Some name)) }
    ensures missing { IfMissing result (InMaps (V.at_hand views.now) (V.total views.now) (λ pages m.
        m relation key.now ≡ None)) }
    ensures endless { IfEndless result (InMaps (V.at_hand views.now) (V.total views.now) (λ pages m. ⊥)) }
    ensures searched { IsSearched (V.at_hand views.now) (V.total views.now) relation key.now search.new }
{
    let begun = *search;
    match begun {
        Search::Start => {
            let Some(directory) = views.page(PageNo::new(DIRECTORY)) else {
                return Find::Need(PageNo::new(DIRECTORY));
            };
            find_from(views, pointer(directory, hash(key)), relation, key, search)
        }
        Search::At(page) => find_from(views, page, relation, key, search),
        Search::Found(name) => Find::Found(name),
    }
}

// Finds the name from a page of the key's bucket on, if those before it have no entry of the key.
fn find_from<V: Pages>(
    views: &V,
    from: PageNo,
    relation: RelNo,
    key: &[u8],
    search: &mut Search,
) -> Find
    requires sound { V.is_sound views.now }
    requires short { length key.now ≤ MAX_KEY_BYTES }
    requires lacks { IsSearchedTo (V.at_hand views.now) (V.total views.now) relation key.now from }
    requires searched { IsSearched (V.at_hand views.now) (V.total views.now) relation key.now search.old }
    ensures name { FindsName (V.at_hand views.now) (V.total views.now) relation key.now result }
    ensures searched { IsSearched (V.at_hand views.now) (V.total views.now) relation key.now search.new }
{
    match &holder_from(views, from, relation, key, Mode::Read) {
        Held::Need(page, _) => {
            *search = Search::At(*page);
            Find::Need(*page)
        }
        Held::In(_, name) => {
            *search = Search::Found(*name);
            Find::Found(*name)
        }
        Held::Nowhere => Find::Missing,
        Held::Endless => Find::Endless,
    }
}
