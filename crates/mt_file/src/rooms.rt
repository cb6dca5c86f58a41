// Which page of records takes a record of so many bytes: a tree over all pages, each node the larger of its children.
// mt_op keeps one beside its store, and finds in it a page to try. It notes a page anew when an operation ends.
ghost use Rattle.std.specs.Prelude.{◌≡◌, ◌≢◌, ◌+◌, ◌*◌, ◌<◌, ◌≤◌, ℕ, length, get_or, replicate, IfOk, IfSome, IfNone, slice_set};
ghost use Rattle.mt_base.specs.declared.limits.TheConstants.{MAX_PAGES};
ghost use Rattle.mt_file.specs.declared.rooms.TheConstants.{LEAVES};
ghost use Rattle.mt_slots.specs.Page.{IsShaped};
ghost use Rattle.mt_space.specs.Changes.{PageBytes};
ghost use Rattle.mt_space.specs.Kinds.{kind};
ghost use Rattle.mt_file.specs.File.{Touches};
ghost use Rattle.mt_file.specs.Rooms.{fits_of, Takes, AreRooms, IsMax, IsTreeBut, IsPassedTo, IsFirstLeaf, HasNone};

use mt_base::PageNo;
use mt_base::ranges::u16_at;
use mt_slots::{live, room};
use std::alloc::{AllocError, Global};
use std::marker::Model;

/// Leaves of the tree: no device has more pages.
const LEAVES: usize = 4096;

/// The bytes of the longest record that a page of records takes: its room, less the 4 of a new slot
/// if none is empty.
#[tactic(auto, unfolding(crate::specs::Rooms::fits_of, mt_slots::specs::Page::count))]
pub fn fits(page: &[u8]) -> u16
    requires { IsShaped page.now }
    ensures { result ≡ fits_of page.now }
{
    let room = room(page);
    if live(page) == u16_at(page, 0) {
        room.saturating_sub(4)
    } else {
        room
    }
}

/// The longest record that each page takes, beside the pages, so that a page with room is found without
/// a walk over them. A page that does not hold records takes none. Contracts see what each page takes.
#[derive(Drop)]
pub struct Rooms {
    fits: Vec<u16>,
    tree: Vec<u16>,
}

impl Model for Rooms {
    ghost use Rattle.std.specs.Prelude.{ℕ, List};
    ghost use Rattle.mt_file.specs.Rooms.{IsKept};

    ghost Value = { List ℕ };

    ghost view = { λ r. r.fits.items };

    ghost invariant = { λ r. IsKept r.fits.items r.tree.items };
}

impl Rooms {
    /// The rooms of so many pages, none of which takes a record. The only error is want of memory, and no
    /// later call takes any.
    pub fn of(alloc: Global, pages: u16) -> Result<Rooms, AllocError>
        requires { pages ≤ MAX_PAGES }
        ensures fits { IfOk result (λ rooms. rooms ≡ replicate pages 0) }
        ensures rooms { IfOk result (λ rooms. (all : PageBytes) → ((p : ℕ) → kind all p ≢ 3) → AreRooms rooms all) }
    {
        let pages = usize::from(pages);
        Ok(Rooms {
            fits: vec![in alloc; 0; pages]?,
            tree: vec![in alloc; 0; 2 * LEAVES]?,
        })
    }

    /// The first page, from this one on, that takes a record of so many bytes; `None` if there is none. Who
    /// passes a page by goes on after it. It is found in a few steps for each doubling of the pages.
    pub fn with_room_from(&self, from: u16, bytes: u16) -> Option<PageNo>
        requires some { 0 < bytes }
        requires within { from ≤ length self.now }
        ensures found { IfSome result (Takes self.now bytes) }
        ensures behind { IfSome result (λ p. from ≤ p) }
        ensures first { IfSome result (λ p. (q : ℕ) → from ≤ q → q < p → Takes self.now bytes q → ⊥) }
        ensures none { IfNone result ((q : ℕ) → from ≤ q → Takes self.now bytes q → ⊥) }
        ensures records { IfSome result (λ p. (pages : PageBytes) → AreRooms self.now pages → (kind pages p ≡ 3) ×
            (bytes ≤ fits_of (pages p))) }
        ensures full { IfNone result ((pages : PageBytes) (p : ℕ) → AreRooms self.now pages → from ≤ p →
            p < length self.now → kind pages p ≡ 3 → fits_of (pages p) < bytes) }
    {
        let leaf = leaf_from(self.tree.as_slice(), LEAVES + usize::from(from), bytes)?;
        Some(PageNo::new((leaf - LEAVES) as u16))
    }

    /// What a page takes from now on: what `fits` says of a page of records, 0 of any other.
    pub fn noted(&mut self, page: PageNo, fits: u16)
        requires { page < length self.old }
        ensures fits { self.new ≡ slice_set self.old page fits }
        ensures rooms { (old new : PageBytes) → AreRooms self.old old → kind old 0 ≢ 3 → Touches old new page →
            (kind new page ≡ 3 → fits ≡ fits_of (new page)) → (kind new page ≢ 3 → fits ≡ 0) → AreRooms self.new new }
    {
        let place = usize::from(page.get());
        self.fits[place] = fits;
        set_leaf(self.tree.as_mut_slice(), LEAVES + place, fits);
    }
}

// The first leaf, from this one on, that is no less than this.
fn leaf_from(tree: &[u16], from: usize, least: u16) -> Option<usize>
    requires size { length tree.now ≡ 2 * LEAVES }
    requires nodes { (i : ℕ) → 1 ≤ i → i < LEAVES → IsMax tree.now i }
    requires leaf { (LEAVES ≤ from) × (from < 2 * LEAVES) }
    ensures found { IfSome result (IsFirstLeaf tree.now from least) }
    ensures none { IfNone result (HasNone tree.now from least) }
{
    let mut node = from;
    let mut last = 2 * LEAVES - 1; // of the nodes as high as this one
    while tree[node] < least {
        if node == last {
            return None;
        }
        node += 1;
        if node % 2 == 0 {
            node /= 2;
            last /= 2;
        }
    }
    Some(leaf_below(tree, from, least, node))
}

// The first leaf below a node that is no less than this, if none before the node is.
fn leaf_below(tree: &[u16], from: usize, least: u16, node: usize) -> usize
    requires size { length tree.now ≡ 2 * LEAVES }
    requires nodes { (i : ℕ) → 1 ≤ i → i < LEAVES → IsMax tree.now i }
    requires leaf { (LEAVES ≤ from) × (from < 2 * LEAVES) }
    requires passed { IsPassedTo tree.now from least node }
    requires enough { least ≤ get_or tree.now node 0 }
    ensures { IsFirstLeaf tree.now from least result }
{
    let mut node = node;
    while node < LEAVES {
        node *= 2;
        if tree[node] < least {
            node += 1;
        }
    }
    node
}

// Gives a leaf another value, and each node above it the larger of its children.
fn set_leaf(tree: &mut [u16], leaf: usize, value: u16)
    requires size { length tree.old ≡ 2 * LEAVES }
    requires there { (LEAVES ≤ leaf) × (leaf < 2 * LEAVES) }
    requires nodes { (i : ℕ) → 1 ≤ i → i < LEAVES → IsMax tree.old i }
    ensures nodes { (i : ℕ) → 1 ≤ i → i < LEAVES → IsMax tree.new i }
    ensures here { get_or tree.new leaf 0 ≡ value }
    ensures others { (i : ℕ) → LEAVES ≤ i → i ≢ leaf → get_or tree.new i 0 ≡ get_or tree.old i 0 }
{
    tree[leaf] = value;
    let mut node = leaf;
    while node > 1 {
        node /= 2;
        tree[node] = tree[2 * node].max(tree[2 * node + 1]);
    }
}
