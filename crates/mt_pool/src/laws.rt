// The laws of pool and log, each the contract of a function with nothing to do.
ghost use Rattle.mt_pool.specs.Laws.{CrashGivesPages, BeginsSafe, ElsewhereKeepsSafe, SlotKeepsSafe, LessKeepsSafe, AppendKeepsSafe, ChangeKeepsSafe, FlushKeepsSafe, FlushesSayAll, BeginsTied, ChangeKeepsTied, AppendKeepsTied, SameViewsKeepTied, ElsewhereKeepsViews, ElsewhereKeepsShows};

use mt_disk::Device;

/// A law, while the images of the log are right, and a slot without a durable image is as at the opening. Each
/// content that a crash may leave gives every page as at the opening. It does so together with the durable records
/// and any part of those after them. A slot whose page has a durable image may be torn.
pub fn a_crash_gives_the_pages<D: Device>()
    ensures { CrashGivesPages D.Device }
{}

/// Laws: what keeps it so that a crash gives the pages. It is so when an area begins. It stays so with a write
/// outside of the slots, and with a write of a slot whose page has a durable image. A read or a sync changes nothing
/// of it. It stays so with a record whose image, if it is its page's first, has the page as at the opening.
pub fn steps_keep_the_pages<D: Device>()
    ensures begin { BeginsSafe D.Device }
    ensures elsewhere { ElsewhereKeepsSafe D.Device }
    ensures slot { SlotKeepsSafe D.Device }
    ensures less { LessKeepsSafe D.Device }
    ensures append { AppendKeepsSafe D.Device }
{}

/// Laws of a change whose record carries the image that the pool asks for, and of a flush step. They keep it so that
/// a crash gives the pages, by what the pool knows of the log.
pub fn the_pool_keeps_the_pages<D: Device>()
    ensures change { ChangeKeepsSafe D.Device }
    ensures flush { FlushKeepsSafe D.Device }
{}

/// A law: what follows of a step of a flush, in the words of those who ask for one fact. If a page is written, all its
/// records are durable, and it is the one page that is clean after it. No step brings in a page, nor sends one away.
pub fn a_flush_says_all_of_the_pool()
    ensures { FlushesSayAll }
{}

/// Laws: what the pool knows of the log is right when an area without records begins. It stays right with a change
/// and its record, and with a record without an image. It stays right with whatever leaves the views and what is
/// waited for. That is a fetch, a flush step or a write outside of the slots.
pub fn the_pool_knows_the_log()
    ensures begin { BeginsTied }
    ensures change { ChangeKeepsTied }
    ensures append { AppendKeepsTied }
    ensures same { SameViewsKeepTied }
    ensures elsewhere { ElsewhereKeepsViews }
    ensures shows { ElsewhereKeepsShows }
{}
