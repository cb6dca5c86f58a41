// Which pages have an image in the log's area: none as an area begins, then each whose image is noted.
// By this a page's next record is made with an image or without.
ghost use Rattle.std.specs.Prelude.{◌<◌};
ghost use Rattle.mt_pool.specs.Moves.{NotesImage};

use crate::Pool;
use crate::slots::index_of;
use mt_base::{LogPos, PageNo};

impl Pool {
    ghost use Rattle.mt_pool.specs.Views.{IsPool, pages};

    /// The `position`th record of the area carries an image of the page, as the records do with which an area begins.
    /// The page waits for that record. Views stand, and the page is to be flushed only if it was. It takes no memory.
    pub(crate) fn note_image(&mut self, page: PageNo, position: LogPos)
        requires pool { IsPool self.old }
        requires inside { page < pages self.old }
        requires position { 0 < position }
        ensures { NotesImage self.old self.new page position }
    {
        self.waits[index_of(page)] = position.get();
    }
}
