// What the plan of an operation answers: a page that it needs first, or the changes and the reply.
use mt_base::{Mode, PageNo};
use mt_model::Reply;
use mt_space::Changes;

/// The answer of an operation's plan over the pages that are at hand. A plan changes no page itself, whatever it
/// answers; if memory is refused there is no plan, and it can be made again.
#[derive(Debug, Drop)]
pub enum Act {
    /// This page has to be locked first, in this mode, and shown. Then the plan is made anew. A plan that was given no
    /// page for its record, and asks for the space map, wants a free page for that record: no plan asks for a page for
    /// an entry before its record is placed. So who plans may give it a page with room in place of the map.
    Lock(PageNo, Mode),
    /// What changes in which pages, and the operation's reply.
    Made(Changes, Reply),
    /// The page that was given for the record does not take it. Or the operation takes a page, or more of them, and
    /// there are not so many free; who has claimed them is never answered so.
    Full,
    /// The pages break the rules of their formats.
    Broken,
}
