// Passes that come back at a close: whether they are all, and what they have seen. `locked` asks both.
ghost use Rattle.std.specs.Prelude.{◌≡◌, ◌↔◌, All, IsTrue};
ghost use Rattle.mt_mark.specs.Rule.{Holds, IsConfirmed};
ghost use Rattle.mt_locked.specs.Seen.{PassSeen};
ghost use Rattle.mt_locked.specs.Whole.{AreAll, HasNumber};

use crate::names::Naming;
use crate::pass::Pass;
use mt_mark::End;

// Whether these are all passes, of which there are so many.
pub(crate) fn are_all<J: Naming>(count: u64, passes: &[Pass<J>]) -> bool
    ensures { IsTrue result ↔ AreAll count passes.now }
{
    let len = passes.len();
    if len as u64 != count {
        return false;
    }
    'numbers: for before in 0..len {
        if !has_number(passes, before as u64 + 1) {
            return false;
        }
    }
    true
}

// Whether one of the passes has this number.
fn has_number<J: Naming>(passes: &[Pass<J>], number: u64) -> bool
    ensures { IsTrue result ↔ HasNumber number passes.now }
{
    'passes: for pass in passes {
        if pass.number == number {
            return true;
        }
    }
    false
}

// What a pass has seen begins the history, which has no further entry of its own.
fn meet<J: Naming>(end: &mut End, mut pass: Pass<J>)
    requires mark { end.old.mark ≡ J.mark }
    requires confirmed { IsConfirmed end.old.view }
    ensures own { Holds pass.number pass.seen end.old.view.list }
    ensures mark { end.new.mark ≡ end.old.mark }
    ensures list { end.new.view.list ≡ end.old.view.list }
    ensures confirmed { IsConfirmed end.new.view }
{
    pass.seat.meet(end);
}

// So it is of each of them.
pub(crate) fn meet_all<J: Naming>(mut end: End, mut passes: Vec<Pass<J>>)
    requires mark { end.mark ≡ J.mark }
    requires confirmed { IsConfirmed end.view }
    ensures { All (λ (p : PassSeen). Holds p.number p.seen end.view.list) passes.items }
{
    'passes: while passes.len() > 0 {
        if let Some(pass) = passes.pop() {
            meet(&mut end, pass);
        }
    }
}
