// The mark of a history, which two threads look at while an entry is made.
ghost use Rattle.std.specs.Prelude.{◌≡◌, [], ◌∷◌, ◌++◌, ◌+◌, ◌<◌, ◌^◌, length};
ghost use Rattle.mt_mark.specs.Legal.{IsLegal};
ghost use Rattle.mt_mark.specs.Rule.{IsConfirmed, dones};

use mt_mark::{About, End, Entry, Seat, new};
use mt_model::{Base, Calls, Committed};
use std::alloc::Global;
use std::process::Abort;
use std::snapshot::Snapshot;
use std::test::Fail;
use std::thread::{self, Threads};

/// A transaction that did nothing.
fn idle(alloc: Global, session: u32) -> Committed
    ensures { result.calls ≡ [] }
{
    Committed {
        session,
        calls: Calls::new(Vec::new(alloc)),
    }
}

/// A pass looks from a thread of its own, beside one that does nothing.
fn look_apart<R: Threads>(rt: &R, seat: &mut Seat) -> u64 {
    let (seen, ()) = thread::join(rt, || seat.load(), || {});
    seen
}

/// Another pass looks, in another thread, between the name of this pass's entry and its exchange, and after it.
fn seen_by_another<R: Threads + Abort>(
    rt: &R,
    end: &mut End,
    own: &mut Seat,
    other: &mut Seat,
    entry: &Entry,
)
    requires mark { own.old.mark ≡ end.old.mark }
    requires confirmed { IsConfirmed end.old.view }
    requires pass { entry.now.pass ≡ own.old.view.number }
    requires legal { IsLegal end.old.view.base (dones (end.old.view.list ++ entry.now ∷ [])) }
    requires room { length end.old.view.list + 1 < 2 ^ 64 }
{
    end.hear(own);
    let at = end.name(entry);
    assert_eq!(rt; look_apart(rt, other), at);
    own.hear(end);
    assert!(rt; own.exchange(at));
    assert_eq!(rt; look_apart(rt, other), at + 1);
    end.confirm(own);
    own.meet(end);
}

#[test]
fn a_named_entry_is_not_seen_before_it_is_counted(rt: HostRuntime) -> Result<(), Fail> {
    let alloc = rt.alloc();
    let base = Base::new(alloc, 1, &[])?;
    let book: Vec<Committed> = Vec::new(alloc);
    let about = About {
        base: Snapshot::of(&base),
        book: Snapshot::of(&book),
    };
    let (mut end, mut seats) = new(alloc, &about, 0, 2)?;
    let (Some(mut second), Some(mut first)) = (seats.pop(), seats.pop()) else {
        return Err(Fail::new("two seats"));
    };
    let entry = Entry {
        pass: first.number(),
        done: idle(alloc, 3),
    };
    seen_by_another(&rt, &mut end, &mut first, &mut second, &entry);
    Ok(())
}
