// The passes of a mark that was just made, one for each of its seats. mt_shared hands them to the threads.
ghost use Rattle.std.specs.Prelude.{◌≡◌, All, IfOk, vec_len};
ghost use Rattle.mt_mark.specs.Rule.{labelled};
ghost use Rattle.mt_locked.specs.Seen.{Beside};
ghost use Rattle.mt_locked.specs.Whole.{AreNew, IsNew};

use crate::names::Naming;
use crate::pass::Pass;
use mt_mark::{End, Seat};
use std::alloc::{AllocError, Global};
use std::marker::PhantomData;

/// A pass for each of these seats, which has seen the book that stood when the mark was made. Nothing in it is its
/// own.
pub fn passes_of<J: Naming>(
    alloc: Global,
    end: &End,
    mut seats: Vec<Seat>,
) -> Result<Vec<Pass<J>>, AllocError>
    requires name { (end.now.mark ≡ J.mark) × (end.now.view.base ≡ J.base) }
    requires list { end.now.view.list ≡ labelled J.book }
    requires seats { All (Beside end.now) seats.items }
    ensures { IfOk result (λ v. AreNew J.book (vec_len seats) v.items) }
{
    let mut passes = Vec::with_capacity(alloc, seats.len())?;
    'seats: while let Some(seat) = seats.pop() {
        passes.push(pass_of(end, seat))?;
    }
    Ok(passes)
}

fn pass_of<J: Naming>(end: &End, seat: Seat) -> Pass<J>
    requires name { (end.now.mark ≡ J.mark) × (end.now.view.base ≡ J.base) }
    requires list { end.now.view.list ≡ labelled J.book }
    requires seat { Beside end.now seat }
    ensures { IsNew J.book result }
{
    Pass {
        number: seat.number(),
        is_busy: false,
        seat,
        of: PhantomData,
    }
}
