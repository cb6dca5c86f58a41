// Which operation has which page locked.
ghost use Rattle.std.specs.Prelude.{◌≡◌, ◌≢◌, ◌↔◌, [], ℕ, IsTrue, false, Some, MatchOption, IfOk, IfErr, OnErr, All, Contains};
ghost use Rattle.mt_plock.specs.Holding.{lock_of, is_in_way, lesser_of, IsLeastHolder, IsAnswered};
ghost use Rattle.mt_plock.specs.Releasing.{IsLastAt, GivesBack, GivesBackEach, locks_of, locks_without};

use crate::{Asked, PageGuard, PageLock};
use mt_base::{Mode, OpNo, PageNo, Refusal};
use std::alloc::Global;
use std::marker::Model;

/// The page locks that are held, in order of grant. Contracts see the list. Two locks of different
/// operations on one page agree.
#[derive(Debug, Drop)]
pub struct PageLocks {
    locks: Vec<PageLock>,
}

impl Model for PageLocks {
    ghost use Rattle.std.specs.Prelude.{List};
    ghost use Rattle.mt_plock.specs.declared.guards.PageLock.{PageLock};
    ghost use Rattle.mt_plock.specs.Holding.{AreTogether};

    ghost Value = { List PageLock };

    ghost view = { λ t. t.locks.items };

    ghost invariant = { λ t. AreTogether t.locks.items };
}

/// Whether a lock that is held is another operation's, on the page that is asked for, in a mode that
/// does not agree.
fn is_held_against(held: &PageLock, asked: &PageLock) -> bool
    ensures { result ≡ is_in_way asked.now held.now }
{
    held.op != asked.op && held.page == asked.page && !held.mode.agrees_with(asked.mode)
}

/// The lesser of a number that may be there, and another.
fn lesser(one: Option<OpNo>, other: OpNo) -> Option<OpNo>
    ensures { result ≡ Some (lesser_of one other) }
{
    match one {
        Some(first) if first.get() <= other.get() => Some(first),
        _ => Some(other),
    }
}

/// The place of the last lock that is this one.
fn last_place(locks: &[PageLock], lock: &PageLock) -> Option<usize>
    ensures { MatchOption result (¬ Contains locks.now lock.now) (λ i. IsLastAt locks.now lock.now i) }
{
    for i in (0..locks.len()).rev() {
        if locks[i] == *lock {
            return Some(i);
        }
    }
    None
}

impl PageLocks {
    /// A table in which nothing is held.
    pub fn new(alloc: Global) -> PageLocks
        ensures { result ≡ [] }
    {
        PageLocks {
            locks: Vec::new(alloc),
        }
    }

    // The smallest operation that holds a lock in the way.
    fn least_holder(&self, asked: &PageLock) -> Option<OpNo>
        ensures { MatchOption result
            (All (λ held. is_in_way asked.now held ≡ false) self.now)
            (λ holder. IsLeastHolder asked.now self.now holder) }
    {
        let mut least = None;
        for held in &self.locks {
            if is_held_against(held, asked) {
                least = lesser(least, held.op);
            }
        }
        least
    }

    /// Asks for a lock. If no other operation holds the page in a mode that does not agree, it is granted, and is
    /// the last of the locks. So a read becomes a write if the operation is the only holder. Else the answer names
    /// the smallest such holder. It is to wait for it if it is larger than the asker, as all of them are then, and
    /// otherwise to begin again. Both leave the table as it was.
    ///
    /// The only error is [`Refusal::NoMemory`]; the table is then as before.
    pub fn ask(&mut self, op: OpNo, page: PageNo, mode: Mode) -> Result<Asked, Refusal>
        ensures answer { IfOk result (λ asked.
            IsAnswered (lock_of op page mode) self.old asked self.new) }
        ensures only_memory { IfErr result (λ why. why ≡ Refusal.NoMemory) }
        ensures kept { OnErr result (self.new ≡ self.old) }
    {
        let lock = PageLock { op, page, mode };
        match self.least_holder(&lock) {
            None => {
                self.locks.push(lock)?;
                Ok(Asked::Granted(PageGuard::new(lock)))
            }
            Some(holder) => {
                if op.get() < holder.get() {
                    Ok(Asked::Wait(holder))
                } else {
                    Ok(Asked::Again(holder))
                }
            }
        }
    }

    /// Gives a lock back: of the locks that are equal to it the last goes, and no other. It takes no
    /// memory.
    pub fn release(&mut self, guard: PageGuard)
        ensures { GivesBack guard self.old self.new }
    {
        let lock = guard.into_lock();
        if let Some(place) = last_place(&self.locks, &lock) {
            self.locks.remove(place);
        }
    }

    /// Gives these locks back, the last of them first, and no others. If they are all the locks of
    /// one operation, in order of grant, those of the others stay. It takes no memory.
    pub fn release_all(&mut self, mut guards: Vec<PageGuard>)
        ensures gone { GivesBackEach guards.items self.old self.new }
        ensures whole { (op : ℕ) →
            locks_of op self.old ≡ guards.items → self.new ≡ locks_without op self.old }
    {
        while let Some(guard) = guards.pop() {
            self.release(guard);
        }
        match <[PageGuard; 0]>::try_from(guards) {
            Ok([]) => {}
            Err(_rest) => unreachable!(),
        }
    }

    /// Whether no operation holds a lock on the page.
    pub fn is_unlocked(&self, page: PageNo) -> bool
        ensures { IsTrue result ↔ All (λ lock. lock.page ≢ page) self.now }
    {
        self.locks.iter().all(|lock| lock.page != page)
    }
}
