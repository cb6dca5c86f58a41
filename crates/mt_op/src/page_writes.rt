// How an operation writes the pages of its plan, each with its log records, and how it ends.
// All its pages are locked by then. The device is asked to read alone, if a page is in no frame.
ghost use Rattle.std.specs.Prelude.{◌≡◌, ◌<◌, ◌≤◌, ◌+◌, ℕ, List, length, get_or, false, true, None, Some, IsSome, IfErr, IfOk, IfSome};
ghost use Rattle.mt_base.specs.declared.limits.TheConstants.{BATCH_HEAD_BYTES, LARGEST_OP_END, MAX_COUNTERS, MAX_RELATIONS, PAGE_BYTES};
ghost use Rattle.mt_frame.specs.Grammar.{IsTxn, IsOp, IsOperation, IsOfPage, IsRecord};
ghost use Rattle.mt_frame.specs.Lengths.{record_length};
ghost use Rattle.mt_area_rules.specs.History.{may_stand};
ghost use Rattle.mt_pool.specs.Views.{IsThere};
ghost use Rattle.mt_space.specs.declared.changes.PageChange.{PageChange};
ghost use Rattle.mt_frame.specs.declared.records.Record.TheVariants.{OpEnd};
ghost use Rattle.mt_log.specs.Words.{appended, used, area_size};
ghost use Rattle.mt_space.specs.Changes.{PageBytes, Agrees, after, AreShort};
ghost use Rattle.mt_slots.specs.Page.{IsShaped};
ghost use Rattle.mt_model.specs.Model.{IsWithin};
ghost use Rattle.mt_steps.specs.Logged.{logged_of, HasSmallReply};
ghost use Rattle.mt_steps.specs.Plans.{own_needs};
ghost use Rattle.mt_pool.specs.Kept.{HasOpening};
ghost use Rattle.mt_op.specs.World.{looked, changes_in};
ghost use Rattle.mt_op.specs.Operations.{IsOneOf, IsOneWithin, HasBudget, claimed};
ghost use Rattle.mt_op.specs.Stepping.{AppendsEnd, AppendsRecord, EndsOperation, GoesAhead, NotesEach, NotesLooked, WritesPage};
ghost use Rattle.mt_op.specs.declared.scope.Stage.TheVariants.{Writing, Ready};

use crate::answers::Stepped;
use crate::operations::Operations;
use crate::scope::{OpScope, Stage};
use mt_base::{PageNo, Refusal};
use mt_disk::Device;
use mt_file::room_after;
use mt_frame::{LoggedOp, Record};
use mt_model::Reply;
use mt_space::Pages;
use mt_steps::{logged, pages_for};

impl<D: Device> Operations<D> {
    // Writes the next page of the plan, with its log records.
    pub(crate) fn write_next(&mut self, scope: &mut OpScope) -> Result<Stepped, Refusal>
        requires right { IsOneOf D.Device self.old scope.old }
        requires writing { scope.old.stage ≡ Writing }
        requires more { scope.old.written < length (changes_in scope.old) }
        requires budget { HasBudget scope.old }
        requires room { used self.old.store.log + scope.old.left < area_size self.old.store.log }
        ensures ahead { GoesAhead D.Device self.old self.new scope.old
            scope.new result }
        ensures map { self.new.map ≡ self.old.map }
        ensures stage { scope.new.stage ≡ Writing }
    {
        let page = scope.changes.list[scope.written].page;
        if !self.bring(page)? {
            return Ok(Stepped::Flush);
        }
        self.write_there(scope)
    }

    // Writes a page that is in a frame. If memory is refused nothing has changed.
    fn write_there(&mut self, scope: &mut OpScope) -> Result<Stepped, Refusal>
        requires right { IsOneOf D.Device self.old scope.old }
        requires writing { scope.old.stage ≡ Writing }
        requires more { scope.old.written < length (changes_in scope.old) }
        requires there { (c : PageChange) → c ≡ get_or (changes_in scope.old) scope.old.written c
            → IsThere self.old.store.pool c.page }
        requires budget { HasBudget scope.old }
        requires room { used self.old.store.log + scope.old.left < area_size self.old.store.log }
        ensures { WritesPage D.Device
            self.old self.new scope.old scope.new result }
    {
        let before = self.store.log.used();
        let change = &scope.changes.list[scope.written];
        self.store.write(scope.txn, scope.number, change)?;
        scope.left = scope.left + before - self.store.log.used();
        scope.written += 1;
        scope.standing += 1;
        Ok(Stepped::Went)
    }

    // Ends the operation. Its end is appended if one is due, and with that it has acted on the base that the pages
    // hold. Its claim on free pages is given back. If memory is refused nothing has changed.
    pub(crate) fn finish(&mut self, scope: &mut OpScope) -> Result<Stepped, Refusal>
        requires right { IsOneWithin D.Device self.old scope.old }
        requires claims { own_needs scope.old.op scope.old.split ≤ claimed self.old }
        requires writing { scope.old.stage ≡ Writing }
        requires all { scope.old.written ≡ length (changes_in scope.old) }
        requires budget { HasBudget scope.old }
        requires room { used self.old.store.log + scope.old.left < area_size self.old.store.log }
        ensures { EndsOperation D.Device
            self.old self.new scope.old scope.new result }
    {
        let (answer, done) = outcome(scope)?;
        if let Some(done) = done {
            self.append_end(scope, done)?;
        }
        let claim = pages_for(&scope.op, scope.split);
        self.map.settle(&scope.changes, claim);
        self.note_looked(scope);
        let reply = made_ready(scope);
        Ok(Stepped::Ready(reply, answer))
    }

    // Appends the operation's end.
    fn append_end(&mut self, scope: &mut OpScope, done: LoggedOp) -> Result<(), Refusal>
        requires kept { HasOpening D.Device self.old.store }
        requires numbers { IsTxn scope.old.txn × IsOp scope.old.number }
        requires operation { IsOperation done }
        requires rules { may_stand false (appended self.old.store.log)
            (OpEnd scope.old.txn scope.old.number scope.old.undoes done) ≡ true }
        requires left { (BATCH_HEAD_BYTES + LARGEST_OP_END) ≤ scope.old.left }
        requires room { used self.old.store.log + scope.old.left < area_size self.old.store.log }
        ensures { AppendsEnd D.Device self.old self.new scope.old scope.new done result }
    {
        let before_end = self.store.log.used();
        self.append_record(Record::OpEnd {
            txn: scope.txn,
            op: scope.number,
            undoes: scope.undoes,
            done,
        })?;
        scope.left = scope.left + before_end - self.store.log.used();
        Ok(())
    }

    // Appends a record that is of no page. If memory is refused nothing has changed.
    pub(crate) fn append_record(&mut self, entry: Record) -> Result<(), Refusal>
        requires kept { HasOpening D.Device self.old.store }
        requires grammar { IsRecord entry }
        requires no_page { IsOfPage entry → ⊥ }
        requires rules { may_stand false (appended self.old.store.log) entry ≡ true }
        requires fits { used self.old.store.log + 5 + record_length entry < area_size self.old.store.log }
        ensures { AppendsRecord D.Device self.old self.new entry result }
    {
        self.store.append(entry)?;
        Ok(())
    }

    // Notes what the pages take that the operation looked at, once its changes are made. If it changes nothing each
    // takes what it took.
    fn note_looked(&mut self, scope: &OpScope)
        requires pages { ∥ ((pages : PageBytes) × Agrees (looked scope.now) pages
            × AreShort (changes_in scope.now) pages
            × ((p : ℕ) → get_or self.old.map.kinds.value p 0 ≡ 3
            → IsShaped (after (changes_in scope.now) pages p))) ∥₁ }
        requires whole { (p : ℕ) (bytes : List ℕ) → looked scope.now p ≡ Some bytes → length bytes ≡ PAGE_BYTES }
        requires inside { (p : ℕ) → IsSome (looked scope.now p) → p < length self.old.rooms }
        requires few { length self.old.rooms ≤ PAGE_BYTES }
        ensures { NotesLooked self.old self.new scope.now }
    {
        if !scope.changes.list.is_empty() {
            self.note_each(scope);
        }
    }

    // Notes what each page takes that the operation looked at, once its changes are made.
    fn note_each(&mut self, scope: &OpScope)
        requires pages { ∥ ((pages : PageBytes) × Agrees (looked scope.now) pages
            × AreShort (changes_in scope.now) pages
            × ((p : ℕ) → get_or self.old.map.kinds.value p 0 ≡ 3
            → IsShaped (after (changes_in scope.now) pages p))) ∥₁ }
        requires whole { (p : ℕ) (bytes : List ℕ) → looked scope.now p ≡ Some bytes → length bytes ≡ PAGE_BYTES }
        requires inside { (p : ℕ) → IsSome (looked scope.now p) → p < length self.old.rooms }
        requires few { length self.old.rooms ≤ PAGE_BYTES }
        ensures { NotesEach self.old self.new scope.now }
    {
        for guard in &scope.guards {
            let page = guard.lock().page;
            if let Some(before) = scope.seen.page(page) {
                let room = room_after(&*self.map.kinds, &scope.changes, page, before);
                self.rooms.noted(page, room);
            }
        }
    }
}

// The operation is ready, and gives its reply away.
fn made_ready(scope: &mut OpScope) -> Reply
    requires { IsSome scope.old.reply }
    ensures reply { scope.old.reply ≡ Some result }
    ensures scope { scope.new ≡ record scope.old { reply = None; stage = Ready } }
{
    scope.stage = Stage::Ready;
    let Some(reply) = scope.reply.take() else {
        unreachable!()
    };
    reply
}

// A copy of an operation's reply, and what its end logs of it.
fn outcome(scope: &OpScope) -> Result<(Reply, Option<LoggedOp>), Refusal>
    requires { IsSome scope.now.reply }
    ensures reply { IfOk result (λ outcome. scope.now.reply ≡ Some outcome.0) }
    ensures logged { IfOk result (λ outcome. outcome.1 ≡ logged_of scope.now.op outcome.0) }
    ensures operation { (relations counters : ℕ) → relations ≤ MAX_RELATIONS → counters ≤ MAX_COUNTERS
        → IsWithin relations counters scope.now.op
        → IfOk result (λ outcome. HasSmallReply outcome.0 → IfSome outcome.1 IsOperation) }
    ensures only_memory { IfErr result (λ why. why ≡ Refusal.NoMemory) }
{
    let Some(reply) = &scope.reply else {
        unreachable!()
    };
    let copy = reply.try_clone()?;
    let done = logged(&scope.op, reply)?;
    Ok((copy, done))
}
