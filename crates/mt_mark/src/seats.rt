// The two parts of the mark: the end that enters, and the seats of those who look.
ghost use Rattle.std.specs.Prelude.{◌≡◌, ◌+◌, ◌<◌, ◌≤◌, ◌^◌, ◌++◌, ◌∷◌, [], length, true, Some, None, IfOk, OnOk, vec_len, ℕ, slice_index_or};
ghost use mathlib.Core.List.{IsPrefix};
ghost use Rattle.mt_mark.specs.Legal.{IsLegal};
ghost use Rattle.mt_mark.specs.Held.{Held, IsNewSeat};
ghost use Rattle.mt_mark.specs.Rule.{LooksTo, IsConfirmed, CanEnter, dones, labelled, heard, pass_note, end_note, Holds, IsFrom, OthersThen, new_pass, SamePass, SameEnd};

use crate::rule::{Check, EndNote, Enter, Hear, Law, Look, Name, NewPass, PassNote, Settle};
use crate::view::{About, Entry, View};
use atomic_table::Table;
use std::alloc::{AllocError, Global};
use std::marker::Model;
use std::sync::Arc;

pub(crate) type Word = Table<Entry, View, About, Law, Global>;

pub(crate) type Place = atomic_table::Seat<Entry, View>;

/// The end of the mark, of which there is one. It names the next entry and confirms it. Contracts see which
/// mark it is of and its view.
#[derive(Drop)]
pub struct End {
    pub(crate) made: u64,
    pub(crate) word: Arc<Word, Global>,
    pub(crate) place: Place,
}

impl Model for End {
    ghost use Rattle.mt_mark.specs.Held.{Held, IsEndHeld};
    ghost use Rattle.std.specs.Arc.{arc_value};

    ghost Value = { Held };

    ghost view = { λ s. record { mark = s.place.table_id; view = s.place.me.0 } };

    ghost invariant = { λ s. IsEndHeld s.made (arc_value s.word).shared.table_id s.place.table_id s.place.me };
}

/// A pass's seat at the mark: what it has seen of the history. Contracts see which mark it is of and its view.
#[derive(Drop)]
pub struct Seat {
    pub(crate) number: u64,
    pub(crate) word: Arc<Word, Global>,
    pub(crate) place: Place,
}

impl Model for Seat {
    ghost use Rattle.mt_mark.specs.Held.{Held, IsPassHeld};
    ghost use Rattle.std.specs.Arc.{arc_value};

    ghost Value = { Held };

    ghost view = { λ s. record { mark = s.place.table_id; view = s.place.me.0 } };

    ghost invariant = { λ s. IsPassHeld s.number (arc_value s.word).shared.table_id s.place.table_id s.place.me };
}

impl Seat {
    /// The pass's number, from 1.
    pub fn number(&self) -> u64
        ensures { result ≡ self.now.view.number }
    {
        self.number // from 1
    }

    /// Sees the history as it is, and answers its length. What came since the last look is by others. It is one
    /// load of the word: it waits for nobody, and takes no lock.
    pub fn load(&mut self) -> u64
        ensures mark { self.new.mark ≡ self.old.mark }
        ensures seen { LooksTo self.old.view result self.new.view }
    {
        self.word.shared.load::<Look>(&mut self.place, 0)
    }

    /// Takes in a note of the end of the same mark: what its list is, and how far it is entered.
    pub fn hear(&mut self, end: &mut End)
        requires { self.old.mark ≡ end.old.mark }
        ensures end { end.new ≡ end.old }
        ensures mark { self.new.mark ≡ self.old.mark }
        ensures known { self.new.view ≡ heard self.old.view (end_note end.old.view) }
    {
        let note = end.word.shared.split_seat::<EndNote>(&mut end.place);
        self.word.shared.join_seat::<Hear>(&mut self.place, note);
    }

    /// Counts the mark up from `at`, by the entry of this pass that the end named in a note. It always
    /// answers true: what was named is this pass's to enter, and nothing else is named meanwhile.
    pub fn exchange(&mut self, at: u64) -> bool
        requires room { at + 1 < 2 ^ 64 }
        requires named { CanEnter self.old.view at }
        ensures mark { self.new.mark ≡ self.old.mark }
        ensures entered { result ≡ true }
        ensures seen { self.new.view ≡ record self.old.view { list = self.old.view.known } }
        ensures others { OthersThen self.old.view }
    {
        let found = self
            .word
            .shared
            .compare_exchange::<Enter>(&mut self.place, 0, at, at + 1);
        found == at
    }

    // Has seen just what the last note named.
    fn settle(&mut self)
        requires longer { IsPrefix self.old.view.list self.old.view.known }
        requires sure { length self.old.view.known ≤ self.old.view.sure }
        ensures mark { self.new.mark ≡ self.old.mark }
        ensures seen { self.new.view ≡ record self.old.view { list = self.old.view.known } }
        ensures others { Holds self.old.view.number self.old.view.list self.old.view.known }
    {
        self.word.shared.load::<Settle>(&mut self.place, 0);
    }

    /// A look with the end at hand, after which this pass has seen all that the end has: the whole history. It takes
    /// a note each way, since a load alone shows a pass nothing of what the end named.
    pub fn meet(&mut self, end: &mut End)
        requires mark { self.old.mark ≡ end.old.mark }
        requires confirmed { IsConfirmed end.old.view }
        ensures mark { (self.new.mark ≡ self.old.mark) × (end.new.mark ≡ end.old.mark) }
        ensures seen { self.new.view.list ≡ end.old.view.list }
        ensures others { Holds self.old.view.number self.old.view.list self.new.view.list }
        ensures pass { SamePass self.old.view self.new.view }
        ensures end { (end.new.view.list ≡ end.old.view.list) × SameEnd end.old.view end.new.view
            × IsConfirmed end.new.view }
    {
        end.hear(self);
        end.check();
        self.hear(end);
        self.settle();
    }
}

/// A mark that stands at the length of the book, `from`, with seats for the passes from 1 to `count`, which have
/// seen the book. The only error is want of memory.
pub fn new(
    alloc: Global,
    about: &About,
    from: u64,
    count: usize,
) -> Result<(End, Vec<Seat>), AllocError>
    requires from { from ≡ length about.now.book.value.items }
    requires room { count < 2 ^ 32 }
    requires legal { IsLegal about.now.base.value about.now.book.value.items }
    ensures end { IfOk result (λ r. (r.0.view.list ≡ labelled about.now.book.value.items)
        × (r.0.view.base ≡ about.now.base.value) × (r.0.view.book ≡ about.now.book.value.items)
        × IsConfirmed r.0.view) }
    ensures count { IfOk result (λ r. vec_len r.1 ≡ count) }
    ensures made { IfOk result (λ r. r.0.view.made ≡ count + 1) }
    ensures seats { IfOk result (λ r. (k : ℕ) (d : Held) → k < count → IsNewSeat r.0 k (slice_index_or r.1.items k d)) }
{
    let (word, place) = Word::of_words(alloc, &[from], about)?;
    let word = Arc::new(alloc, word)?;
    let mut end = End {
        made: 1,
        word,
        place,
    };
    let mut seats = Vec::with_capacity(alloc, count)?;
    'seats: for made in 0..count {
        let seat = end.seat()?;
        seats.push(seat)?;
    }
    Ok((end, seats))
}

impl End {
    // A new pass, which has seen all that the end has.
    fn seat(&mut self) -> Result<Seat, AllocError>
        requires confirmed { IsConfirmed self.old.view }
        requires room { self.old.view.made + 1 < 2 ^ 64 }
        ensures end { (self.new.mark ≡ self.old.mark)
            × (self.new.view ≡ record self.old.view { made = self.new.view.made }) }
        ensures made { OnOk result (self.new.view.made ≡ self.old.view.made + 1) }
        ensures seat { IfOk result (λ s. (s.mark ≡ self.old.mark) × (s.view ≡ new_pass self.old.view)) }
    {
        let word = Arc::try_clone(&self.word)?;
        let place = self.word.shared.split_seat::<NewPass>(&mut self.place);
        let number = self.made;
        self.made += 1;
        Ok(Seat {
            number,
            word,
            place,
        })
    }

    /// Names the next entry, and answers where the mark stands, which is where a pass enters it. The history with
    /// it is to be legal, and what was named before confirmed. The word stays.
    pub fn name(&mut self, entry: &Entry) -> u64
        requires confirmed { IsConfirmed self.old.view }
        requires legal { IsLegal self.old.view.base (dones (self.old.view.list ++ entry.now ∷ [])) }
        ensures mark { self.new.mark ≡ self.old.mark }
        ensures named { self.new.view ≡ record self.old.view { list = self.old.view.list ++ entry.now ∷ [] } }
        ensures known { IsPrefix self.old.view.known self.old.view.list }
        ensures stands { result ≡ length self.old.view.list }
    {
        self.word
            .shared
            .compare_exchange_with::<Name>(&mut self.place, 0, 0, 0, entry)
    }

    /// Takes in a note of a pass of the same mark: what it has seen.
    pub fn hear(&mut self, seat: &mut Seat)
        requires { self.old.mark ≡ seat.old.mark }
        ensures seat { seat.new ≡ seat.old }
        ensures mark { self.new.mark ≡ self.old.mark }
        ensures known { self.new.view ≡ heard self.old.view (pass_note seat.old.view) }
    {
        let note = seat.word.shared.split_seat::<PassNote>(&mut seat.place);
        self.word.shared.join_seat::<Hear>(&mut self.place, note);
    }

    /// Enters the next entry, which is this pass's: names it, lets the pass count it, and confirms it. Then both
    /// have the whole history.
    pub fn enter(&mut self, seat: &mut Seat, entry: &Entry) -> bool
        requires mark { self.old.mark ≡ seat.old.mark }
        requires confirmed { IsConfirmed self.old.view }
        requires own { entry.now.pass ≡ seat.old.view.number }
        requires legal { IsLegal self.old.view.base (dones (self.old.view.list ++ entry.now ∷ [])) }
        requires room { length self.old.view.list + 1 < 2 ^ 64 }
        ensures mark { (self.new.mark ≡ self.old.mark) × (seat.new.mark ≡ seat.old.mark) }
        ensures entered { result ≡ true }
        ensures list { self.new.view.list ≡ self.old.view.list ++ entry.now ∷ [] }
        ensures seen { seat.new.view.list ≡ self.old.view.list ++ entry.now ∷ [] }
        ensures others { Holds seat.old.view.number seat.old.view.list self.old.view.list }
        ensures pass { SamePass seat.old.view seat.new.view }
        ensures end { SameEnd self.old.view self.new.view × IsConfirmed self.new.view }
    {
        self.hear(seat);
        let at = self.name(entry);
        seat.hear(self);
        let entered = seat.exchange(at);
        self.confirm(seat);
        entered
    }

    /// Confirms what was named last, by what the pass that entered it has seen.
    pub fn confirm(&mut self, seat: &mut Seat)
        requires mark { self.old.mark ≡ seat.old.mark }
        requires entered { seat.old.view.list ≡ self.old.view.list }
        ensures seat { seat.new ≡ seat.old }
        ensures mark { self.new.mark ≡ self.old.mark }
        ensures list { self.new.view.list ≡ self.old.view.list }
        ensures end { SameEnd self.old.view self.new.view }
        ensures confirmed { IsConfirmed self.new.view }
    {
        self.hear(seat); // it has seen the whole list, so all of it is counted
    }

    /// Answers where the mark stands. All after the book that stood when it was made are entries of its passes.
    pub fn check(&mut self) -> u64
        requires confirmed { IsConfirmed self.old.view }
        ensures same { self.new ≡ self.old }
        ensures known { IsPrefix self.old.view.known self.old.view.list }
        ensures stands { result ≡ length self.old.view.list }
        ensures from { IsFrom self.old.view.book self.old.view.made self.old.view.list }
    {
        self.word.shared.load::<Check>(&mut self.place, 0)
    }

    /// How many passes there are. Their numbers are those from 1 to this one.
    pub fn passes(&self) -> u64
        ensures { self.now.view.made ≡ result + 1 }
    {
        self.made - 1
    }
}
