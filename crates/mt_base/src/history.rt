// Lists that contracts speak of and that no code reads. Devices, logs and kernels note in them what they have done.
// They take no memory.
ghost use Rattle.std.specs.Prelude.{◌≡◌, List, [], ◌∷◌, ◌++◌};
ghost use Rattle.std.specs.Borrow.{ftrue};

use std::marker::{Model, PhantomData};

/// A list of values that only proofs see: what something has done so far. No code that runs can read it.
///
/// It has no bytes, and its calls do nothing: keeping a history takes neither memory nor time.
/// A clause reads it as `items`, the oldest first.
#[derive(Drop)]
pub struct History<T> {
    of: PhantomData<T>,
    pub ghost items: { List T },
}

impl<T> Model for History<T> {
    ghost also_owns = { λ _. ftrue };
}

// Whatever T is, no value of it is in here: there is nothing that two threads could both reach.
unsafe impl<T> Send for History<T> {}

unsafe impl<T> Sync for History<T> {}

impl<T> History<T> {
    /// A history in which nothing has come yet.
    pub fn new() -> History<T>
        ensures { result.items ≡ [] }
    {
        History { of: PhantomData }
    }

    /// This history, and after it one value more.
    pub fn and(&self, last: &T) -> History<T>
        ensures { result.items ≡ self.now.items ++ last.now ∷ [] }
    {
        self.and_as(last)
    }

    /// This history, and after it the value that `last` represents. The caller's proof says which one that is, and no
    /// code has to make it.
    pub fn and_as<L>(&self, last: &L) -> History<T>
        ghost value_of: { L → T }
        ensures { result.items ≡ self.now.items ++ value_of last.now ∷ [] }
    {
        Self { of: PhantomData }
    }
}
