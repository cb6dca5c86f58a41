// The observer of sessions, and the points at which it is called: outside of the lock, so that it may hold a thread
// back. Tests fix an order of threads by it, and mtk counts commits. It changes nothing of the kernel.

/// Where a session stands in a call of what is shared.
#[derive(Clone, Copy, PartialEq, Eq, Debug)]
pub enum Point {
    /// Its transaction has begun.
    Began,
    /// Its operation has made a step, and goes on.
    Stepped,
    /// Its operation has ended, and replied.
    Replied,
    /// Its transaction is in the history.
    Committed,
    /// Its transaction has been taken back.
    Aborted,
}

/// An observer of sessions. It is called at the points that it wants, each time outside of the lock, so that it may
/// hold a thread back there.
pub trait Gate {
    /// A session stands at this point.
    fn at(&self, session: u32, point: Point);

    /// Whether it is to be called at this point; it is asked once, when what is shared is made. A step whose point is
    /// not wanted is made in one hold of the lock with the next. So are a few calls of one thread, if it wants no
    /// point before a transaction's end.
    fn wants(&self, _point: Point) -> bool {
        true
    }
}

// The points at which an observer wants to be called.
#[derive(Clone, Copy)]
pub(crate) struct Wanted {
    began: bool,
    stepped: bool,
    replied: bool,
    committed: bool,
    aborted: bool,
}

impl Wanted {
    pub(crate) fn of<G: Gate>(gate: &G) -> Wanted {
        Wanted {
            began: gate.wants(Point::Began),
            stepped: gate.wants(Point::Stepped),
            replied: gate.wants(Point::Replied),
            committed: gate.wants(Point::Committed),
            aborted: gate.wants(Point::Aborted),
        }
    }

    // Whether the observer wants to be called at a point before a transaction's end.
    pub(crate) fn has_within(self) -> bool {
        self.began || self.stepped || self.replied
    }

    pub(crate) fn has(self, point: Point) -> bool {
        match point {
            Point::Began => self.began,
            Point::Stepped => self.stepped,
            Point::Replied => self.replied,
            Point::Committed => self.committed,
            Point::Aborted => self.aborted,
        }
    }
}
