// In which modes pages, keys, counters and relations are locked.
ghost use Rattle.std.specs.Prelude.{◌≡◌};
ghost use Rattle.mt_base.specs.Modes.{granted_together, agree};

/// The mode of a page lock, which an operation holds until it ends.
#[derive(Clone, Copy, PartialEq, Eq, Debug)]
pub enum Mode {
    Read,
    Write,
}

/// The mode of a semantic lock, which a transaction holds on a key, a counter or a relation until it
/// ends (Weikum 1991). Adds commute, so a counter has a mode of its own for them. Who writes a row
/// also intends so in its relation. Writers of different rows commute, so they intend together.
#[derive(Clone, Copy, PartialEq, Eq, Debug)]
pub enum LockMode {
    Read,
    Write,
    Add,
    Intend,
}

impl Mode {
    /// Whether two operations may hold a page in these modes at a time: two reads agree, any other
    /// pair conflicts.
    pub fn agrees_with(self, other: Mode) -> bool
        ensures { result ≡ agree self other }
    {
        match (self, other) {
            (Mode::Read, Mode::Read) => true,
            _ => false,
        }
    }
}

impl LockMode {
    /// Whether two transactions may hold an object in these modes at a time: two reads, two adds and
    /// two intents are granted together, any other pair conflicts. (Two adds also need escrow's leave.)
    pub fn is_granted_with(self, other: LockMode) -> bool
        ensures { result ≡ granted_together self other }
    {
        match (self, other) {
            (LockMode::Read, LockMode::Read) => true,
            (LockMode::Add, LockMode::Add) => true,
            (LockMode::Intend, LockMode::Intend) => true,
            _ => false,
        }
    }
}
