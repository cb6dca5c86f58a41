// How far the force of a batch has come.

/// The device call that comes next in a force: the body with a closed gate after it, a sync, the
/// open gate, a sync.
#[derive(Clone, Copy)]
pub enum Step {
    WriteBody,
    SyncBody,
    WriteGate,
    SyncGate,
}

/// Whether a batch is being forced, and how far its force has come.
#[derive(Clone, Copy)]
pub enum Stage {
    /// No batch is being forced.
    Idle,
    /// A batch is being forced, and this call comes next.
    Forcing(Step),
    /// The device has failed, and is not asked again.
    Failed,
}
