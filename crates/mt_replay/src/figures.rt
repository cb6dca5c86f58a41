// How many batches, records and commits an area has. mt_restart reports them.
ghost use Rattle.std.specs.Prelude.{◌≡◌, ◌<◌, ◌^◌, length, count_by};
ghost use Rattle.mt_log.specs.Batch.{joined};
ghost use Rattle.mt_log.specs.Found.{records_of};
ghost use Rattle.mt_replay.specs.Figures.{is_commit, AreFigures};

use mt_frame::Record;
use mt_log::Batch;

/// How much the batches of a log's area hold.
#[derive(Clone, Copy, PartialEq, Eq, Debug)]
pub struct Figures {
    /// All open batches, the area's first one among them.
    pub batches: u64,
    /// All records in them.
    pub records: u64,
    /// The commits among these.
    pub commits: u64,
}

// How many of some records are commits.
fn commits_in(records: &[Record]) -> usize
    ensures { result ≡ count_by is_commit records.now }
{
    let mut commits = 0;
    for entry in records {
        if let Record::Commit { .. } = entry {
            commits += 1;
        }
    }
    commits
}

// The figures of the batches of an area.
pub(crate) fn figures_of(batches: &[Batch]) -> Figures
    requires { length (joined (records_of batches.now)) < 2 ^ 32 }
    ensures { AreFigures (records_of batches.now) result }
{
    let mut records = 0u64;
    let mut commits = 0u64;
    for batch in batches {
        records += batch.records.len() as u64;
        commits += commits_in(&batch.records) as u64;
    }
    Figures {
        batches: batches.len() as u64,
        records,
        commits,
    }
}
