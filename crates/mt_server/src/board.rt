// Transcripts, each at its script's index.
ghost use Rattle.std.specs.Prelude.{◌≡◌, ◌+◌, true, ℕ, List, IfOk, IsTrue, length};
ghost use Rattle.mt_model.specs.History.{Call};
ghost use Rattle.mt_model.specs.declared.history.Committed.{Committed};
ghost use Rattle.mt_script.specs.declared.lines.Line.{Line};
ghost use Rattle.mt_server.specs.Crews.{AreReportedOf, IsBoard, IsBlank, IsFull, IsReportedOf};

use crate::transcript::Transcript;
use std::alloc::{AllocError, Global};

/// The transcript of the script at this index, from 0, and whether it ends with the refusal 2.
#[derive(Drop)]
pub struct Reported {
    pub at: usize,
    pub text: Transcript,
    pub has_failed: bool,
}

/// An index for the transcript of each script, and whether it is there; and whether one of them ends with the refusal
/// 2.
#[derive(Drop)]
pub struct Board {
    pub texts: Vec<Transcript>,
    pub filled: Vec<bool>,
    pub has_failed: bool,
}

/// So many empty transcripts.
fn empty_texts(alloc: Global, count: usize) -> Result<Vec<Transcript>, AllocError>
    ensures { IfOk result (λ texts. length texts.items ≡ count) }
{
    let mut texts = Vec::with_capacity(alloc, count)?;
    'texts: while texts.len() < count {
        texts.push(Transcript::new(Vec::new(alloc)))?;
    }
    Ok(texts)
}

/// So many indexes, with no transcript.
pub(crate) fn blank(alloc: Global, count: usize) -> Result<Board, AllocError>
    ensures { IfOk result (IsBlank count) }
{
    let texts = empty_texts(alloc, count)?;
    let filled = vec![in alloc; false; count]?;
    Ok(Board {
        texts,
        filled,
        has_failed: false,
    })
}

impl Board {
    /// Puts a transcript at its index, if none is there; whether none was.
    fn place(&mut self, outcome: Reported) -> bool
        ensures { IsTrue result → (scripts : List (List Line)) (book : List Committed) (booked : List (ℕ × List Call))
            (count : ℕ) → IsReportedOf scripts book outcome booked → IsBoard scripts self.old book count
            → IsBoard scripts self.new book (count + length booked) }
    {
        let Reported {
            at,
            text,
            has_failed,
        } = outcome;
        if at >= self.texts.len() || at >= self.filled.len() || self.filled[at] {
            return false;
        }
        self.texts[at] = text;
        self.filled[at] = true;
        self.has_failed |= has_failed;
        true
    }

    /// Puts each of them at its index; whether none was there.
    pub(crate) fn place_all(&mut self, outcome: Vec<Reported>) -> bool
        ensures { IsTrue result → (scripts : List (List Line)) (book : List Committed) (more count : ℕ)
            → AreReportedOf scripts book outcome.items more → IsBoard scripts self.old book count
            → IsBoard scripts self.new book (count + more) }
    {
        let mut outcome = outcome;
        'outcome: while outcome.len() > 0 {
            if let Some(last) = outcome.pop() {
                if !self.place(last) {
                    return false;
                }
            }
        }
        true
    }

    /// Whether the refusal 2 that a transcript ends with, if one does, has its cause: that the device has failed.
    pub(crate) fn has_cause(&self, has_failed: bool) -> bool
        ensures cause { IsTrue result → self.now.has_failed ≡ true → has_failed ≡ true }
        ensures only { (self.now.has_failed ≡ true → has_failed ≡ true) → IsTrue result }
    {
        has_failed || !self.has_failed
    }

    /// Whether each index has its transcript.
    pub(crate) fn is_full(&self) -> bool
        ensures { IsTrue result → IsFull self.now }
    {
        for is_there in self.filled.as_slice() {
            if !*is_there {
                return false;
            }
        }
        true
    }
}
