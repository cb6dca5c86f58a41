// A text, read line by line by a grammar of its lines; scripts are such texts.
ghost use Rattle.std.specs.Prelude.{◌≡◌, ◌≢◌, ◌≤◌, ◌+◌, ℕ, List, [], ◌∷◌, ◌++◌, All, length, vec_len, IfOk, IfErr, IfSome, OnOk};
ghost use Rattle.mt_base.specs.declared.limits.TheConstants.{MAX_LINES, MAX_LINE_BYTES};
ghost use Rattle.mt_base.specs.declared.refusal.Refusal.{Refusal};
ghost use Rattle.mt_script.specs.Grammars.{AreLines, AreRefusedFor, Gathered};
ghost use Rattle.mt_script.specs.Scripts.{AreFaultyFor, IsScript, IsFaultOf, lines_in};

use crate::grammar::Grammar;
use crate::lines::{Line, ScriptGrammar, split_at};
use mt_base::Refusal;
use mt_base::limits::{MAX_LINE_BYTES, MAX_LINES};
use std::alloc::Global;
use std::io::Read;
use thiserror::Error;

/// Bytes that are asked of a reader at a time.
const PIECE_BYTES: usize = 4096;

/// The lines of a script.
#[derive(Debug, Drop)]
pub struct Script {
    lines: Vec<Line>,
}

/// Why a script, or another text of lines, could not be read.
#[derive(Debug, Drop, Error)]
pub enum ScriptFault {
    /// The reader failed.
    #[error("the script cannot be read")]
    Input,
    /// `NoMemory`, or `BadLine` of the first line that is not in the grammar.
    #[error("{0}")]
    Refused(Refusal),
}

/// A text as far as it has been read: its lines, and the bytes of the line under way.
#[derive(Drop)]
struct Reading<G: Grammar> {
    alloc: Global,
    lines: Vec<G::Line>,
    line: Vec<u8>,
    ghost lines_fit: { vec_len lines ≤ MAX_LINES },
    ghost line_fits: { vec_len line ≤ MAX_LINE_BYTES },
}

impl Script {
    /// The script of these lines.
    pub fn new(lines: Vec<Line>) -> Script
        ensures { lines_in result ≡ lines.items }
    {
        Script { lines }
    }

    /// The lines in order.
    pub fn lines(&self) -> &[Line]
        ensures { result.now ≡ lines_in self.now }
    {
        self.lines.as_slice()
    }
}

impl<G: Grammar> Reading<G> {
    fn new(alloc: Global) -> Reading<G>
        ensures { Gathered G.text G.IsIn [] result.lines.items result.line.items }
    {
        Reading {
            alloc,
            lines: Vec::new(alloc),
            line: Vec::new(alloc),
        }
    }

    /// That the line under way is not in the grammar.
    fn bad_line(&self) -> Refusal
        ensures { result ≡ Refusal.BadLine (length self.now.lines.items + 1) }
    {
        Refusal::BadLine(self.lines.len() as u64 + 1)
    }

    /// Takes more bytes of the line under way, which none of them ends.
    fn take(&mut self, part: &[u8]) -> Result<(), Refusal>
        requires { All (λ b. b ≢ 10) part.now }
        ensures cause { IfErr result (λ why. (front more : List ℕ)
            → Gathered G.text G.IsIn front self.old.lines.items self.old.line.items
            → AreRefusedFor G.text G.IsIn (front ++ part.now ++ more) why) }
        ensures taken { OnOk result ((front : List ℕ)
            → Gathered G.text G.IsIn front self.old.lines.items self.old.line.items
            → Gathered G.text G.IsIn (front ++ part.now) self.new.lines.items self.new.line.items) }
    {
        if part.is_empty() {
            return Ok(());
        }
        if self.lines.len() >= MAX_LINES {
            return Err(self.bad_line());
        }
        if part.len() > MAX_LINE_BYTES - self.line.len() {
            return Err(self.bad_line());
        }
        self.line.extend_from_slice(part)?;
        Ok(())
    }

    /// Takes the end of the line under way.
    fn end_line(&mut self) -> Result<(), Refusal>
        ensures cause { IfErr result (λ why. (front more : List ℕ)
            → Gathered G.text G.IsIn front self.old.lines.items self.old.line.items
            → AreRefusedFor G.text G.IsIn (front ++ 10 ∷ more) why) }
        ensures taken { OnOk result ((front : List ℕ)
            → Gathered G.text G.IsIn front self.old.lines.items self.old.line.items
            → Gathered G.text G.IsIn (front ++ 10 ∷ []) self.new.lines.items self.new.line.items) }
    {
        if self.lines.len() >= MAX_LINES {
            return Err(self.bad_line());
        }
        let Some(line) = G::line_of(self.alloc, self.line.as_slice())? else {
            return Err(self.bad_line());
        };
        self.lines.push(line)?;
        self.line.clear();
        Ok(())
    }

    /// Takes the next bytes, as much of a line as is there at once.
    fn take_all(&mut self, bytes: &[u8]) -> Result<(), Refusal>
        ensures cause { IfErr result (λ why. (front more : List ℕ)
            → Gathered G.text G.IsIn front self.old.lines.items self.old.line.items
            → AreRefusedFor G.text G.IsIn (front ++ bytes.now ++ more) why) }
        ensures taken { OnOk result ((front : List ℕ)
            → Gathered G.text G.IsIn front self.old.lines.items self.old.line.items
            → Gathered G.text G.IsIn (front ++ bytes.now) self.new.lines.items self.new.line.items) }
    {
        let mut rest = bytes;
        while let Some((part, next)) = split_at(rest, b'\n') {
            self.take(part)?;
            self.end_line()?;
            rest = next;
        }
        self.take(rest)
    }

    /// The lines, if none is under way.
    #[tactic(auto, using(crate::proofs::ScriptLemmas::are_lines))]
    fn end(self) -> Result<Vec<G::Line>, Refusal>
        ensures cause { IfErr result (λ why. (bytes : List ℕ)
            → Gathered G.text G.IsIn bytes self.lines.items self.line.items
            → AreRefusedFor G.text G.IsIn bytes why) }
        ensures lines { IfOk result (λ lines. (bytes : List ℕ)
            → Gathered G.text G.IsIn bytes self.lines.items self.line.items
            → AreLines G.text G.IsIn bytes lines.items) }
    {
        if !self.line.is_empty() {
            return Err(self.bad_line());
        }
        let Reading {
            alloc: _,
            lines,
            line: _,
        } = self;
        Ok(lines)
    }
}

/// Reads lines of a grammar to the reader's end, in pieces. Each has LF after it and at most 4,096 bytes before it,
/// and there are at most 100,000 of them. It holds no more than the lines, the one under way and one piece.
///
/// `Input` if the reader fails; refused by `NoMemory`, and by `BadLine` of the first line that is not in
/// the grammar.
pub fn read_lines<G: Grammar, R: Read>(
    alloc: Global,
    reader: &mut R,
) -> Result<Vec<G::Line>, ScriptFault>
    ensures cause { IfErr result (λ fault. IfSome (R.remaining reader.old)
        (λ bytes. AreFaultyFor G.text G.IsIn bytes fault)) }
    ensures lines { IfOk result (λ lines. IfSome (R.remaining reader.old)
        (λ bytes. AreLines G.text G.IsIn bytes lines.items)) }
{
    let mut reading: Reading<G> = Reading::new(alloc);
    let mut piece = [0u8; PIECE_BYTES];
    for _ in 0..u64::MAX {
        let Ok(count) = reader.read(&mut piece) else {
            return Err(ScriptFault::Input);
        };
        if count == 0 {
            return match reading.end() {
                Ok(lines) => Ok(lines),
                Err(refusal) => Err(ScriptFault::Refused(refusal)),
            };
        }
        if let Err(refusal) = reading.take_all(&piece[..count]) {
            return Err(ScriptFault::Refused(refusal));
        }
    }
    Err(ScriptFault::Input)
}

/// Reads a script to the reader's end, as [`read_lines`] does.
pub fn read_script<R: Read>(alloc: Global, reader: &mut R) -> Result<Script, ScriptFault>
    ensures cause { IfErr result (λ fault. IfSome (R.remaining reader.old) (λ bytes. IsFaultOf bytes fault)) }
    ensures script { IfOk result (λ script. IfSome (R.remaining reader.old)
        (λ bytes. IsScript bytes script.lines.items)) }
{
    match read_lines::<ScriptGrammar, R>(alloc, reader) {
        Ok(lines) => Ok(Script::new(lines)),
        Err(fault) => Err(fault),
    }
}
