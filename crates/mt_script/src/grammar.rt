// What a grammar of lines is.
use std::alloc::{AllocError, Global};

/// A grammar of lines, by which a text is read line by line.
pub trait Grammar {
    ghost use Rattle.std.specs.Prelude.{◌≡◌, ◌≢◌, ℕ, List, Option, All, IfOk};
    ghost use Rattle.mt_script.specs.Grammars.{ReadsIn};

    /// What a line says.
    type Line: Drop;

    /// A word that a line begins with.
    type Word: Copy;

    /// How a line is spelled, without its end.
    ghost text: { Self.Line → List ℕ };

    /// Which lines can be spelled.
    ghost IsIn: { Self.Line → Type 0 };

    /// The word that bytes are, if a line begins with it.
    ghost word_at: { List ℕ → Option Self.Word };

    /// How a line is written that begins with a word.
    ghost form: { Self.Word → List ℕ };

    /// The words, in a list that people read.
    ghost all_words: { List ℕ };

    /// The line that these bytes spell, without its end; `None` if they are not in the grammar. The only
    /// error is want of memory.
    fn line_of(alloc: Global, bytes: &[u8]) -> Result<Option<Self::Line>, AllocError>
        ensures { IfOk result (ReadsIn text IsIn bytes.now) };

    /// The word that these bytes are; `None` if no line begins with it.
    fn word_of(bytes: &[u8]) -> Option<Self::Word>
        ensures { result ≡ word_at bytes.now };

    /// How a line is written that begins with this word, as `get RELATION KEY`.
    fn form_of(word: Self::Word) -> &'static str
        ensures { result.now ≡ form word };

    /// The words, in a list that people read.
    fn words() -> &'static str
        ensures { result.now ≡ all_words };

    /// No line has an LF in it.
    ghost is_whole: { (line : Self.Line) → IsIn line → All (λ b. b ≢ 10) (text line) };
}
