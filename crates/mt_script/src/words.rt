// The words that lines of a script begin with.
ghost use Rattle.std.specs.Prelude.{◌≡◌};
ghost use Rattle.mt_script.specs.LineFaults.{script_form, script_word};

use crate::lines::is_text_of;

/// A word that a line of a script begins with.
#[derive(Clone, Copy, PartialEq, Eq, Debug)]
pub enum ScriptWord {
    /// `begin`
    Begin,
    /// `get`
    Get,
    /// `insert`
    Insert,
    /// `update`
    Update,
    /// `delete`
    Delete,
    /// `add`
    Add,
    /// `read`
    Read,
    /// `scan`
    Scan,
    /// `save`
    Save,
    /// `back`
    Back,
    /// `commit`
    Commit,
    /// `abort`
    Abort,
}

/// The word that these bytes are, if a line of a script begins with it.
pub(crate) fn script_word(bytes: &[u8]) -> Option<ScriptWord>
    ensures { result ≡ script_word bytes.now }
{
    if is_text_of(bytes, "begin") {
        Some(ScriptWord::Begin)
    } else if is_text_of(bytes, "get") {
        Some(ScriptWord::Get)
    } else if is_text_of(bytes, "insert") {
        Some(ScriptWord::Insert)
    } else if is_text_of(bytes, "update") {
        Some(ScriptWord::Update)
    } else if is_text_of(bytes, "delete") {
        Some(ScriptWord::Delete)
    } else if is_text_of(bytes, "add") {
        Some(ScriptWord::Add)
    } else if is_text_of(bytes, "read") {
        Some(ScriptWord::Read)
    } else if is_text_of(bytes, "scan") {
        Some(ScriptWord::Scan)
    } else if is_text_of(bytes, "save") {
        Some(ScriptWord::Save)
    } else if is_text_of(bytes, "back") {
        Some(ScriptWord::Back)
    } else if is_text_of(bytes, "commit") {
        Some(ScriptWord::Commit)
    } else if is_text_of(bytes, "abort") {
        Some(ScriptWord::Abort)
    } else {
        None
    }
}

/// How a line is written that begins with this word.
pub(crate) fn script_form(word: ScriptWord) -> &'static str
    ensures { result.now ≡ script_form word }
{
    match word {
        ScriptWord::Begin => "begin",
        ScriptWord::Get => "get RELATION KEY",
        ScriptWord::Insert => "insert RELATION KEY VALUE",
        ScriptWord::Update => "update RELATION KEY VALUE",
        ScriptWord::Delete => "delete RELATION KEY",
        ScriptWord::Add => "add COUNTER AMOUNT",
        ScriptWord::Read => "read COUNTER",
        ScriptWord::Scan => "scan RELATION",
        ScriptWord::Save => "save",
        ScriptWord::Back => "back COUNT",
        ScriptWord::Commit => "commit",
        ScriptWord::Abort => "abort",
    }
}
