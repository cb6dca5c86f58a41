// The words that lines of a schedule begin with.
ghost use Rattle.std.specs.Prelude.{◌≡◌};
ghost use Rattle.mt_report.specs.EventWords.{event_form, event_word};

use mt_script::is_text_of;

/// A word that a line of a schedule begins with.
#[derive(Clone, Copy, PartialEq, Eq, Debug)]
pub enum EventWord {
    /// `begin`
    Begin,
    /// `call`
    Call,
    /// `step`
    Step,
    /// `commit`
    Commit,
    /// `abort`
    Abort,
    /// `undo`
    Undo,
    /// `back`
    Back,
    /// `backstep`
    BackStep,
    /// `force`
    Force,
    /// `flush`
    Flush,
    /// `rotate`
    Rotate,
}

/// The word that these bytes are, if a line of a schedule begins with it.
pub(crate) fn event_word(bytes: &[u8]) -> Option<EventWord>
    ensures { result ≡ event_word bytes.now }
{
    if is_text_of(bytes, "begin") {
        Some(EventWord::Begin)
    } else if is_text_of(bytes, "call") {
        Some(EventWord::Call)
    } else if is_text_of(bytes, "step") {
        Some(EventWord::Step)
    } else if is_text_of(bytes, "commit") {
        Some(EventWord::Commit)
    } else if is_text_of(bytes, "abort") {
        Some(EventWord::Abort)
    } else if is_text_of(bytes, "undo") {
        Some(EventWord::Undo)
    } else if is_text_of(bytes, "back") {
        Some(EventWord::Back)
    } else if is_text_of(bytes, "backstep") {
        Some(EventWord::BackStep)
    } else if is_text_of(bytes, "force") {
        Some(EventWord::Force)
    } else if is_text_of(bytes, "flush") {
        Some(EventWord::Flush)
    } else if is_text_of(bytes, "rotate") {
        Some(EventWord::Rotate)
    } else {
        None
    }
}

/// How a line is written that begins with this word.
pub(crate) fn event_form(word: EventWord) -> &'static str
    ensures { result.now ≡ event_form word }
{
    match word {
        EventWord::Begin => "begin SESSION",
        EventWord::Call => "call TRANSACTION OPERATION",
        EventWord::Step => "step TRANSACTION",
        EventWord::Commit => "commit TRANSACTION",
        EventWord::Abort => "abort TRANSACTION",
        EventWord::Undo => "undo TRANSACTION",
        EventWord::Back => "back TRANSACTION COUNT",
        EventWord::BackStep => "backstep TRANSACTION",
        EventWord::Force => "force",
        EventWord::Flush => "flush",
        EventWord::Rotate => "rotate",
    }
}
