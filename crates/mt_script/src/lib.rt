//! Scripts and transcripts as text. A script is read whole, line by line, by a [`Grammar`] of its lines. A transcript
//! is the texts of [`Answer`]s: a line each, and one more for each row of a scan.
//!
//! Readers and writers are passed in, and their bytes are what contracts speak of. Begin at [`read_script`].
#![tactic(auto)]

mod answers;
mod faults;
mod grammar;
mod lines;
mod reader;
mod words;

pub use answers::{Answer, Unheard, put, put_all, write_answer, write_reply};
pub use faults::{LineFault, line_fault};
pub use grammar::Grammar;
pub use lines::{
    Line, ScriptGrammar, is_text_of, line_of, number_of, op_of, signed_of, split_at_space,
};
pub use reader::{Script, ScriptFault, read_lines, read_script};
pub use words::ScriptWord;
