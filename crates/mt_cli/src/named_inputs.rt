// Scripts and schedules, read by name. No text is read further than the longest one could go.
ghost use Rattle.std.specs.Prelude.{◌≡◌, ◌++◌, ◌<◌, ◌≤◌, length, OnOk, false, IfErr, IfOk, IfSome, MatchBool, is_some, map, option_map, string_bytes, true};
ghost use Rattle.mt_base.specs.declared.limits.TheConstants.{MAX_SESSIONS};
ghost use Rattle.mt_script.specs.Grammars.{AreLines};
ghost use Rattle.mt_script.specs.Scripts.{lines_in};
ghost use Rattle.mt_folder.specs.Folders.{AreKept, IsUnmade, known_in};
ghost use Rattle.mt_cli.specs.Reads.{AreUnreadFor, HasNoScript, HaveBeenRead, IsFront, IsReadAt, IsUnread, IsUnreadScript, named_bytes, file_in, held_by, is_fed, source_of};

use crate::text_faults::{MAX_TEXT_BYTES, text_fault};
use mt_base::Refusal;
use mt_base::limits::MAX_SESSIONS;
use mt_folder::Folder;
use mt_report::{Fault, ReadFault, TextFault};
use mt_script::{Grammar, Script, ScriptFault, ScriptGrammar, ScriptWord, read_lines};
use std::alloc::{AllocError, Global};
use std::io::{Chain, Read};

/// Bytes that are asked of the input at a time.
const PIECE_BYTES: usize = 4096;

/// Adds bytes after the others. The only error is want of memory.
fn add_bytes(bytes: &mut Vec<u8>, more: &[u8]) -> Result<(), AllocError>
    ensures { OnOk result (bytes.new.items ≡ bytes.old.items ++ more.now) }
{
    bytes.extend_from_slice(more)
}

/// What the input gives, to its end; or a beginning of it that is longer than any text, since it may have no end.
fn input_front<I: Read>(alloc: Global, input: &mut I) -> Result<Vec<u8>, Refusal>
    ensures front { IfOk result (λ bytes. IfSome (I.remaining input.old)
        (IsFront bytes.items (I.remaining input.new))) }
    ensures unmade { IfErr result IsUnmade }
{
    let mut bytes = Vec::new(alloc);
    let mut piece = [0u8; PIECE_BYTES];
    for _ in 0..u64::MAX {
        let Ok(count) = input.read(&mut piece) else {
            return Err(Refusal::DeviceFailed);
        };
        if count == 0 {
            return Ok(bytes);
        }
        add_bytes(&mut bytes, &piece[..count])?;
        if bytes.len() > MAX_TEXT_BYTES {
            return Ok(bytes);
        }
    }
    Err(Refusal::DeviceFailed)
}

/// The lines of a text, and else what is wrong with it.
fn lines_within<G: Grammar>(alloc: Global, bytes: &[u8]) -> Result<Vec<G::Line>, ReadFault<G::Word>>
    ensures lines { IfOk result (λ lines. AreLines G.text G.IsIn bytes.now lines.items) }
    ensures unread { IfErr result (AreUnreadFor G.text G.IsIn G.word_at bytes.now) }
{
    let mut rest = bytes;
    match read_lines::<G, &[u8]>(alloc, &mut rest) {
        Ok(lines) => Ok(lines),
        Err(ScriptFault::Input) => Err(ReadFault::Refused(Refusal::DeviceFailed)),
        Err(ScriptFault::Refused(Refusal::BadLine(number))) => Err(ReadFault::BadLine(
            number,
            text_fault::<G>(bytes, number),
        )),
        // the other refusal that there is
        Err(ScriptFault::Refused(_)) => Err(ReadFault::Refused(Refusal::NoMemory)),
    }
}

/// The lines of a text that begins so, which is longer than any text, and goes on in the input. There are none.
fn overlong_lines<G: Grammar, I: Read>(
    alloc: Global,
    front: &[u8],
    input: &mut I,
) -> Result<Vec<G::Line>, ReadFault<G::Word>>
    requires { MAX_TEXT_BYTES < length front.now }
    ensures lines { IfOk result (λ lines. IfSome (I.remaining input.old)
        (λ rest. AreLines G.text G.IsIn (front.now ++ rest) lines.items)) }
    ensures unread { IfErr result (λ why. IfSome (I.remaining input.old)
        (λ rest. AreUnreadFor G.text G.IsIn G.word_at (front.now ++ rest) why)) }
{
    let mut whole = front.chain(input);
    match read_lines::<G, Chain<&[u8], &mut I>>(alloc, &mut whole) {
        Ok(lines) => Ok(lines),
        Err(ScriptFault::Input) => Err(ReadFault::Refused(Refusal::DeviceFailed)),
        Err(ScriptFault::Refused(Refusal::BadLine(number))) => {
            Err(ReadFault::BadLine(number, TextFault::Overlong))
        }
        // the other refusal that there is
        Err(ScriptFault::Refused(_)) => Err(ReadFault::Refused(Refusal::NoMemory)),
    }
}

/// The lines that an input has.
fn input_lines<G: Grammar, I: Read>(
    alloc: Global,
    input: &mut I,
) -> Result<Vec<G::Line>, ReadFault<G::Word>>
    ensures lines { IfOk result (λ lines. IfSome (I.remaining input.old)
        (λ bytes. AreLines G.text G.IsIn bytes lines.items)) }
    ensures unread { IfErr result (IsUnread G.text G.IsIn G.word_at (I.remaining input.old)) }
{
    let front = match input_front(alloc, input) {
        Ok(front) => front,
        Err(refusal) => return Err(ReadFault::Refused(refusal)),
    };
    if front.len() > MAX_TEXT_BYTES {
        overlong_lines::<G, I>(alloc, front.as_slice(), input)
    } else {
        lines_within::<G>(alloc, front.as_slice())
    }
}

/// The lines of this file.
fn file_lines<G: Grammar, F: Folder>(
    alloc: Global,
    folder: &mut F,
    name: &str,
) -> Result<Vec<G::Line>, ReadFault<G::Word>>
    ensures lines { IfOk result (λ lines. IfSome (known_in (F.files folder.old) name.now)
        (λ bytes. AreLines G.text G.IsIn bytes lines.items)) }
    ensures unread { IfErr result (IsUnread G.text G.IsIn G.word_at (known_in (F.files folder.old) name.now)) }
    ensures kept { AreKept (F.files folder.old) (F.files folder.new) }
{
    match folder.script(name) {
        Ok(script) => {
            let mut script = script;
            input_lines::<G, F::Script>(alloc, &mut script)
        }
        Err(refusal) => Err(ReadFault::Refused(refusal)),
    }
}

/// The lines of this file, or those on standard input if there is none.
fn lines_from<G: Grammar, F: Folder, I: Read>(
    alloc: Global,
    folder: &mut F,
    file: Option<&str>,
    input: &mut I,
) -> Result<Vec<G::Line>, ReadFault<G::Word>>
    ensures lines { IfOk result (λ lines. IfSome
        (held_by (F.files folder.old) (option_map (λ n. n.now) file.entry) (I.remaining input.old))
        (λ bytes. AreLines G.text G.IsIn bytes lines.items)) }
    ensures unread { IfErr result (IsUnread G.text G.IsIn G.word_at
        (held_by (F.files folder.old) (option_map (λ n. n.now) file.entry) (I.remaining input.old))) }
    ensures kept { AreKept (F.files folder.old) (F.files folder.new) }
    ensures untouched { is_some (option_map (λ n. n.now) file.entry) ≡ true
        → I.remaining input.new ≡ I.remaining input.old }
{
    match file {
        Some(name) => file_lines::<G, F>(alloc, folder, name),
        None => input_lines::<G, I>(alloc, input),
    }
}

/// The file that a name of a script or a schedule names, or `None` if there is no name or it is a dash.
fn file_named<'a>(name: Option<&'a str>) -> Option<&'a str>
    ensures { option_map (λ n. n.now) result ≡ file_in (option_map (λ n. n.now) name.entry) }
{
    match name {
        Some(name) => { if name == "-" { None } else { Some(name) } }
        None => None,
    }
}

/// The lines of the file of this name, or those on standard input if there is no name or it is a dash.
pub(crate) fn lines_of<G: Grammar, F: Folder, I: Read>(
    alloc: Global,
    folder: &mut F,
    name: Option<&str>,
    input: &mut I,
) -> Result<Vec<G::Line>, ReadFault<G::Word>>
    ensures lines { IfOk result (λ lines. IfSome
        (source_of (F.files folder.old) (option_map (λ n. n.now) name.entry) (I.remaining input.old))
        (λ bytes. AreLines G.text G.IsIn bytes lines.items)) }
    ensures unread { IfErr result (IsUnread G.text G.IsIn G.word_at
        (source_of (F.files folder.old) (option_map (λ n. n.now) name.entry) (I.remaining input.old))) }
    ensures kept { AreKept (F.files folder.old) (F.files folder.new) }
    ensures untouched { is_fed (option_map (λ n. n.now) name.entry) ≡ false
        → I.remaining input.new ≡ I.remaining input.old }
{
    lines_from::<G, F, I>(alloc, folder, file_named(name), input)
}

/// The script of this name; `-` is standard input.
fn script_of<F: Folder, I: Read>(
    alloc: Global,
    folder: &mut F,
    name: &str,
    input: &mut I,
) -> Result<Script, ReadFault<ScriptWord>>
    ensures read { IfOk result (λ script. IsReadAt (F.files folder.old) (I.remaining input.old) name.now
        (lines_in script) (I.remaining input.new)) }
    ensures unread { IfErr result (IsUnreadScript
        (named_bytes (F.files folder.old) name.now (I.remaining input.old))) }
    ensures kept { AreKept (F.files folder.old) (F.files folder.new) }
{
    let lines = lines_of::<ScriptGrammar, F, I>(alloc, folder, Some(name), input)?;
    Ok(Script::new(lines))
}

/// The scripts of these names, read one after the other; `-` is standard input, of which the first of that name has
/// all. The folder is as before. Refused for the first that is not read: by `NoMemory`, or by `DeviceFailed` if
/// there is no such file or it cannot be read. By `BadLine` it is refused of its first line that is not in the
/// grammar.
pub(crate) fn scripts_of<F: Folder, I: Read>(
    alloc: Global,
    folder: &mut F,
    names: &[String],
    input: &mut I,
) -> Result<Vec<Script>, Fault>
    ensures read { IfOk result (λ scripts. HaveBeenRead (F.files folder.old) (I.remaining input.old)
        (map string_bytes names.now) (map lines_in scripts.items)) }
    ensures unread { IfErr result (HasNoScript (F.files folder.old) (I.remaining input.old)
        (map string_bytes names.now)) }
    ensures kept { AreKept (F.files folder.old) (F.files folder.new) }
{
    let mut scripts = Vec::new(alloc);
    for name in names {
        let at = scripts.len();
        let script = match script_of(alloc, folder, name.as_str(), input) {
            Ok(script) => script,
            Err(why) => return Err(Fault::Unread(why, at)),
        };
        match scripts.push(script) {
            Ok(()) => {}
            Err(_) => return Err(Fault::Unread(ReadFault::Refused(Refusal::NoMemory), at)),
        }
    }
    Ok(scripts)
}

/// Whether these are more scripts than one run serves, one after the other or at once.
pub(crate) fn are_too_many(scripts: &[Script]) -> bool
    ensures { MatchBool result (MAX_SESSIONS < length scripts.now) (length scripts.now ≤ MAX_SESSIONS) }
{
    scripts.len() > MAX_SESSIONS
}
