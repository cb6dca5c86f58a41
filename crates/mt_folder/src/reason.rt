// Why a file is not had.
ghost use Rattle.std.specs.Prelude.{◌≡◌};
ghost use Rattle.mt_folder.specs.Reasons.{reason_text};

use std::fmt;

/// Why a folder's call failed, as far as the system says it.
#[derive(Clone, Copy, PartialEq, Eq, Debug)]
pub enum Reason {
    /// There is no such file.
    NoFile,
    /// There is no folder for a new file of that name.
    NoFolder,
    /// The rights do not allow it.
    Denied,
    /// It is a folder.
    Folder,
    /// It is neither a folder nor a regular file, or a link that leads nowhere.
    Irregular,
    /// Another program has it open, or this one.
    Open,
    /// It is on a file system that can be read alone.
    ReadOnly,
    /// Something else.
    Other,
}

impl Reason {
    /// The reason, as it follows a file's name.
    pub fn text(&self) -> &'static str
        ensures { result.now ≡ reason_text self.now }
    {
        match self {
            Reason::NoFile => "no such file",
            Reason::NoFolder => "there is no such folder",
            Reason::Denied => "permission denied",
            Reason::Folder => "is a folder",
            Reason::Irregular => "is no regular file",
            Reason::Open => "is open in another program",
            Reason::ReadOnly => "is on a read-only file system",
            Reason::Other => "cannot be read or written; see that its disk has room",
        }
    }
}

impl fmt::Display for Reason {
    ghost use Rattle.std.specs.Prelude.{Some};
    ghost use Rattle.mt_folder.specs.Reasons.{reason_text};

    ghost output = { λ reason. Some (reason_text reason) };

    fn fmt<W: fmt::Write>(&self, f: &mut fmt::Formatter<W>) -> fmt::Result {
        let text = self.text();
        write!(f, "{text}")
    }
}
