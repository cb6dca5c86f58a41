// `format`: a device that is made in a file.
ghost use Rattle.std.specs.Prelude.{IfErr, IfOk, MatchOption, OnErr, OnOk};
ghost use Rattle.mt_folder.specs.Folders.{AreKept, IsUnmade};
ghost use Rattle.mt_device_commands.specs.Formattings.{AreNarrow, AreAllowed, Formats, IsFormatFault, IsSchemaOf, IsUnformed, IsUnmadeOf, PutsFormatted};

use crate::waits::Patience;
use mt_args::Numbers;
use mt_base::Refusal;
use mt_folder::Folder;
use mt_report::Fault;
use mt_restart::{Schema, format};
use std::alloc::Global;
use std::time::Clock;

/// Pages, MiB of a log area and relations, if each fits its type.
fn narrowed(numbers: &Numbers) -> Option<(u16, u8, u16)>
    ensures { MatchOption result (¬ AreAllowed numbers.now) (AreNarrow numbers.now) }
{
    let Ok(pages) = u16::try_from(numbers.pages) else {
        return None;
    };
    let Ok(area) = u8::try_from(numbers.area) else {
        return None;
    };
    match u16::try_from(numbers.relations) {
        Ok(relations) => Some((pages, area, relations)),
        Err(_) => None,
    }
}

/// The schema of these numbers. Refused by `BadLength` if one is outside its limits, and by `NoMemory`.
fn schema_of(alloc: Global, numbers: &Numbers) -> Result<Schema, Refusal>
    ensures schema { IfOk result (IsSchemaOf numbers.now) }
    ensures cause { IfErr result (IsUnmadeOf numbers.now) }
{
    match narrowed(numbers) {
        Some((pages, area, relations)) => Schema::new(
            alloc,
            pages,
            area,
            relations,
            numbers.counters.as_slice(),
        ),
        None => Err(Refusal::BadLength),
    }
}

/// Makes a device of a schema, and puts it in the place of this name once it is formatted. If that fails, the device is
/// dropped.
fn put_formatted<F: Folder, R: Clock>(
    patience: &Patience<'_, R>,
    folder: &mut F,
    name: &str,
    schema: &Schema,
) -> Result<(), Refusal>
    ensures put { OnOk result (PutsFormatted schema.now (F.files folder.old) (F.files folder.new) name.now) }
    ensures why { IfErr result IsUnmade }
    ensures err { OnErr result (AreKept (F.files folder.old) (F.files folder.new)) }
{
    let mut device = patience.make(folder, name, schema.device_len())?;
    match format(&mut device, schema) {
        Ok(()) => folder.install(name, device),
        Err(refusal) => {
            folder.discard(name, device);
            Err(refusal)
        }
    }
}

/// Makes a device of the schema of these numbers in the file of this name, or in its place. Refused by `BadLength` if
/// and only if a number is outside its limits, before any file is made. Refused by `NoMemory`, and by `DeviceFailed`
/// if the file cannot be made or written. The folder is then as before.
fn put_device<F: Folder, R: Clock>(
    alloc: Global,
    patience: &Patience<'_, R>,
    folder: &mut F,
    name: &str,
    numbers: &Numbers,
) -> Result<(), Refusal>
    ensures formatted { OnOk result (Formats numbers.now (F.files folder.old) (F.files folder.new) name.now) }
    ensures cause { IfErr result (IsUnformed numbers.now) }
    ensures err { OnErr result (AreKept (F.files folder.old) (F.files folder.new)) }
{
    let schema = schema_of(alloc, numbers)?;
    put_formatted(patience, folder, name, &schema)
}

/// Does `format`: makes a device of the schema of these numbers in the file of this name, or in its place. Each other
/// file is as it was.
///
/// Refused by `BadLength` if and only if a number is outside its limits, by `NoMemory`, and by `DeviceFailed` if the
/// file cannot be made or written. Each file is then as it was.
pub fn perform_format<F: Folder, R: Clock>(
    alloc: Global,
    patience: &Patience<'_, R>,
    folder: &mut F,
    name: &str,
    numbers: &Numbers,
) -> Result<(), Fault>
    ensures formatted { OnOk result (Formats numbers.now (F.files folder.old) (F.files folder.new) name.now) }
    ensures cause { IfErr result (IsFormatFault numbers.now) }
    ensures err { OnErr result (AreKept (F.files folder.old) (F.files folder.new)) }
{
    match put_device(alloc, patience, folder, name, numbers) {
        Ok(()) => Ok(()),
        Err(refusal) => Err(Fault::Refused(refusal)),
    }
}
