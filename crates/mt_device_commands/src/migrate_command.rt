// `migrate`: the device in a file, carried over to format 2.
ghost use Rattle.std.specs.Prelude.{◌≡◌, IfErr, OnOk};
ghost use Rattle.mt_disk.specs.Disk.{Only};
ghost use Rattle.mt_folder.specs.Folders.{known_in};
ghost use Rattle.mt_restart.specs.Migrated.{IsCauseNotToCarry};
ghost use Rattle.mt_device_commands.specs.Dumps.{IsEarly};
ghost use Rattle.mt_device_commands.specs.Migrations.{additions, AreLeftUnmigrated, AreMigrateFiles, IsMigrateFault, IsNotMigrated, IsRewritten, StandsGrown, StandsOrGrown};

use crate::waits::Patience;
use mt_args::Growth;
use mt_base::Refusal;
use mt_disk::Device;
use mt_folder::Folder;
use mt_report::Fault;
use mt_restart::migrate;
use std::alloc::Global;
use std::time::Clock;

/// Pages that the kernel keeps in frames: as few as it may, since it runs no transaction.
const FRAMES: usize = 32;

/// Carries a device over, and gives it back, whatever came of that.
fn migrate_device<D: Device + Drop>(
    alloc: Global,
    device: D,
    growth: &Growth,
) -> (Result<(), Refusal>, D)
    requires settled { Only (D.seen device) (D.may_leave device) }
    ensures migrated { OnOk result.0 (StandsGrown (additions growth.now) (D.seen device) (D.seen result.1)) }
    ensures cause { IfErr result.0 (IsCauseNotToCarry (additions growth.now) (D.seen device) (Unit {0})) }
    ensures stands { StandsOrGrown (additions growth.now) (D.seen device) (D.seen result.1) }
    ensures early { IfErr result.0 (λ why. IsEarly why → D.seen result.1 ≡ D.seen device) }
{
    let relations = growth.relations.min(u64::from(u16::MAX)) as u16;
    match migrate(alloc, device, FRAMES, relations, growth.counters.as_slice()) {
        Ok(kernel) => (Ok(()), kernel.into_device()),
        Err((refusal, device)) => (Err(refusal), device),
    }
}

/// Carries the device in the file of this name over.
fn migrate_file<F: Folder, R: Clock>(
    alloc: Global,
    patience: &Patience<'_, R>,
    folder: &mut F,
    name: &str,
    growth: &Growth,
) -> Result<(), Refusal>
    ensures migrated { OnOk result (IsRewritten (StandsGrown (additions growth.now)) (F.files folder.old)
        (F.files folder.new) name.now) }
    ensures cause { IfErr result (IsNotMigrated (additions growth.now) (known_in (F.files folder.old) name.now)) }
    ensures left { IfErr result (AreLeftUnmigrated (additions growth.now) (F.files folder.old) (F.files folder.new)
        name.now) }
{
    let device = patience.device(folder, name)?;
    let (outcome, device) = migrate_device(alloc, device, growth);
    folder.back(name, device);
    outcome
}

/// Does `migrate`: carries the device in the file of this name, which is of format 1, over to format 2. Its schema gets
/// so many relations more, and these counters after those that it has. The file then represents what it did, with the
/// counters more. Nothing is printed.
///
/// Refused for a file that cannot be opened, and as [`migrate`] of mt_restart is. But for `NoMemory` and `DeviceFailed`
/// each file is then as it was. After those two the file represents what it did, or it is carried over.
pub fn perform_migrate<F: Folder, R: Clock>(
    alloc: Global,
    patience: &Patience<'_, R>,
    folder: &mut F,
    name: &str,
    growth: &Growth,
) -> Result<(), Fault>
    ensures migrated { OnOk result (IsRewritten (StandsGrown (additions growth.now)) (F.files folder.old)
        (F.files folder.new) name.now) }
    ensures cause { IfErr result (IsMigrateFault (additions growth.now) (known_in (F.files folder.old) name.now)) }
    ensures left { IfErr result (AreMigrateFiles (additions growth.now) (F.files folder.old) (F.files folder.new)
        name.now) }
{
    match migrate_file(alloc, patience, folder, name, growth) {
        Ok(()) => Ok(()),
        Err(refusal) => Err(Fault::Refused(refusal)),
    }
}
