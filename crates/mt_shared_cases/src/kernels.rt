// Kernels over devices in memory, before and after the time in which threads share them.
ghost use Rattle.std.specs.Prelude.{◌≡◌, ◌<◌, ◌^◌};
ghost use Rattle.mt_model.specs.Views.{base_of};
ghost use Rattle.mt_format.specs.Schemas.{schema_base};

use mt_base::Refusal;
use mt_disk::{Device, MemDevice};
use mt_model::Base;
use mt_restart::{Schema, fresh};
use mt_shared::{Closed, Gate, Naming, Opened, Pass, Point, Shared};
use mt_txn::Kernel;
use std::alloc::Global;

/// An observer that wants no point.
#[derive(Drop)]
pub struct NoGate;

impl Gate for NoGate {
    fn at(&self, _session: u32, _point: Point) {}

    fn wants(&self, _point: Point) -> bool {
        false
    }
}

/// A kernel in memory that threads share.
pub type Memory<J> = Shared<MemDevice, NoGate, J>;

/// A device in memory of so many bytes, each of them 0.
pub fn empty_device(alloc: Global, size: u64) -> Result<MemDevice, Refusal> {
    let bytes = vec![in alloc; 0u8; size as usize]?;
    Ok(MemDevice::new(alloc, bytes, 4200, 8_400_000)?)
}

// A kernel over a device that is formatted by this schema, which so many passes are to share, beside the schema's
// base.
fn opened_over<D: Device + Drop>(
    alloc: Global,
    device: D,
    schema: &Schema,
    base: &Base,
    count: usize,
) -> Result<Opened<D>, Refusal>
    requires count { count < 2 ^ 32 }
    requires base { base_of base.now ≡ schema_base schema.now }
{
    let kernel = match fresh(alloc, device, schema, 64) {
        Ok(kernel) => kernel,
        Err((why, _device)) => return Err(why),
    };
    match Opened::new(alloc, kernel, base, count) {
        Ok(opened) => Ok(opened),
        Err(kernel) => {
            let _device = kernel.into_device();
            Err(Refusal::NoMemory)
        }
    }
}

/// A kernel over so many pages in memory, with two relations and these counters, which so many passes are to share.
pub fn opened_of(
    alloc: Global,
    pages: u16,
    counters: &[(i64, i64, i64)],
    count: usize,
) -> Result<Opened<MemDevice>, Refusal>
    requires { count < 2 ^ 32 }
{
    let schema = Schema::new(alloc, pages, 4, 2, counters)?;
    let base = Base::new(alloc, 2, counters)?;
    let device = empty_device(alloc, schema.device_len())?;
    opened_over(alloc, device, &schema, &base, count)
}

/// The same under a name, with its passes.
pub fn shared_of<J: Naming>(
    alloc: Global,
    opened: Opened<MemDevice>,
) -> Result<(Memory<J>, Vec<Pass<J>>), Refusal>
    requires { (opened.mark ≡ J.mark) × (opened.base ≡ J.base) × (opened.book ≡ J.book) }
{
    match opened.named::<NoGate, J>(alloc, NoGate) {
        Ok(made) => Ok(made),
        Err(kernel) => {
            let _device = kernel.into_device();
            Err(Refusal::NoMemory)
        }
    }
}

/// What a kernel has in its book and on its pages: its commits, its rows, and its counters that are not at 0.
#[derive(Drop)]
pub struct Outcome {
    pub commits: usize,
    pub rows: usize,
    pub moved: usize,
}

// What a survey of a kernel answers in which no transaction is active. The kernel is dropped.
fn reported_of(kernel: Kernel<MemDevice>) -> Result<Outcome, Refusal> {
    let mut kernel = kernel;
    let commits = kernel.book().len();
    let survey = kernel.survey();
    let _device = kernel.into_device();
    let base = survey?.base;
    let moved = base.counters().iter().filter(|c| c.number != 0).count();
    Ok(Outcome {
        commits,
        rows: base.rows().len(),
        moved,
    })
}

/// What a survey of the kernel answers after a close.
pub fn reported_behind<J: Naming>(
    shared: Memory<J>,
    passes: Vec<Pass<J>>,
) -> Result<Outcome, Refusal> {
    match shared.close(passes) {
        Ok(kernel) => reported_of(kernel),
        Err(closed) => {
            let Closed {
                why,
                shared,
                passes: _,
            } = closed;
            give_up(shared);
            Err(why)
        }
    }
}

/// Drops what is shared.
pub fn give_up<J: Naming>(shared: Memory<J>) {
    drop(shared.abandon());
}
