// What outlasts an area of the log: the book, and the last numbers given. A rotation hands it to the next kernel.
ghost use Rattle.mt_base.specs.Limits.{IsRelationCount};

use mt_core::Rest;
use std::alloc::Global;

/// What outlasts an area of the log: the book of a kernel, and the numbers of its transactions and operations.
#[derive(Drop)]
pub struct KernelRest {
    pub(crate) rest: Rest,
    pub(crate) alloc: Global,
    pub(crate) relations: u16,
    pub(crate) counters: u16,
    ghost schema: { IsRelationCount relations },
}
