// What is kept for the inverses of operations: free pages, and bytes of the log.
ghost use Rattle.std.specs.Prelude.{◌≡◌, ◌<◌, ◌+◌, ◌^◌, length};
ghost use Rattle.std.specs.List.{sum_by};
ghost use Rattle.mt_live.specs.Members.{noted, noted_calls};
ghost use Rattle.mt_core.specs.Runs.{call_pages, call_bytes, noted_pages, noted_bytes};
ghost use Rattle.mt_op.specs.World.{left_of};

use mt_inverse::has_effect;
use mt_live::Role;
use mt_model::{Op, Reply};
use mt_op::{OpScope, log_bytes_for};
use mt_steps::pages_to_undo;

// Free pages that stay claimed for the inverse of an operation that replied this.
pub(crate) fn pages_kept(op: &Op, reply: &Reply) -> u16
    ensures { result ≡ call_pages (op.now, reply.now) }
{
    if has_effect(op, reply) {
        pages_to_undo(op)
    } else {
        0
    }
}

// Bytes of the log that stay kept for it.
pub(crate) fn bytes_kept(op: &Op, reply: &Reply) -> u64
    ensures { result ≡ call_bytes (op.now, reply.now) }
{
    if has_effect(op, reply) {
        log_bytes_for(op)
    } else {
        0
    }
}

// Free pages that stay claimed for the inverse of an operation of this role.
fn role_pages(role: Role, op: &Op, reply: &Reply) -> u16
    ensures { result ≡ noted_pages (noted role (op.now, reply.now)) }
{
    if role == Role::Stands {
        pages_kept(op, reply)
    } else {
        0
    }
}

// Bytes of the log that stay kept for it.
fn role_bytes(role: Role, op: &Op, reply: &Reply) -> u64
    ensures { result ≡ noted_bytes (noted role (op.now, reply.now)) }
{
    if role == Role::Stands {
        bytes_kept(op, reply)
    } else {
        0
    }
}

// Free pages that are claimed for the inverses of those calls that stand.
pub(crate) fn all_pages_kept(calls: &[(Op, Reply)], roles: &[Role]) -> u16
    requires many { length roles.now ≡ length calls.now }
    requires fits { sum_by noted_pages (noted_calls calls.now roles.now) < 2 ^ 16 }
    ensures { result ≡ sum_by noted_pages (noted_calls calls.now roles.now) }
{
    let mut pages = 0;
    for (at, (op, reply)) in calls.iter().enumerate() {
        pages += role_pages(roles[at], op, reply);
    }
    pages
}

// Bytes of the log that are kept for them.
pub(crate) fn all_bytes_kept(calls: &[(Op, Reply)], roles: &[Role]) -> u64
    requires many { length roles.now ≡ length calls.now }
    requires fits { sum_by noted_bytes (noted_calls calls.now roles.now) < 2 ^ 64 }
    ensures { result ≡ sum_by noted_bytes (noted_calls calls.now roles.now) }
{
    let mut bytes = 0;
    for (at, (op, reply)) in calls.iter().enumerate() {
        bytes += role_bytes(roles[at], op, reply);
    }
    bytes
}

// Bytes of the log that are kept for the operations under way.
pub(crate) fn left_in(running: &[OpScope]) -> u64
    requires { sum_by left_of running.now < 2 ^ 64 }
    ensures { result ≡ sum_by left_of running.now }
{
    let mut left = 0;
    for one in running {
        left += one.left();
    }
    left
}
