//! Limits that are at least as great as others, or not.

ghost use Rattle.std.specs.Prelude.{◌≡◌, not, position};
ghost use Rattle.ipc_image.specs.Greater.{at_least};

use ipc_limits::Limits;

/// The first field, counted from 0 in the order of `Limits`, in which the new limits are below the old ones.
pub fn first_below(new: &Limits, old: &Limits) -> Option<u32>
    ensures { result ≡ position not (at_least new.now old.now) }
{
    let are_at_least = [
        old.processes <= new.processes,
        old.msgmni <= new.msgmni,
        old.msgmax <= new.msgmax,
        old.msgmnb <= new.msgmnb,
        old.semmni <= new.semmni,
        old.semmsl <= new.semmsl,
        old.semmns <= new.semmns,
        old.semopm <= new.semopm,
        old.queues <= new.queues,
        old.maxmsg <= new.maxmsg,
        old.msgsize <= new.msgsize,
        old.named_semaphores <= new.named_semaphores,
        old.segments <= new.segments,
        old.segment_bytes <= new.segment_bytes,
        old.call_bytes <= new.call_bytes,
        old.descriptors <= new.descriptors,
        old.shmmni <= new.shmmni,
        old.shmmax <= new.shmmax,
        old.shmall <= new.shmall,
        old.msgqlen <= new.msgqlen,
        old.semume <= new.semume,
        old.queue_bytes <= new.queue_bytes,
    ];
    let field = first_failing(&are_at_least)?;
    Some(field as u32)
}

fn first_failing(tests: &[bool]) -> Option<usize>
    ensures { result ≡ position not tests.now }
{
    tests.iter().position(|holds| !*holds)
}
