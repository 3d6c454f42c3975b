//! What a request may need of memory, taken before its call is tried.

ghost use Rattle.std.specs.Prelude.{◌≡◌, false, IfOk, IsOk, OnOk, OnErr};
ghost use Rattle.ipc_wire.specs.Request.{plain_kind};
ghost use Rattle.ipc_wire.specs.View.{plain_request};
ghost use Rattle.ipc_state.specs.Held.{left};
ghost use Rattle.ipc_state.specs.Waiting.{has_text};
ghost use Rattle.posix_calls.specs.Needs.{IsReserved, keeps_request, kept_of, needs, takes_memory, zeros_of};

use ipc_state::{Parked, State};
use ipc_wire::{PosixCall, Request, RequestKind};
use std::alloc::{AllocError, Global};

/// Takes the memory that a POSIX request may need, in place of what was reserved; one that grows nothing never takes
/// any. A call that may wait is kept, its text in memory of its own; of any other request nothing is kept. Refused,
/// nothing is reserved.
pub fn reserve(
    state: &mut State,
    alloc: Global,
    request: &Request<'_>,
) -> Result<Option<Parked>, AllocError>
    ensures ok { IfOk result (λ kept. IsReserved state.old state.new (plain_request request.now) kept) }
    ensures err { OnErr result (state.new ≡ left state.old state.old.state) }
    ensures memory { takes_memory (plain_kind request.now.kind) ≡ false → IsOk result }
{
    reserve_object(state, &request.kind)?;
    keep(alloc, request)
}

/// Takes the memory of a new object, or of the zeros that a segment may become, if the request asks for one. Refused,
/// nothing is reserved.
fn reserve_object(state: &mut State, kind: &RequestKind<'_>) -> Result<(), AllocError>
    ensures ok { OnOk result (state.new ≡ record state.old { ready = needs (plain_kind kind.now) }) }
    ensures err { OnErr result (state.new ≡ left state.old state.old.state) }
    ensures memory { takes_memory (plain_kind kind.now) ≡ false → IsOk result }
{
    match kind {
        RequestKind::Posix(PosixCall::MqOpen { name, .. }) => state.reserve_mq(name),
        RequestKind::Posix(PosixCall::SemOpen { name, .. }) => state.reserve_psem(name),
        RequestKind::Posix(PosixCall::ShmOpen { name, .. }) => state.reserve_pshm(name),
        RequestKind::Posix(PosixCall::Ftruncate { length, .. }) => reserve_zeros(state, *length),
        _ => {
            state.release();
            Ok(())
        }
    }
}

/// No segment has more bytes than this, under any limits.
const MOST_SEGMENT_BYTES: u64 = 1 << 20;

/// Takes the memory of so many zeros, if a segment may be so long. Refused, nothing is reserved.
fn reserve_zeros(state: &mut State, length: u64) -> Result<(), AllocError>
    ensures ok { OnOk result (state.new ≡ record state.old { ready = zeros_of length }) }
    ensures err { OnErr result (state.new ≡ left state.old state.old.state) }
{
    if length > MOST_SEGMENT_BYTES {
        state.release();
        return Ok(());
    }
    state.reserve_zeros(length as usize)
}

/// Keeps a POSIX request that may have to wait. Refused for want of memory, which only a text takes.
fn keep(alloc: Global, request: &Request<'_>) -> Result<Option<Parked>, AllocError>
    ensures kept { IfOk result (λ kept. kept ≡ kept_of (plain_request request.now)) }
    ensures memory { has_text (plain_kind request.now.kind) ≡ false → IsOk result }
    ensures others { keeps_request (plain_kind request.now.kind) ≡ false → IsOk result }
{
    match &request.kind {
        RequestKind::Posix(_) => Parked::new(alloc, request),
        RequestKind::Hello(_) | RequestKind::Interrupt | RequestKind::Sysv(_) => Ok(None),
    }
}
