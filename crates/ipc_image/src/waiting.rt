//! A call that waits in the object of the waiting calls, and the calls that are read of it.

ghost use Rattle.std.specs.Prelude.{◌≡◌, ◌≢◌, ◌<◌, ◌^◌, ◌++◌, ◌∷◌, [], ℕ, List, All, length, refl};
ghost use Rattle.std.specs.Prelude.{Err, IfOk, IfSome, IfNone, OnOk};
ghost use Rattle.ipc_base.specs.Numbers.{fields_bytes, FitFields};
ghost use Rattle.ipc_engine.specs.declared.fault.StateFault.{StateFault};
ghost use Rattle.ipc_state.specs.Restored.{with_waits};
ghost use Rattle.ipc_state.specs.Waiting.{PlainWaiting};
ghost use Rattle.ipc_wait.specs.Waits.{HaveDistinctPids};
ghost use Rattle.ipc_wire.specs.Spelling.{HasFrame, request_bytes};
ghost use Rattle.ipc_image.specs.Saved.{waiting_sizes, waiting_shape, waiting_tree, waiting_bytes, waits_bytes};
ghost use Rattle.ipc_image.specs.Saved.{deadline_number, FitsWaiting};
ghost use Rattle.ipc_image.specs.SavedParts.{deadline_from};
ghost use Rattle.ipc_image.specs.Window.{passed};
ghost use Rattle.ipc_image.specs.Relations.Trees.{waiting_one};

use crate::fields::{EIGHT, FOUR, put_fields, put_row};
use crate::saved::{Saved, read_counted};
use crate::window::Window;
use ipc_base::{Field, Moment, Pid, take_fields};
use ipc_engine::StateFault;
use ipc_state::{Awaited, Parked, State};
use ipc_wait::{WaitList, Waiting};
use ipc_wire::{read_request, request_len, request_parts};
use std::alloc::Global;

/// The bytes of a call before its request.
const WAITING_NUMBERS: u64 = 16;

/// The deadline of a call that has none.
const NO_DEADLINE: u64 = u64::MAX;

impl Saved for Waiting<Awaited, Parked> {
    type Into = Vec<Waiting<Awaited, Parked>>;

    ghost Plain = { PlainWaiting };

    ghost plain = { λ w. w };

    ghost shape = { waiting_shape };

    ghost tree = { waiting_tree };

    ghost Fits = { FitsWaiting };

    ghost Seen = { List PlainWaiting };

    ghost seen = { λ calls. calls.items };

    ghost items = { λ ws. ws };

    ghost put = { λ before ws. ws };

    ghost place = { record { same = λ s. refl; found = λ s ws. refl; again = λ s vs ws. refl } };

    ghost known = { λ w fit. fit.tree };

    ghost one = { waiting_one };

    fn len(&self) -> u64 {
        WAITING_NUMBERS + u64::from(call_len(&self.call))
    }

    fn put(&self, window: &mut Window) {
        put_fields(
            window,
            &[
                Field::U32(self.pid.0),
                Field::U64(deadline_number(self.deadline)),
                Field::U32(call_len(&self.call)),
            ],
        );
        put_call(window, &self.call);
    }

    fn take<'b>(
        into: &mut Vec<Waiting<Awaited, Parked>>,
        bytes: &'b [u8],
    ) -> Result<&'b [u8], StateFault> {
        let Some(cut) = cut_call(bytes) else {
            return Err(StateFault::Unsound);
        };
        let call = read_call(*into.allocator(), cut.text)?;
        into.reserve(1)?;
        into.push_reserved(Waiting {
            pid: Pid(cut.pid),
            on: call.awaited(),
            deadline: deadline_from(cut.deadline),
            call,
        });
        Ok(cut.rest)
    }
}

// What stands of a call at the front of some bytes, and the bytes after it.
#[derive(Drop)]
struct Cut<'a> {
    pid: u32,
    deadline: u64,
    text: &'a [u8],
    rest: &'a [u8],
}

// The call at the front, if the bytes have its numbers and as many bytes of its request as these say.
fn cut_call(bytes: &[u8]) -> Option<Cut<'_>>
    ensures some { IfSome result (λ cut.
        FitFields waiting_sizes (cut.pid ∷ cut.deadline ∷ length cut.text.now ∷ [])
        × (bytes.now ≡ fields_bytes waiting_sizes (cut.pid ∷ cut.deadline ∷ length cut.text.now ∷ [])
        ++ (cut.text.now ++ cut.rest.now))) }
    ensures none { IfNone result ((w : PlainWaiting) (rest : List ℕ) → FitsWaiting w
        → bytes.now ≢ waiting_bytes w ++ rest) }
{
    let (numbers, after) = take_fields(bytes, &[FOUR, EIGHT, FOUR])?;
    let (text, rest) = after.split_at_checked(numbers[2] as usize)?;
    Some(Cut {
        pid: numbers[0] as u32,
        deadline: numbers[1],
        text,
        rest,
    })
}

// A deadline as a number.
fn deadline_number(deadline: Option<Moment>) -> u64
    ensures { result ≡ deadline_number deadline }
{
    match deadline {
        Some(deadline) => deadline.0,
        None => NO_DEADLINE,
    }
}

// The deadline that a number is.
fn deadline_from(number: u64) -> Option<Moment>
    ensures { result ≡ deadline_from number }
{
    if number == NO_DEADLINE {
        return None;
    }
    Some(Moment(number))
}

// How many bytes the request of a call has.
fn call_len(call: &Parked) -> u32
    ensures { result ≡ length (request_bytes call.now) }
{
    request_len(call.lend()) as u32
}

// The request of a call passes the window: its frame without the length.
fn put_call(window: &mut Window, call: &Parked)
    ensures { window.new ≡ passed (request_bytes call.now) window.old }
{
    let parts = request_parts(call.lend());
    put_row(
        window,
        &[Field::U32(call.serial()), Field::U8(parts.opcode)],
        parts.fields.as_slice(),
    );
    window.put(parts.rest);
}

// The call whose request has these bytes.
fn read_call(alloc: Global, text: &[u8]) -> Result<Parked, StateFault>
    ensures ok { IfOk result (λ call. HasFrame call × (text.now ≡ request_bytes call)) }
    ensures damaged { result ≡ Err StateFault.Unsound → (w : PlainWaiting) → FitsWaiting w
        → text.now ≢ request_bytes w.call }
{
    let Some(request) = read_request(text) else {
        return Err(StateFault::Unsound);
    };
    let Some(call) = Parked::new(alloc, &request)? else {
        return Err(StateFault::Unsound);
    };
    Ok(call)
}

/// Reads the calls that wait, and makes them those of the state.
pub(crate) fn restore_waits(
    state: &mut State,
    alloc: Global,
    bytes: &[u8],
) -> Result<(), StateFault>
    ensures ok { OnOk result ((ws : List PlainWaiting) × (length ws < 2 ^ 32) × All FitsWaiting ws
        × HaveDistinctPids ws × (bytes.now ≡ waits_bytes ws)
        × (state.new.state ≡ with_waits state.old.state ws)) }
    ensures damaged { result ≡ Err StateFault.Unsound → (ws : List PlainWaiting)
        → length ws < 2 ^ 32 → All FitsWaiting ws → HaveDistinctPids ws → bytes.now ≢ waits_bytes ws }
    ensures limits { state.new.limits ≡ state.old.limits }
{
    let mut calls = Vec::new(alloc);
    read_counted::<Waiting<Awaited, Parked>>(&mut calls, bytes)?;
    let list = WaitList::from_calls(alloc, calls)?;
    let Some(waits) = list else {
        return Err(StateFault::Unsound);
    };
    state.restore_waits(waits);
    Ok(())
}
