//! The clock's object: the clock, and the next number of each kind that the version of the device has.

ghost use Rattle.std.specs.Prelude.{◌≡◌, ◌≢◌, ◌<◌, ◌^◌, [], ◌∷◌, ◌++◌, ℕ, List, IfSome, IfNone, false};
ghost use Rattle.ipc_base.specs.Numbers.{fields_bytes, FitFields};
ghost use Rattle.ipc_state.specs.State.{State as PlainState};
ghost use Rattle.ipc_image.specs.Format.{IsFormat, has_shms};
ghost use Rattle.ipc_image.specs.Relations.Restored.{IsClockOf, next_shm_bytes};
ghost use Rattle.ipc_image.specs.Saved.{clock_sizes, clock_numbers, clock_bytes};
ghost use Rattle.ipc_image.specs.Window.{passed};

use crate::fields::{EIGHT, FOUR, put_fields, take_count};
use crate::format::Format;
use crate::window::Window;
use ipc_base::{Field, Moment, take_fields};
use ipc_state::Numbers;

/// The clock, the next pid, and the next number of each kind, as the last version has them.
pub(crate) fn put_clock(window: &mut Window, numbers: Numbers)
    ensures { window.new ≡ passed (fields_bytes clock_sizes
        (numbers.clock.0 ∷ numbers.next_pid ∷ numbers.next_msg_queue ∷ numbers.next_semset
        ∷ numbers.next_mq ∷ numbers.next_psem ∷ numbers.next_pshm ∷ numbers.next_shm ∷ [])) window.old }
{
    put_fields(
        window,
        &[
            Field::U64(numbers.clock.0),
            Field::U32(numbers.next_pid),
            Field::U32(numbers.next_msg_queue),
            Field::U32(numbers.next_semset),
            Field::U32(numbers.next_mq),
            Field::U32(numbers.next_psem),
            Field::U32(numbers.next_pshm),
            Field::U32(numbers.next_shm),
        ],
    );
}

/// The clock's object on a device of that version.
pub(crate) fn read_clock(form: Format, bytes: &[u8]) -> Option<Numbers>
    requires known { IsFormat form }
    ensures some { IfSome result (λ found. IsClockOf form found bytes.now) }
    ensures others { IfSome result (λ found. has_shms form ≡ false → found.next_shm ≡ 1) }
    ensures none { IfNone result ((s : PlainState) → FitFields clock_sizes (clock_numbers s)
        → bytes.now ≢ clock_bytes form s) }
{
    let sizes = [EIGHT, FOUR, FOUR, FOUR, FOUR, FOUR, FOUR];
    let (numbers, rest) = take_fields(bytes, &sizes)?;
    let (next_shm, rest) = next_shm_in(form, rest)?;
    if !rest.is_empty() {
        return None;
    }
    Some(Numbers {
        clock: Moment(numbers[0]),
        next_pid: numbers[1] as u32,
        next_msg_queue: numbers[2] as u32,
        next_semset: numbers[3] as u32,
        next_mq: numbers[4] as u32,
        next_psem: numbers[5] as u32,
        next_pshm: numbers[6] as u32,
        next_shm,
    })
}

// The next number of System V segments at the front, and the bytes that are left. If the version has none, it is 1.
fn next_shm_in(form: Format, bytes: &[u8]) -> Option<(u32, &[u8])>
    ensures some { IfSome result (λ found. (found.0 < 2 ^ 32)
        × (bytes.now ≡ next_shm_bytes form found.0 ++ found.1.now)) }
    ensures others { IfSome result (λ found. has_shms form ≡ false → found.0 ≡ 1) }
    ensures none { IfNone result ((n : ℕ) (rest : List ℕ) → n < 2 ^ 32 → bytes.now ≢ next_shm_bytes form n ++ rest) }
{
    if !form.has_shms() {
        return Some((1, bytes));
    }
    take_count(bytes)
}
