//! A POSIX queue's object: its numbers and its name, and its messages.

ghost use Rattle.std.specs.Prelude.{◌≡◌, ◌≢◌, ◌<◌, ◌^◌, ◌*◌, ◌∷◌, [], Option, refl, slice_index};
ghost use Rattle.std.specs.Prelude.{IfSome, IfNone};
ghost use Rattle.ipc_base.specs.Numbers.{FitFields};
ghost use Rattle.posix_mq.specs.Queue.{plain, Queue, PlainMessage};
ghost use Rattle.posix_mq.specs.declared.queue.Registration.{Registration as PlainRegistration};
ghost use Rattle.ipc_image.specs.Saved.{mq_message_shape, mq_message_tree, mq_message_bytes, FitsMqMessage};
ghost use Rattle.ipc_image.specs.Saved.{mq_messages, mq_sizes, mq_bytes, FitsMq, registration_numbers};
ghost use Rattle.ipc_image.specs.SavedParts.{with_mq_messages, put_mqs, IsMarkIn, IsSmallMq, IsSmallNamed};
ghost use Rattle.ipc_image.specs.Relations.Mqs.{mq_message_one, mq_one};

use crate::fields::{FOUR, put_row};
use crate::perm::own_perm;
use crate::saved::{Listed, Saved, list_len, put_list, read_list};
use crate::stored::Stored;
use crate::window::Window;
use ipc_base::{Field, Mark, Pid, take_fields};
use ipc_engine::StateFault;
use ipc_keys::Name;
use ipc_state::{Entry, NamedEntry, State};
use posix_mq::{Message, Mq, Registration};
use std::alloc::{AllocError, Global};

/// The bytes of a message before its text.
const MESSAGE_NUMBERS: u64 = 8;

/// The bytes of a queue before its name.
const QUEUE_NUMBERS: u64 = 44;

impl Saved for Message {
    type Into = Mq;

    ghost Plain = { PlainMessage };

    ghost plain = { plain };

    ghost shape = { mq_message_shape };

    ghost tree = { mq_message_tree };

    ghost Fits = { FitsMqMessage };

    ghost Seen = { Queue };

    ghost seen = { λ q. q };

    ghost items = { mq_messages };

    ghost put = { with_mq_messages };

    ghost place = { record { same = λ q. refl; found = λ q ms. refl; again = λ q ms ns. refl } };

    ghost known = { λ m fit. fit };

    ghost one = { mq_message_one };

    fn len(&self) -> u64 {
        MESSAGE_NUMBERS + self.text.len() as u64
    }

    fn put(&self, window: &mut Window) {
        put_row(
            window,
            &[
                Field::U32(self.priority),
                Field::U32(self.text.len() as u32),
            ],
            &self.text,
        );
    }

    fn take<'b>(into: &mut Mq, bytes: &'b [u8]) -> Result<&'b [u8], StateFault> {
        let (numbers, after) = take_fields(bytes, &[FOUR, FOUR]).ok_or(StateFault::Unsound)?;
        let (text, rest) = after
            .split_at_checked(numbers[1] as usize)
            .ok_or(StateFault::Unsound)?;
        let message = Message::new(into.allocator(), numbers[0] as u32, text)?;
        into.restore(message)?;
        Ok(rest)
    }
}

impl Listed for Mq {
    ghost Plain = { PlainMessage };

    ghost bytes = { mq_message_bytes };

    ghost Fits = { FitsMqMessage };

    ghost items = { λ q. q.messages };

    fn count(&self) -> usize {
        self.len()
    }

    fn len_at(&self, at: usize) -> u64 {
        self.message(at).len()
    }

    fn put_at(&self, at: usize, window: &mut Window) {
        self.message(at).put(window);
    }
}

impl Stored for NamedEntry<Mq> {
    ghost bytes_of = { mq_bytes };

    ghost Fits = { FitsMq };

    ghost IsSmall = { IsSmallNamed IsSmallMq };

    ghost IsMark = { λ e m. IsMarkIn mq_message_bytes e.object.messages m };

    ghost FIRST = { 3 * 2 ^ 32 };

    const FIRST: u64 = 3 << 32;

    ghost items = { λ s. s.0.mq.entries };

    ghost put = { put_mqs };

    ghost one = { mq_one };

    ghost place = { record { same = λ s. refl; found = λ s xs. refl; again = λ s xs ys. refl } };

    fn read_numbers(&self) {
        let _uid = self.perm.uid;
        let _gid = self.perm.gid;
        let _mode = self.perm.mode;
        let _attr = self.object.attr();
        read_registration(self.object.registration());
    }

    fn len(&self) -> u64 {
        QUEUE_NUMBERS + self.bound.bytes().len() as u64 + list_len(&self.object)
    }

    fn put(&self, window: &mut Window, mark: &mut Mark) {
        let attr = self.object.attr();
        let registration = registration_numbers(self.object.registration());
        let name = self.bound.bytes();
        put_row(
            window,
            &[
                Field::U32(self.perm.uid),
                Field::U32(self.perm.gid),
                Field::U32(self.perm.mode),
                Field::U32(attr.maxmsg),
                Field::U32(attr.msgsize),
                Field::U32(registration[0]),
                Field::U32(registration[1]),
                Field::U32(registration[2]),
                Field::U32(registration[3]),
                Field::U32(attr.curmsgs as u32),
                Field::U32(name.len() as u32),
            ],
            name,
        );
        put_list(window, &self.object, mark);
    }

    fn read(alloc: Global, bytes: &[u8]) -> Result<NamedEntry<Mq>, StateFault> {
        let sizes = [
            FOUR, FOUR, FOUR, FOUR, FOUR, FOUR, FOUR, FOUR, FOUR, FOUR, FOUR,
        ];
        let (numbers, after) = take_fields(bytes, &sizes).ok_or(StateFault::Unsound)?;
        let (name, rest) = after
            .split_at_checked(numbers[10] as usize)
            .ok_or(StateFault::Unsound)?;
        let registration = registration_in(&numbers).ok_or(StateFault::Unsound)?;
        let name = Name::new(alloc, name)?;
        let mut object = Mq::restored(alloc, numbers[3] as u32, numbers[4] as u32, registration)?;
        read_list::<Message>(&mut object, numbers[9] as u32, rest)?;
        Ok(Entry {
            bound: name,
            perm: own_perm(numbers[0] as u32, numbers[1] as u32, numbers[2] as u32),
            object,
        })
    }

    fn add(state: &mut State, number: u32, entry: NamedEntry<Mq>) -> Result<(), AllocError> {
        state.restore_mq(number, entry)
    }
}

// Reads who is registered, so that each number has its place.
fn read_registration(registration: Option<Registration>)
    ensures { IfSome registration (λ r. (r.pid.0 < 2 ^ 32) × (r.descriptor < 2 ^ 32) × (r.cookie < 2 ^ 32)) }
{}

// Who is registered, as numbers.
fn registration_numbers(registration: Option<Registration>) -> [u32; 4]
    ensures { result ≡ registration_numbers registration }
{
    match registration {
        Some(registration) => {
            let kind = if registration.sends { 2 } else { 1 };
            [
                kind,
                registration.pid.0,
                registration.descriptor,
                registration.cookie,
            ]
        }
        None => [0, 0, 0, 0],
    }
}

// Who is registered, by the numbers of a queue; none if no numbers of a registration stand there.
fn registration_in(numbers: &[u64; 11]) -> Option<Option<Registration>>
    requires { FitFields mq_sizes numbers.now }
    ensures some { IfSome result (λ r. registration_numbers r
        ≡ slice_index numbers.now 5 ∷ slice_index numbers.now 6 ∷ slice_index numbers.now 7
        ∷ slice_index numbers.now 8 ∷ []) }
    ensures none { IfNone result ((r : Option PlainRegistration) → registration_numbers r
        ≢ slice_index numbers.now 5 ∷ slice_index numbers.now 6 ∷ slice_index numbers.now 7
        ∷ slice_index numbers.now 8 ∷ []) }
{
    match numbers[5] {
        0 => {
            if numbers[6] != 0 || numbers[7] != 0 || numbers[8] != 0 {
                return None;
            }
            Some(None)
        }
        1 | 2 => Some(Some(Registration {
            pid: Pid(numbers[6] as u32),
            descriptor: numbers[7] as u32,
            sends: numbers[5] == 2,
            cookie: numbers[8] as u32,
        })),
        _ => None,
    }
}
