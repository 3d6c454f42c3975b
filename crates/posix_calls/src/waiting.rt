//! The calls that may wait, mq_send(3), mq_receive(3) and sem_wait(3): each is tried when it comes, and again when what
//! it waits for has changed. None takes memory in its attempt.

ghost use Rattle.std.specs.Prelude.{◌≡◌, ◌<◌, length, true, is_some, option_map, Some, OnOk};
ghost use Rattle.ipc_limits.specs.Limits.{ArePassed};
ghost use Rattle.ipc_wire.specs.Reply.{body_of};
ghost use Rattle.ipc_state.specs.Finish as finish;
ghost use Rattle.ipc_state.specs.Numbered.{entry_of};
ghost use Rattle.ipc_state.specs.Sound.{HasSoundParts};
ghost use Rattle.ipc_state.specs.State.{with_mq};
ghost use Rattle.ipc_state.specs.Tries.{WaitsUnchanged, tried_of};
ghost use Rattle.ipc_state.specs.Waiting.{parked_posix};
ghost use Rattle.ipc_state.specs.Touching.{mq_object};
ghost use Rattle.posix_mq.specs.Queue.{Queue, most_messages, plain, received, received_message};
ghost use Rattle.posix_calls.specs.Calls as calls;
ghost use Rattle.posix_calls.specs.Mq as defined;
ghost use Rattle.posix_calls.specs.Psem as sem;
ghost use Rattle.ipc_state.specs.Steps.{attempted, plain_halt, seen};
ghost use Rattle.posix_calls.specs.Seen.{number_in};

use crate::access::{reads, writes};
use crate::mq::open_mq;
use crate::psem::{lower, open_semaphore};
use bitflags::Flags;
use ipc_base::{Errno, OpenFlags, Pid};
use ipc_state::{Halt, ParkedPosix, State, Tried};
use ipc_wire::Body;
use posix_mq::{Message, Mq, Registration, received_is_oldest_of_greatest};

/// Tries a call by a process. It takes no memory.
pub fn try_parked(state: &mut State, pid: Pid, call: ParkedPosix) -> Tried<ParkedPosix>
    requires sound { HasSoundParts state.old.limits state.old.state }
    ensures finish { tried_of state.new.state result
        ≡ calls.attempt state.old.limits state.old.state pid.0 (parked_posix call) }
    ensures kept { WaitsUnchanged parked_posix state.old call state.new result }
    ensures held { state.new ≡ record state.old { state = state.new.state } }
{
    let number = match ready(state, pid, &call) {
        Ok(number) => number,
        Err(Halt::Fails(e)) => return Tried::Finishes(Err(e), None),
        Err(Halt::Blocks) => return Tried::Waits(call),
    };
    match call {
        ParkedPosix::MqSend { message, .. } => {
            let fired = send(state, number, message);
            Tried::Finishes(Ok(Body::Empty), fired)
        }
        ParkedPosix::MqReceive { .. } => Tried::Finishes(Ok(receive(state, number)), None),
        ParkedPosix::SemWait { .. } => {
            lower(state, number);
            Tried::Finishes(Ok(Body::Empty), None)
        }
    }
}

/// Whether a call of a process has to wait.
pub fn has_to_wait(state: &State, pid: Pid, call: &ParkedPosix) -> bool
    ensures { result ≡ finish.has_to_wait
        (calls.attempt state.now.limits state.now.state pid.0 (parked_posix call.now)) }
{
    match ready(state, pid, call) {
        Ok(_) => false,
        Err(Halt::Fails(_)) => false,
        Err(Halt::Blocks) => true,
    }
}

/// The number of the queue, or of the semaphore, if a call may go on now.
fn ready(state: &State, pid: Pid, call: &ParkedPosix) -> Result<u32, Halt>
    ensures tests { attempted result ≡ number_in state.now.state pid.0 call.now }
    ensures passed { OnOk result (ArePassed state.now.limits) }
{
    match call {
        ParkedPosix::MqSend { fd, message, .. } => ready_to_send(state, pid, *fd, message),
        ParkedPosix::MqReceive { fd, size, .. } => ready_to_receive(state, pid, *fd, *size),
        ParkedPosix::SemWait { fd, .. } => ready_to_wait(state, pid, *fd),
    }
}

/// What becomes of a call that cannot go on: it fails with O_NONBLOCK.
fn waits_or_fails(flags: OpenFlags) -> Halt
    ensures { plain_halt result ≡ defined.waits_or_fails flags.0 }
{
    if flags.contains(OpenFlags::O_NONBLOCK) {
        Halt::Fails(Errno::EAGAIN)
    } else {
        Halt::Blocks
    }
}

/// The greatest priority of a message.
const MOST_PRIORITY: u32 = 32767;

/// The number of the queue, if a message may be sent now: the tests of mq_send(3).
fn ready_to_send(state: &State, pid: Pid, fd: u32, message: &Message) -> Result<u32, Halt>
    ensures tests { attempted result ≡ seen (λ found. found.number)
        (defined.sendable state.now.state pid.0 fd message.now.priority message.now.text.items) }
    ensures passed { OnOk result (ArePassed state.now.limits) }
{
    if message.priority > MOST_PRIORITY {
        return Err(Halt::Fails(Errno::EINVAL));
    }
    let found = open_mq(state, pid, fd).map_err(Halt::Fails)?;
    if !writes(found.flags) {
        return Err(Halt::Fails(Errno::EBADF));
    }
    if message.text.len() > found.queue.attr().msgsize as usize {
        return Err(Halt::Fails(Errno::EMSGSIZE));
    }
    if found.queue.is_full() {
        return Err(waits_or_fails(found.flags));
    }
    Ok(found.number)
}

/// The number of the queue, if a message may be received now: the tests of mq_receive(3).
fn ready_to_receive(state: &State, pid: Pid, fd: u32, size: u32) -> Result<u32, Halt>
    ensures tests { attempted result
        ≡ seen (λ found. found.0.number) (defined.receivable state.now.state pid.0 fd size) }
    ensures passed { OnOk result (ArePassed state.now.limits) }
{
    let found = open_mq(state, pid, fd).map_err(Halt::Fails)?;
    if !reads(found.flags) {
        return Err(Halt::Fails(Errno::EBADF));
    }
    if size < found.queue.attr().msgsize {
        return Err(Halt::Fails(Errno::EMSGSIZE));
    }
    received_is_oldest_of_greatest();
    if found.queue.is_empty() {
        return Err(waits_or_fails(found.flags));
    }
    Ok(found.number)
}

/// The number of the semaphore, if it may be lowered now: the tests of sem_wait(3).
fn ready_to_wait(state: &State, pid: Pid, fd: u32) -> Result<u32, Halt>
    ensures tests { attempted result ≡ seen (λ found. found.number) (sem.lowerable state.now.state pid.0 fd) }
    ensures passed { OnOk result (ArePassed state.now.limits) }
{
    let found = open_semaphore(state, pid, fd).map_err(Halt::Fails)?;
    if found.value == 0 {
        return Err(Halt::Blocks);
    }
    Ok(found.number)
}

/// Whether somebody is to be told of a message that comes to a queue: it has none, and no call waits to receive it.
fn is_to_notify(state: &State, number: u32) -> bool
    requires { is_some (entry_of state.now.state.mq number) ≡ true }
    ensures { (q : Queue) → mq_object state.now.state number ≡ Some q
        → result ≡ defined.is_to_notify state.now.state number q }
{
    let entry = state.mq(number).unwrap();
    entry.object.len() == 0 && !state.mq_receiver_waits(number)
}

/// Whom a frame is sent; none is to a null registration.
fn notified(registration: Option<Registration>) -> Option<Registration>
    ensures { result ≡ defined.notified registration }
{
    match registration {
        Some(registration) if registration.sends => Some(registration),
        _ => None,
    }
}

/// Appends a message. A registration that is told of it goes, and is given if a frame is sent to it.
fn arrive(queue: &mut Mq, message: Message, notifies: bool) -> Option<Registration>
    requires { length queue.old.messages < most_messages }
    ensures queue { queue.new ≡ defined.arrived notifies queue.old (plain message) }
    ensures fired { result ≡ defined.firing notifies queue.old }
{
    let registration = queue.registration();
    queue.send(message);
    if !notifies {
        return None;
    }
    queue.deregister();
    notified(registration)
}

/// Sends a message to a queue that is there and has a place for it.
fn send(state: &mut State, number: u32, message: Message) -> Option<Registration>
    requires there { is_some (entry_of state.old.state.mq number) ≡ true }
    requires room { (q : Queue) → mq_object state.old.state number ≡ Some q
        → length q.messages < most_messages }
    ensures held { (q : Queue) → mq_object state.old.state number ≡ Some q
        → state.new ≡ record state.old {
          state = with_mq state.old.state number
              (defined.arrived (defined.is_to_notify state.old.state number q) q (plain message));
        } }
    ensures fired { (q : Queue) → mq_object state.old.state number ≡ Some q
        → result ≡ defined.firing (defined.is_to_notify state.old.state number q) q }
{
    let notifies = is_to_notify(state, number);
    arrive(state.mq_object_mut(number).unwrap(), message, notifies)
}

/// Receives a message from a queue that is there and has one.
fn receive(state: &mut State, number: u32) -> Body<Vec<u8>>
    requires there { is_some (entry_of state.old.state.mq number) ≡ true }
    requires some { (q : Queue) → mq_object state.old.state number ≡ Some q
        → 0 < length q.messages }
    ensures held { (q : Queue) → mq_object state.old.state number ≡ Some q
        → state.new ≡ record state.old { state = with_mq state.old.state number (received q) } }
    ensures body { (q : Queue) → mq_object state.old.state number ≡ Some q
        → option_map defined.message_body (received_message q)
        ≡ Some (body_of (λ text. text.items) result) }
{
    let message = state.mq_object_mut(number).unwrap().receive();
    Body::MqMessage {
        priority: message.priority,
        text: message.text,
    }
}
