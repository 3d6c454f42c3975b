//! The calls on message queues: msgget(2), msgop(2), msgctl(2). None takes memory in its attempt.

ghost use Rattle.std.specs.Prelude.{◌≡◌, ◌+◌, ◌<◌, ◌≤◌, ◌++◌, Some, None};
ghost use Rattle.std.specs.Prelude.{true, not, is_some, length, take, vec_len, vec_capacity, OnOk, OnErr};
ghost use Rattle.ipc_limits.specs.Limits.{ArePassed, message_limit};
ghost use Rattle.ipc_base.specs.Numbers.{record_bytes};
ghost use Rattle.ipc_state.specs.Finish.{Finishes, ended, finish_of};
ghost use Rattle.ipc_state.specs.Held.{Ready, left};
ghost use Rattle.ipc_state.specs.Bound.{holding};
ghost use Rattle.ipc_state.specs.Keyed.{KeyedEntry, keyed};
ghost use Rattle.ipc_state.specs.Sound.{HasSoundParts, HasNumbers};
ghost use Rattle.ipc_state.specs.State.{msg_queue_of, with_msg_queue};
ghost use Rattle.ipc_wire.specs.Reply.{body_of};
ghost use Rattle.ipc_wire.specs.declared.reply.Body.TheVariants as body;
ghost use Rattle.sysv_calls.specs.Msg as defined;
ghost use Rattle.sysv_calls.specs.Records.{queue_fields};
ghost use Rattle.ipc_state.specs.Steps.{attempted, plain_halt, seen};
ghost use Rattle.ipc_state.specs.Spare.{IsSpare, KeepsBuffer};
ghost use Rattle.sysv_msg.specs.Queue.{Queue, full, most_messages, plain, sent, taken};

use crate::access::{accessible, lookup, owned, push_perm};
use bitflags::Flags;
use ipc_base::{Cred, Errno, Field, GetFlags, Id, MsgFlags, Pid};
use ipc_perm::{Access, Perm};
use ipc_state::{Answer, Halt, LAST_NUMBER, State, take_spare};
use ipc_wire::{Body, push_fields};
use sysv_msg::{Message, MsgQueue};

/// msgget(2). What is reserved for a queue that is not made is given back.
pub(crate) fn msgget(state: &mut State, cred: Cred, key: i32, flags: GetFlags) -> Answer
    requires sound { HasSoundParts state.old.limits state.old.state }
    requires ready { state.old.ready ≡ Ready.MsgQueue key }
    ensures finish { Finishes (finish_of state.new.state result) ≡ ended state.old.state
        (defined.msgget state.old.limits state.old.state cred key flags.0) }
    ensures held { state.new ≡ left state.old state.new.state }
{
    let answer = get_queue(state, cred, key, flags);
    state.release();
    answer
}

/// The queue that a key names, or a new one.
fn get_queue(state: &mut State, cred: Cred, key: i32, flags: GetFlags) -> Answer
    requires sound { HasSoundParts state.old.limits state.old.state }
    requires ready { state.old.ready ≡ Ready.MsgQueue key }
    ensures finish { Finishes (finish_of state.new.state result) ≡ ended state.old.state
        (defined.msgget state.old.limits state.old.state cred key flags.0) }
    ensures held { state.new ≡ record state.old { state = state.new.state; ready = state.new.ready } }
{
    let Some(id) = lookup(state.msg(), key, flags)? else {
        return make_queue(state, cred, key, flags);
    };
    accessible(state.msg(), cred, false, id, Access::asked_by(flags.0))?;
    Ok(Body::Number(id.0))
}

/// A new queue.
fn make_queue(state: &mut State, cred: Cred, key: i32, flags: GetFlags) -> Answer
    requires sound { HasSoundParts state.old.limits state.old.state }
    requires unused { keyed state.old.state.msg key ≡ None }
    requires ready { state.old.ready ≡ Ready.MsgQueue key }
    ensures finish { Finishes (finish_of state.new.state result) ≡ ended state.old.state
        (defined.made_queue state.old.limits state.old.state cred key flags.0) }
    ensures held { state.new ≡ record state.old { state = state.new.state; ready = state.new.ready } }
{
    if state.msg().is_full(state.limits().msgmni) {
        return Err(Errno::ENOSPC);
    }
    Ok(Body::Number(state.add_msg_queue(Perm::new(cred, flags.0)).0))
}

/// What becomes of a call that cannot go on: it fails, if its flags have IPC_NOWAIT.
fn waits_or(flags: MsgFlags, e: Errno) -> Halt
    ensures { plain_halt result ≡ defined.waits_or flags.0 e }
{
    if flags.contains(MsgFlags::IPC_NOWAIT) {
        Halt::Fails(e)
    } else {
        Halt::Blocks
    }
}

/// Whether a text of so many bytes may be sent to a queue.
fn has_room(state: &State, queue: &MsgQueue, len: usize) -> bool
    ensures { result ≡ not (full (message_limit state.now.limits) queue.now len) }
{
    queue.fits(len, state.limits().message_limit())
}

/// Whether a message may be sent now: the tests of msgsnd, as msgop(2) has it.
pub(crate) fn ready_to_send(
    state: &State,
    cred: Cred,
    again: bool,
    id: Id,
    flags: MsgFlags,
    message: &Message,
) -> Result<(), Halt>
    ensures tests { attempted result ≡ seen (λ e. tt) (defined.sendable state.now.limits state.now.state cred again id.0
        flags.0 message.now.mtype message.now.text.items) }
    ensures passed { OnOk result (ArePassed state.now.limits) }
{
    if message.mtype <= 0 || message.text.len() > state.limits().msgmax as usize {
        return Err(Halt::Fails(Errno::EINVAL));
    }
    let entry = accessible(state.msg(), cred, again, id, Access::WRITE).map_err(Halt::Fails)?;
    if !has_room(state, &entry.object, message.text.len()) {
        return Err(waits_or(flags, Errno::EAGAIN));
    }
    Ok(())
}

/// Sends a message to a queue that is there.
pub(crate) fn send(state: &mut State, pid: Pid, id: Id, message: Message)
    requires there { is_some (msg_queue_of state.old.state id.0) ≡ true }
    requires room { (e : KeyedEntry Queue) → msg_queue_of state.old.state id.0 ≡ Some e
        → length e.object.messages < most_messages }
    ensures { (e : KeyedEntry Queue) → msg_queue_of state.old.state id.0 ≡ Some e → state.new ≡ record state.old {
      state = with_msg_queue state.old.state id.0
          (holding e (sent e.object (plain message) pid.0 state.old.state.clock));
    } }
{
    let now = state.clock();
    state.msg_queue_mut(id).unwrap().send(message, pid, now);
}

/// The place of the message that may be received now: the tests of msgrcv, as msgop(2) has it.
pub(crate) fn ready_to_receive(
    state: &State,
    cred: Cred,
    again: bool,
    id: Id,
    flags: MsgFlags,
    size: u32,
    mtype: i64,
) -> Result<usize, Halt>
    ensures tests { attempted result ≡ seen (λ found. found.1)
        (defined.receivable state.now.state cred again id.0 flags.0 size mtype) }
    ensures passed { OnOk result (ArePassed state.now.limits) }
{
    if size > LAST_NUMBER {
        return Err(Halt::Fails(Errno::EINVAL));
    }
    let entry = accessible(state.msg(), cred, again, id, Access::READ).map_err(Halt::Fails)?;
    let Some(at) = entry
        .object
        .select(mtype, flags.contains(MsgFlags::MSG_EXCEPT))
    else {
        return Err(waits_or(flags, Errno::ENOMSG));
    };
    if is_too_long(flags, size, entry.object.message(at).text.len()) {
        return Err(Halt::Fails(Errno::E2BIG));
    }
    Ok(at)
}

/// Receives the message at a place of a queue that is there. Its text is cut to `size`.
pub(crate) fn receive(state: &mut State, pid: Pid, id: Id, at: usize, size: u32) -> Body<Vec<u8>>
    requires there { is_some (msg_queue_of state.old.state id.0) ≡ true }
    requires inside { (e : KeyedEntry Queue) → msg_queue_of state.old.state id.0 ≡ Some e
        → at < length e.object.messages }
    ensures held { (e : KeyedEntry Queue) → msg_queue_of state.old.state id.0 ≡ Some e → state.new ≡ record state.old {
      state = with_msg_queue state.old.state id.0 (holding e (taken e.object at pid.0 state.old.state.clock));
    } }
    ensures body { (e : KeyedEntry Queue) → msg_queue_of state.old.state id.0 ≡ Some e
        → body_of (λ text. text.items) result
        ≡ body.Message (defined.message_at e.object at).mtype (take size (defined.message_at e.object at).text) }
{
    let now = state.clock();
    let message = state.msg_queue_mut(id).unwrap().take(at, pid, now);
    let mut text = message.text;
    text.truncate(size as usize);
    Body::Message {
        mtype: message.mtype,
        text,
    }
}

/// Whether a text of so many bytes is longer than a receive asked for, and may not be cut.
fn is_too_long(flags: MsgFlags, size: u32, bytes: usize) -> bool
    ensures { result ≡ defined.is_too_long flags.0 size bytes }
{
    bytes > size as usize && !flags.contains(MsgFlags::MSG_NOERROR)
}

/// IPC_STAT of msgctl(2); the record is made in the spare buffer.
pub(crate) fn msgctl_stat(state: &State, cred: Cred, id: Id, spare: &mut Vec<u8>) -> Answer
    requires sound { HasSoundParts state.now.limits state.now.state }
    requires spare { IsSpare state.now.limits spare.old }
    ensures finish { Finishes (finish_of state.now.state result)
        ≡ ended state.now.state (defined.msgctl_stat state.now.state cred id.0) }
    ensures spare { KeepsBuffer state.now.limits spare.new result }
{
    let entry = accessible(state.msg(), cred, false, id, Access::READ)?;
    let mut body = take_spare(spare);
    push_perm(&mut body, entry, entry.perm.mode);
    push_queue(&mut body, &entry.object);
    Ok(Body::Record(body))
}

/// IPC_SET of msgctl(2).
pub(crate) fn msgctl_set(
    state: &mut State,
    cred: Cred,
    id: Id,
    uid: u32,
    gid: u32,
    mode: u32,
    qbytes: u32,
) -> Answer
    ensures finish { Finishes (finish_of state.new.state result) ≡ ended state.old.state
        (defined.msgctl_set state.old.limits state.old.state cred id.0 uid gid mode qbytes) }
    ensures held { state.new ≡ record state.old { state = state.new.state } }
{
    let perm = owned(state.msg(), cred, id)?.perm;
    if qbytes > state.limits().msgmnb {
        return Err(Errno::EPERM);
    }
    let now = state.clock();
    state.set_msg_perm(id, perm.owned_by(uid, gid, mode));
    state.msg_queue_mut(id).unwrap().set(qbytes, now);
    Ok(Body::Empty)
}

/// IPC_RMID of msgctl(2).
pub(crate) fn msgctl_rmid(state: &mut State, cred: Cred, id: Id) -> Answer
    requires { HasSoundParts state.old.limits state.old.state }
    ensures finish { Finishes (finish_of state.new.state result)
        ≡ ended state.old.state (defined.msgctl_rmid state.old.state cred id.0) }
    ensures ok { OnOk result (state.new ≡ left state.old state.new.state) }
    ensures err { OnErr result (state.new ≡ state.old) }
{
    owned(state.msg(), cred, id)?;
    state.remove_msg_queue(id);
    Ok(Body::Empty)
}

/// Adds the numbers of a queue to a body that has room for them.
fn push_queue(body: &mut Vec<u8>, queue: &MsgQueue)
    requires room { vec_len body.old + 44 ≤ vec_capacity body.old }
    requires numbers { HasNumbers queue.now }
    ensures bytes { body.new.items ≡ body.old.items ++ record_bytes (queue_fields queue.now) }
    ensures room { vec_capacity body.old ≤ vec_capacity body.new }
{
    let stat = queue.stat();
    push_fields(
        body,
        &[
            Field::U64(stat.stime.0),
            Field::U64(stat.rtime.0),
            Field::U64(stat.ctime.0),
            Field::U32(stat.lspid.0),
            Field::U32(stat.lrpid.0),
            Field::U32(stat.qbytes),
            Field::U32(stat.qnum as u32),
            Field::U32(stat.bytes as u32),
        ],
    );
}
