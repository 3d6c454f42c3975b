//! mq_open(3). It takes no memory in its attempt.

ghost use Rattle.std.specs.Prelude.{◌≡◌, ◌<◌, ◌^◌, List, ℕ, None, false, true};
ghost use Rattle.std.specs.Result.{is_ok};
ghost use Rattle.ipc_keys.specs.Names.{check_name as checked};
ghost use Rattle.ipc_keys.specs.declared.check.NameKind.TheVariants as names;
ghost use Rattle.ipc_state.specs.Finish.{Finishes, ended, finish_of};
ghost use Rattle.ipc_state.specs.Held.{Ready, left};
ghost use Rattle.ipc_state.specs.Named.{named};
ghost use Rattle.ipc_state.specs.Sound.{HasSoundParts};
ghost use Rattle.ipc_state.specs.State.{has_all_descriptors, is_process};
ghost use Rattle.posix_calls.specs.Mq as defined;
ghost use Rattle.ipc_state.specs.Steps.{result_of};

use crate::access::{asked_by, lookup, open_on, usable};
use ipc_base::{Cred, Errno, OpenFlags, Pid};
use ipc_keys::{NameKind, check_name};
use ipc_limits::Limits;
use ipc_state::{Answer, Object, ObjectKind, State, bytes_of_mq};
use ipc_wire::Body;

/// What mq_open(3) asks of a new queue: its mode and, unless `attr` is 0, its limits.
#[derive(Clone, Copy)]
pub(crate) struct Wanted {
    pub(crate) mode: u32,
    pub(crate) attr: u8,
    pub(crate) maxmsg: i32,
    pub(crate) msgsize: i32,
}

/// The flags that still mean something after the open: the access mode and O_NONBLOCK.
const KEPT_FLAGS: u32 = 0o4003;

/// mq_open(3). What is reserved and is not used is given back.
pub(crate) fn mq_open(
    state: &mut State,
    cred: Cred,
    pid: Pid,
    flags: OpenFlags,
    wanted: Wanted,
    name: &[u8],
) -> Answer
    requires sound { HasSoundParts state.old.limits state.old.state }
    requires process { is_process state.old.state pid.0 ≡ true }
    requires ready { state.old.ready ≡ Ready.Mq name.now }
    ensures finish { Finishes (finish_of state.new.state result)
        ≡ ended state.old.state (defined.mq_open state.old.limits state.old.state cred pid.0 flags.0 wanted.mode
        wanted.attr wanted.maxmsg wanted.msgsize name.now) }
    ensures held { state.new ≡ left state.old state.new.state }
{
    let answer = open(state, cred, pid, flags, wanted, name);
    state.release();
    answer
}

/// Opens the queue that a name names, or a new one.
fn open(
    state: &mut State,
    cred: Cred,
    pid: Pid,
    flags: OpenFlags,
    wanted: Wanted,
    name: &[u8],
) -> Answer
    requires sound { HasSoundParts state.old.limits state.old.state }
    requires process { is_process state.old.state pid.0 ≡ true }
    requires ready { state.old.ready ≡ Ready.Mq name.now }
    ensures finish { Finishes (finish_of state.new.state result)
        ≡ ended state.old.state (defined.mq_open state.old.limits state.old.state cred pid.0 flags.0 wanted.mode
        wanted.attr wanted.maxmsg wanted.msgsize name.now) }
    ensures held { state.new ≡ record state.old { state = state.new.state; ready = state.new.ready } }
{
    check_name(NameKind::Mq, name)?;
    if flags.access_mode() == 3 {
        return Err(Errno::EINVAL);
    }
    if state.has_all_descriptors(pid) {
        return Err(Errno::EMFILE);
    }
    let Some(number) = lookup(state.named_mqs(), name, flags)? else {
        return make_mq(state, cred, pid, flags, wanted);
    };
    open_mq(state, cred, pid, flags, number)
}

/// Opens the queue of a number, if the caller may use it so.
fn open_mq(state: &mut State, cred: Cred, pid: Pid, flags: OpenFlags, number: u32) -> Answer
    requires sound { HasSoundParts state.old.limits state.old.state }
    requires process { is_process state.old.state pid.0 ≡ true }
    requires few { has_all_descriptors state.old.limits state.old.state pid.0 ≡ false }
    ensures finish { Finishes (finish_of state.new.state result)
        ≡ ended state.old.state (defined.opened_mq state.old.state cred pid.0 flags.0 number) }
    ensures held { state.new ≡ record state.old { state = state.new.state } }
{
    usable(state.named_mqs(), cred, number, asked_by(flags))?;
    let on = Object {
        kind: ObjectKind::Named(NameKind::Mq),
        number,
    };
    Ok(Body::Number(open_on(state, pid, on, flags.0 & KEPT_FLAGS)))
}

/// A number of an open that is above 0 and within its limit.
fn limited(limit: u32, number: i32) -> Result<u32, Errno>
    ensures { result_of result ≡ defined.limited limit number }
{
    if number <= 0 || number as u32 > limit {
        return Err(Errno::EINVAL);
    }
    Ok(number as u32)
}

/// What is asked for; the server's own number, if nothing is.
fn asked_or(attr: u8, usual: u32, asked: i32) -> i32
    requires { usual < 2 ^ 31 }
    ensures { result ≡ defined.asked_or attr usual asked }
{
    if attr == 0 { usual as i32 } else { asked }
}

/// The most messages of a new queue, and the most bytes of one.
fn attributes(limits: &Limits, wanted: Wanted) -> Result<(u32, u32), Errno>
    ensures { result_of result ≡ defined.attributes limits.now wanted.attr wanted.maxmsg wanted.msgsize }
{
    let most = asked_or(wanted.attr, limits.maxmsg.min(10), wanted.maxmsg);
    let maxmsg = limited(limits.maxmsg, most)?;
    let bytes = asked_or(wanted.attr, limits.msgsize.min(8192), wanted.msgsize);
    let msgsize = limited(limits.msgsize, bytes)?;
    Ok((maxmsg, msgsize))
}

/// Opens a new queue of the name that is ready.
fn make_mq(state: &mut State, cred: Cred, pid: Pid, flags: OpenFlags, wanted: Wanted) -> Answer
    ghost name: { List ℕ }
    requires sound { HasSoundParts state.old.limits state.old.state }
    requires process { is_process state.old.state pid.0 ≡ true }
    requires few { has_all_descriptors state.old.limits state.old.state pid.0 ≡ false }
    requires proper { is_ok (checked names.Mq name) ≡ true }
    requires unused { named state.old.state.mq name ≡ None }
    requires ready { state.old.ready ≡ Ready.Mq name }
    ensures finish { Finishes (finish_of state.new.state result)
        ≡ ended state.old.state (defined.made_mq state.old.limits state.old.state cred pid.0 flags.0 wanted.mode
        wanted.attr wanted.maxmsg wanted.msgsize name) }
    ensures held { state.new ≡ record state.old { state = state.new.state; ready = state.new.ready } }
{
    let (maxmsg, msgsize) = attributes(state.limits(), wanted)?;
    if state.has_all_mqs() {
        return Err(Errno::ENOSPC);
    }
    if state.has_all_mq_bytes(bytes_of_mq(maxmsg, msgsize)) {
        return Err(Errno::ENOSPC);
    }
    let number = state.add_mq(cred, wanted.mode, maxmsg, msgsize);
    let on = Object {
        kind: ObjectKind::Named(NameKind::Mq),
        number,
    };
    Ok(Body::Number(open_on(state, pid, on, flags.0 & KEPT_FLAGS)))
}
