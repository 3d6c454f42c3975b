//! How many sectors a device must have under given limits. Sizes are reckoned in 64 bits: under the greatest limits of
//! any device they may not have 32.

ghost use Rattle.std.specs.Prelude.{◌≡◌, ◌≤◌, ◌<◌, ◌+◌, ◌*◌, ◌^◌, if◌then◌else◌};
ghost use Rattle.std.specs.Prelude.{IfErr, IfOk, None, OnOk, Some};
ghost use Rattle.ipc_limits.specs.Limits.{ArePassed, AreWithin};
ghost use Rattle.ipc_image.specs.Format.{IsFormat, has_shms};
ghost use Rattle.ipc_image.specs.Sizes.{
  sectors,
  waiting_request,
  most_adjustments,
  process_sectors,
  queue_most,
  mq_sectors,
  shm_sectors,
  object_sectors,
  entries,
  area_in,
  first_fault,
  need_in,
};
ghost use Rattle.ipc_image.specs.Superblock.{AreOf};

use crate::format::Format;
use ipc_limits::{BadLimits, Limits};

/// The most sectors of an area.
pub const MOST_AREA: u32 = 8000000;

/// The field of a fault that tells of the area: after those of the limits.
const AREA_FIELD: u32 = 22;

/// How many sectors an image of all that is kept takes at most, with its table, on a device of that form: at most
/// 8000000; of version 2 553 under small limits and 126090 under standard ones, of version 3 31 and 45583.
pub fn area(form: Format, limits: &Limits) -> u32
    requires known { IsFormat form }
    requires of { AreOf form limits.now }
    ensures exact { result ≡ area_in form limits.now }
    ensures bounded { result ≤ 8000000 }
{
    area_under(form, limits) as u32
}

/// How many sectors a device of that form has at least: room for the image that is there and for the next one, so a
/// save is never short of sectors. Of version 2 they are 1366 under small limits and 252440 under standard ones, of
/// version 3 with a journal of 257 sectors 322 and 91426.
pub fn need(form: Format, limits: &Limits) -> u32
    requires known { IsFormat form }
    requires of { AreOf form limits.now }
    ensures exact { result ≡ need_in form limits.now }
    ensures bounded { result ≤ 16065538 }
{
    form.objects() + 2 * area(form, limits)
}

/// `need` for a new device, whose limits are not tested yet. Refused for limits that `check` by the greatest values of
/// the version refuses, and then, with field 22, for those whose area is above 8000000 sectors.
pub fn checked_need(form: Format, limits: &Limits) -> Result<u32, BadLimits>
    requires known { IsFormat form }
    ensures within { OnOk result (AreWithin form.most limits.now) }
    ensures of { limits.now.version ≡ form.version → limits.now.journal ≡ form.journal
        → OnOk result (AreOf form limits.now) }
    ensures exact { IfOk result (λ need. need ≡ need_in form limits.now) }
    ensures first { IfErr result (λ fault. first_fault form limits.now ≡ Some fault.field) }
    ensures none { OnOk result (first_fault form limits.now ≡ None) }
{
    let area = checked_area(form, limits)?;
    Ok(form.objects() + 2 * area)
}

/// `area` of limits that are not tested yet.
fn checked_area(form: Format, limits: &Limits) -> Result<u32, BadLimits>
    requires known { IsFormat form }
    ensures within { OnOk result (AreWithin form.most limits.now) }
    ensures exact { IfOk result (λ area. area ≡ area_in form limits.now) }
    ensures bounded { IfOk result (λ area. area ≤ 8000000) }
    ensures first { IfErr result (λ fault. first_fault form limits.now ≡ Some fault.field) }
{
    match limits.check(&form.most) {
        Ok(()) => area_within(form, limits),
        Err(fault) => Err(fault),
    }
}

/// `area` of limits within the greatest values of the version.
fn area_within(form: Format, limits: &Limits) -> Result<u32, BadLimits>
    requires known { IsFormat form }
    requires within { AreWithin form.most limits.now }
    ensures exact { IfOk result (λ area. area ≡ area_in form limits.now) }
    ensures bounded { IfOk result (λ area. area ≤ 8000000) }
    ensures first { IfErr result (λ fault. first_fault form limits.now ≡ Some fault.field) }
{
    let area = area_under(form, limits);
    if area > u64::from(MOST_AREA) {
        return Err(BadLimits { field: AREA_FIELD });
    }
    Ok(area as u32)
}

/// How many sectors an image takes at most under limits of any device.
fn area_under(form: Format, limits: &Limits) -> u64
    requires known { IsFormat form }
    requires passed { ArePassed limits.now }
    ensures { result ≡ area_in form limits.now }
{
    let image = process_part(form, limits) + object_part(form, limits);
    let table = 4 + 16 * entry_count(form, limits) + 4 * image;
    image + table.div_ceil(508)
}

/// The clock, the processes, their waiting calls and their adjustments.
#[tactic(auto, using(crate::proofs::Bounds::bounds))]
fn process_part(form: Format, limits: &Limits) -> u64
    requires known { IsFormat form }
    requires passed { ArePassed limits.now }
    ensures exact { result ≡ process_sectors form limits.now }
    ensures bounded { result ≤ 10000000000 }
{
    let processes = u64::from(limits.processes);
    let descriptors = u64::from(limits.descriptors);
    sectors_for(12 + 4 * u64::from(form.numbers))
        + sectors_for(4 + processes * (16 + 16 * descriptors))
        + sectors_for(4 + processes * (16 + waiting_len(form, limits)))
        + sectors_for(4 + 12 * processes * adjustment_count(form, limits))
}

/// The longest request of a call that waits.
fn waiting_len(form: Format, limits: &Limits) -> u64
    requires known { IsFormat form }
    requires passed { ArePassed limits.now }
    ensures exact { result ≡ waiting_request form limits.now }
    ensures bounded { result ≤ 65792 }
{
    if !form.has_bounds() {
        return u64::from(form.request);
    }
    let text = 21 + limits.msgmax.max(limits.msgsize);
    let operations = 17 + 6 * limits.semopm;
    u64::from(text.max(operations).max(25))
}

/// The most adjustments of a process.
fn adjustment_count(form: Format, limits: &Limits) -> u64
    requires passed { ArePassed limits.now }
    ensures exact { result ≡ most_adjustments form limits.now }
    ensures bounded { result ≤ 1048576 }
{
    if form.has_bounds() {
        u64::from(limits.semume)
    } else {
        u64::from(limits.semmns)
    }
}

/// The objects of each kind.
#[tactic(auto, using(crate::proofs::Bounds::bounds))]
fn object_part(form: Format, limits: &Limits) -> u64
    requires known { IsFormat form }
    requires passed { ArePassed limits.now }
    ensures exact { result ≡ object_sectors form limits.now }
    ensures bounded { result ≤ 1000000000000 }
{
    sectors_for_each(limits.msgmni, queue_len(form, limits))
        + sectors_for_each(limits.semmni, 44 + 6 * u64::from(limits.semmsl))
        + mq_part(form, limits)
        + sectors_for_each(limits.named_semaphores, 271)
        + (2 * u64::from(limits.segments) + sectors_for(u64::from(limits.segment_bytes)))
        + shm_part(form, limits)
}

/// The most bytes of a message queue.
fn queue_len(form: Format, limits: &Limits) -> u64
    requires passed { ArePassed limits.now }
    ensures exact { result ≡ queue_most form limits.now }
    ensures bounded { result ≤ 300000000 }
{
    let bytes = u64::from(limits.msgmnb);
    if form.marks {
        72 + 36 * u64::from(limits.msgqlen) + bytes
    } else {
        64 + 13 * bytes
    }
}

/// The POSIX queues.
#[tactic(auto, using(crate::proofs::Bounds::bounds))]
fn mq_part(form: Format, limits: &Limits) -> u64
    requires known { IsFormat form }
    requires passed { ArePassed limits.now }
    ensures exact { result ≡ mq_sectors form limits.now }
    ensures bounded { result ≤ 300000000000 }
{
    let queues = u64::from(limits.queues);
    if form.has_bounds() {
        return queues + sectors_for(299 * queues + u64::from(limits.queue_bytes));
    }
    let message = 8 + u64::from(limits.msgsize);
    sectors_for_each(limits.queues, 299 + u64::from(limits.maxmsg) * message)
}

/// The System V segments.
#[tactic(auto, using(crate::proofs::Bounds::bounds))]
fn shm_part(form: Format, limits: &Limits) -> u64
    requires known { IsFormat form }
    requires passed { ArePassed limits.now }
    ensures exact { result ≡ shm_sectors form limits.now }
    ensures bounded { result ≤ 2000000 }
{
    if !form.has_shms() {
        return 0;
    }
    2 * u64::from(limits.shmmni) + sectors_for(u64::from(limits.shmall))
}

/// The entries of the table.
#[tactic(auto, using(crate::proofs::Bounds::bounds))]
fn entry_count(form: Format, limits: &Limits) -> u64
    requires known { IsFormat form }
    requires passed { ArePassed limits.now }
    ensures exact { result ≡ entries form limits.now }
    ensures bounded { result ≤ 300000 }
{
    let count = 4
        + limits.msgmni
        + limits.semmni
        + limits.queues
        + limits.named_semaphores
        + limits.segments
        + shm_count(form, limits);
    u64::from(count)
}

/// Those of System V segments.
fn shm_count(form: Format, limits: &Limits) -> u32
    ensures { result ≡ (if has_shms form then limits.now.shmmni else 0) }
{
    if form.has_shms() { limits.shmmni } else { 0 }
}

fn sectors_for(bytes: u64) -> u64
    ensures { result ≡ sectors bytes }
{
    bytes.div_ceil(512)
}

fn sectors_for_each(count: u32, bytes: u64) -> u64
    requires { count * sectors bytes < 2 ^ 64 }
    ensures { result ≡ count * sectors bytes }
{
    u64::from(count) * sectors_for(bytes)
}
