//! What keeps an object with a name: the name, or a descriptor that is open on it; and a System V segment that is
//! marked: a descriptor. See mq_overview(7), sem_overview(7), shm_overview(7) and shmctl(2).

ghost use Rattle.std.specs.Prelude.{◌≡◌, ◌↔◌, ◌&&◌, ◌||◌, not, true, map, [], All, IsTrue, None, filter, is_some};
ghost use Rattle.std.specs.List.{list_all, list_any};
ghost use Rattle.std.specs.Result.{is_ok};
ghost use Rattle.std.specs.Str.{bytes_eq};
ghost use Rattle.ipc_keys.specs.Names.{check_name, is_none};
ghost use Rattle.ipc_state.specs.declared.parked.ObjectKind.TheVariants as kinds;
ghost use Rattle.ipc_state.specs.Bound.{AreBound, kept_if};
ghost use Rattle.ipc_state.specs.Held.{left};
ghost use Rattle.ipc_state.specs.Kinds.{has_access, keeps_by};
ghost use Rattle.ipc_state.specs.Named.{is_named_so, is_own};
ghost use Rattle.ipc_state.specs.Numbered.{entry_of};
ghost use Rattle.ipc_state.specs.Opening.{descriptor_at, is_on, is_open, is_sound_descriptor, is_there_for, stays_by};
ghost use Rattle.ipc_state.specs.Sound.{AreHeld, AreSoundDescriptors, AreSoundProcesses};
ghost use Rattle.ipc_state.specs.State.{named_of, objects_in, objects_of, swept};
ghost use Rattle.ipc_state.specs.Tables.{item_row, numbered_of};

use crate::bound::Bound;
use crate::descriptors::{Descriptor, DescriptorRow};
use crate::numbered::{Item, Numbered};
use crate::objects::{Entry, Leaves, NamedEntry, ObjectTable};
use crate::parked::{Object, ObjectKind};
use crate::processes::Process;
use crate::rows::Rows;
use crate::sound::SoundAlone;
use crate::state::State;
use ipc_base::Pid;
use ipc_keys::{Name, NameKind, check_name};
use ipc_limits::Limits;
use ipc_perm::Perm;

impl State {
    /// Objects go that do not stay by themselves and on which no descriptor is open. It takes no memory.
    pub(crate) fn sweep(&mut self)
        ensures { self.new ≡ left self.old (swept self.old.state) }
    {
        self.shm.sweep(self.processes.items(), ObjectKind::Shm);
        self.mq
            .sweep(self.processes.items(), ObjectKind::Named(NameKind::Mq));
        self.psem
            .sweep(self.processes.items(), ObjectKind::Named(NameKind::Psem));
        self.pshm
            .sweep(self.processes.items(), ObjectKind::Named(NameKind::Pshm));
        self.release();
    }

    /// What a descriptor of a process is, if the number is in use.
    pub fn descriptor(&self, pid: Pid, fd: u32) -> Option<Descriptor>
        ensures { result ≡ descriptor_at self.now.state.processes.entries pid.0 fd }
    {
        match self.processes.get(pid.0) {
            Some(process) => process.value.descriptors.get(fd),
            None => None,
        }
    }

    /// Whether the processes are sound, with their descriptors.
    pub(crate) fn are_processes_sound(&self) -> bool
        ensures { IsTrue result
            ↔ AreSoundProcesses self.now.limits (objects_in self.now.state) self.now.state.processes }
    {
        self.processes.are_numbered(self.limits.processes)
            && self.have_sound_descriptors(self.processes.items())
    }

    fn have_sound_descriptors(&self, items: &[Item<Process>]) -> bool
        ensures { IsTrue result
            ↔ All (λ p. AreSoundDescriptors self.now.limits (objects_in self.now.state) p.value.descriptors) items.now }
    {
        for item in items {
            if !self.has_sound_descriptors(item) {
                return false;
            }
        }
        true
    }

    fn has_sound_descriptors(&self, item: &Item<Process>) -> bool
        ensures { IsTrue result
            ↔ AreSoundDescriptors self.now.limits (objects_in self.now.state) item.now.value.descriptors }
    {
        let descriptors = &item.value.descriptors;
        descriptors.rise(self.limits.descriptors) && self.are_open(descriptors.rows())
    }

    /// Whether each of some descriptors is open on what is there, and has a way in which it is.
    fn are_open(&self, rows: &[DescriptorRow]) -> bool
        ensures { result ≡ list_all (λ r. is_sound_descriptor (objects_in self.now.state) r.descriptor) rows.now }
    {
        rows.iter().all(|row| self.is_open(&row.descriptor))
    }

    /// Whether an object is there.
    pub fn has_object(&self, object: Object) -> bool
        ensures { result ≡ is_there_for (objects_in self.now.state) object }
    {
        self.is_there(object.kind, object.number)
    }

    fn is_open(&self, descriptor: &Descriptor) -> bool
        ensures { result ≡ is_sound_descriptor (objects_in self.now.state) descriptor.now }
    {
        let Object { kind, number } = descriptor.on;
        self.is_there(kind, number) && has_access(kind, descriptor.flags)
    }

    /// Whether an object of a kind is there.
    fn is_there(&self, kind: ObjectKind, number: u32) -> bool
        ensures { result ≡ is_some (entry_of (objects_of self.now.state kind) number) }
    {
        match kind {
            ObjectKind::MsgQueue => self.msg.get(number).is_some(),
            ObjectKind::Semset => self.semset.get(number).is_some(),
            ObjectKind::Shm => self.shm.get(number).is_some(),
            ObjectKind::Named(kind) => self.is_named_there(kind, number),
        }
    }

    fn is_named_there(&self, kind: NameKind, number: u32) -> bool
        ensures { result ≡ is_some (entry_of (named_of self.now.state kind) number) }
    {
        match kind {
            NameKind::Mq => self.mq.get(number).is_some(),
            NameKind::Psem => self.psem.get(number).is_some(),
            NameKind::Pshm => self.pshm.get(number).is_some(),
        }
    }
}

impl<B: Bound, T: Leaves> ObjectTable<B, T> {
    /// Takes the objects away that do not stay by themselves and on which no descriptor of these processes is open.
    /// Nothing is ready then.
    pub(crate) fn sweep(&mut self, processes: &[Item<Process>], kind: ObjectKind)
        ensures { self.new
            ≡ record {
              objects = kept_if (stays_by (λ e. keeps_by B.same B.none e.bound (T.leaves e.object)) kind
                  (map item_row processes.now)) self.old.objects;
              ready = None;
            } }
    {
        let _before = self.release();
        self.objects.items.sweep(processes, kind);
    }
}

impl<B: Bound, T: Leaves> Rows<Entry<B, T>> {
    /// Takes the objects away that do not stay by themselves and on which no descriptor of these processes is open.
    fn sweep(&mut self, processes: &[Item<Process>], kind: ObjectKind)
        ensures rows { map item_row self.new.items
            ≡ filter (stays_by (λ e. keeps_by B.same B.none e.bound (T.leaves e.object)) kind
            (map item_row processes.now)) (map item_row self.old.items) }
    {
        self.items.retain(|item| stays(processes, item, kind));
    }
}

impl<B: Bound, T: SoundAlone + Leaves> ObjectTable<B, T> {
    /// Whether they are sound, and no more than `most`, and each stays by itself, or is open.
    pub(crate) fn are_kept(
        &self,
        most: u32,
        limits: &Limits,
        processes: &Numbered<Process>,
        kind: ObjectKind,
    ) -> bool
        ensures { IsTrue result ↔ (AreBound B.same B.none most (T.IsSound limits.now) self.now.objects
            × All (λ e. stays_by (λ d. keeps_by B.same B.none d.bound (T.leaves d.object)) kind
            (numbered_of processes.now).entries e ≡ true) self.now.objects.entries) }
    {
        self.are_sound(most, limits) && all_stay(self.items(), processes.items(), kind)
    }
}

impl<T: SoundAlone + Leaves> ObjectTable<Name, T> {
    /// Whether they are sound, and no more than `most`, and each has a name that an object of the kind may have, or is
    /// open.
    pub(crate) fn are_held(
        &self,
        most: u32,
        limits: &Limits,
        processes: &Numbered<Process>,
        kind: NameKind,
    ) -> bool
        ensures { IsTrue result
            ↔ AreHeld bytes_eq [] most (T.IsSound limits.now) (is_named_so kind)
            (stays_by (λ e. keeps_by bytes_eq [] e.bound (T.leaves e.object)) (kinds.Named kind)
            (numbered_of processes.now).entries) self.now.objects }
    {
        self.are_kept(most, limits, processes, ObjectKind::Named(kind))
            && have_forms(self.items(), kind)
    }
}

/// Whether each name is one that an object of the kind may have, and whoever made the object owns it.
fn have_forms<T>(items: &[Item<NamedEntry<T>>], kind: NameKind) -> bool
    ensures { result ≡ list_all (λ e. is_named_so kind (item_row e)) items.now }
{
    items.iter().all(|item| is_named_so(item, kind))
}

fn is_named_so<T>(item: &Item<NamedEntry<T>>, kind: NameKind) -> bool
    ensures { result ≡ is_named_so kind (item_row item.now) }
{
    has_form(item.value.bound.bytes(), kind) && is_own(item.value.perm)
}

/// Whether it is no name, or one that an object of the kind may have.
fn has_form(name: &[u8], kind: NameKind) -> bool
    ensures { result ≡ (is_none name.now || is_ok (check_name kind name.now)) }
{
    name.is_empty() || check_name(kind, name).is_ok()
}

/// Whether who made an object owns it.
fn is_own(perm: Perm) -> bool
    ensures { result ≡ is_own perm }
{
    perm.cuid == perm.uid && perm.cgid == perm.gid
}

/// Whether each of some objects stays by itself, or a descriptor of some process is open on it.
fn all_stay<B: Bound, T: Leaves>(
    items: &[Item<Entry<B, T>>],
    processes: &[Item<Process>],
    kind: ObjectKind,
) -> bool
    ensures { result ≡ list_all (λ e. stays_by (λ d. keeps_by B.same B.none d.bound (T.leaves d.object)) kind
        (map item_row processes.now) (item_row e)) items.now }
{
    items.iter().all(|item| stays(processes, item, kind))
}

fn stays<B: Bound, T: Leaves>(
    processes: &[Item<Process>],
    item: &Item<Entry<B, T>>,
    kind: ObjectKind,
) -> bool
    ensures { result ≡ stays_by (λ d. keeps_by B.same B.none d.bound (T.leaves d.object)) kind
        (map item_row processes.now) (item_row item.now) }
{
    let number = item.number;
    keeps(&item.value) || is_open(processes, Object { kind, number })
}

/// Whether it stays by itself.
fn keeps<B: Bound, T: Leaves>(entry: &Entry<B, T>) -> bool
    ensures { result ≡ keeps_by B.same B.none entry.now.bound (T.leaves entry.now.object) }
{
    !entry.bound.names_none() || !entry.object.leaves()
}

/// Whether an object of a kind may be open with these flags.
fn has_access(kind: ObjectKind, flags: u32) -> bool
    ensures { result ≡ has_access kind flags }
{
    match kind {
        ObjectKind::Named(NameKind::Mq) => flags & 3 != 3,
        ObjectKind::Named(NameKind::Psem) => true,
        ObjectKind::Named(NameKind::Pshm) => flags & 1 == 0,
        ObjectKind::Shm => true,
        ObjectKind::MsgQueue | ObjectKind::Semset => false,
    }
}

/// Whether a descriptor of some process is open on it.
fn is_open(processes: &[Item<Process>], this: Object) -> bool
    ensures { result ≡ is_open (map item_row processes.now) this }
{
    some_opens(processes, this)
}

fn some_opens(processes: &[Item<Process>], this: Object) -> bool
    ensures { result ≡ list_any (λ p. list_any (λ d. is_on this d.1.on) p.value.descriptors) processes.now }
{
    processes.iter().any(|process| opens(process, this))
}

fn opens(process: &Item<Process>, this: Object) -> bool
    ensures { result ≡ list_any (λ d. is_on this d.1.on) process.now.value.descriptors }
{
    open_it(process.value.descriptors.rows(), this)
}

fn open_it(rows: &[DescriptorRow], this: Object) -> bool
    ensures { result ≡ list_any (λ r. is_on this r.descriptor.on) rows.now }
{
    rows.iter().any(|row| is_on(this, row.descriptor.on))
}

/// Whether what a descriptor is open on, or any object, is this.
pub fn is_on(this: Object, on: Object) -> bool
    ensures { result ≡ is_on this on }
{
    on == this
}
