//! The table of a heap in memory, word by word.

ghost use Rattle.std.specs.Prelude.{◌≡◌, ◌<◌, ◌≤◌, ◌+◌, ◌-◌, ◌/◌, ◌%◌, ◌^◌, ◌++◌, ◌∷◌, [], length, take, drop};
ghost use Rattle.std.specs.Prelude.{min, slice_index, vec_len, vec_capacity};
ghost use Rattle.ipc_heap.specs.Relations.Words.{wide_at, object_len_at, placed_in, AreWords, IsPlace, replaced};

use ipc_disk::sectors_for_len;

/// The number of two words, the high one first.
pub(crate) fn u64_at(words: &[u32], at: usize) -> u64
    requires { at + 1 < length words.now }
    ensures { result ≡ wide_at words.now at }
{
    (u64::from(words[at]) << 32) | u64::from(words[at + 1])
}

/// How many words the object that begins at a place has.
pub(crate) fn object_len(words: &[u32], at: usize) -> usize
    requires { at + 3 < length words.now }
    ensures { result ≡ object_len_at words.now at }
{
    4 + sectors_for_len(u64_at(words, at + 2) as usize)
}

/// Where the object of a number begins, or would begin, and how many words it has: none, if it is not there.
#[derive(Clone, Copy)]
pub(crate) struct Place {
    pub at: usize,
    pub len: usize,
}

/// The place of the object of a number among the words of a table.
pub(crate) fn place_of(words: &[u32], number: u64) -> Place
    requires { AreWords words.now (placed_in words.now) }
    ensures { IsPlace (placed_in words.now) number result }
{
    let mut at = 1;
    'objects: while at < words.len() {
        let there = u64_at(words, at);
        if there == number {
            let len = object_len(words, at);
            return Place { at, len };
        }
        if there > number {
            break;
        }
        at += object_len(words, at);
    }
    Place { at, len: 0 }
}

/// The sectors of the object at a place, none if it is not there.
pub(crate) fn sectors_in(words: &[u32], place: Place) -> &[u32]
    requires { place.at + place.len ≤ length words.now }
    ensures { result.now ≡ drop 4 (take place.len (drop place.at words.now)) }
{
    let object = &words[place.at..place.at + place.len];
    if object.len() < 4 {
        &object[..0]
    } else {
        &object[4..]
    }
}

/// Adds a number of two words at the end.
pub(crate) fn push_u64(words: &mut Vec<u32>, number: u64)
    requires { vec_len words.old + 2 ≤ vec_capacity words.old }
    ensures items { words.new.items ≡ words.old.items ++ number / 2 ^ 32 ∷ number % 2 ^ 32 ∷ [] }
    ensures capacity { vec_capacity words.new ≡ vec_capacity words.old }
{
    words.push_reserved((number >> 32) as u32);
    words.push_reserved((number % (1 << 32)) as u32);
}

/// Brings the words of an object, which stand at the end from a place on, to where they belong, over those of the
/// object of the same number, if there is one.
pub(crate) fn bring_in(words: &mut Vec<u32>, end: usize, place: Place)
    requires some { 0 < place.at }
    requires within { place.at + place.len ≤ end }
    requires end { end ≤ length words.old.items }
    requires counted { slice_index words.old.items 0 + 1 < 2 ^ 32 }
    ensures items { words.new.items ≡ replaced (take end words.old.items) place (drop end words.old.items)
        (slice_index words.old.items 0 + (1 - place.len)) }
    ensures capacity { vec_capacity words.new ≡ vec_capacity words.old }
{
    let new = words.len() - end;
    bring_before(words, place.at, end);
    take_away(words, place.at + new, place.len);
    if place.len == 0 {
        words[0] += 1;
    }
}

/// Takes the words of an object away, if it is there.
pub(crate) fn take_out(words: &mut Vec<u32>, place: Place)
    requires some { 0 < place.at }
    requires within { place.at + place.len ≤ length words.old.items }
    requires counted { 0 < place.len → 0 < slice_index words.old.items 0 }
    ensures items { words.new.items ≡ replaced words.old.items place []
        (slice_index words.old.items 0 - min place.len 1) }
    ensures capacity { vec_capacity words.new ≡ vec_capacity words.old }
{
    take_away(words, place.at, place.len);
    if place.len > 0 {
        words[0] -= 1;
    }
}

// Brings the last words, from a place on, before those from another place on.
fn bring_before(words: &mut Vec<u32>, at: usize, end: usize)
    requires within { at ≤ end }
    requires end { end ≤ length words.old.items }
    ensures items { words.new.items ≡ take at words.old.items
        ++ (drop end words.old.items ++ take (end - at) (drop at words.old.items)) }
    ensures capacity { vec_capacity words.new ≡ vec_capacity words.old }
{
    let new = words.len() - end;
    words[at..].rotate_right(new);
}

// Takes so many words away.
fn take_away(words: &mut Vec<u32>, at: usize, len: usize)
    requires { at + len ≤ length words.old.items }
    ensures items { words.new.items ≡ take at words.old.items ++ drop (at + len) words.old.items }
    ensures capacity { vec_capacity words.new ≡ vec_capacity words.old }
{
    let left = words.len() - len;
    words[at..].rotate_left(len);
    words.truncate(left);
}
