//! A window of 512 bytes onto a text that is passed piece by piece.

ghost use Rattle.std.specs.Prelude.{◌≡◌, ◌≤◌, ◌<◌, ◌*◌, ℕ, List, IsTrue, false, length};
ghost use Rattle.ipc_base.specs.Objects.{window};
ghost use Rattle.ipc_image.specs.Window.{at_place, showing, passed};

use ipc_base::window_of;
use std::marker::Model;

/// 512 bytes of a text from a place on. The text passes by and is kept nowhere; a piece outside the
/// window costs nothing. A contract sees how many bytes are still to pass before the window begins,
/// the bytes that it shows so far, and for how many more it has room.
#[derive(Drop)]
pub(crate) struct Window {
    before: u64,
    filled: usize,
    bytes: [u8; 512],
}

impl Model for Window {
    ghost use Rattle.std.specs.Prelude.{◌≤◌, ◌-◌, take};
    ghost use Rattle.ipc_image.specs.Window.{Shown};

    ghost Value = { Shown };

    ghost view = { λ w. record {
      before = w.before;
      bytes = take w.filled w.bytes;
      room = 512 - w.filled;
    } };

    ghost invariant = { λ w. w.filled ≤ 512 };
}

impl Window {
    /// Nothing has passed.
    pub(crate) fn new(place: u64) -> Window
        ensures { result ≡ at_place place }
    {
        Window {
            before: place,
            filled: 0,
            bytes: [0; 512],
        }
    }

    /// A piece of the text passes.
    pub(crate) fn put(&mut self, piece: &[u8])
        ensures { self.new ≡ passed piece.now self.old }
    {
        let len = piece.len() as u64;
        if len <= self.before {
            self.before -= len;
        } else {
            let begin = self.before as usize;
            self.before = 0;
            self.show(&piece[begin..]);
        }
    }

    /// Whether a piece of so many bytes ends before the window begins. If so it has passed, unseen.
    pub(crate) fn passes_over(&mut self, len: u64) -> bool
        ensures over { IsTrue result
            → (piece : List ℕ) → length piece ≡ len → self.new ≡ passed piece self.old }
        ensures not { result ≡ false → self.new ≡ self.old }
    {
        if len > self.before {
            return false;
        }
        self.before -= len;
        true
    }

    /// How many of so many pieces of one length end before the window begins. They have passed, unseen.
    pub(crate) fn passes_over_first(&mut self, count: usize, len: u64) -> usize
        requires { 0 < len }
        ensures within { result ≤ count }
        ensures passed { (pieces : List ℕ) → length pieces ≡ len * result → self.new ≡ passed pieces self.old }
    {
        let first = (self.before / len).min(count as u64);
        self.before -= first * len;
        first as usize
    }

    /// Whether no piece that is still to pass can be seen.
    pub(crate) fn is_full(&self) -> bool
        ensures { IsTrue result → (piece : List ℕ) → passed piece self.now ≡ self.now }
    {
        self.before == 0 && self.filled == 512
    }

    // The bytes that come next in the window; those past its end are left out.
    fn show(&mut self, piece: &[u8])
        ensures { self.new ≡ showing piece.now self.old }
    {
        let count = piece.len().min(512 - self.filled);
        let end = self.filled + count;
        self.bytes[self.filled..end].copy_from_slice(&piece[..count]);
        self.filled = end;
    }

    /// What it shows, with zeros past the end of the text.
    pub(crate) fn finish(&self) -> [u8; 512]
        ensures { result ≡ window 0 self.now.bytes }
    {
        window_of(&self.bytes[..self.filled], 0)
    }
}
