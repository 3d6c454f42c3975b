//! What has a rank.

ghost use Rattle.std.specs.Prelude.{◌≡◌, ℕ};

/// A value with a rank, by which it is found; a rank never changes.
pub trait Ranked {
    /// The rank.
    ghost rank: { Self → ℕ };

    /// The rank.
    fn rank(&self) -> u64
        ensures { result ≡ rank self.now };
}
