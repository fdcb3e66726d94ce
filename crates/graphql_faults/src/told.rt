//! What a list of faults can have.

/// What a list of faults tells: contracts see it as plain data.
pub trait Told {
    ghost use Rattle.std.specs.Prelude.{◌≡◌, ◌↔◌, ◌<◌, ℕ, IsTrue};

    ghost Plain: { Type 0 };

    ghost plain: { Self → Plain };

    ghost bucket_of: { Plain → ℕ };

    /// Whether two tell the same.
    fn is_same(&self, other: &Self) -> bool
        ensures { IsTrue result ↔ (plain self.now ≡ plain other.now) };

    /// The number of its bucket, below 256: what tells the same is in the same one.
    fn bucket(&self) -> usize
        ensures within { result < 256 }
        ensures bucket { result ≡ bucket_of (plain self.now) };
}
