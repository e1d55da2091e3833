//! What every kind of record has.
ghost use Rattle.std.specs.Prelude.{◌≡◌, ℕ, ◌<◌, ◌≤◌, length, MatchOption};
ghost use Rattle.records.specs.Shapes.{Shape, ShapeLaws, size_of, encoded, decoded};

use crate::limits::Limits;

/// A kind byte, and a body whose length the kind fixes: together `SIZE` bytes.
pub trait Record<const SIZE: usize>: Sized {
    ghost shape: { Shape Self };

    ghost KIND: { ℕ };

    const KIND: u8;

    /// The record at the front, whatever its kind byte says, if it is all there.
    fn front(bytes: &[u8]) -> Option<Self>
        ensures { MatchOption result (length bytes.now < size_of shape) (λ x. (size_of shape ≤ length bytes.now) × (x ≡ decoded shape bytes.now)) };

    /// Whether the fields keep to the value list.
    fn keeps(&self, limits: &Limits) -> bool
        ensures { result ≡ shape.good limits.now self.now };

    /// The record's bytes.
    fn bytes(&self) -> [u8; SIZE]
        ensures { result ≡ encoded shape self.now };

    ghost lawful: { ShapeLaws shape };

    ghost kinded: { KIND ≡ shape.byte };

    ghost sized: { SIZE ≡ size_of shape };
}
