//! Numbers as marks: one bit for each place.
ghost use Rattle.std.specs.Prelude.{◌≡◌};
ghost use Rattle.systems.specs.Boxes.{bit};

/// Whether the bit of a place is 1; a place above 63 has none.
pub fn has_mark(marks: u64, place: usize) -> bool
    ensures { result ≡ bit marks place }
{
    place < 64 && (marks >> place) % 2 == 1
}
