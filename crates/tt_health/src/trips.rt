//! Classes of round trips, for a histogram of them.

ghost use Rattle.std.specs.Prelude.{◌≡◌, ◌≤◌, count_by, nat_lt};

/// The bounds of the classes of round trips, ascending, in nanoseconds.
pub const TRIP_BOUNDS: [u64; 12] = [
    50_000,
    100_000,
    250_000,
    500_000,
    1_000_000,
    2_500_000,
    5_000_000,
    10_000_000,
    25_000_000,
    50_000_000,
    100_000_000,
    250_000_000,
];

/// The class of a round trip of so many nanoseconds: how many bounds lie below it. A trip of class k is at most bound k,
/// and the trips of class 12 are above all bounds.
pub fn trip_place(trip: u64) -> usize
    ensures value { result ≡ count_by (λ bound. nat_lt bound trip) TRIP_BOUNDS }
    ensures in_range { result ≤ 12 }
{
    TRIP_BOUNDS.iter().filter(|bound| **bound < trip).count()
}
