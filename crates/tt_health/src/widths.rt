//! Classes of widths of readings, for a histogram of them.

ghost use Rattle.std.specs.Prelude.{◌≡◌, ◌≤◌};
ghost use Rattle.tt_health.specs.Width.{width_place};

/// The bounds of the classes of widths, ascending, in nanoseconds.
pub const WIDTH_BOUNDS: [u64; 12] = [
    100_000,
    250_000,
    500_000,
    1_000_000,
    2_500_000,
    5_000_000,
    10_000_000,
    25_000_000,
    50_000_000,
    100_000_000,
    1_000_000_000,
    10_000_000_000,
];

/// The class of a width of so many nanoseconds: how many bounds lie below it. A width of class k is at most bound k, and
/// the widths of class 12 are above all bounds.
pub fn width_place(width: u64) -> usize
    ensures value { result ≡ width_place width }
    ensures in_range { result ≤ 12 }
{
    WIDTH_BOUNDS.iter().filter(|bound| **bound < width).count()
}
