//! The index: eight counters of one byte. Each publication adds one to exactly one of them.

ghost use Rattle.std.specs.Prelude.{◌≡◌, ◌+◌, ◌<◌, ◌^◌, ℕ, length};
ghost use Rattle.tt_shared.specs.Index.{index_at, turn_at, next_counters};

/// The index of a count of publications: each counter is a byte of the count minus the next higher byte, modulo 256.
pub fn index_of(count: u64) -> [u8; 8]
    ensures { result ≡ index_at count }
{
    let d = count.to_le_bytes();
    [
        d[0].wrapping_sub(d[1]),
        d[1].wrapping_sub(d[2]),
        d[2].wrapping_sub(d[3]),
        d[3].wrapping_sub(d[4]),
        d[4].wrapping_sub(d[5]),
        d[5].wrapping_sub(d[6]),
        d[6].wrapping_sub(d[7]),
        d[7].wrapping_sub(0),
    ]
}

/// The count of publications with this index. There is only one, by [`index_laws`]. Each byte of the count is the sum
/// of the counters from its own on, modulo 256.
pub fn count_of(index: &[u8; 8]) -> u64
    ensures { index_at result ≡ index.now }
{
    count_in(index)
}

/// The count of publications with the index in these eight bytes.
fn count_in(index: &[u8]) -> u64
    requires { length index.now ≡ 8 }
    ensures { index_at result ≡ index.now }
{
    let d7 = index[7];
    let d6 = index[6].wrapping_add(d7);
    let d5 = index[5].wrapping_add(d6);
    let d4 = index[4].wrapping_add(d5);
    let d3 = index[3].wrapping_add(d4);
    let d2 = index[2].wrapping_add(d3);
    let d1 = index[1].wrapping_add(d2);
    let d0 = index[0].wrapping_add(d1);
    u64::from_le_bytes([d0, d1, d2, d3, d4, d5, d6, d7])
}

/// The number of the counter to which the publication after `count` others adds one. It is how many of the lowest bytes
/// of the count are 255 without a gap, and at most 7.
pub fn turn_of(count: u64) -> usize
    ensures value { result ≡ turn_at count }
    ensures bound { result < 8 }
{
    let d = count.to_le_bytes();
    if d[0] != 255 {
        0
    } else if d[1] != 255 {
        1
    } else if d[2] != 255 {
        2
    } else if d[3] != 255 {
        3
    } else if d[4] != 255 {
        4
    } else if d[5] != 255 {
        5
    } else if d[6] != 255 {
        6
    } else {
        7
    }
}

/// Laws, not a call to make. One more publication adds one, modulo 256, to one of the eight counters, and leaves the
/// others. Two counts below 2^64 with the same index are equal.
pub fn index_laws()
    ensures one_byte { (n : ℕ) → index_at (n + 1) ≡ next_counters (turn_at n) (index_at n) }
    ensures one_count { (m n : ℕ) → m < 2 ^ 64 → n < 2 ^ 64 → index_at m ≡ index_at n → m ≡ n }
{}
