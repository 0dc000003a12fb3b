//! Values worked out by hand.

use std::alloc::Global;
use std::test::Fail;
use tt_cert::{certify, check, write_text};
use tt_fuse::{fuse, suspects};
use tt_span::Span;

/// Whether the fusion of the spans with these ends has this text, with its certificate, which is valid, and speaks
/// against these sources; or is refused by this number.
fn fuses(
    alloc: Global,
    ends: &[(u64, u64)],
    faulty: usize,
    number: u16,
    text: &str,
    named: &[u8],
) -> Result<bool, Fail> {
    let mut spans = [Span::whole(); 17];
    for (i, &(lo, hi)) in ends.iter().enumerate() {
        *spans.get_mut(i).ok_or("a source")? = Span::new(lo, hi)?;
    }
    let spans = spans.get(..ends.len()).ok_or("sources")?;
    match fuse(spans, faulty) {
        Ok(fused) => {
            let certificate = certify(spans, faulty, &fused);
            check(spans, faulty, &fused, &certificate)?;
            let written = write_text(alloc, &fused, &certificate)?;
            let found = suspects(spans, &fused);
            Ok(number == 0 && written.as_str() == text && found.as_slice() == named)
        }
        Err(fault) => Ok(fault.number() == number),
    }
}

#[test]
fn fuses_by_hand(rt: HostRuntime) -> Result<(), Fail> {
    let rows: [(&[(u64, u64)], usize, &str, &[u8]); 5] = [
        (
            &[(5, 9)],
            0,
            "claim 5 9\nleft 0\nright 0\nbelow 0 4 0\nabove 10 4000000000000000000 0\n",
            &[],
        ),
        (
            &[(0, 10), (5, 15), (12, 20)],
            1,
            "claim 5 15\nleft 0 1\nright 1 2\nbelow 0 4 1\nabove 16 20 1\nabove 21 4000000000000000000 0\n",
            &[],
        ),
        (
            &[(0, 5), (5, 9), (20, 30)],
            1,
            "claim 5 5\nleft 0 1\nright 0 1\nbelow 0 4 1\nabove 6 9 1\nabove 10 19 0\nabove 20 30 1\nabove 31 4000000000000000000 0\n",
            &[2],
        ),
        (
            &[(0, 10), (5, 15), (8, 20), (100, 110)],
            1,
            "claim 8 10\nleft 0 1 2\nright 0 1 2\nbelow 0 4 1\nbelow 5 7 2\nabove 11 15 2\nabove 16 20 1\nabove 21 99 0\nabove 100 110 1\nabove 111 4000000000000000000 0\n",
            &[3],
        ),
        (
            &[
                (4_000_000_000_000_000_000, 4_000_000_000_000_000_000),
                (0, 4_000_000_000_000_000_000),
            ],
            0,
            "claim 4000000000000000000 4000000000000000000\nleft 0 1\nright 0 1\nbelow 0 3999999999999999999 1\n",
            &[],
        ),
    ];
    for (ends, faulty, text, named) in rows {
        assert!(rt; fuses(rt.alloc(), ends, faulty, 0, text, named)?);
    }
    let refused: [(&[(u64, u64)], u16); 4] = [
        (&[(0, 1), (3, 4), (6, 7)], 504),
        (&[(0, 1), (3, 4)], 503),
        (&[], 501),
        (&[(0, 1); 17], 502),
    ];
    for (ends, number) in refused {
        assert!(rt; fuses(rt.alloc(), ends, 1, number, "", &[])?);
    }
    Ok(())
}
