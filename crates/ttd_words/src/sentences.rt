//! What the numbers mean with which a machine refuses a line.

ghost use Rattle.std.specs.Prelude.{◌≡◌};
ghost use Rattle.ttd_words.specs.Sentence.{sentence_of};

/// The sentence for standard error about the reply `refused N` of a machine, or about 1708 of its shared file.
pub fn sentence_of(number: u64) -> &'static str
    ensures { result.now ≡ sentence_of number }
{
    match number {
        1 => "the machine is out of memory",
        801 =>
            "the machine has published nothing so far: too few of its sources have answered (see its log and its status)",
        802 => "the machine's clock went back, or is above the greatest time",
        803 => "the machine's clock could not be read",
        901 => "no stamp is left up to the greatest time",
        902 => "the floor is too far ahead of the latest time",
        903 => "the machine's lease is over",
        1001 => "the machine's queue of commits is full",
        1002 => "a commit with this id is pending, or was released",
        1003 => "a commit with this stamp is pending, or was released",
        1101 => "the line is not a request",
        1102 => "the line is longer than 64 bytes",
        1103 => "the id of the commit is below the last one of this connection",
        1104 => "another commit of this connection is pending",
        1708 => "the clock is past the last reading at which the publication may be used",
        1821 =>
            "the floor, or the lower end of the lease, is further ahead than the machine allows",
        1822 => "the connection or the machine ended while the commit was pending",
        1823 => "the machine knows that one of its assumptions is broken",
        1824 =>
            "the reading is wider than max_width of the machine: its sources answered long ago, or slowly (see its status)",
        _ => "docs/reference/refusals.md says what the number means",
    }
}
