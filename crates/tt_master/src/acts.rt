//! What a master does with a request.

/// How a master treats one request. A right master is always honest. A master that is wrong, broken or hostile does the
/// other acts.
///
/// The numbers are nanoseconds, any of 64 bits: the span of the answer is cut at 0 and `MAX_TIME`. In scripts they are
/// at most `MAX_TIME`.
#[derive(Clone, Copy, Debug, PartialEq, Eq)]
pub enum Act {
    /// It answers the time of its reference, plus and minus its uncertainty.
    Honest,
    /// Both ends of its answer are this much later than in an honest answer.
    Ahead(u64),
    /// Both ends of its answer are this much earlier than in an honest answer.
    Behind(u64),
    /// It answers nothing.
    Silent,
    /// It answers bytes that are not a message.
    Garbage,
    /// It answers the last packet that it played once more, or nothing if there was none.
    Repeat,
}
