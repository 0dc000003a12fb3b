//! Poll messages: what a machine asks a time source, what the source answers, and the bytes of both.
//!
//! There are two formats. In TTP1 a [`Request`] has the numbers of its machine and its source, and a nonce, the number
//! of the poll. An [`Answer`] has these three and a span of time. In TTP2 a [`Request2`] and an [`Answer2`] also have
//! an epoch, the number of the machine's life: a machine that restarts begins a new one.
//!
//! A request of TTP1 has 16 bytes and an answer 32; of TTP2 they have 24 and 40:
//!
//! | TTP1 | TTP2 | content |
//! |---|---|---|
//! | 0..4 | 0..4 | `TTP1` or `TTP2` |
//! | 4 | 4 | the kind: 1 for a request, 2 for an answer |
//! | 5 | 5 | the machine, 0 to 7 |
//! | 6 | 6 | the source, 0 to 15 |
//! | 7 | 7 | 0 |
//! | 8..16 | 8..16 | the nonce, big endian, not 0 |
//! |  | 16..24 | the epoch, big endian, not 0 |
//! | 16..24 | 24..32 | in an answer: the lower end of the span in nanoseconds, big endian |
//! | 24..32 | 32..40 | in an answer: its upper end, big endian, at least the lower one and at most `MAX_TIME` |
//!
//! Each message has one spelling, its bytes. [`encode_request`] and [`encode_answer`] write it. [`decode`] gives the
//! message back if the bytes are its spelling, and otherwise the first refusal that applies. [`encode_request2`],
//! [`encode_answer2`] and [`decode2`] are the same for TTP2. [`Format::of`] tells in which format bytes are read.
//!
//! ```text
//! let request = Request2::new(0, 1, 1, 1)?;              // machine 0, source 1, nonce 1, epoch 1
//! let bytes = encode_answer2(&request.answered(span));   // as a source answers it
//! let message = decode2(&bytes)?;                        // Message2::Answer, with the same span
//! ```
//!
//! - `requests`: requests, and the greatest numbers of machines and sources. `answers`: answers. `requests2` and
//!   `answers2`: the same of TTP2.
//! - `messages`: `Message` and `Message2`, each of which is a request or an answer.
//! - `format`: the two formats: how long their messages are, what they begin with, and their kinds.
//! - `encoding`: requests and answers as bytes.
//! - `decoding`: bytes as messages, and what is known of spellings.
//! - `faults`: why bytes are not a message.
//!
//! The ranges are in the types, so what is encoded is always a message. Nothing here takes memory.
#![tactic(auto)]

mod answers;
mod answers2;
mod decoding;
mod encoding;
mod faults;
mod format;
mod messages;
mod requests;
mod requests2;

pub use answers::Answer;
pub use answers2::Answer2;
pub use decoding::{decode, decode2, one_spelling, one_spelling2, reading_laws, reading_laws2};
pub use encoding::{encode_answer, encode_answer2, encode_request, encode_request2};
pub use faults::PollFault;
pub use format::{ANSWER_LEN, ANSWER2_LEN, Format, REQUEST_LEN, REQUEST2_LEN};
pub use messages::{Message, Message2};
pub use requests::{MAX_MACHINE, MAX_SOURCE, Request};
pub use requests2::Request2;
