//! A message is a request or an answer.

use crate::answers::Answer;
use crate::answers2::Answer2;
use crate::requests::Request;
use crate::requests2::Request2;

/// A poll message of TTP1.
#[derive(Clone, Copy, Debug, PartialEq, Eq)]
pub enum Message {
    Request(Request),
    Answer(Answer),
}

/// A poll message of TTP2.
#[derive(Clone, Copy, Debug, PartialEq, Eq)]
pub enum Message2 {
    Request(Request2),
    Answer(Answer2),
}
