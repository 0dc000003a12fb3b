//! First lines that are those of HTTP requests. Their sessions end, so that no line of a request's body is heard.

ghost use Rattle.std.specs.Prelude.{◌≡◌};
ghost use Rattle.tt_connections.specs.Request.{end_behind, is_request_line, no_bytes, without_return};

/// How many of the last bytes of a line say whether it is that of a request.
const END: usize = 10;

/// A line without the carriage return that ends it, if one does.
fn without_return(line: &[u8]) -> &[u8]
    ensures { result.now ≡ without_return line.now }
{
    if line.ends_with(b"\r") {
        line.split_at(line.len() - 1).0
    } else {
        line
    }
}

/// Whether a line, without its line feed, is the first one of an HTTP request: whether it ends in ` HTTP/1.0`,
/// ` HTTP/1.1` or ` HTTP/2.0`. A carriage return may stand behind that.
pub fn is_request_line(line: &[u8]) -> bool
    ensures value { result ≡ is_request_line line.now }
{
    let line = without_return(line);
    line.ends_with(b" HTTP/1.1") || line.ends_with(b" HTTP/1.0") || line.ends_with(b" HTTP/2.0")
}

/// What is known of the first line of a session as long as it goes on: its last 10 bytes, behind as many zeros as it is
/// shorter.
#[derive(Clone, Copy)]
pub struct FirstLine {
    end: [u8; END],
}

impl FirstLine {
    /// A line of which nothing has come.
    pub fn new() -> FirstLine
        ensures nothing { result.end ≡ no_bytes }
    {
        FirstLine { end: [0; END] }
    }

    /// The line goes on with these bytes.
    pub fn hear(&mut self, bytes: &[u8])
        ensures end { self.new.end ≡ end_behind self.old.end bytes.now }
    {
        let kept = bytes.len().min(END);
        self.end.rotate_left(kept);
        let (_, room) = self.end.split_at_mut(END - kept);
        let (_, last) = bytes.split_at(bytes.len() - kept);
        room.copy_from_slice(last);
    }

    /// Whether the line is the first one of an HTTP request, if it ends here: see [`is_request_line`].
    pub fn is_request(&self) -> bool
        ensures value { result ≡ is_request_line self.now.end }
    {
        is_request_line(&self.end)
    }
}
