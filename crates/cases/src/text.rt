// Texts with escapes.
use std::alloc::{AllocError, Global};

/// What the next byte of a line is.
#[derive(Clone, Copy)]
enum State {
    Plain,
    /// Behind a backslash.
    Escape,
    /// The first digit of a byte's number, base sixteen.
    High,
    /// The second digit, behind that value.
    Low(u8),
    /// A digit of how often a piece stands.
    Count,
}

/// The bytes that lines with escapes stand for.
#[derive(Drop)]
pub struct Text {
    bytes: Vec<u8>,
    state: State,
    /// Where the last repeated piece begins, and how often it stands.
    start: usize,
    count: usize,
}

/// The value of a digit, base sixteen; 0 of another byte.
fn digit(byte: u8) -> u8 {
    match byte {
        b'0'..=b'9' => byte - b'0',
        b'a'..=b'f' => byte - b'a' + 10,
        b'A'..=b'F' => byte - b'A' + 10,
        _ => 0,
    }
}

impl Text {
    /// No bytes.
    pub fn new(alloc: Global) -> Text {
        Text {
            bytes: Vec::new(alloc),
            state: State::Plain,
            start: 0,
            count: 0,
        }
    }

    /// The bytes so far.
    pub fn bytes(&self) -> &[u8] {
        &self.bytes
    }

    /// Adds a line and its end; a backslash at the end of the line stands for no line end.
    pub fn push_line(&mut self, line: &str) -> Result<(), AllocError> {
        self.push_part(line)?;
        if let State::Escape = self.state {
            return Ok(());
        }
        self.bytes.push(b'\n')?;
        Ok(())
    }

    /// Adds what stands in a line, and no end.
    pub fn push_part(&mut self, part: &str) -> Result<(), AllocError> {
        self.state = State::Plain;
        for byte in part.as_bytes() {
            self.push(*byte)?;
        }
        Ok(())
    }

    fn push(&mut self, byte: u8) -> Result<(), AllocError> {
        match self.state {
            State::Plain => self.push_plain(byte),
            State::Escape => self.push_escaped(byte),
            State::High => {
                self.state = State::Low(digit(byte));
                Ok(())
            }
            State::Low(high) => self.push_as(high.wrapping_mul(16).wrapping_add(digit(byte))),
            State::Count => {
                self.push_count(byte);
                Ok(())
            }
        }
    }

    /// Adds a byte that ends an escape.
    fn push_as(&mut self, byte: u8) -> Result<(), AllocError> {
        self.state = State::Plain;
        self.bytes.push(byte)?;
        Ok(())
    }

    fn push_plain(&mut self, byte: u8) -> Result<(), AllocError> {
        if byte == b'\\' {
            self.state = State::Escape;
            return Ok(());
        }
        self.bytes.push(byte)?;
        Ok(())
    }

    /// The byte behind a backslash.
    fn push_escaped(&mut self, byte: u8) -> Result<(), AllocError> {
        match byte {
            b'n' => self.push_as(b'\n'),
            b'r' => self.push_as(b'\r'),
            b't' => self.push_as(b'\t'),
            b'x' => {
                self.state = State::High;
                Ok(())
            }
            b'<' => {
                self.count = 0;
                self.state = State::Count;
                Ok(())
            }
            b'>' => self.repeat(),
            _ => self.push_as(byte),
        }
    }

    /// A digit of how often a piece stands, or the blank before the piece.
    fn push_count(&mut self, byte: u8) {
        if byte == b' ' {
            self.start = self.bytes.len();
            self.state = State::Plain;
            return;
        }
        self.count = self
            .count
            .saturating_mul(10)
            .saturating_add(digit(byte) as usize);
    }

    /// Ends a repeated piece, which stands once so far.
    fn repeat(&mut self) -> Result<(), AllocError> {
        self.state = State::Plain;
        let piece = match self.bytes.get(self.start..) {
            Some(piece) => piece.to_vec(*self.bytes.allocator())?,
            None => return Ok(()),
        };
        self.bytes.truncate(self.start);
        for _ in 0..self.count {
            self.bytes.extend_from_slice(&piece)?;
        }
        Ok(())
    }
}
