ghost use Rattle.std.specs.Prelude.{◌≡◌, ◌≤◌, ◌+◌, [], ◌++◌, length, decimal};

use itoa::Buffer;
use std::marker::Model;

/// How many bytes a line has at most.
const MOST: usize = 100;

/// A text of at most 100 bytes, without memory of its own. Contracts see its bytes.
#[derive(Drop)]
pub struct Line {
    bytes: [u8; MOST],
    len: usize,
}

impl Model for Line {
    ghost use Rattle.std.specs.Prelude.{ℕ, List, take, ◌≤◌};

    ghost Value = { List ℕ };

    ghost view = { λ line. take line.len line.bytes };

    ghost invariant = { λ line. line.len ≤ 100 };
}

impl Line {
    /// An empty line.
    pub fn new() -> Self
        ensures { result ≡ [] }
    {
        Line {
            bytes: [0; MOST],
            len: 0,
        }
    }

    /// The bytes of the line.
    pub fn bytes(&self) -> &[u8]
        ensures value { result.now ≡ self.now }
        ensures few { length result.now ≤ 100 }
    {
        &self.bytes[..self.len]
    }

    /// Puts these bytes in the place of the line's.
    pub fn set(&mut self, bytes: &[u8])
        requires { length bytes.now ≤ 100 }
        ensures value { self.new ≡ bytes.now }
        ensures len { length self.new ≡ length bytes.now }
    {
        self.bytes[..bytes.len()].copy_from_slice(bytes);
        self.len = bytes.len();
    }

    /// Puts these bytes at the end of the line.
    pub(crate) fn append(&mut self, bytes: &[u8])
        requires { length self.old + length bytes.now ≤ 100 }
        ensures value { self.new ≡ self.old ++ bytes.now }
        ensures len { length self.new ≡ length self.old + length bytes.now }
    {
        let end = self.len + bytes.len();
        self.bytes[self.len..end].copy_from_slice(bytes);
        self.len = end;
    }

    /// Puts a number at the end of the line.
    pub(crate) fn append_number(&mut self, number: u64)
        requires { length self.old + length (decimal number) ≤ 100 }
        ensures value { self.new ≡ self.old ++ decimal number }
        ensures len { length self.new ≡ length self.old + length (decimal number) }
    {
        self.append(Buffer::new().format(number).as_bytes());
    }
}
