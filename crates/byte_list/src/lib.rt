// A list of bytes in fixed memory: the front of an array. What stands after the front is out of reach.
#![tactic(auto)]

ghost use Rattle.std.specs.Prelude.{◌≡◌, [], ◌++◌, ◌+◌, ◌≤◌, List, ℕ, length, take};

use std::marker::Model;

#[derive(Drop)]
pub struct ByteList<const N: usize> {
    bytes: [u8; N],
    length: usize,
}

// Clauses see the bytes.
impl<const N: usize> Model for ByteList<N> {
    ghost Value = { List ℕ };

    ghost view = { λ l. take l.length l.bytes };

    ghost invariant = { λ l. l.length ≤ N };
}

impl<const N: usize> ByteList<N> {
    // A list with no byte.
    pub fn new() -> Self
        ensures { result ≡ [] }
    {
        ByteList {
            bytes: [0; N],
            length: 0,
        }
    }

    // All of them.
    pub fn as_slice(&self) -> &[u8]
        ensures all { result.now ≡ self.now }
        ensures fits { length self.now ≤ N }
    {
        &self.bytes[..self.length]
    }

    // No byte stays.
    pub fn clear(&mut self)
        ensures { self.new ≡ [] }
    {
        self.length = 0;
    }

    // Bytes go after those that there are.
    pub fn push(&mut self, bytes: &[u8])
        requires { length self.old + length bytes.now ≤ N }
        ensures { self.new ≡ self.old ++ bytes.now }
    {
        let end = self.length + bytes.len();
        let all = &mut self.bytes[..];
        all[self.length..end].copy_from_slice(bytes);
        self.length = end;
    }

    // As many bytes as there is room for go after those that there are.
    pub fn keep(&mut self, bytes: &[u8])
        ensures { self.new ≡ take N (self.old ++ bytes.now) }
    {
        let room = N - self.length;
        let kept = bytes.len().min(room);
        self.push(&bytes[..kept]);
    }
}
