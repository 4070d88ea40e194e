ghost use Rattle.std.specs.Prelude.{◌≡◌, ℕ, ◌+◌, ◌<◌, ◌≤◌, List, [], ◌∷◌, ◌++◌, length, take};
ghost use Rattle.text.specs.Text.{digits_of, signed_of};

use std::marker::Model;

// Bytes written one after the other into an array, at most N.
#[derive(Drop)]
pub struct Bytes<const N: usize> {
    array: [u8; N],
    len: usize,
}

// Clauses see the bytes written so far.
impl<const N: usize> Model for Bytes<N> {
    ghost Value = { List ℕ };

    ghost view = { λ b. take b.len b.array };

    ghost invariant = { λ b. b.len ≤ N };
}

impl<const N: usize> Bytes<N> {
    // None so far.
    pub fn new() -> Self
        ensures { result ≡ [] }
    {
        Bytes {
            array: [0; N],
            len: 0,
        }
    }

    // Writes a byte after the others.
    pub fn push(&mut self, byte: u8)
        requires { length self.old < N }
        ensures { self.new ≡ self.old ++ (byte ∷ []) }
    {
        self.array[self.len] = byte;
        self.len += 1;
    }

    // Writes the digits of n after the others. Written one by one with `push`, or given by value out of each turn of the recursion, they took 2.6 and 5
    // times as long (docs/DESIGN-PASS.md).
    pub fn push_digits(&mut self, n: u32)
        requires { length self.old + length (digits_of n) ≤ N }
        ensures { self.new ≡ self.old ++ digits_of n }
    {
        self.len = crate::digits(&mut self.array, self.len, n);
    }

    // Writes n after the others, with a minus before a negative one.
    pub fn push_signed(&mut self, n: i32)
        requires { length self.old + length (signed_of n) ≤ N }
        ensures { self.new ≡ self.old ++ signed_of n }
    {
        if n < 0 {
            self.push(b'-');
        }
        self.push_digits(n.unsigned_abs());
    }

    // Writes more bytes after the others.
    pub fn extend(&mut self, more: &[u8])
        requires { length self.old + length more.now ≤ N }
        ensures { self.new ≡ self.old ++ more.now }
    {
        for &byte in more {
            self.push(byte);
        }
    }

    // How many there are.
    pub fn len(&self) -> usize
        ensures count { result ≡ length self.now }
        ensures fits { result ≤ N }
    {
        self.len
    }

    // The bytes written so far.
    pub fn as_slice(&self) -> &[u8]
        ensures { result.now ≡ self.now }
    {
        &self.array[..self.len]
    }
}
