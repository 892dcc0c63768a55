// The bytes of a label while it is written, in a buffer that holds the longest.
ghost use Rattle.std.specs.Prelude.{◌≡◌, ℕ, ◌+◌, ◌≤◌, List, [], ◌++◌, length, take};

use chip::ERASED;
use std::marker::Model;

// The most bytes of a written label.
pub const LONGEST_LABEL: usize = 58;

// A label as far as it is written: contracts see the list of its bytes. An array and a length, since there is no heap.
#[derive(Clone, Copy)]
pub struct LabelBytes {
    bytes: [u8; LONGEST_LABEL],
    len: usize,
}

impl Model for LabelBytes {
    ghost use Rattle.std.specs.Prelude.{◌≡◌, ℕ, ◌-◌, ◌≤◌, List, ◌++◌, length, take, replicate, refl};

    ghost Value = { List ℕ };

    // The first `len` bytes of the buffer are the label; those behind it are erased.
    ghost view = { λ l. take l.len l.bytes };

    ghost invariant = { λ l. (l.len ≤ 58) × (length (take l.len l.bytes) ≡ l.len) × (take l.len l.bytes ++ replicate (58 - l.len) 255 ≡ l.bytes) };

    ghost inverse = { λ v. record { bytes = v ++ replicate (58 - length v) 255; len = length v } };

    ghost inverse_ok = { λ l h. rw (h.1, h.2) refl };
}

impl LabelBytes {
    // Before the first field.
    pub(crate) fn empty() -> LabelBytes
        ensures { result ≡ [] }
    {
        LabelBytes {
            bytes: [ERASED; LONGEST_LABEL],
            len: 0,
        }
    }

    // Adds `part` behind what is written so far.
    pub(crate) fn add(&mut self, part: &[u8])
        requires { length self.old + length part.now ≤ 58 }
        ensures { self.new ≡ self.old ++ part.now }
    {
        let end = self.len + part.len();
        self.bytes[self.len..end].copy_from_slice(part);
        self.len = end;
    }

    // The label alone.
    pub fn as_slice(&self) -> &[u8]
        ensures bytes { result.now ≡ self.now }
        ensures most { length self.now ≤ 58 }
    {
        &self.bytes[..self.len]
    }
}
