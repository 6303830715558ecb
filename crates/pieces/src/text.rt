ghost use Rattle.std.specs.Prelude.{◌≡◌, true, Some, None, []};
ghost use Rattle.tokens.specs.Names.{name_bytes};
ghost use Rattle.tokens.specs.Numbers.{decimal};
ghost use Rattle.pieces.specs.Texts.{added, text_seen};

use arrayvec::ArrayVec;
use std::marker::Model;
use tokens::Name;

// A text that is being written, of at most N bytes. Once a part was refused, or had no room, nothing is added.
#[derive(Drop)]
pub struct Text<const N: usize> {
    bytes: ArrayVec<u8, N>,
    refused: bool,
}

// Clauses see the text, and none once a part was refused.
impl<const N: usize> Model for Text<N> {
    ghost use Rattle.std.specs.Prelude.{ℕ, ◌≤◌, List, Option, Some, None, cond, length};

    ghost Value = { Option (List ℕ) };

    ghost view = { λ t. cond t.refused None (Some t.bytes.items) };

    ghost invariant = { λ t. length t.bytes.items ≤ N };
}

impl<const N: usize> Text<N> {
    pub fn new() -> Self
        ensures { result ≡ Some [] }
    {
        Text {
            bytes: ArrayVec::new(),
            refused: false,
        }
    }

    // Refuses the text.
    pub fn refuse(&mut self)
        ensures { self.new ≡ None }
    {
        self.refused = true;
    }

    // The bytes w, if there is room for all of them.
    pub fn put(&mut self, w: &[u8])
        ensures { self.new ≡ added N w.now true self.old }
    {
        if self.bytes.try_extend_from_slice(w).is_err() {
            self.refused = true;
        }
    }

    // A number in decimal.
    pub fn number(&mut self, v: u64)
        ensures { self.new ≡ added N (decimal v) true self.old }
    {
        let mut out = [b'0'; 20];
        let i = crate::digits(&mut out, v);
        self.put(&out[i..]);
    }

    // A name.
    pub fn name(&mut self, n: Name)
        ensures { self.new ≡ added N (name_bytes n) true self.old }
    {
        let mut half = [0u8; 8];
        let i = crate::spread(&mut half, n.hi);
        self.put(&half[i..]);
        let j = crate::spread(&mut half, n.lo);
        self.put(&half[j..]);
    }

    // The text, if nothing was refused.
    pub fn text(&self) -> Option<&[u8]>
        ensures { text_seen result ≡ self.now }
    {
        if self.refused {
            return None;
        }
        Some(self.bytes.as_slice())
    }
}
