// Bytes that were read and not taken yet.
ghost use Rattle.std.specs.Prelude.{◌≡◌, ◌≢◌, ◌≤◌, [], IfOk, OnOk, drop, length};
ghost use Rattle.std.specs.Io.KnownBytes.{IsAtEnd, Keeps, prepend_known};

use std::alloc::{AllocError, Global};
use std::io::{self, Read};
use std::marker::Model;

// How many bytes are asked of a reader at once.
const PIECE: usize = 65_536;

// Bytes that were read and not taken yet, which a contract sees as their list.
#[derive(Drop)]
pub(crate) struct Unread {
    piece: Vec<u8>,
    from: usize,
    to: usize,
}

impl Model for Unread {
    ghost use Rattle.std.specs.Prelude.{ℕ, List, ◌<◌, ◌≤◌, slice_range, vec_len};

    ghost Value = { List ℕ };

    ghost view = { λ it. slice_range it.piece.items it.from it.to };

    ghost invariant = { λ it. (it.from ≤ it.to) × (it.to ≤ vec_len it.piece) ×
        (0 < vec_len it.piece) };
}

impl Unread {
    pub(crate) fn new(alloc: Global) -> Result<Self, AllocError>
        ensures { IfOk result (λ it. it ≡ []) }
    {
        Ok(Unread {
            piece: vec![in alloc; 0u8; PIECE]?,
            from: 0,
            to: 0,
        })
    }

    pub(crate) fn as_slice(&self) -> &[u8]
        ensures { result.now ≡ self.now }
    {
        &self.piece[self.from..self.to]
    }

    // Takes the first of them.
    pub(crate) fn consume(&mut self, count: usize)
        requires { count ≤ length self.old }
        ensures { self.new ≡ drop count self.old }
    {
        self.from += count;
    }

    // Sees to it that there are some, unless the reader is at its end. Where there are some already
    // the reader isn't asked.
    pub(crate) fn fill<R: Read>(&mut self, reader: &mut R) -> io::Result<()>
        ensures waits { self.old ≢ [] → (reader.new ≡ reader.old) × (self.new ≡ self.old) }
        ensures keeps { Keeps (prepend_known self.old (R.remaining reader.old))
            (prepend_known self.new (R.remaining reader.new)) }
        ensures end { OnOk result (self.new ≡ [] → IsAtEnd (R.remaining reader.new)) }
    {
        if self.from < self.to {
            return Ok(());
        }
        self.from = 0;
        self.to = 0;
        self.to = reader.read(&mut self.piece)?;
        Ok(())
    }
}
