//! The places of labels.

ghost use Rattle.std.specs.Prelude.{◌≡◌, ◌++◌, ◌∷◌, [], false, OnOk};
ghost use Rattle.std.specs.Map.{lookup};
ghost use Rattle.std.specs.Str.{bytes_eq};
ghost use Rattle.rv_asm.specs.Listing.{is_among};
ghost use Rattle.rv_asm.specs.Places.{names};

use indexmap::IndexMap;
use std::alloc::{AllocError, Global};
use std::marker::Model;

/// Labels with their places, in the order in which they stand. Contracts see them as a list. A look-up takes the time of a hash.
#[derive(Drop)]
pub(crate) struct Places {
    inner: IndexMap<Vec<u8>, u32>,
}

impl Model for Places {
    ghost use Rattle.std.specs.Prelude.{ℕ, List, map};

    ghost Value = { List (List ℕ × ℕ) };

    ghost view = { λ p. map (λ e. (e.0.items, e.1)) p.inner.entries };
}

impl Places {
    /// No labels.
    pub(crate) fn new(alloc: Global) -> Places
        ensures empty { result ≡ [] }
    {
        Places {
            inner: IndexMap::new(alloc),
        }
    }

    /// The place of a label.
    pub(crate) fn place_of(&self, label: &[u8]) -> Option<u32>
        ensures value { result ≡ lookup (bytes_eq label.now) self.now }
    {
        self.inner.get(label).copied()
    }

    /// Whether a label is among them.
    pub(crate) fn contains(&self, label: &[u8]) -> bool
        ensures value { result ≡ is_among (names self.now) label.now }
    {
        self.inner.contains_key(label)
    }

    /// Puts a new label after the others.
    pub(crate) fn add(&mut self, alloc: Global, label: &[u8], place: u32) -> Result<(), AllocError>
        requires new { is_among (names self.old) label.now ≡ false }
        ensures ok { OnOk result (self.new ≡ self.old ++ (label.now, place) ∷ []) }
    {
        self.inner.insert(Vec::from_slice(alloc, label)?, place)?;
        Ok(())
    }
}
