//! The output of a task.

ghost use Rattle.std.specs.Prelude.{◌≡◌, ◌-◌, ◌<◌, ◌≤◌, ◌++◌, ◌∷◌, [], length, IfOk};

use isa_model::Words;
use std::alloc::{AllocError, Global};
use std::marker::Model;

/// Words of output, with their maximum and the room for it, so that no later word takes memory.
#[derive(Debug, Drop)]
pub(crate) struct Output {
    words: Vec<u32>,
    max: u32,
}

impl Model for Output {
    ghost use Rattle.std.specs.Prelude.{◌≤◌, vec_len, vec_capacity};
    ghost use Rattle.context_slot.specs.Output.{OutputWords};

    ghost Value = { OutputWords };

    ghost view = { λ o. record { words = o.words.items; max = o.max } };

    ghost invariant = { λ o. (vec_len o.words ≤ o.max) × (o.max ≤ vec_capacity o.words) };
}

impl Output {
    /// No words, and the room for the maximum. `AllocError` is want of memory for it.
    pub(crate) fn new(alloc: Global, max: u32) -> Result<Output, AllocError>
        ensures empty { IfOk result (λ o. o ≡ record { words = []; max = max }) }
    {
        Ok(Output {
            words: Vec::with_capacity(alloc, max as usize)?,
            max,
        })
    }

    /// These words, and the room for the maximum. `AllocError` is want of memory for it.
    pub(crate) fn again(alloc: Global, words: &[u32], max: u32) -> Result<Output, AllocError>
        requires fits { length words.now ≤ max }
        ensures output { IfOk result (λ o. o ≡ record { words = words.now; max = max }) }
    {
        let mut room = Vec::with_capacity(alloc, max as usize)?;
        room.extend_from_slice(words)?;
        Ok(Output { words: room, max })
    }

    /// Appends a word. Takes no memory.
    pub(crate) fn push(&mut self, word: u32)
        requires room { length self.old.words < self.old.max }
        ensures output { self.new ≡ record self.old { words = self.old.words ++ word ∷ [] } }
    {
        self.words.push_reserved(word);
    }

    /// How many more words there may be.
    pub(crate) fn left(&self) -> u32
        ensures left { result ≡ self.now.max - length self.now.words }
    {
        self.max - self.words.len() as u32
    }

    /// The words.
    pub(crate) fn as_slice(&self) -> &[u32]
        ensures words { result.now ≡ self.now.words }
    {
        self.words.as_slice()
    }

    /// The words alone.
    pub(crate) fn into_words(self) -> Words
        ensures words { result ≡ self.words }
    {
        let Output { words, max: _ } = self;
        Words::new(words)
    }
}
