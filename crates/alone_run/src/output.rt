//! The output of a task.

ghost use Rattle.std.specs.Prelude.{◌≡◌, ◌++◌, ◌∷◌, [], length, nat_lt, IfOk, if◌then◌else◌};

use isa_model::Words;
use std::alloc::{AllocError, Global};
use std::marker::Model;

/// Words of output, with their maximum and the room for it.
#[derive(Drop)]
pub(crate) struct Output {
    words: Vec<u32>,
    max: u32,
}

impl Model for Output {
    ghost use Rattle.std.specs.Prelude.{◌≤◌, vec_capacity};
    ghost use Rattle.alone_run.specs.OutputWords.{OutputWords};

    ghost Value = { OutputWords };

    ghost view = { λ o. record { words = o.words.items; max = o.max } };

    ghost invariant = { λ o. o.max ≤ vec_capacity o.words };
}

impl Output {
    /// No words, and the room for the maximum.
    pub(crate) fn new(alloc: Global, max: u32) -> Result<Output, AllocError>
        ensures empty { IfOk result (λ o. o ≡ record { words = []; max = max }) }
    {
        Ok(Output {
            words: Vec::with_capacity(alloc, max as usize)?,
            max,
        })
    }

    /// These words, and the room for the maximum.
    pub(crate) fn with_words(alloc: Global, max: u32, words: &[u32]) -> Result<Output, AllocError>
        ensures words { IfOk result (λ o. o ≡ record { words = words.now; max = max }) }
    {
        let mut room = Vec::with_capacity(alloc, max as usize)?;
        room.extend_from_slice(words)?;
        Ok(Output { words: room, max })
    }

    /// Appends a word. It answers false, with nothing changed, exactly where the maximum is reached.
    pub(crate) fn append(&mut self, word: u32) -> bool
        ensures room { result ≡ nat_lt (length self.old.words) self.old.max }
        ensures after { self.new ≡ (if nat_lt (length self.old.words) self.old.max
            then record self.old { words = self.old.words ++ word ∷ [] } else self.old) }
    {
        if self.words.len() < self.max as usize {
            self.words.push(word).unwrap();
            true
        } else {
            false
        }
    }

    /// The words in memory of their own, with no room for more.
    pub(crate) fn words(&self, alloc: Global) -> Result<Words, AllocError>
        ensures words { IfOk result (λ words. words ≡ self.now.words) }
    {
        Ok(Words::new(Vec::from_slice(alloc, self.words.as_slice())?))
    }

    /// The words.
    pub(crate) fn as_slice(&self) -> &[u32]
        ensures words { result.now ≡ self.now.words }
    {
        self.words.as_slice()
    }
}
