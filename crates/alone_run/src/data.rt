//! The data words of a task.

ghost use Rattle.std.specs.Prelude.{◌≡◌, replicate, IfOk, IsSome};
ghost use Rattle.alone_run.specs.DataWords.{data_word, with_data_word};

use std::alloc::{AllocError, Global};
use std::marker::Model;

/// Data words, and the address of the first one in bytes.
#[derive(Drop)]
pub(crate) struct Data {
    at: u32,
    words: Vec<u32>,
}

impl Model for Data {
    ghost use Rattle.alone_run.specs.DataWords.{DataWords};

    ghost Value = { DataWords };

    ghost view = { λ d. record { at = d.at; words = d.words.items } };
}

impl Data {
    /// Words of 0 from an address on.
    pub(crate) fn new(alloc: Global, at: u32, len: u32) -> Result<Data, AllocError>
        ensures zeros { IfOk result (λ d. d ≡ record { at = at; words = replicate len 0 }) }
    {
        Ok(Data {
            at,
            words: vec![in alloc; 0; len as usize]?,
        })
    }

    /// The same words in memory of their own.
    pub(crate) fn copy(&self, alloc: Global) -> Result<Data, AllocError>
        ensures same { IfOk result (λ d. d ≡ self.now) }
    {
        Ok(Data {
            at: self.at,
            words: Vec::from_slice(alloc, self.words.as_slice())?,
        })
    }

    /// The word that an address lies in.
    pub(crate) fn get(&self, at: u32) -> Option<u32>
        ensures word { result ≡ data_word self.now at }
    {
        if at < self.at {
            return None;
        }
        let index = (at - self.at) / 4;
        self.words.as_slice().get(index as usize).copied()
    }

    /// Writes the word that an address lies in.
    pub(crate) fn set(&mut self, at: u32, word: u32)
        requires within { IsSome (data_word self.old at) }
        ensures written { self.new ≡ with_data_word at word self.old }
    {
        let index = (at - self.at) / 4;
        self.words[index as usize] = word;
    }
}
