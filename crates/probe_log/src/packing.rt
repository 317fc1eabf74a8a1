//! Appending entries to words.

ghost use Rattle.std.specs.Prelude.{◌≡◌, ◌+◌, ◌<◌, ◌%◌, ◌≤◌, ◌++◌, ◌∷◌, vec_len, vec_capacity};
ghost use Rattle.probe_log.specs.Packing.{word_if, latch_words, named_words, entry_words, block_len};
ghost use Rattle.probe_log.specs.Unpacking.{IsEntry};
ghost use Rattle.probe_log.specs.Reading.{starts_with};

use crate::header::Header;
use hart_model::{Probe, Why};
use isa_model::Latch;

/// Appends a word that follows.
fn push_if(follows: bool, word: u32, words: &mut Vec<u32>)
    requires room { vec_len words.old < vec_capacity words.old }
    ensures words { words.new.items ≡ words.old.items ++ word_if follows word }
    ensures len { vec_len words.new ≤ vec_len words.old + 1 }
    ensures capacity { vec_capacity words.new ≡ vec_capacity words.old }
{
    if follows {
        words.push_reserved(word);
    }
}

/// Appends the address of a word of memory.
fn push_latch(latch: Latch, words: &mut Vec<u32>)
    requires room { vec_len words.old < vec_capacity words.old }
    ensures words { words.new.items ≡ words.old.items ++ latch_words latch }
    ensures len { vec_len words.new ≤ vec_len words.old + 1 }
    ensures capacity { vec_capacity words.new ≡ vec_capacity words.old }
{
    if let Latch::Mem(at) = latch {
        words.push_reserved(at);
    }
}

/// Appends a task, a step and the address of a word of memory.
fn push_tag(task: u32, step: u32, latch: Latch, words: &mut Vec<u32>)
    requires room { vec_len words.old + 3 ≤ vec_capacity words.old }
    ensures words { words.new.items ≡ words.old.items ++ task ∷ step ∷ latch_words latch }
    ensures len { vec_len words.new ≤ vec_len words.old + 3 }
    ensures capacity { vec_capacity words.new ≡ vec_capacity words.old }
{
    words.push_reserved(task);
    words.push_reserved(step);
    push_latch(latch, words);
}

/// Appends what a why names.
fn push_named(why: &Why, words: &mut Vec<u32>)
    requires room { vec_len words.old + 3 ≤ vec_capacity words.old }
    ensures words { words.new.items ≡ words.old.items ++ named_words why.now }
    ensures len { vec_len words.new ≤ vec_len words.old + 3 }
    ensures capacity { vec_capacity words.new ≡ vec_capacity words.old }
{
    match *why {
        Why::Value {
            task,
            step,
            latch,
            ..
        } => push_tag(task, step, latch, words),
        Why::Step { task, step, latch } => push_tag(task, step, latch, words),
        _ => {}
    }
}

/// Appends the words of an entry, after this one of its block: at most nine.
pub(crate) fn push_entry(before: &Option<Probe>, probe: &Probe, words: &mut Vec<u32>)
    requires room { vec_len words.old + 9 ≤ vec_capacity words.old }
    ensures words { words.new.items ≡ words.old.items ++ entry_words before.now probe.entry.now }
    ensures len { vec_len words.new ≤ vec_len words.old + 9 }
    ensures capacity { vec_capacity words.new ≡ vec_capacity words.old }
    ensures entry { IsEntry probe.entry.now }
{
    let header = Header::new(before, probe);
    words.push_reserved(header.word());
    push_if(header.hart_follows, probe.hart, words);
    push_if(header.pc_follows, probe.pc, words);
    push_if(header.was_follows, probe.was, words);
    push_if(header.now_follows, probe.now, words);
    push_latch(probe.latch, words);
    push_named(&probe.why, words);
}

/// Appends the start of a block, where the entry of this number begins one.
pub(crate) fn push_start(number: u64, start: usize, starts: &mut Vec<usize>)
    requires room { number % block_len ≡ 0 → vec_len starts.old < vec_capacity starts.old }
    ensures starts { starts.new.items ≡ starts_with number start starts.old.items }
    ensures capacity { vec_capacity starts.new ≡ vec_capacity starts.old }
{
    if number % 64 == 0 {
        starts.push_reserved(start);
    }
}
