//! The words of a part, one after the other.

ghost use Rattle.std.specs.Prelude.{◌≡◌, ◌+◌, ◌<◌, ◌^◌, length, drop};
ghost use Rattle.routine_laws.specs.Rules.{outcome_of};
ghost use Rattle.scrub_rules.specs.View.{part_outcome};

use crate::rule::WordFault;
use crate::storage::Storage;

impl Storage {
    /// The words of a part from one on, the part's first one having a place among the words of both: the first that breaks a rule of
    /// words, if any.
    #[tactic(auto, unfolding(routine_laws::specs::Rules::outcome_of))]
    fn follow_from(&mut self, words: &[u32], from: usize, start: u32) -> Option<WordFault>
        requires places { start + length words.now < 2 ^ 32 }
        ensures outcome { part_outcome result self.new ≡ outcome_of (start + from) self.old (drop from words.now) }
    {
        if from < words.len() {
            if let Some(rule) = self.follow(words[from]) {
                let at = start + from as u32;
                return Some(WordFault { at, rule });
            }
            self.follow_from(words, from + 1, start)
        } else {
            None
        }
    }

    /// The words of a part, the first one having a place among the words of both: the first that breaks a rule of words, if any.
    pub(crate) fn follow_all(&mut self, words: &[u32], start: u32) -> Option<WordFault>
        requires places { start + length words.now < 2 ^ 32 }
        ensures outcome { part_outcome result self.new ≡ outcome_of start self.old words.now }
    {
        self.follow_from(words, 0, start)
    }
}
