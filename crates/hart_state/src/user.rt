//! A step in user mode.

ghost use Rattle.std.specs.Prelude.{◌≡◌, ◌+◌, ◌≤◌, List, ◌++◌, length};
ghost use Rattle.hart_model.specs.declared.probe.Probe.{Probe as LogEntry};
ghost use Rattle.isa_model.specs.InstrTable.{instr_of};
ghost use Rattle.hart_model.specs.Traps.{csrs_after_trap};
ghost use Rattle.hart_model.specs.UserStep.{is_fuel_used as is_fuel_used_by, exception as exception_of, user_effect, user_effect_of_instr, with_next_count, after_user_writes, no_writes, user_instr_step as instr_step_of, user_step as user_step_of};
ghost use Rattle.hart_model.specs.StepResult.{did_of, hart_after, probes_of};
ghost use Rattle.rv_effect.specs.View.{next_of};
ghost use Rattle.rv_effect.specs.EffectView.{effect_value};
ghost use Rattle.isa_model.specs.Effect.{GoesAligned};
ghost use Rattle.hart_state.specs.UserDeed.{HasUserDeed, CanCount};

use crate::hart::Hart;
use crate::writer::Writer;
use context_slot::Body;
use hart_model::Did;
use probe_log::Keeper;
use rv_decode::decode;
use rv_effect::{Effect, Next, effect_of, is_privileged, no_effect};

/// What an instruction of a task does: who writes, and the effect.
#[derive(Drop)]
pub struct UserDeed {
    pub writer: Writer,
    pub effect: Effect,
}

/// An exception before anything is written.
fn exception(cause: u32) -> Effect
    ensures effect { effect_value result ≡ exception_of cause }
{
    no_effect(Next::Raises(cause))
}

impl Hart {
    /// The effect of the instruction of a word.
    fn effect_of_word(&self, body: &Body, word: u32) -> Effect
        ensures effect { effect_value result ≡ user_effect_of_instr self.now body.now (instr_of word) }
        ensures aligned { GoesAligned (next_of result.next) }
    {
        match decode(word) {
            None => exception(2),
            Some(instr) => {
                if is_privileged(&instr) {
                    exception(2)
                } else {
                    effect_of(&instr, self.pc, &self.user_values(body, &instr))
                }
            }
        }
    }

    /// The effect of the instruction at the pc, by the order of the checks.
    fn user_outcome(&self, body: &Body) -> Effect
        ensures effect { effect_value result ≡ user_effect self.now body.now }
        ensures aligned { GoesAligned (next_of result.next) }
    {
        match self.user_code_word(body) {
            None => exception(1),
            Some(word) => self.effect_of_word(body, word),
        }
    }

    /// What the instruction at the pc does, where something is held.
    fn user_deed(&self) -> Option<UserDeed>
        requires count { CanCount self.now.held }
        ensures deed { HasUserDeed self.now self.now.held result }
    {
        match &self.held {
            None => None,
            Some(context) => {
                let body = context.body();
                let writer = Writer::User {
                    task: body.task_no(),
                    step: body.count() + 1,
                };
                Some(UserDeed {
                    writer,
                    effect: self.user_outcome(body),
                })
            }
        }
    }

    /// Takes a trap at the pc, and goes on at `mtvec`.
    fn trap(&mut self, cause: u32) -> Did
        ensures did { result ≡ Did.Trapped cause }
        ensures hart { self.new ≡ record self.old { csrs = csrs_after_trap self.old.csrs cause self.old.pc; pc = self.old.csrs.mtvec } }
    {
        self.pc = self.csrs.trap(cause, self.pc);
        Did::Trapped(cause)
    }

    /// What follows the writes of an instruction in user mode.
    fn follow(&mut self, next: Next) -> Did
        requires aligned { GoesAligned (next_of next) }
        ensures did { result ≡ did_of (after_user_writes (no_writes self.old) (next_of next)) }
        ensures hart { self.new ≡ hart_after self.old (after_user_writes (no_writes self.old) (next_of next)) }
    {
        match next {
            Next::Goes(pc) => {
                self.pc = pc;
                Did::Ran
            }
            Next::Raises(cause) => self.trap(cause),
            Next::Calls => self.trap(8),
            Next::Returns => self.trap(2),
        }
    }

    /// Counts one instruction more of what is held.
    fn raise_count(&mut self)
        requires count { CanCount self.old.held }
        ensures hart { self.new ≡ with_next_count self.old }
    {
        match &mut self.held {
            None => {}
            Some(context) => context.raise_count(),
        }
    }

    /// Whether what is held has used its fuel.
    fn is_fuel_used(&self) -> bool
        ensures test { result ≡ is_fuel_used_by self.now.held }
    {
        match &self.held {
            None => false,
            Some(context) => {
                let body = context.body();
                body.count() == body.task().fuel
            }
        }
    }

    /// An instruction of what is held. Where nothing is, there is no word to fetch.
    fn user_instr_step<K: Keeper>(&mut self, keeper: &mut K) -> Did
        requires room { 6 ≤ K.room_of keeper.old }
        requires count { CanCount self.old.held }
        ensures did { result ≡ did_of (instr_step_of self.old self.old.held) }
        ensures hart { self.new ≡ hart_after self.old (instr_step_of self.old self.old.held) }
        ensures log { (log : List LogEntry) → K.stands keeper.old log → K.stands keeper.new (log ++ probes_of (instr_step_of self.old self.old.held)) }
        ensures room { K.room_of keeper.new + length (probes_of (instr_step_of self.old self.old.held)) ≡ K.room_of keeper.old }
    {
        match self.user_deed() {
            None => self.trap(1),
            Some(deed) => {
                self.write_all(&deed.writer, &deed.effect.writes, keeper);
                self.raise_count();
                self.follow(deed.effect.next)
            }
        }
    }

    /// A step in user mode: the interrupt of used fuel, else that of the timer, each only where it is enabled; else one instruction.
    #[tactic(auto, unfolding(hart_model::specs::UserStep::user_step))]
    pub(crate) fn user_step<K: Keeper>(&mut self, keeper: &mut K) -> Did
        requires room { 6 ≤ K.room_of keeper.old }
        requires count { CanCount self.old.held }
        ensures did { result ≡ did_of (user_step_of self.old) }
        ensures hart { self.new ≡ hart_after self.old (user_step_of self.old) }
        ensures log { (log : List LogEntry) → K.stands keeper.old log → K.stands keeper.new (log ++ probes_of (user_step_of self.old)) }
        ensures room { K.room_of keeper.new + length (probes_of (user_step_of self.old)) ≡ K.room_of keeper.old }
    {
        match self.csrs.interrupt(self.is_fuel_used()) {
            Some(cause) => self.trap(cause),
            None => self.user_instr_step(keeper),
        }
    }
}
