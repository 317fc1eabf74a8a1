//! A step of a hart.

ghost use Rattle.std.specs.Prelude.{◌≡◌, ◌≤◌, ◌+◌, List, ◌++◌, length};
ghost use Rattle.hart_model.specs.declared.probe.Probe.{Probe as LogEntry};
ghost use Rattle.hart_model.specs.HartStep.{hart_step};
ghost use Rattle.hart_model.specs.StepResult.{did_of, hart_after, probes_of};
ghost use Rattle.hart_model.specs.declared.calls.QueueCall.{QueueCall};
ghost use Rattle.hart_state.specs.Asked.{AsksFor};
ghost use Rattle.hart_state.specs.UserDeed.{CanCount};

use crate::hart::Hart;
use hart_model::{Did, Mode};
use probe_log::Keeper;

impl Hart {
    /// One step by the mode.
    fn step_by_mode<K: Keeper>(&mut self, code: &[u32], keeper: &mut K) -> Did
        requires room { 6 ≤ K.room_of keeper.old }
        requires count { CanCount self.old.held }
        ensures did { result ≡ did_of (hart_step code.now self.old) }
        ensures hart { self.new ≡ hart_after self.old (hart_step code.now self.old) }
        ensures log { (log : List LogEntry) → K.stands keeper.old log → K.stands keeper.new (log ++ probes_of (hart_step code.now self.old)) }
        ensures room { K.room_of keeper.new + length (probes_of (hart_step code.now self.old)) ≡ K.room_of keeper.old }
    {
        match self.csrs.mode() {
            Mode::User => self.user_step(keeper),
            Mode::Machine => self.machine_step(code, keeper),
        }
    }

    /// One step, with the words of the kernel's code, which stand from 0x1000 on. In user mode that is an interrupt, or one
    /// instruction of the task that is held; in machine mode one instruction of the kernel. At a queue action it answers `Wants` and
    /// changes nothing; asked again it answers the same. A wedged hart changes nothing either. Every write of a latch makes an entry.
    pub fn step<K: Keeper>(&mut self, code: &[u32], keeper: &mut K) -> Did
        requires room { 6 ≤ K.room_of keeper.old }
        requires count { CanCount self.old.held }
        ensures did { result ≡ did_of (hart_step code.now self.old) }
        ensures hart { self.new ≡ hart_after self.old (hart_step code.now self.old) }
        ensures wants { (call : QueueCall) → result ≡ Did.Wants call → AsksFor call (hart_step code.now self.old) }
        ensures wants_kept { (call : QueueCall) → result ≡ Did.Wants call → self.new ≡ self.old }
        ensures wedged_kept { result ≡ Did.Wedged → self.new ≡ self.old }
        ensures log { (log : List LogEntry) → K.stands keeper.old log → K.stands keeper.new (log ++ probes_of (hart_step code.now self.old)) }
        ensures room { K.room_of keeper.new + length (probes_of (hart_step code.now self.old)) ≡ K.room_of keeper.old }
    {
        self.step_by_mode(code, keeper)
    }
}
