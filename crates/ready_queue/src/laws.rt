//! A law about boards: the contract of a function that does nothing.

ghost use Rattle.ready_queue.specs.Laws.{BootedContextsStand};

/// At boot each ready context stands for its task, and none has an end.
pub fn booted_contexts_stand()
    ensures law { BootedContextsStand }
{}
