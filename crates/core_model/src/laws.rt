//! Laws about the definitions of `specs/`: each is the contract of a function that does nothing.

ghost use Rattle.core_model.specs.Events.{CountsAreLengths};
ghost use Rattle.core_model.specs.Loaded.{TasksAreApart};
ghost use Rattle.core_model.specs.Bands.{BandsGoInOrder};
ghost use Rattle.core_model.specs.Conservation.{ActionsConserve, TasksBeginOwn};

/// Runs stand for as many events, and for as many entries of an order, as the sum of their times says.
pub fn counts_are_lengths()
    ensures law { CountsAreLengths }
{}

/// No address belongs to two tasks at their places.
pub fn tasks_are_apart()
    ensures law { TasksAreApart }
{}

/// Queue actions move tasks and slots from place to place, and copy none: after a take or a give each task is in as many places of the
/// board as before, and no slot in more.
pub fn actions_conserve()
    ensures law { ActionsConserve }
{}

/// Whatever is ready stands in the list of its task's band, at boot and after every queue action, and a task of band 1 is taken only
/// where no task of band 0 is ready.
pub fn bands_go_in_order()
    ensures law { BandsGoInOrder }
{}

/// At boot each task has its own code, tape and limits.
pub fn tasks_begin_own()
    ensures law { TasksBeginOwn }
{}
