//! Laws of the cores of alike bundles: each is the contract of a function that does nothing.

ghost use Rattle.core_invariant.specs.KernelStates.{IsAlikeKernel, emitted_parts};
ghost use Rattle.noninterference.specs.Laws.{AlikeLogsAgree, OwnPartsDo};

/// With every kernel whose save part and restore part do alike on harts that are alike, the logs of alike bundles agree publicly after
/// every list of events: the same harts wrote the same latches at the same pcs with the same whys, and each value whose why leaves it
/// public is the same.
pub fn alike_logs_agree()
    ensures agree { AlikeLogsAgree }
{}

/// The kernel's own save part saves, and its own restore part restores, by themselves, whatever code stands around them: the values, the
/// tags and entries, and two runs that are alike.
pub fn own_parts_do()
    ensures parts { OwnPartsDo }
{}

/// The kernel of this project is one whose parts do alike.
pub fn emitted_is_alike()
    ensures alike { IsAlikeKernel emitted_parts }
{}
