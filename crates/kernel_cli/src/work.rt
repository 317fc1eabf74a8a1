//! What a command takes: what it reads, for how many harts, and whether threads do it. All that does a command goes by its work.

ghost use Rattle.std.specs.Prelude.{◌≡◌, Some, IfSome, option_map, map, string_bytes};
ghost use Rattle.kernel_cli.specs.Works.{work_of, work_in, harts_of, threads_of, limit_of, HasCounts, served_by_threads};
ghost use Rattle.kernel_cli.specs.declared.work.Work.TheVariants as works;

use crate::command::{Command, read_words};
use crate::laws::commands_are_decided;

/// The work of a command.
#[derive(Clone, Copy, Debug, PartialEq, Eq)]
pub enum Work {
    /// Over a bundle, which one thread does.
    Bundle(BundleWork),
    /// Over lines of code.
    Code(CodeWork),
    /// Over the bundle of a number. It doesn't read the source.
    Generated(GeneratedWork),
    /// Over a bundle, with a worker on a thread for each hart.
    Threads(ThreadWork),
}

/// What is done over a bundle on one thread.
#[derive(Clone, Copy, Debug, PartialEq, Eq)]
pub enum BundleWork {
    /// `alone`: runs each task by itself.
    Alone,
    /// `asm`: lists the code of each task.
    Asm,
    /// `script`: runs the core by the bundle's list of events.
    Script {
        /// Whether the entries of the log are listed before the report.
        probes: bool,
    },
    /// `replay H`: runs the core by the bundle's order.
    Replay {
        /// How many harts there are: 1 to 8.
        harts: u32,
        /// Whether the entries of the log are listed before the report.
        probes: bool,
    },
    /// `explain`: shows the values of the tasks' runs alone beside the entries of the log that aren't public.
    Explain,
    /// `certify`: judges the first task in the bundle's worlds.
    Certify,
    /// `certify 2`: judges it by two probes at once.
    CertifyTwo,
}

/// What is done over lines of code.
#[derive(Clone, Copy, Debug, PartialEq, Eq)]
pub enum CodeWork {
    /// `lint`: checks them as a routine of one's own.
    Lint,
    /// `lint SEED N`: checks them, and runs the bundle of a number with the routine.
    LintDrill {
        /// The number.
        seed: u64,
        /// How many tasks there are: 1 to 32.
        tasks: u32,
    },
}

/// What is done over the bundle of a number.
#[derive(Clone, Copy, Debug, PartialEq, Eq)]
pub enum GeneratedWork {
    /// `gen SEED N`: writes it.
    Gen {
        /// The number.
        seed: u64,
        /// How many tasks there are: 1 to 32.
        tasks: u32,
    },
    /// `drill SEED N`: runs it on one hart.
    Drill {
        /// The number.
        seed: u64,
        /// How many tasks there are: 1 to 32.
        tasks: u32,
    },
}

/// What is done over a bundle on threads.
#[derive(Clone, Copy, Debug, PartialEq, Eq)]
pub enum ThreadWork {
    /// `run H`: runs the harts until all tasks have ended.
    Run {
        /// How many harts there are: 1 to 8.
        harts: u32,
    },
}

/// How many bytes of input are read at most as a bundle, or as code.
const TEXT_LIMIT: usize = 4_194_304;

/// The work of a command.
fn work_of(command: Command) -> Work
    ensures work { result ≡ work_of command }
{
    match command {
        Command::Alone => Work::Bundle(BundleWork::Alone),
        Command::Asm => Work::Bundle(BundleWork::Asm),
        Command::Run { harts } => Work::Threads(ThreadWork::Run { harts }),
        Command::Script { probes } => Work::Bundle(BundleWork::Script { probes }),
        Command::Replay { harts, probes } => Work::Bundle(BundleWork::Replay { harts, probes }),
        Command::Explain => Work::Bundle(BundleWork::Explain),
        Command::Certify => Work::Bundle(BundleWork::Certify),
        Command::CertifyTwo => Work::Bundle(BundleWork::CertifyTwo),
        Command::Gen { seed, tasks } => Work::Generated(GeneratedWork::Gen { seed, tasks }),
        Command::Drill { seed, tasks } => Work::Generated(GeneratedWork::Drill { seed, tasks }),
        Command::Lint => Work::Code(CodeWork::Lint),
        Command::LintDrill { seed, tasks } => Work::Code(CodeWork::LintDrill { seed, tasks }),
    }
}

/// The work of the words; `None` exactly where they are no command.
pub(crate) fn read_work(words: &[String]) -> Option<Work>
    ensures work { result ≡ work_in (map string_bytes words.now) }
    ensures counts { IfSome result HasCounts }
{
    commands_are_decided();
    match read_words(words) {
        Some(command) => Some(work_of(command)),
        None => None,
    }
}

/// The work of the words that threads do; `None` exactly where they are no command, or one thread does it.
pub(crate) fn read_thread_work(words: &[String]) -> Option<ThreadWork>
    ensures work { option_map works.Threads result ≡ served_by_threads (work_in (map string_bytes words.now)) }
    ensures counts { IfSome result (λ work. HasCounts (works.Threads work)) }
{
    match read_work(words) {
        Some(Work::Threads(work)) => Some(work),
        None | Some(Work::Bundle(_)) | Some(Work::Code(_)) | Some(Work::Generated(_)) => None,
    }
}

/// How many harts a bundle is loaded for.
pub(crate) fn harts_of(work: BundleWork) -> u32
    ensures harts { result ≡ harts_of work }
{
    match work {
        BundleWork::Replay { harts, .. } => harts,
        BundleWork::Alone
        | BundleWork::Asm
        | BundleWork::Script { .. }
        | BundleWork::Explain
        | BundleWork::Certify
        | BundleWork::CertifyTwo => 8,
    }
}

/// How many harts a bundle is loaded for, each with a thread.
pub(crate) fn threads_of(work: ThreadWork) -> u32
    ensures harts { result ≡ threads_of work }
{
    match work {
        ThreadWork::Run { harts } => harts,
    }
}

/// How many bytes of its input a work reads at most.
pub(crate) fn limit_of(work: Work) -> usize
    ensures limit { result ≡ limit_of (Some work) }
{
    match work {
        Work::Bundle(_) | Work::Code(_) | Work::Threads(_) => TEXT_LIMIT,
        Work::Generated(_) => 0,
    }
}
