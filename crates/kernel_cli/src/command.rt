//! The words of the command line.

ghost use Rattle.std.specs.Prelude.{◌≡◌, map, string_bytes};
ghost use Rattle.kernel_cli.specs.Commands.{command_named, hart_count, run_by, replay_by, command_detailed, number_in, numbered, command_with_numbers, command_of_three, command_of};

/// What the program does.
#[derive(Clone, Copy, Debug, PartialEq, Eq)]
pub enum Command {
    /// `alone`: runs each task of the bundle by itself.
    Alone,
    /// `asm`: lists the code of each task.
    Asm,
    /// `run H`: runs the harts of the core on threads, each with a worker of its own, until all tasks have ended, and reports it.
    Run {
        /// How many harts there are: 1 to 8.
        harts: u32,
    },
    /// `script`: runs the core by the bundle's list of events and reports it; with `probes`, lists the entries of its log before.
    Script {
        /// Whether the words are `script probes`.
        probes: bool,
    },
    /// `replay H`: runs the core by the bundle's order, under the plans of its harts, and reports it; with `probes`, lists the entries of
    /// its log before.
    Replay {
        /// How many harts there are: 1 to 8.
        harts: u32,
        /// Whether the words are `replay H probes`.
        probes: bool,
    },
    /// `explain`: runs the core by the bundle's list of events, shows the values of the tasks' runs alone beside the entries of its
    /// log that aren't public, and reports it.
    Explain,
    /// `certify`: judges the first task of the bundle in the bundle's worlds.
    Certify,
    /// `certify 2`: judges it by two probes at once.
    CertifyTwo,
    /// `gen SEED N`: writes the bundle of masked tasks that a number gives. It doesn't read the source.
    Gen {
        /// The number: 1 to 20 decimal digits, below 2^64.
        seed: u64,
        /// How many tasks there are: 1 to 32.
        tasks: u32,
    },
    /// `drill SEED N`: runs the bundle of a number on one hart until it finds nothing, and reports it. It doesn't read the source.
    Drill {
        /// The number: 1 to 20 decimal digits, below 2^64.
        seed: u64,
        /// How many tasks there are: 1 to 32.
        tasks: u32,
    },
    /// `lint`: checks the lines of the input as a save part, `ebreak` and a restore part that may stand in place of the kernel's.
    Lint,
    /// `lint SEED N`: checks them, and where they are accepted runs the bundle of a number on one hart of a kernel with these parts until it
    /// finds nothing, and reports it.
    LintDrill {
        /// The number: 1 to 20 decimal digits, below 2^64.
        seed: u64,
        /// How many tasks there are: 1 to 32.
        tasks: u32,
    },
}

/// Above every number that a word may be. A decimal with more digits stays at this.
const CAP: u128 = 18_446_744_073_709_551_616;

/// How many digits a seed has at most.
const SEED_DIGITS: usize = 20;

/// How many digits a number of tasks has at most.
const TASK_DIGITS: usize = 2;

/// How many tasks a bundle of a number has at most.
const MAX_TASKS: u64 = 32;

/// The command of one word.
fn command_named(word: &str) -> Option<Command>
    ensures command { result ≡ command_named word.now }
{
    match word {
        "alone" => Some(Command::Alone),
        "asm" => Some(Command::Asm),
        "script" => Some(Command::Script { probes: false }),
        "explain" => Some(Command::Explain),
        "certify" => Some(Command::Certify),
        "lint" => Some(Command::Lint),
        _ => None,
    }
}

/// The number of harts of a word: a digit from 1 to 8.
fn hart_count(word: &str) -> Option<u32>
    ensures count { result ≡ hart_count word.now }
{
    match word.as_bytes() {
        [digit] if *digit > b'0' && *digit < b'9' => Some(u32::from(*digit - b'0')),
        _ => None,
    }
}

/// A run by so many harts, if the word is a number of harts.
fn run(word: &str) -> Option<Command>
    ensures command { result ≡ run_by (hart_count word.now) }
{
    match hart_count(word) {
        Some(harts) => Some(Command::Run { harts }),
        None => None,
    }
}

/// A replay by so many harts, if the word is a number of harts.
fn replay(word: &str, probes: bool) -> Option<Command>
    ensures command { result ≡ replay_by (hart_count word.now) probes }
{
    match hart_count(word) {
        Some(harts) => Some(Command::Replay { harts, probes }),
        None => None,
    }
}

/// The command of two words.
fn command_detailed(word: &str, detail: &str) -> Option<Command>
    ensures command { result ≡ command_detailed word.now detail.now }
{
    if word == "run" {
        run(detail)
    } else if word == "replay" {
        replay(detail, false)
    } else if word == "script" && detail == "probes" {
        Some(Command::Script { probes: true })
    } else if word == "certify" && detail == "2" {
        Some(Command::CertifyTwo)
    } else {
        None
    }
}

/// The number of a word of at most so many decimal digits, if it is in the range.
fn number_in(most: usize, low: u64, high: u64, word: &str) -> Option<u64>
    ensures number { result ≡ number_in most low high word.now }
{
    let digits = word.as_bytes();
    if digits.is_empty() || digits.len() > most {
        return None;
    }
    let mut value: u128 = 0;
    for digit in digits {
        if !digit.is_ascii_digit() {
            return None;
        }
        value = (value * 10 + u128::from(*digit - b'0')).min(CAP);
    }
    if u128::from(low) <= value && value <= u128::from(high) {
        Some(value as u64)
    } else {
        None
    }
}

/// The command of a word about the bundle of a number, with its seed and its number of tasks.
fn numbered(word: &str, seed: u64, tasks: u32) -> Option<Command>
    ensures command { result ≡ numbered word.now seed tasks }
{
    match word {
        "gen" => Some(Command::Gen { seed, tasks }),
        "drill" => Some(Command::Drill { seed, tasks }),
        "lint" => Some(Command::LintDrill { seed, tasks }),
        _ => None,
    }
}

/// The command of a word, a seed and a number of tasks.
fn command_with_numbers(word: &str, seed: &str, tasks: &str) -> Option<Command>
    ensures command { result ≡ command_with_numbers word.now seed.now tasks.now }
{
    let seed = number_in(SEED_DIGITS, 0, u64::MAX, seed)?;
    let tasks = number_in(TASK_DIGITS, 1, MAX_TASKS, tasks)?;
    numbered(word, seed, tasks as u32)
}

/// The command of three words.
fn command_of_three(word: &str, detail: &str, more: &str) -> Option<Command>
    ensures command { result ≡ command_of_three word.now detail.now more.now }
{
    if word == "replay" && more == "probes" {
        replay(detail, true)
    } else {
        command_with_numbers(word, detail, more)
    }
}

/// The command that the words spell; `None` exactly where they spell none.
pub fn read_words(words: &[String]) -> Option<Command>
    ensures command { result ≡ command_of (map string_bytes words.now) }
{
    match words {
        [word] => command_named(word.as_str()),
        [word, detail] => command_detailed(word.as_str(), detail.as_str()),
        [word, detail, more] => { command_of_three(word.as_str(), detail.as_str(), more.as_str()) }
        _ => None,
    }
}
