//! The program: it makes the real source, sink and gate, and calls the top call.
#![tactic(auto)]

use io_edge::{FreeGate, StdSink, StdSource};
use kernel_cli::{Status, msktask, status_number};
use std::io::ErrorKind;
use std::process::ExitCode;
use std::{env, io};

/// The commands, one a line.
const USAGE: &str = "\
usage: msktask COMMAND
  alone            runs each task of the bundle on standard input by itself
  asm              lists the code of each task of the bundle
  run H            runs H harts of the kernel, 1 to 8, on threads, until all tasks have ended
  script           runs 8 harts by the events of the bundle
  script probes    the same, with every entry of the log before the report
  replay H         runs H harts by the order of the bundle and their plans
  replay H probes  the same, with every entry of the log before the report
  certify          judges the first task of the bundle in the bundle's worlds
  certify 2        the same by two probes at once
  explain          as script, with each entry that isn't public and what it shows
  gen SEED N       writes the bundle of N masked tasks, 1 to 32, that the number SEED gives; reads no bundle
  drill SEED N     runs that bundle on one hart until it finds nothing; reads no bundle
  lint             checks a save part, ebreak and a restore part, as lines of code on standard input
  lint SEED N      the same, and where they are accepted runs that bundle under a kernel that has them
";

/// The status of arguments that can't be had: want of memory, or words that are no text.
fn argument_status(error: &io::Error) -> Status {
    match error.kind() {
        ErrorKind::OutOfMemory => Status::Memory,
        _ => Status::BadWords,
    }
}

fn main(rt: HostRuntime) -> ExitCode {
    let mut args = match env::args(&rt) {
        Ok(args) => args,
        Err(error) => return ExitCode::from(status_number(argument_status(&error))),
    };
    let _program = args.next();
    let words: Vec<String> = match args.collect(rt.alloc()) {
        Ok(words) => words,
        Err(_) => return ExitCode::from(status_number(Status::Memory)),
    };
    let mut src = StdSource::new(rt.stdin());
    let mut sink = StdSink::new(rt.stdout());
    let status = msktask(
        &rt,
        rt.alloc(),
        words.as_slice(),
        &mut src,
        &mut sink,
        &FreeGate,
    );
    if status == Status::BadWords {
        let _ = eprint!(rt; "{USAGE}");
    }
    ExitCode::from(status_number(status))
}
