//! The top call.

ghost use Rattle.std.specs.Prelude.{◌≡◌, true, Some, IfOk, IfErr, map, string_bytes};
ghost use Rattle.io_edge.specs.Gone.{source_tells, sink_tells};
ghost use Rattle.kernel_cli.specs.Outcome.{status_of};
ghost use Rattle.kernel_cli.specs.TopCall.{WritesOrFails, WasInput, IsAnswered};
ghost use Rattle.kernel_cli.specs.Works.{work_in, reads, limit_of, HasCounts, served_by_one, served_by_threads};
ghost use Rattle.kernel_cli.specs.declared.status.Status.TheVariants as statuses;
ghost use Rattle.kernel_cli.specs.declared.work.Work.TheVariants as works;

use crate::answer::{Response, status_of};
use crate::bundles::answer_bundle;
use crate::generated::answer_generated;
use crate::laws::{secure_tasks_stay_secure, works_are_sound};
use crate::lints::answer_code;
use crate::runs::answer_on_threads;
use crate::status::Status;
use crate::work::{BundleWork, CodeWork, ThreadWork, Work, limit_of, read_thread_work, read_work};
use io_edge::{Gate, ReadEnd, Sink, Source, read_all, write_all};
use std::alloc::{AllocError, Global};
use std::sync::Wait;
use std::thread::Threads;

/// Writes a text and ends with its status, or with a write fault.
fn put<K: Sink>(sink: &mut K, text: &[u8], status: Status) -> Status
    ensures written { WritesOrFails status (sink_tells K.held K.taken sink.old) (sink_tells K.held K.taken sink.new) (K.faults sink.old) (K.faults sink.new) text.now result }
{
    match write_all(sink, text) {
        Ok(()) => status,
        Err(_) => Status::WriteFault,
    }
}

/// Writes an answer and ends with its status, or with a write fault; or memory ran out before there was one.
fn put_answer<K: Sink>(sink: &mut K, answer: Result<Response, AllocError>) -> Status
    ensures written { IfOk answer (λ response. WritesOrFails (status_of response.outcome) (sink_tells K.held K.taken sink.old) (sink_tells K.held K.taken sink.new) (K.faults sink.old) (K.faults sink.new) response.text.items result) }
    ensures memory { IfErr answer (λ _. (sink.new ≡ sink.old) × (result ≡ statuses.Memory)) }
{
    match answer {
        Ok(response) => put(sink, response.text.as_slice(), status_of(response.outcome)),
        Err(_) => Status::Memory,
    }
}

/// The bytes that the source gives, if they are within the limit of a work; or the status, where that is its end.
fn read_input<S: Source, K: Sink>(
    alloc: Global,
    work: Work,
    src: &mut S,
    sink: &mut K,
) -> Result<Vec<u8>, Status>
    requires counts { HasCounts work }
    requires reads { reads work ≡ true }
    ensures read { IfOk result (λ bytes. WasInput (limit_of (Some work)) (source_tells S.left S.given S.ended src.old) (source_tells S.left S.given S.ended src.new) bytes.items) }
    ensures kept { IfOk result (λ bytes. sink.new ≡ sink.old) }
    ensures answered { IfErr result (IsAnswered (source_tells S.left S.given S.ended) S.faults (sink_tells K.held K.taken) K.faults (Some work) src.old src.new sink.old sink.new) }
{
    works_are_sound();
    match read_all(alloc, src, limit_of(work)) {
        Err(ReadEnd::ReadFault) => Err(Status::ReadFault),
        Err(ReadEnd::Memory) => Err(Status::Memory),
        Err(ReadEnd::TooLarge) => Err(put(sink, b"too large\n", Status::BadInput)),
        Ok(bytes) => Ok(bytes),
    }
}

/// Does a work over the bundle that the source gives.
fn do_bundle<S: Source, K: Sink>(
    alloc: Global,
    work: BundleWork,
    src: &mut S,
    sink: &mut K,
) -> Status
    requires counts { HasCounts (works.Bundle work) }
    ensures answered { IsAnswered (source_tells S.left S.given S.ended) S.faults (sink_tells K.held K.taken) K.faults (Some (works.Bundle work)) src.old src.new sink.old sink.new result }
{
    works_are_sound();
    secure_tasks_stay_secure();
    match read_input(alloc, Work::Bundle(work), src, sink) {
        Ok(bytes) => put_answer(sink, answer_bundle(alloc, work, bytes.as_slice())),
        Err(status) => status,
    }
}

/// Does a work over the code that the source gives.
fn do_code<S: Source, K: Sink>(alloc: Global, work: CodeWork, src: &mut S, sink: &mut K) -> Status
    requires counts { HasCounts (works.Code work) }
    ensures answered { IsAnswered (source_tells S.left S.given S.ended) S.faults (sink_tells K.held K.taken) K.faults (Some (works.Code work)) src.old src.new sink.old sink.new result }
{
    works_are_sound();
    secure_tasks_stay_secure();
    match read_input(alloc, Work::Code(work), src, sink) {
        Ok(bytes) => put_answer(sink, answer_code(alloc, work, bytes.as_slice())),
        Err(status) => status,
    }
}

/// Does a work on threads over the bundle that the source gives.
fn do_threads<R: Threads + Wait + Sync, S: Source, K: Sink, G: Gate>(
    rt: &R,
    alloc: Global,
    work: ThreadWork,
    src: &mut S,
    sink: &mut K,
    gate: &G,
) -> Status
    requires counts { HasCounts (works.Threads work) }
    ensures answered { IsAnswered (source_tells S.left S.given S.ended) S.faults (sink_tells K.held K.taken) K.faults (Some (works.Threads work)) src.old src.new sink.old sink.new result }
{
    works_are_sound();
    secure_tasks_stay_secure();
    match read_input(alloc, Work::Threads(work), src, sink) {
        Ok(bytes) => put_answer(
            sink,
            answer_on_threads(rt, alloc, gate, work, bytes.as_slice()),
        ),
        Err(status) => status,
    }
}

/// Does the command that the words spell, on one thread: takes its input from the source and writes its
/// text to the sink. `gen` and `drill` leave the source as it is. It always returns. `run`, which takes threads, is refused as no command.
///
/// The status and the text are those of one function of the command and the input, unless the source
/// or the sink counts a fault or memory runs out; the definition of `IsAnswered` says for each
/// status what it promises.
pub fn one_thread<S: Source, K: Sink>(
    alloc: Global,
    words: &[String],
    src: &mut S,
    sink: &mut K,
) -> Status
    ensures answered { IsAnswered (source_tells S.left S.given S.ended) S.faults (sink_tells K.held K.taken) K.faults (served_by_one (work_in (map string_bytes words.now))) src.old src.new sink.old sink.new result }
{
    works_are_sound();
    match read_work(words) {
        None | Some(Work::Threads(_)) => put(sink, b"bad words\n", Status::BadWords),
        Some(Work::Bundle(work)) => do_bundle(alloc, work, src, sink),
        Some(Work::Code(work)) => do_code(alloc, work, src, sink),
        Some(Work::Generated(work)) => put_answer(sink, answer_generated(alloc, work)),
    }
}

/// Does `run H`, with a worker on a thread for each hart. Every other command is refused as none.
///
/// With `Fine` the source was read to its end, and the bytes that are written are the report of the core
/// after an order that the harts made: it is legal, no longer than the bound of the bundle, and all tasks
/// have ended after it. Before each turn of a hart the gate is called.
pub fn run_harts<R: Threads + Wait + Sync, S: Source, K: Sink, G: Gate>(
    rt: &R,
    alloc: Global,
    words: &[String],
    src: &mut S,
    sink: &mut K,
    gate: &G,
) -> Status
    ensures answered { IsAnswered (source_tells S.left S.given S.ended) S.faults (sink_tells K.held K.taken) K.faults (served_by_threads (work_in (map string_bytes words.now))) src.old src.new sink.old sink.new result }
{
    match read_thread_work(words) {
        None => put(sink, b"bad words\n", Status::BadWords),
        Some(work) => do_threads(rt, alloc, work, src, sink, gate),
    }
}

/// The whole program, over the objects that it is handed: does the command that the words spell, `run` as
/// [`run_harts`] does, with the runtime and the gate, and every other one as [`one_thread`] does.
pub fn msktask<R: Threads + Wait + Sync, S: Source, K: Sink, G: Gate>(
    rt: &R,
    alloc: Global,
    words: &[String],
    src: &mut S,
    sink: &mut K,
    gate: &G,
) -> Status
    ensures answered { IsAnswered (source_tells S.left S.given S.ended) S.faults (sink_tells K.held K.taken) K.faults (work_in (map string_bytes words.now)) src.old src.new sink.old sink.new result }
{
    match read_work(words) {
        Some(Work::Threads(_)) => run_harts(rt, alloc, words, src, sink, gate),
        None | Some(_) => one_thread(alloc, words, src, sink),
    }
}
