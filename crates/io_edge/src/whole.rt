//! Reading to the end, and writing all.

ghost use Rattle.std.specs.Prelude.{◌≡◌, ℕ, ◌+◌, ◌<◌, ◌≤◌, List, length, drop, take, vec_len, Some, is_ok, IfOk, IfErr, IfSome, OnOk, OnErr, IsErrOf};
ghost use Rattle.std.specs.Io.KnownBytes.{IsAtEnd, Appends};
ghost use Rattle.io_edge.specs.Causes.{Rose, ConsumesAtMost};
ghost use Rattle.io_edge.specs.Gone.{Gave, Took, source_tells, sink_tells};
ghost use Rattle.io_edge.specs.Whole.{IfWriteFault};
ghost use Rattle.io_edge.specs.declared.whole.ReadEnd.TheVariants.{Memory};

use crate::traits::{Failed, Sink, Source};
use std::alloc::{AllocError, Global};

/// Why reading stopped before the source's end.
#[derive(Clone, Copy, Debug, PartialEq, Eq)]
pub enum ReadEnd {
    /// The source counted a fault.
    ReadFault,
    /// The source gave more bytes than the limit.
    TooLarge,
    /// Want of memory.
    Memory,
}

impl From<AllocError> for ReadEnd {
    ghost from_gives = { λ _ e. e ≡ Memory };

    fn from(_e: AllocError) -> ReadEnd {
        ReadEnd::Memory
    }
}

/// Why writing stopped before all was written.
#[derive(Clone, Copy, Debug, PartialEq, Eq)]
pub enum WriteEnd {
    /// The sink counted a fault, after it had taken the first `gone` bytes.
    WriteFault { gone: usize },
}

/// How many bytes are asked of a source at a time.
const PIECE: usize = 4096;

/// All bytes of a source, to its end, where these are at most `limit`. Whatever it answers, it takes at
/// most `limit + 1` bytes.
///
/// `TooLarge` comes exactly where the source gave more than `limit` bytes; then it has taken
/// `limit + 1` of them. `ReadFault` comes only where the source counted a fault. `Memory` is want
/// of memory.
pub fn read_all<S: Source>(alloc: Global, src: &mut S, limit: usize) -> Result<Vec<u8>, ReadEnd>
    ensures all { IfOk result (λ v. IfSome (S.left src.old) (λ bytes. v.items ≡ bytes)) }
    ensures end { OnOk result (IsAtEnd (S.left src.new)) }
    ensures within { IfOk result (λ v. vec_len v ≤ limit) }
    ensures too_large { IsErrOf result ReadEnd.TooLarge → IfSome (S.left src.old) (λ bytes.
        (limit < length bytes) × (S.left src.new ≡ Some (drop (limit + 1) bytes))) }
    ensures read_fault { IsErrOf result ReadEnd.ReadFault →
        Rose (S.faults src.old) (S.faults src.new) }

    ensures gave { IfOk result (λ v. Gave (source_tells S.left S.given S.ended src.old) (source_tells S.left S.given S.ended src.new) v.items) }
    ensures ended { S.ended src.new ≡ is_ok result }
    ensures gave_past { IsErrOf result ReadEnd.TooLarge → (bytes : List ℕ) × (length bytes ≡ limit + 1)
        × Gave (source_tells S.left S.given S.ended src.old) (source_tells S.left S.given S.ended src.new) bytes }
    ensures gave_most { (bytes : List ℕ) × (length bytes ≤ limit + 1)
        × Gave (source_tells S.left S.given S.ended src.old) (source_tells S.left S.given S.ended src.new) bytes }

    ensures taken { ConsumesAtMost (S.left src.old) (S.left src.new) (limit + 1) }
    ensures later { S.faults src.old ≤ S.faults src.new }
{
    let mut bytes = Vec::new(alloc);
    let mut piece = [0; PIECE];
    loop {
        let room = limit - bytes.len();
        let want = room.min(PIECE - 1) + 1;
        match src.read(&mut piece[..want]) {
            Err(Failed) => return Err(ReadEnd::ReadFault),
            Ok(0) => return Ok(bytes),
            Ok(count) => {
                if count > room {
                    return Err(ReadEnd::TooLarge);
                }
                bytes.extend_from_slice(&piece[..count])?;
            }
        }
    }
}

/// Writes all bytes to a sink, in as many calls as it needs. It takes no memory.
///
/// `WriteFault` comes only where the sink counted a fault; then the first `gone` bytes were taken,
/// fewer than all.
pub fn write_all<K: Sink>(sink: &mut K, bytes: &[u8]) -> Result<(), WriteEnd>
    ensures all { OnOk result (Appends (K.held sink.old) (K.held sink.new) bytes.now) }
    ensures gone { IfErr result (λ e. IfWriteFault e (λ gone. (gone < length bytes.now)
        × Appends (K.held sink.old) (K.held sink.new) (take gone bytes.now))) }
    ensures took { OnOk result (Took (sink_tells K.held K.taken sink.old) (sink_tells K.held K.taken sink.new) bytes.now) }
    ensures took_part { IfErr result (λ e. IfWriteFault e (λ gone. (gone < length bytes.now)
        × Took (sink_tells K.held K.taken sink.old) (sink_tells K.held K.taken sink.new) (take gone bytes.now))) }
    ensures write_fault { OnErr result (Rose (K.faults sink.old) (K.faults sink.new)) }
    ensures later { K.faults sink.old ≤ K.faults sink.new }
{
    let mut gone = 0;
    while gone < bytes.len() {
        match sink.write(&bytes[gone..]) {
            Ok(count) => gone += count,
            Err(Failed) => return Err(WriteEnd::WriteFault { gone }),
        }
    }
    Ok(())
}
