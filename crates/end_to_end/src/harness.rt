//! What the tables share: an edge that may fail, running words over an input, and running a command over each row of a table.

use io_edge::{MemSink, MemSource, ReadEnd, read_all};
use kernel_cli::{one_thread, status_number};
use std::alloc::{AllocError, Global};
use std::process::Abort;
use std::test::Fail;

/// A task that puts out 42 and exits with it.
pub(crate) const FORTY_TWO: &str =
    "bundle 1\nslots 1\ntask fuel 5 out 4 data 0\nwords 02a00513 00100893 00000073 00000893 00000073\nendtask\n";

/// What `alone` writes of it.
pub(crate) const FORTY_TWO_REPORT: &str = "task 0: exited 0000002a count 5\nout 0: 0000002a\n";

/// How the bytes come and go: how many a call at most, and the numbers of the calls that fail.
#[derive(Clone, Copy)]
pub(crate) struct Edge<'a> {
    pub(crate) per_read: usize,
    pub(crate) failing_reads: &'a [u64],
    pub(crate) per_write: usize,
    pub(crate) failing_writes: &'a [u64],
}

/// An edge that doesn't fail.
pub(crate) const SOUND: Edge<'static> = Edge {
    per_read: 4096,
    failing_reads: &[],
    per_write: 4096,
    failing_writes: &[],
};

/// The words of a command line.
fn words_of(alloc: Global, words: &[&str]) -> Result<Vec<String>, AllocError> {
    let mut owned = Vec::new(alloc);
    for word in words {
        owned.push(String::from_str(alloc, word)?)?;
    }
    Ok(owned)
}

/// The number of the status that the words end with.
fn number_of(alloc: Global, words: &[String], src: &mut MemSource, sink: &mut MemSink) -> u8 {
    status_number(one_thread(alloc, words, src, sink))
}

/// Runs the words over an input: they have to end with this number, write this text, and leave so many bytes of the input.
pub(crate) fn runs<R: Abort + AllocGlobal>(
    rt: &R,
    words: &[&str],
    input: &[u8],
    edge: Edge,
    number: u8,
    written: &str,
    left: usize,
) -> Result<(), Fail> {
    let alloc = rt.alloc();
    let words = words_of(alloc, words)?;
    assert!(rt; edge.per_read > 0 && edge.per_write > 0);
    let failing = edge.failing_reads.to_vec(alloc)?;
    let mut src = MemSource::new(input.to_vec(alloc)?, edge.per_read, failing);
    let failing = edge.failing_writes.to_vec(alloc)?;
    let mut sink = MemSink::new(alloc, 4096, edge.per_write, failing)?;
    let ended = number_of(alloc, words.as_slice(), &mut src, &mut sink);
    let found = str::from_utf8(sink.bytes())?;
    assert_eq!(rt;
        found,
        written,
        "of {words:?}, {} bytes of input",
        input.len()
    );
    let rest = read_all(alloc, &mut src, input.len())?;
    assert_eq!(rt;
        (ended, rest.len()),
        (number, left),
        "number and bytes left of {words:?}, where {found} is written"
    );
    Ok(())
}

/// What the words write over an input, where they end fine.
pub(crate) fn written_by<R: Abort + AllocGlobal>(
    rt: &R,
    words: &[&str],
    input: &[u8],
) -> Result<String, Fail> {
    let alloc = rt.alloc();
    let words = words_of(alloc, words)?;
    let mut src = MemSource::new(input.to_vec(alloc)?, 4096, Vec::new(alloc));
    let mut sink = MemSink::new(alloc, 65_536, 4096, Vec::new(alloc))?;
    let ended = number_of(alloc, words.as_slice(), &mut src, &mut sink);
    let found = str::from_utf8(sink.bytes())?;
    assert_eq!(rt; ended, 0, "number of {words:?}, where {found} is written");
    Ok(String::from_str(alloc, found)?)
}

/// Runs the words over a source that fails at its first call: they have to end fine, write this text, and leave that call to come.
pub(crate) fn runs_unread<R: Abort + AllocGlobal>(
    rt: &R,
    words: &[&str],
    input: &[u8],
    written: &str,
) -> Result<(), Fail> {
    let alloc = rt.alloc();
    let words = words_of(alloc, words)?;
    let mut src = MemSource::new(input.to_vec(alloc)?, 4096, [0].to_vec(alloc)?);
    let mut sink = MemSink::new(alloc, 4096, 4096, Vec::new(alloc))?;
    let ended = number_of(alloc, words.as_slice(), &mut src, &mut sink);
    let found = str::from_utf8(sink.bytes())?;
    assert_eq!(rt;
        (ended, found),
        (0, written),
        "of {words:?}, over a source that fails"
    );
    let first = read_all(alloc, &mut src, input.len());
    let fails = matches!(first, Err(ReadEnd::ReadFault));
    let rest = read_all(alloc, &mut src, input.len())?;
    assert_eq!(rt;
        (fails, rest.len()),
        (true, input.len()),
        "the source after {words:?}"
    );
    Ok(())
}

/// A text of parts, each of which stands so many times.
pub(crate) fn text_of(alloc: Global, parts: &[(usize, &str)]) -> Result<String, AllocError> {
    let mut text = String::new(alloc);
    for (times, part) in parts {
        for _ in 0..*times {
            text.push_str(part)?;
        }
    }
    Ok(text)
}

/// What stands before and after each input of a table, and each text that is written.
#[derive(Clone, Copy)]
pub(crate) struct Frame<'a> {
    pub(crate) input: (&'a str, &'a str),
    pub(crate) written: (&'a str, &'a str),
}

/// Runs a command over each input of a table, whose rows are a text and the inputs that have it written, with this number.
pub(crate) fn writes_each<R: Abort + AllocGlobal>(
    rt: &R,
    command: &str,
    frame: Frame,
    number: u8,
    rows: &[(&str, &[&str])],
) -> Result<(), Fail> {
    let alloc = rt.alloc();
    for (written, inputs) in rows {
        let written = text_of(
            alloc,
            &[(1, frame.written.0), (1, written), (1, frame.written.1)],
        )?;
        for input in *inputs {
            let input = text_of(alloc, &[(1, frame.input.0), (1, input), (1, frame.input.1)])?;
            runs(
                rt,
                &[command],
                input.as_bytes(),
                SOUND,
                number,
                written.as_str(),
                0,
            )?;
        }
    }
    Ok(())
}
