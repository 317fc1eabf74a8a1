//! What the tables share: running words over an input, and running `script` over each row of a table.

use io_edge::{MemSink, MemSource};
use kernel_cli::{one_thread, status_number};
use std::alloc::{AllocError, Global};
use std::process::Abort;
use std::test::Fail;

/// The words of a command line.
pub(crate) fn words_of(alloc: Global, words: &[&str]) -> Result<Vec<String>, AllocError> {
    let mut owned = Vec::new(alloc);
    for word in words {
        owned.push(String::from_str(alloc, word)?)?;
    }
    Ok(owned)
}

/// The number of the status that the words end with.
fn number_of(alloc: Global, words: &[String], src: &mut MemSource, sink: &mut MemSink) -> u8 {
    status_number(one_thread(alloc, words, src, sink))
}

/// The sink over which words have written their text of an input, with so much room in bytes. They have to end with this number.
pub(crate) fn output_of<R: Abort + AllocGlobal>(
    rt: &R,
    words: &[&str],
    input: &str,
    room: usize,
    number: u8,
) -> Result<MemSink, Fail> {
    let alloc = rt.alloc();
    let words = words_of(alloc, words)?;
    let mut src = MemSource::new(input.as_bytes().to_vec(alloc)?, 4096, Vec::new(alloc));
    let mut sink = MemSink::new(alloc, room, 4096, Vec::new(alloc))?;
    let ended = number_of(alloc, words.as_slice(), &mut src, &mut sink);
    assert_eq!(rt; ended, number, "{words:?}, {input}");
    Ok(sink)
}

/// A text of parts, each of which stands so many times.
pub(crate) fn text_of(alloc: Global, parts: &[(usize, &str)]) -> Result<String, AllocError> {
    let mut text = String::new(alloc);
    for (times, part) in parts {
        for _ in 0..*times {
            text.push_str(part)?;
        }
    }
    Ok(text)
}

/// How many lines a text has.
pub(crate) fn lines_of(text: &[u8]) -> usize {
    text.iter().filter(|byte| **byte == b'\n').count()
}

/// Runs words over each input of a table, whose rows are a text and the inputs of which it is the whole output, with status 0. Before
/// and after each input stands the frame.
pub(crate) fn writes_each<R: Abort + AllocGlobal>(
    rt: &R,
    words: &[&str],
    frame: (&str, &str),
    rows: &[(&str, &[&str])],
) -> Result<(), Fail> {
    for (written, inputs) in rows {
        for input in *inputs {
            let input = text_of(rt.alloc(), &[(1, frame.0), (1, input), (1, frame.1)])?;
            let sink = output_of(rt, words, input.as_str(), 65_536, 0)?;
            assert_eq!(rt;
                str::from_utf8(sink.bytes())?,
                *written,
                "{words:?} of {input}"
            );
        }
    }
    Ok(())
}

/// Runs each row of a table, with this number of the status.
pub(crate) fn ends_each<R: Abort + AllocGlobal>(
    rt: &R,
    number: u8,
    rows: &[(&[&str], &[(usize, &str)], &str)],
) -> Result<(), Fail> {
    for (words, parts, written) in rows {
        let input = text_of(rt.alloc(), parts)?;
        let sink = output_of(rt, words, input.as_str(), 65_536, number)?;
        assert_eq!(rt;
            str::from_utf8(sink.bytes())?,
            *written,
            "{words:?} of {input}"
        );
    }
    Ok(())
}
