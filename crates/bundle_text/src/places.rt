//! Which word a token is, and where its line may stand.

ghost use Rattle.std.specs.Prelude.{◌≡◌};
ghost use Rattle.bundle_text.specs.Places.{word_named, in_order, in_events, in_worlds, in_tasks, in_plans, in_code_end, in_words, in_tape, in_start, in_header, place_after, may_end, is_in_code};

use crate::draft::{Place, Word};

/// The word of a token.
pub(crate) fn word_named(token: &[u8]) -> Option<Word>
    ensures value { result ≡ word_named token.now }
{
    if token == b"bundle".as_slice() {
        Some(Word::Bundle)
    } else if token == b"slots".as_slice() {
        Some(Word::Slots)
    } else if token == b"plan".as_slice() {
        Some(Word::Plan)
    } else if token == b"task".as_slice() {
        Some(Word::Task)
    } else if token == b"tape".as_slice() {
        Some(Word::Tape)
    } else if token == b"words".as_slice() {
        Some(Word::Words)
    } else if token == b"code".as_slice() {
        Some(Word::Code)
    } else if token == b"endcode".as_slice() {
        Some(Word::EndCode)
    } else if token == b"endtask".as_slice() {
        Some(Word::EndTask)
    } else if token == b"world".as_slice() {
        Some(Word::World)
    } else if token == b"events".as_slice() {
        Some(Word::Events)
    } else if token == b"order".as_slice() {
        Some(Word::Order)
    } else {
        None
    }
}

/// Where a line of this word stands after a line of the order.
fn in_order(word: Word) -> Option<Place>
    ensures value { result ≡ in_order word }
{
    match word {
        Word::Order => Some(Place::Order),
        _ => None,
    }
}

/// Where it stands after events.
fn in_events(word: Word) -> Option<Place>
    ensures value { result ≡ in_events word }
{
    match word {
        Word::Events => Some(Place::Events),
        _ => in_order(word),
    }
}

/// Where it stands after a world.
fn in_worlds(word: Word) -> Option<Place>
    ensures value { result ≡ in_worlds word }
{
    match word {
        Word::World => Some(Place::Worlds),
        _ => in_events(word),
    }
}

/// Where it stands after a task.
fn in_tasks(word: Word) -> Option<Place>
    ensures value { result ≡ in_tasks word }
{
    match word {
        Word::Task => Some(Place::Tape),
        _ => in_worlds(word),
    }
}

/// Where it stands after the slots or a plan.
fn in_plans(word: Word) -> Option<Place>
    ensures value { result ≡ in_plans word }
{
    match word {
        Word::Plan => Some(Place::Plans),
        _ => in_tasks(word),
    }
}

/// Where it stands after the code of a task.
fn in_code_end(word: Word) -> Option<Place>
    ensures value { result ≡ in_code_end word }
{
    match word {
        Word::EndTask => Some(Place::Tasks),
        _ => None,
    }
}

/// Where it stands after words of a task.
fn in_words(word: Word) -> Option<Place>
    ensures value { result ≡ in_words word }
{
    match word {
        Word::Words => Some(Place::Words),
        _ => in_code_end(word),
    }
}

/// Where it stands after the head of a task or its tape.
fn in_tape(word: Word) -> Option<Place>
    ensures value { result ≡ in_tape word }
{
    match word {
        Word::Tape => Some(Place::Tape),
        Word::Code => Some(Place::Code),
        _ => in_words(word),
    }
}

/// Where it stands as the first line.
fn in_start(word: Word) -> Option<Place>
    ensures value { result ≡ in_start word }
{
    match word {
        Word::Bundle => Some(Place::Header),
        _ => None,
    }
}

/// Where it stands after the first line.
fn in_header(word: Word) -> Option<Place>
    ensures value { result ≡ in_header word }
{
    match word {
        Word::Slots => Some(Place::Plans),
        _ => None,
    }
}

/// Where a line of this word stands, if it may stand after that place.
pub(crate) fn place_after(place: Place, word: Word) -> Option<Place>
    ensures value { result ≡ place_after place word }
{
    match place {
        Place::Start => in_start(word),
        Place::Header => in_header(word),
        Place::Plans => in_plans(word),
        Place::Tasks => in_tasks(word),
        Place::Worlds => in_worlds(word),
        Place::Events => in_events(word),
        Place::Order => in_order(word),
        Place::Tape => in_tape(word),
        Place::Words => in_words(word),
        Place::Code => None,
        Place::CodeEnd => in_code_end(word),
    }
}

/// Whether a text may end here.
pub(crate) fn may_end(place: Place) -> bool
    ensures value { result ≡ may_end place }
{
    match place {
        Place::Plans | Place::Tasks | Place::Worlds | Place::Events | Place::Order => true,
        _ => false,
    }
}

/// Whether lines are code here.
pub(crate) fn is_in_code(place: Place) -> bool
    ensures value { result ≡ is_in_code place }
{
    match place {
        Place::Code => true,
        _ => false,
    }
}
