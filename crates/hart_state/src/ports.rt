//! The device ports: what a load or a store does at each, and when it is refused.

ghost use Rattle.std.specs.Prelude.{◌≡◌, ◌≢◌, Option, Some, slice_get};
ghost use Rattle.hart_model.specs.Taint.{is_public as is_public_tag};
ghost use Rattle.hart_model.specs.Csrs.{public};
ghost use Rattle.hart_model.specs.Context.{ContextState};
ghost use Rattle.hart_model.specs.Ports.{port_at as port_at_address, port_load as load_answer, port_store as store_answer, end_of_code as end_of, give_answer as give_answer_of, tape_answer as tape_answer_of, fault_answer as fault_answer_of};
ghost use Rattle.hart_state.specs.PortView.{answer_of, IsPossibleAnswer};

use context_slot::Context;
use hart_model::{Cell, Port, QueueCall, Tag};
use isa_model::{End, Latch, RegNo};

/// What a port does besides the cell that passes it.
#[derive(Clone, Copy)]
pub enum Side {
    Nothing,
    /// Appends a word to the output.
    Outputs(u32),
    /// Goes on to the next word of the tape.
    AdvancesTape,
    /// Ends the task.
    Ends(End),
    /// Clears the pending timer.
    ClearsTimer,
}

/// What a port answers to a load or a store: it lets a cell pass, or the queue has to answer, or it refuses.
#[derive(Clone, Copy)]
pub enum Answer {
    Passes(Cell, Side),
    AsksQueue(QueueCall),
    Refuses,
}

/// The port at an address.
pub(crate) fn port_at(at: u32) -> Option<Port>
    ensures port { result ≡ port_at_address at }
{
    match at {
        0x700 => Some(Port::Take),
        0x704 => Some(Port::Give),
        0x708 => Some(Port::Out),
        0x70c => Some(Port::Tape),
        0x710 => Some(Port::TapeLeft),
        0x714 => Some(Port::Exit),
        0x718 => Some(Port::Fault),
        0x71c => Some(Port::Ack),
        0x720 => Some(Port::OutLeft),
        _ => None,
    }
}

/// A public cell of a value.
pub(crate) fn public(value: u32) -> Cell
    ensures cell { result ≡ public value }
{
    Cell {
        value,
        tag: Tag::Public,
    }
}

/// Whether a tag is public.
pub(crate) fn is_public(tag: &Tag) -> bool
    ensures test { result ≡ is_public_tag tag.now }
{
    matches!(tag, Tag::Public)
}

/// a0, in which the service in gives a word of the tape.
fn argument_register() -> RegNo
    ensures number { result ≡ 10 }
{
    match RegNo::new(10) {
        Some(register) => register,
        None => unreachable!(),
    }
}

/// A load of the next word of the tape, which is the value of a0 after the instruction that called for it.
fn tape_answer(context: &Context) -> Answer
    ensures answer { answer_of result ≡ tape_answer_of context.now (slice_get context.now.body.tape context.now.body.tape_at) }
    ensures possible { IsPossibleAnswer (Some context.now) result }
{
    let body = context.body();
    match body.tape_word() {
        None => Answer::Refuses,
        Some(value) => {
            let tag = Tag::Of {
                task: body.task_no(),
                step: body.count(),
                latch: Latch::Reg(argument_register()),
            };
            Answer::Passes(Cell { value, tag }, Side::AdvancesTape)
        }
    }
}

/// A load from a port, of the context that is held.
fn load_of_held(port: Port, context: &Context) -> Answer
    ensures answer { answer_of result ≡ load_answer port (Some context.now) }
    ensures possible { IsPossibleAnswer (Some context.now) result }
{
    match port {
        Port::Tape => tape_answer(context),
        Port::TapeLeft => Answer::Passes(public(context.body().tape_left()), Side::Nothing),
        Port::OutLeft => Answer::Passes(public(context.body().output_left()), Side::Nothing),
        _ => Answer::Refuses,
    }
}

/// A load from a port, by what is held.
pub(crate) fn port_load(port: Port, held: &Option<Context>) -> Answer
    ensures answer { answer_of result ≡ load_answer port held.now }
    ensures possible { IsPossibleAnswer held.now result }
{
    match held {
        Some(context) => load_of_held(port, context),
        None => match port {
            Port::Take => Answer::AsksQueue(QueueCall::Take),
            _ => Answer::Refuses,
        },
    }
}

/// The end of a code, by the slot of the context.
fn end_of_code(context: &Context, code: u32) -> Option<End>
    ensures end { result ≡ end_of context.now code }
{
    match code {
        0..=7 => Some(End::Faulted {
            cause: code,
            pc: context.slot_word(0).value,
        }),
        0x100 => Some(End::TapeEnd),
        0x101 => Some(End::OutFull),
        0x102 => Some(End::BadCall(context.slot_word(17).value)),
        0x8000_0010 => Some(End::OutOfSteps),
        _ => None,
    }
}

/// A give, by the stored value and whether the task has ended.
fn give_answer(value: u32, has_ended: bool) -> Answer
    ensures answer { answer_of result ≡ give_answer_of value has_ended }
    ensures possible { (held : Option ContextState) → IsPossibleAnswer held result }
{
    if value == 0 && !has_ended {
        Answer::AsksQueue(QueueCall::GiveReady)
    } else if value == 1 && has_ended {
        Answer::AsksQueue(QueueCall::GiveDone)
    } else {
        Answer::Refuses
    }
}

/// An end by a code.
fn fault_answer(cell: &Cell, end: Option<End>) -> Answer
    ensures answer { answer_of result ≡ fault_answer_of cell.now end }
    ensures possible { (held : Option ContextState) → IsPossibleAnswer held result }
{
    match end {
        None => Answer::Refuses,
        Some(end) => Answer::Passes(*cell, Side::Ends(end)),
    }
}

/// A store to OUT of the context that is held.
fn out_answer(cell: &Cell, context: &Context) -> Answer
    ensures answer { answer_of result ≡ store_answer Port.Out cell.now (Some context.now) }
    ensures possible { IsPossibleAnswer (Some context.now) result }
{
    if context.body().output_left() > 0 {
        Answer::Passes(*cell, Side::Outputs(cell.value))
    } else {
        Answer::Refuses
    }
}

/// A store to EXIT of the context that is held.
fn exit_answer(cell: &Cell, context: &Context) -> Answer
    ensures answer { answer_of result ≡ store_answer Port.Exit cell.now (Some context.now) }
    ensures possible { IsPossibleAnswer (Some context.now) result }
{
    if context.end().is_none() {
        Answer::Passes(*cell, Side::Ends(End::Exited(cell.value)))
    } else {
        Answer::Refuses
    }
}

/// A store to FAULT of the context that is held.
fn code_answer(cell: &Cell, context: &Context) -> Answer
    ensures answer { answer_of result ≡ store_answer Port.Fault cell.now (Some context.now) }
    ensures possible { IsPossibleAnswer (Some context.now) result }
{
    if is_public(&cell.tag) && context.end().is_none() {
        fault_answer(cell, end_of_code(context, cell.value))
    } else {
        Answer::Refuses
    }
}

/// A store to GIVE of the context that is held.
fn queue_answer(cell: &Cell, context: &Context) -> Answer
    ensures answer { answer_of result ≡ store_answer Port.Give cell.now (Some context.now) }
    ensures possible { IsPossibleAnswer (Some context.now) result }
{
    if is_public(&cell.tag) {
        give_answer(cell.value, context.end().is_some())
    } else {
        Answer::Refuses
    }
}

/// A store to ACK.
fn ack_answer(cell: &Cell, held: &Option<Context>) -> Answer
    ensures answer { answer_of result ≡ store_answer Port.Ack cell.now held.now }
    ensures possible { IsPossibleAnswer held.now result }
{
    if is_public(&cell.tag) {
        Answer::Passes(*cell, Side::ClearsTimer)
    } else {
        Answer::Refuses
    }
}

/// A store to a port other than ACK, of the context that is held.
fn store_of_held(port: Port, cell: &Cell, context: &Context) -> Answer
    requires other { port ≢ Port.Ack }
    ensures answer { answer_of result ≡ store_answer port cell.now (Some context.now) }
    ensures possible { IsPossibleAnswer (Some context.now) result }
{
    match port {
        Port::Give => queue_answer(cell, context),
        Port::Out => out_answer(cell, context),
        Port::Exit => exit_answer(cell, context),
        Port::Fault => code_answer(cell, context),
        _ => Answer::Refuses,
    }
}

/// A store of a cell to a port, by what is held.
pub(crate) fn port_store(port: Port, cell: &Cell, held: &Option<Context>) -> Answer
    ensures answer { answer_of result ≡ store_answer port cell.now held.now }
    ensures possible { IsPossibleAnswer held.now result }
{
    if port == Port::Ack {
        return ack_answer(cell, held);
    }
    match held {
        Some(context) => store_of_held(port, cell, context),
        None => Answer::Refuses,
    }
}
