//! The writes of one instruction as a list.

ghost use Rattle.std.specs.Prelude.{◌≡◌, ◌+◌, ◌<◌, ◌≤◌, [], ◌++◌, length, map};
ghost use Rattle.isa_model.specs.Effect.{to as to_latch};
ghost use Rattle.rv_effect.specs.View.{flow_of, port_write, before_res, res_write, after_res, register_write, writes_of};
ghost use Rattle.hart_state.specs.WriteView.{write_of};

use isa_model::Latch;
use rv_effect::{Flow, Operand, RegisterWrite, Traced, UnitWrite, Writes};
use std::marker::Model;

/// A write of a latch.
#[derive(Clone, Copy)]
pub struct Write {
    /// The latch that is written.
    pub to: Latch,
    /// Its new value.
    pub value: u32,
    /// Where the value comes from.
    pub flow: Flow,
}

/// The writes of one instruction, at most six, the first one first.
#[derive(Drop)]
pub(crate) struct WriteList {
    items: [Write; 6],
    len: usize,
}

impl Model for WriteList {
    ghost use Rattle.std.specs.Prelude.{◌≡◌, ◌≤◌, List, length, map, take};
    ghost use Rattle.isa_model.specs.Effect.{Write};
    ghost use Rattle.hart_state.specs.WriteView.{write_of};

    ghost Value = { List Write };

    ghost view = { λ w. map write_of (take w.len w.items) };

    ghost invariant = { λ w. (w.len ≤ 6) × (length w.items ≡ 6) };
}

impl WriteList {
    /// No writes.
    fn new() -> WriteList
        ensures writes { result ≡ [] }
    {
        let none = Write {
            to: Latch::PortA,
            value: 0,
            flow: Flow::Constant,
        };
        WriteList {
            items: [none; 6],
            len: 0,
        }
    }

    /// The write of a latch after the others.
    fn put(&mut self, to: Latch, value: u32, flow: Flow)
        requires room { length self.old < 6 }
        ensures writes { self.new ≡ self.old ++ to_latch to value (flow_of flow) }
        ensures len { length self.new ≡ length self.old + 1 }
    {
        self.items[self.len] = Write { to, value, flow };
        self.len += 1;
    }

    /// The write of a port after the others, if it is written.
    fn put_port(&mut self, to: Latch, value: &Option<u32>, flow: Flow)
        requires room { length self.old < 6 }
        ensures writes { self.new ≡ self.old ++ port_write to (flow_of flow) value.now }
        ensures len { length self.new ≤ length self.old + 1 }
    {
        if let Some(value) = value {
            self.put(to, *value, flow);
        }
    }

    /// The write of the result after the others, if it is written.
    fn put_res(&mut self, res: &Option<Traced>)
        requires room { length self.old < 6 }
        ensures writes { self.new ≡ self.old ++ res_write res.now }
        ensures len { length self.new ≤ length self.old + 1 }
    {
        if let Some(res) = res {
            self.put(Latch::Res, res.value, res.flow);
        }
    }

    /// The writes by a unit after the others, with that of the result among them.
    fn put_unit(&mut self, unit: &UnitWrite, res: &Option<Traced>)
        requires room { length self.old ≤ 2 }
        ensures writes { self.new ≡ self.old ++ (before_res unit.now ++ (res_write res.now ++ after_res unit.now)) }
        ensures len { length self.new ≤ length self.old + 3 }
    {
        match unit {
            UnitWrite::Nothing => self.put_res(res),
            UnitWrite::Multiplies(value) => {
                let flow = Flow::Combined(Operand::Rs1, Operand::Rs2);
                self.put(Latch::Mul, *value, flow);
                self.put_res(res);
            }
            UnitWrite::Loads(word) => {
                self.put_res(res);
                self.put(Latch::Load, *word, Flow::Moved(Operand::Word));
            }
            UnitWrite::Stores { value, at, word } => {
                self.put_res(res);
                self.put(Latch::Store, *value, Flow::Moved(Operand::Rs2));
                self.put(Latch::Mem(*at / 4 * 4), word.value, word.flow);
            }
            UnitWrite::Scratches(new) => {
                self.put_res(res);
                self.put(Latch::Scr, new.value, new.flow);
            }
        }
    }

    /// The write of a register after the others, unless it is x0.
    fn put_register(&mut self, register: &Option<RegisterWrite>)
        requires room { length self.old < 6 }
        ensures writes { self.new ≡ self.old ++ register_write register.now }
        ensures len { length self.new ≤ length self.old + 1 }
    {
        if let Some(register) = register {
            if register.rd.num() != 0 {
                let value = register.value;
                self.put(Latch::Reg(register.rd), value.value, value.flow);
            }
        }
    }

    /// What an instruction writes.
    pub(crate) fn of(writes: &Writes) -> WriteList
        ensures writes { result ≡ writes_of writes.now }
        ensures len { length result ≤ 6 }
    {
        let mut list = WriteList::new();
        list.put_port(Latch::PortA, &writes.port_a, Flow::Moved(Operand::Rs1));
        list.put_port(Latch::PortB, &writes.port_b, Flow::Moved(Operand::Rs2));
        list.put_unit(&writes.unit, &writes.res);
        list.put_register(&writes.register);
        list
    }

    /// The writes as a slice.
    pub(crate) fn as_slice(&self) -> &[Write]
        ensures writes { map write_of result.now ≡ self.now }
        ensures len { length result.now ≡ length self.now }
    {
        &self.items[..self.len]
    }
}
