//! Writes of latches, each with its entry in the log.

ghost use Rattle.std.specs.Prelude.{◌≡◌, ◌+◌, ◌≤◌, List, [], ◌∷◌, ◌++◌, length, map, drop};
ghost use Rattle.hart_model.specs.declared.probe.Probe.{Probe as LogEntry};
ghost use Rattle.hart_model.specs.HartState.{bases_of, hart_with_cell};
ghost use Rattle.hart_model.specs.Writes.{probe_of_write};
ghost use Rattle.hart_state.specs.PlaceBounds.{IsPlaceThere};
ghost use Rattle.rv_effect.specs.View.{writes_of};
ghost use Rattle.hart_state.specs.WriteView.{write_of};
ghost use Rattle.hart_state.specs.WriterView.{after_writes_by};

use crate::hart::Hart;
use crate::registers::hart_number;
use crate::write_list::{Write, WriteList};
use crate::writer::Writer;
use hart_model::{Cell, Place};
use leak_latch::probe_of;
use probe_log::Keeper;
use rv_effect::Writes;

impl Hart {
    /// Makes this the cell of a place that there is, with the entry that it makes, also where the value stays.
    pub(crate) fn write<K: Keeper>(&mut self, place: &Place, cell: &Cell, keeper: &mut K)
        requires there { IsPlaceThere (bases_of self.old.held) place.now }
        requires room { 1 ≤ K.room_of keeper.old }
        ensures hart { self.new ≡ hart_with_cell self.old place.now cell.now }
        ensures log { (log : List LogEntry) → K.stands keeper.old log →
            K.stands keeper.new (log ++ probe_of_write self.old (record { at = place.now; cell = cell.now }) ∷ []) }
        ensures room { K.room_of keeper.new + 1 ≡ K.room_of keeper.old }
    {
        let was = self.cell_at(place);
        let latch = self.latch(place);
        let number = hart_number(&self.csrs);
        keeper.put(probe_of(number, self.pc, self.csrs.mode(), latch, was, *cell));
        self.put(place, *cell);
    }

    /// One write of a latch, at its place, if it has one.
    fn write_latch<K: Keeper>(&mut self, writer: &Writer, write: &Write, keeper: &mut K)
        requires room { 1 ≤ K.room_of keeper.old }
        ensures hart { self.new ≡ (after_writes_by writer.now (write_of write.now ∷ []) self.old).hart }
        ensures log { (log : List LogEntry) → K.stands keeper.old log →
            K.stands keeper.new (log ++ (after_writes_by writer.now (write_of write.now ∷ []) self.old).probes) }
        ensures room { K.room_of keeper.new + length (after_writes_by writer.now (write_of write.now ∷ []) self.old).probes ≡ K.room_of keeper.old }
    {
        match self.place(writer.reaches_data(), &write.to) {
            None => {}
            Some(place) => {
                let cell = Cell {
                    value: write.value,
                    tag: writer.tag(write),
                };
                self.write(&place, &cell, keeper);
            }
        }
    }

    /// The writes from one on, one after the other.
    fn write_from<K: Keeper>(
        &mut self,
        writer: &Writer,
        writes: &[Write],
        from: usize,
        keeper: &mut K,
    )
        requires room { length writes.now ≤ K.room_of keeper.old + from }
        ensures hart { self.new ≡ (after_writes_by writer.now (map write_of (drop from writes.now)) self.old).hart }
        ensures log { (log : List LogEntry) → K.stands keeper.old log →
            K.stands keeper.new (log ++ (after_writes_by writer.now (map write_of (drop from writes.now)) self.old).probes) }
        ensures room { K.room_of keeper.new + length (after_writes_by writer.now (map write_of (drop from writes.now)) self.old).probes ≡ K.room_of keeper.old }
    {
        if from < writes.len() {
            self.write_latch(writer, &writes[from], keeper);
            self.write_from(writer, writes, from + 1, keeper);
        }
    }

    /// What an instruction writes, one after the other.
    pub(crate) fn write_all<K: Keeper>(&mut self, writer: &Writer, writes: &Writes, keeper: &mut K)
        requires room { 6 ≤ K.room_of keeper.old }
        ensures hart { self.new ≡ (after_writes_by writer.now (writes_of writes.now) self.old).hart }
        ensures log { (log : List LogEntry) → K.stands keeper.old log →
            K.stands keeper.new (log ++ (after_writes_by writer.now (writes_of writes.now) self.old).probes) }
        ensures room { K.room_of keeper.new + length (after_writes_by writer.now (writes_of writes.now) self.old).probes ≡ K.room_of keeper.old }
    {
        let list = WriteList::of(writes);
        self.write_from(writer, list.as_slice(), 0, keeper);
    }
}
