//! Laws about counts and packed logs: the contracts of functions that do nothing.

ghost use Rattle.probe_log.specs.Counts.{CountsAddUp};
ghost use Rattle.probe_log.specs.Unpacking.{ReadsBack};

/// Of every log that counts stand for, the four counts of whys add up to the length, and so do the eight counts of kinds of latches.
pub fn counts_add_up()
    ensures law { CountsAddUp }
{}

/// Reading packed words gives back the entry, whatever words follow it, and the log.
pub fn packed_entries_read_back()
    ensures law { ReadsBack }
{}
