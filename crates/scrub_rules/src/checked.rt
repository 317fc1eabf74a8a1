//! A routine that is accepted.

ghost use Rattle.std.specs.Prelude.{◌≡◌, ◌≤◌, length, IfOk};
ghost use Rattle.core_model.specs.Routines.{Saves, Restores, part_limit};
ghost use Rattle.core_invariant.specs.KernelStates.{linked_parts};
ghost use Rattle.kernel_core.specs.Kernels.{IsWholeKernel};
ghost use Rattle.scrub_rules.specs.Parts.{DoTheirWork};

use core_model::Items;
use kernel_core::Kernel;
use std::alloc::{AllocError, Global};
use std::marker::Model;

/// A save part that saves and a restore part that restores, of at most 300 words each.
#[derive(Drop)]
pub struct Checked {
    save: Items<u32>,
    restore: Items<u32>,
}

impl Model for Checked {
    ghost use Rattle.scrub_rules.specs.Parts.{Parts, DoTheirWork};

    ghost Value = { Parts };

    ghost view = { λ c. record { save = c.save; restore = c.restore } };

    ghost invariant = { λ c. DoTheirWork (record { save = c.save; restore = c.restore }) };
}

impl Checked {
    /// The two parts in memory of their own. `AllocError` is want of memory.
    pub(crate) fn of(alloc: Global, save: &[u32], restore: &[u32]) -> Result<Checked, AllocError>
        requires parts { DoTheirWork (record { save = save.now; restore = restore.now }) }
        ensures save { IfOk result (λ c. c.save ≡ save.now) }
        ensures restore { IfOk result (λ c. c.restore ≡ restore.now) }
    {
        Ok(Checked {
            save: Items::new(Vec::from_slice(alloc, save)?),
            restore: Items::new(Vec::from_slice(alloc, restore)?),
        })
    }

    /// The words that save a task, at most 300.
    pub fn save(&self) -> &[u32]
        ensures words { result.now ≡ self.now.save }
        ensures few { length result.now ≤ part_limit }
        ensures saves { Saves result.now }
    {
        self.save.as_slice()
    }

    /// The words that restore one, at most 300.
    pub fn restore(&self) -> &[u32]
        ensures words { result.now ≡ self.now.restore }
        ensures few { length result.now ≤ part_limit }
        ensures restores { Restores result.now }
    {
        self.restore.as_slice()
    }

    /// How many words its save part has, at most 300.
    pub fn save_len(&self) -> u32
        ensures length { result ≡ length self.now.save }
    {
        self.save.len() as u32
    }

    /// How many words its restore part has, at most 300.
    pub fn restore_len(&self) -> u32
        ensures length { result ≡ length self.now.restore }
    {
        self.restore.len() as u32
    }

    /// The kernel with these two parts, linked with the kernel's middle. So whatever is proved of every kernel holds of each core that is
    /// booted with it. `AllocError` is want of memory.
    pub fn kernel(&self, alloc: Global) -> Result<Kernel, AllocError>
        ensures kernel { IfOk result (λ k. k ≡ linked_parts self.now.save self.now.restore) }
        ensures whole { IfOk result (λ k. IsWholeKernel k) }
    {
        Kernel::of(alloc, self.save.as_slice(), self.restore.as_slice())
    }
}
