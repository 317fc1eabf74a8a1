//! A kernel.

ghost use Rattle.std.specs.Prelude.{◌≡◌, ◌≤◌, length, IfOk};
ghost use Rattle.core_model.specs.KernelWords as definition;
ghost use Rattle.core_model.specs.Routines.{Saves, Restores};
ghost use Rattle.core_invariant.specs.KernelStates.{emitted_parts, linked_parts};

use std::alloc::{AllocError, Global};
use std::marker::Model;
use switch_emit::{KernelCode, PART_MAX, kernel_code, link};

/// A kernel's code, with how many words its save part and its restore part have, of which it is proved that they save and restore,
/// and that they do the same on two harts that are alike.
#[derive(Debug, Drop)]
pub struct Kernel {
    code: KernelCode,
    save: u32,
    restore: u32,
}

impl Model for Kernel {
    ghost use Rattle.core_invariant.specs.KernelStates.{KernelParts};
    ghost use Rattle.kernel_core.specs.Kernels.{IsWholeKernel};

    ghost Value = { KernelParts };

    ghost view = { λ k. record { code = k.code; save = k.save; restore = k.restore } };

    ghost invariant = { λ k. IsWholeKernel (record { code = k.code; save = k.save; restore = k.restore }) };
}

impl Kernel {
    /// The kernel of this project, with its own parts. `AllocError` is want of memory.
    pub fn emitted(alloc: Global) -> Result<Kernel, AllocError>
        ensures kernel { IfOk result (λ k. k ≡ emitted_parts) }
    {
        Ok(Kernel {
            code: kernel_code(alloc)?,
            save: 101,
            restore: 62,
        })
    }

    /// A kernel with other parts, linked with the kernel's middle. `AllocError` is want of memory.
    pub fn of(alloc: Global, save: &[u32], restore: &[u32]) -> Result<Kernel, AllocError>
        requires save_few { length save.now ≤ PART_MAX }
        requires restore_few { length restore.now ≤ PART_MAX }
        requires saves { Saves save.now }
        requires restores { Restores restore.now }
        ensures kernel { IfOk result (λ k. k ≡ linked_parts save.now restore.now) }
    {
        Ok(Kernel {
            code: link(alloc, save, restore)?,
            save: save.len() as u32,
            restore: restore.len() as u32,
        })
    }

    /// Its code.
    pub fn code(&self) -> &KernelCode
        ensures code { result.now ≡ self.now.code }
    {
        &self.code
    }

    /// How many words its save part has, at most 300.
    pub fn save(&self) -> u32
        ensures save { result ≡ self.now.save }
    {
        self.save
    }

    /// How many words its restore part has, at most 300.
    pub fn restore(&self) -> u32
        ensures restore { result ≡ self.now.restore }
    {
        self.restore
    }
}
