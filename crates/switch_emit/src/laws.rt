//! Laws about the kernel's words: each is the contract of a function that does nothing.

ghost use Rattle.std.specs.Prelude.{◌≡◌, ℕ, ◌+◌, ◌*◌, List, ◌++◌, length, slice_range};
ghost use Rattle.core_model.specs.KernelWords.{kernel_words, kernel_code, linked_words, linked_code, save_words, restore_words};
ghost use Rattle.switch_emit.specs.Linked.{middle_words, last_words};

/// How many words the kernel has, and where it is entered.
pub fn kernel_has_its_addresses()
    ensures words { length kernel_words ≡ 278 }
    ensures entry { kernel_code.entry ≡ 0x1000 }
    ensures take { kernel_code.take ≡ 0x1324 }
    ensures idle { kernel_code.idle ≡ 0x1454 }
{}

/// The kernel is the link of its own parts: its first 101 words, and the 62 before its last two.
pub fn kernel_is_link_of_its_parts()
    ensures save { save_words ≡ slice_range kernel_words 0 101 }
    ensures restore { restore_words ≡ slice_range kernel_words 214 276 }
    ensures code { linked_code save_words restore_words ≡ kernel_code }
{}

/// Of the words between the parts only the branch to the idle loop depends on them, and only on how long the restore part is.
pub fn parts_move_idle_alone()
    ensures words { (save restore : List ℕ) → linked_words save restore ≡ save ++ middle_words (length restore) ++ restore ++ last_words }
    ensures kernel { middle_words 62 ≡ slice_range kernel_words 101 214 }
    ensures take { (save restore : List ℕ) → (linked_code save restore).take ≡ 0x1000 + 4 * (length save + 100) }
    ensures idle { (save restore : List ℕ) → (linked_code save restore).idle ≡ 0x1000 + 4 * (length save + length restore + 114) }
{}
