//! The effect of an instruction by its operands: the latches that it writes, in order, each with its value and with what flows into
//! it, the CSR that it writes, and what follows. Every machine that runs instructions takes it from here. None of it takes memory.
#![tactic(auto)]

mod csr_forms;
mod effect;
mod flow;
mod forms;
mod operands;
mod writes;

pub use csr_forms::{effect_anywhere, effect_of};
pub use effect::{CsrWrite, Effect, Next, Operands};
pub use flow::{Flow, Operand};
pub use forms::{
    add_upper_to_pc, branch, jump_by, jump_indirect, load, load_upper, next_address, no_effect,
    operate, operate_immediate, store,
};
pub use operands::{
    address_of, code_word, first_register, immediate_bits, is_data_address, is_privileged,
    load_size, second_register, store_size, zero_register,
};
pub use writes::{RegisterWrite, Traced, UnitWrite, Writes};
