//! The instruction set and the run of one task alone: the values that the definitions of `specs/` speak of, and the laws
//! about these definitions. There is no kernel and no hart in it.
#![tactic(auto)]

pub mod control;
pub mod encoding_laws;
pub mod ends;
pub mod instr;
pub mod latch;
pub mod laws;
pub mod reg_no;
pub mod task;
pub mod words;

pub use control::{Control, Deed};
pub use ends::{End, EndKind};
pub use instr::{Alu, Cmp, CsrOp, Instr, LoadKind, StoreKind};
pub use latch::Latch;
pub use reg_no::RegNo;
pub use task::Task;
pub use words::Words;
