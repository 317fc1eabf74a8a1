//! All worlds of a task whose tape has masks and shares of secrets as words of 32 bits. The list of the worlds stands in the definitions alone:
//! nobody makes it. What the laws say of it is counted by changes of the tapes that permute them.
#![tactic(auto)]

pub mod laws;
pub mod pivot;
pub mod role;

pub use laws::{
    changes_permute, forms_are_cut, forms_come_down, lone_share_is_secret,
    masked_security_by_two_transfers, masked_security_transfers, secrets_are_told,
    secrets_come_alike, silent_is_secure, silent_is_secure_by_two, tapes_come_once,
    unseen_shares_hide,
};
pub use pivot::Pivot;
pub use role::Role;
