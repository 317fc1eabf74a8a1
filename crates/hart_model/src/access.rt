//! Accesses of memory.

/// What an access does (privileged manual, "Physical Memory Protection").
#[derive(Clone, Copy, Debug, PartialEq, Eq)]
pub enum Access {
    Read,
    Write,
    Fetch,
}
