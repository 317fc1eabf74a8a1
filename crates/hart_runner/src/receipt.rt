//! How a worker ended.

ghost use Rattle.std.specs.Prelude.{◌≡◌};

/// Why a worker ended.
#[derive(Clone, Copy, Debug, PartialEq, Eq)]
pub enum Cause {
    /// Its hart's last entry of the order is a take that found nothing ready.
    Empty,
    /// There was no memory for a take. The board was put back without an action, and the hart holds nothing.
    Memory,
}

/// How a worker ended, and how long the order was then.
#[derive(Clone, Copy, Debug, PartialEq, Eq)]
pub struct Receipt {
    /// The length of the order that the worker has seen, in entries. It has all entries of the worker's hart.
    pub order_length: u32,
    /// Why it ended.
    pub cause: Cause,
}

impl Receipt {
    /// A worker that ended for this cause when the order had so many entries.
    pub(crate) fn new(order_length: u32, cause: Cause) -> Receipt
        ensures receipt { result ≡ record { order_length = order_length; cause = cause } }
    {
        Receipt {
            order_length,
            cause,
        }
    }
}
