//! The text of an order.

ghost use Rattle.std.specs.Prelude.{◌≡◌, ◌++◌, OnOk, OnErr, take, vec_len};
ghost use Rattle.timer_plan.specs.OrderText.{run_text, order_text_of};

use std::alloc::AllocError;

/// Appends a blank and a run. After want of memory the items are as before.
fn append_run(hart: u8, times: usize, out: &mut Vec<u8>) -> Result<(), AllocError>
    ensures ok { OnOk result (out.new.items ≡ out.old.items ++ run_text (record { hart = hart; times = times })) }
    ensures err { OnErr result (out.new.items ≡ out.old.items) }
{
    let alloc = *out.allocator();
    let text = if times == 1 {
        format!(in alloc; " {hart}")?
    } else {
        format!(in alloc; " {hart}*{times}")?
    };
    out.extend_from_slice(text.as_bytes())
}

/// Appends the runs of an order. After want of memory the items begin with those before.
fn append_runs(order: &[u8], out: &mut Vec<u8>) -> Result<(), AllocError>
    ensures ok { OnOk result (out.new.items ≡ out.old.items ++ order_text_of order.now) }
    ensures err { OnErr result (take (vec_len out.old) out.new.items ≡ out.old.items) }
{
    let [first, others @ ..] = order else {
        return Ok(());
    };
    let mut hart = *first;
    let mut times: usize = 1;
    for next in others {
        if *next == hart {
            times += 1;
        } else {
            append_run(hart, times, out)?;
            hart = *next;
            times = 1;
        }
    }
    append_run(hart, times, out)
}

/// Appends the maximal runs of an order, each as a blank and then the hart's number, and `*` and how often where that isn't once; so
/// the order line of a report is `order`, this text and a line feed, and an empty order has no blank. Numbers are decimal.
/// `AllocError` is want of memory, and leaves the items as they were.
pub fn order_text(order: &[u8], out: &mut Vec<u8>) -> Result<(), AllocError>
    ensures ok { OnOk result (out.new.items ≡ out.old.items ++ order_text_of order.now) }
    ensures err { OnErr result (out.new.items ≡ out.old.items) }
{
    let start = out.len();
    let appended = append_runs(order, out);
    if appended.is_err() {
        out.truncate(start);
    }
    appended
}
