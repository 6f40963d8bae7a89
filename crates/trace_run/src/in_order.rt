//! The replies to callers and to the feeder, put together in the order of the trace's lines.
ghost use Rattle.std.specs.Prelude.{IfOk, map};
ghost use Rattle.trace_run.specs.callers.InOrder.{AreInOrder, HaveReplies};

use crate::lines::caller_of;
use blk_ptr::NoMemory;
use std::alloc::Global;
use trace_text::{Op, Reply};

/// Puts replies together, one for each operation, where each is a caller's or a feed. Each caller's are those to its own operations, in their
/// order, and the feeder's those to the feeds.
pub(crate) fn in_order(
    alloc: Global,
    ops: &[Op],
    mut replies: Vec<Vec<Reply>>,
    mut fed: Vec<Reply>,
) -> Result<Vec<Reply>, NoMemory>
    requires { HaveReplies ops.now (map (λ rs. rs.items) replies.items) fed.items }
    ensures { IfOk result (λ merged. AreInOrder ops.now (map (λ rs. rs.items) replies.items) fed.items merged.items) }
{
    let mut merged = Vec::new(alloc);
    for number in (0..ops.len()).rev() {
        let Some(caller) = caller_of(&ops[number]) else {
            let Some(reply) = fed.pop() else {
                unreachable!()
            };
            merged.push(reply)?;
            continue;
        };
        let Some(reply) = replies[caller as usize].pop() else {
            unreachable!()
        };
        merged.push(reply)?;
    }
    merged.reverse();
    Ok(merged)
}
