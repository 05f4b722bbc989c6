//! The exported function.
ghost use Rattle.std.specs.Prelude.{◌≡◌, length};
ghost use Rattle.hostcall.specs.Calling.{Called, Written, asked_of};

use crate::answer::answer;
use crate::frame::put_report;
use std::alloc::Global;

/// Searches the job's system for a component, counted from 1, with a budget. It writes the low figure, the high figure, how many records
/// wait, the splits made and the stop into the first 40 bytes, eight bytes each, and answers 0. A refusal answers its number and writes
/// nothing.
#[unsafe(no_mangle)]
pub extern "C" fn lowline_solve(
    heap: Global,
    job: &[u8],
    component: u32,
    budget: u32,
    out: &mut [u8],
) -> u32
    ensures value { Called result out.old out.new (asked_of job.now component budget (length out.old)) }
    ensures holds { Written result out.new job.now component }
{
    match answer(heap, job, component, budget, out.len()) {
        Ok(report) => {
            put_report(out, report);
            0
        }
        Err(refusal) => refusal.number(),
    }
}
