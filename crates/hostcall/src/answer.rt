// What a call comes to, before any byte is written.
ghost use Rattle.std.specs.Prelude.{◌≡◌, ◌≤◌, OnOk};
ghost use Rattle.hostcall.specs.declared.answer.CallRefusal.TheVariants.{Job, Search};
ghost use Rattle.hostcall.specs.Calling.{Asked, Named, Sound, asked_of, call_number};

use crate::frame::FRAME;
use outcomes::reading::Report;
use searches::lowest::NoFigure;
use solver::solving::{find, system_of};
use std::alloc::Global;
use systems::refusal::Refusal;

// Why a call is refused.
#[derive(Clone, Copy, PartialEq, Eq, Debug)]
pub(crate) enum CallRefusal {
    // The job is refused, with its number.
    Job(Refusal),
    // 14: the buffer has no room for the answer.
    ShortBuffer,
    // The search has no figure: 30 for want of memory, or the number of the search's refusal.
    Search(NoFigure),
}

impl From<Refusal> for CallRefusal {
    ghost from_gives = { λ e r. r ≡ Job e };

    fn from(refusal: Refusal) -> CallRefusal {
        CallRefusal::Job(refusal)
    }
}

impl From<NoFigure> for CallRefusal {
    ghost from_gives = { λ e r. r ≡ Search e };

    fn from(reason: NoFigure) -> CallRefusal {
        CallRefusal::Search(reason)
    }
}

impl CallRefusal {
    // The number of the case.
    pub(crate) fn number(self) -> u32
        ensures { result ≡ call_number self }
    {
        // The numbers are the host's interface.
        match self {
            CallRefusal::Job(refusal) => refusal.number(),
            CallRefusal::ShortBuffer => 14,
            CallRefusal::Search(NoFigure::Memory) => 30,
            CallRefusal::Search(NoFigure::Refused(refusal)) => refusal.number(),
        }
    }
}

// Reads the job, looks at the room, and searches.
#[tactic(auto, using(crate::proofs::Faults::refusal_named, crate::proofs::Faults::found_named), unfolding(crate::specs::Calling::asked_of))]
pub(crate) fn answer(
    heap: Global,
    job: &[u8],
    component: u32,
    budget: u32,
    room: usize,
) -> Result<Report, CallRefusal>
    ensures value { Asked result (asked_of job.now component budget room) }
    ensures holds { Sound result job.now component }
    ensures named { Named result }
    ensures room { OnOk result (40 ≤ room) }
{
    let system = system_of(job)?;
    if room < FRAME {
        return Err(CallRefusal::ShortBuffer);
    }
    let report = find(heap, system, component as usize, budget)?;
    Ok(report)
}
