// The answer of a call as 40 bytes.
ghost use Rattle.std.specs.Prelude.{◌≡◌, ◌≤◌, ◌++◌, length, drop};
ghost use Rattle.std.specs.List.{flat_map};
ghost use Rattle.hostcall.specs.Calling.{framed};

use outcomes::reading::{Reading, Report};

// The bytes that a call writes.
pub(crate) const FRAME: usize = 40;

// Low, high, waiting, splits and stop, eight bytes each with the highest first; the figures in two's complement.
#[tactic(auto, using(crate::proofs::Frames::bits_machine), unfolding(crate::specs::Calling::framed, crate::specs::Calling::eight_bytes))]
fn parts(report: Report) -> [[u8; 8]; 5]
    ensures { flat_map (λ part. part) result ≡ framed report }
{
    let Reading {
        low,
        high,
        waiting,
        splits,
        ..
    } = report.reading;
    [
        low.to_be_bytes(),
        high.to_be_bytes(),
        (waiting as u64).to_be_bytes(),
        splits.to_be_bytes(),
        u64::from(report.stop.number()).to_be_bytes(),
    ]
}

// Writes the parts of a report into the first 40 bytes.
pub(crate) fn put_report(out: &mut [u8], report: Report)
    requires { 40 ≤ length out.old }
    ensures { out.new ≡ framed report ++ drop 40 out.old }
{
    out[..FRAME].copy_from_slice(parts(report).as_flattened());
}
