//! Writing a job into the caller's buffer.
ghost use Rattle.std.specs.Prelude.{◌≡◌, ◌≤◌, length};
ghost use Rattle.systems.specs.Entries.{ends_of};
ghost use Rattle.systems.specs.Tables.{table_of};
ghost use Rattle.jobs.specs.Laying.{Room, Wrote};
ghost use Rattle.jobs.specs.Writing.{four_bytes, full_record, left_out, record_of, records_from, written, ReadsBack, Writes};

use systems::entry::Entry;
use systems::refusal::Refusal;
use systems::system::System;

// A walk over the buffer: where it stands. It has a position, as the reader has; a slice that gets shorter would have to be taken out of the writer
// and put back at each record. That there is room is asked by each call of what it writes, and no type says it.
#[derive(Drop)]
struct Writer<'a> {
    buffer: &'a mut [u8],
    at: usize,
}

// An end of an entry in two's complement, the highest byte first.
#[tactic(auto, using(crate::proofs::Records::bits_machine), unfolding(crate::specs::Writing::four_bytes))]
fn four_bytes(end: i32) -> [u8; 4]
    ensures { result ≡ four_bytes end }
{
    end.to_be_bytes()
}

// Whether a job leaves an entry out: it has no record of [0, 0].
#[tactic(auto, unfolding(crate::specs::Writing::left_out))]
fn is_left_out(entry: Entry) -> bool
    ensures { result ≡ left_out (ends_of entry) }
{
    entry.low() == 0 && entry.high() == 0
}

// The record of the entry at a place.
fn record(place: u8, entry: Entry) -> [u8; 11]
    ensures { result ≡ full_record place (ends_of entry) }
{
    let [a, b, c, d] = four_bytes(entry.low());
    let [e, f, g, h] = four_bytes(entry.high());
    [b'E', b'N', place, a, b, c, d, e, f, g, h]
}

// How many bytes the job of a system takes: eleven for each entry that it does not leave out.
fn job_length(system: &System) -> usize
    ensures { result ≡ length (written (table_of system.now)) }
{
    let records = system
        .entries()
        .iter()
        .filter(|entry| !is_left_out(**entry))
        .count();
    5 + 11 * records
}

impl Writer<'_> {
    // Writes bytes over the buffer, and stands behind them.
    fn put(&mut self, bytes: &[u8])
        requires { Room self.old bytes.now }
        ensures { Wrote self.old self.new bytes.now }
    {
        self.buffer[self.at..self.at + bytes.len()].copy_from_slice(bytes);
        self.at += bytes.len();
    }

    // Writes the record of the entry at a place, none for an entry [0, 0].
    fn record(&mut self, place: u8, entry: Entry)
        requires { Room self.old (record_of place (ends_of entry)) }
        ensures { Wrote self.old self.new (record_of place (ends_of entry)) }
    {
        if !is_left_out(entry) {
            self.put(&record(place, entry));
        }
    }

    // Writes the records of a system's entries.
    fn records(&mut self, system: &System)
        requires { Room self.old (records_from 0 (table_of system.now).entries) }
        ensures { Wrote self.old self.new (records_from 0 (table_of system.now).entries) }
    {
        for (place, entry) in system.entries().iter().enumerate() {
            self.record(place as u8, *entry);
        }
    }
}

/// Writes the job of a system, at most 467 bytes, into the front of the buffer and answers its length; later bytes are left as
/// they were. A buffer that is too short is refused with 14 and left as it was. `read` gives the same system back.
pub fn write(system: &System, buffer: &mut [u8]) -> Result<usize, Refusal>
    ensures value { Writes result buffer.old buffer.new (written (table_of system.now)) }
    ensures short { length (written (table_of system.now)) ≤ 467 }
    ensures read_back { ReadsBack (table_of system.now) }
{
    let length = job_length(system);
    if buffer.len() < length {
        return Err(Refusal::BufferTooShort);
    }
    let mut writer = Writer { buffer, at: 0 };
    writer.put(b"SZ");
    writer.put(&[system.size() as u8]);
    writer.records(system);
    writer.put(b"ZZ");
    Ok(length)
}
