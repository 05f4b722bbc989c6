//! Reading a job. The reader walks the caller's bytes and never copies them.
ghost use Rattle.std.specs.Prelude.{◌≡◌, ◌+◌, ◌<◌, ◌≤◌, true, false, length, drop, is_ok, Some, None};
ghost use Rattle.systems.specs.Tables.{drafted, sized, Changed};
ghost use Rattle.jobs.specs.Reading.{byte_at, number_at, rising, record_at, entered, parsed};
ghost use Rattle.jobs.specs.Walking.{Stands, Entered, Walked, Onward, remaining, has_ended};
ghost use Rattle.jobs.specs.Writing.{WrittenAgain};

use systems::draft::Draft;
use systems::refusal::Refusal;

// Where the reader stands: before the first record, among the entries, or behind the end mark.
#[derive(Clone, Copy)]
enum Stage {
    First,
    Entries,
    Ended,
}

// The three kinds of record.
#[derive(Clone, Copy)]
enum Record {
    Size,
    Entry,
    End,
}

// A walk over the bytes of a job: where it stands, and the place of the entry before. By a rule of this project a reader is the whole slice with
// its position and that place, and the stage is matched with the mark; so there is no slice of the rest, and no place in the stage.
#[derive(Drop)]
struct Reader<'a> {
    job: &'a [u8],
    at: usize,
    previous: Option<u8>,
    stage: Stage,
}

// The byte at a position.
#[tactic(auto, unfolding(crate::specs::Reading::byte_at))]
fn byte(job: &[u8], at: usize) -> u8
    requires { at < length job.now }
    ensures { result ≡ byte_at job.now at }
{
    job[at]
}

// The end of an entry that stands in the four bytes from a position on.
fn number(job: &[u8], at: usize) -> i32
    requires { at + 4 ≤ length job.now }
    ensures { result ≡ number_at job.now at }
{
    i32::from_be_bytes([job[at], job[at + 1], job[at + 2], job[at + 3]])
}

// Whether a place is above the place before it.
#[tactic(auto, unfolding(crate::specs::Reading::rising))]
fn rises(previous: Option<u8>, place: u8) -> bool
    ensures { result ≡ rising previous place }
{
    previous.is_none_or(|before| before < place)
}

// Sets an entry that a job may hold: one with an end other than 0.
#[tactic(auto, unfolding(crate::specs::Reading::entered))]
fn enter(draft: &mut Draft, place: u8, low: i32, high: i32) -> Result<(), Refusal>
    ensures { Entered result (drafted draft.new) (entered (drafted draft.old) place low high) }
{
    draft.set(usize::from(place), low, high)?;
    if low == 0 && high == 0 {
        return Err(Refusal::EntryIsZero);
    }
    Ok(())
}

impl Reader<'_> {
    // Which record stands here, by its mark: refused where none does, where the mark is not allowed here, where the record is
    // cut short, where bytes follow the end mark, and where an entry's place is not in the system or not above the one before.
    #[tactic(auto, using(crate::proofs::Drops::left_long, crate::proofs::Drops::left_read), unfolding(crate::specs::Reading::record_at, crate::specs::Reading::marked, crate::specs::Reading::byte_at))]
    fn next(&self, places: usize) -> Result<Record, Refusal>
        requires { self.now.at ≤ length self.now.job.now }
        ensures { result ≡ record_at self.now.stage places self.now.previous (drop self.now.at self.now.job.now) }
    {
        let left = self.job.len() - self.at;
        if left < 2 {
            return Err(Refusal::JobEndsEarly);
        }
        let mark = &self.job[self.at..self.at + 2];
        match (self.stage, mark) {
            (Stage::First, b"SZ") if left < 3 => Err(Refusal::JobEndsEarly),
            (Stage::First, b"SZ") => Ok(Record::Size),
            (Stage::Entries, b"EN") if left < 11 => Err(Refusal::JobEndsEarly),
            (Stage::Entries, b"EN") if usize::from(byte(self.job, self.at + 2)) >= places => Err(
                Refusal::PlaceOutOfRange,
            ),
            (Stage::Entries, b"EN") if !rises(self.previous, byte(self.job, self.at + 2)) => Err(
                Refusal::PlaceNotRising,
            ),
            (Stage::Entries, b"EN") => Ok(Record::Entry),
            (Stage::Entries, b"ZZ") if left > 2 => Err(Refusal::BytesAfterEnd),
            (Stage::Entries, b"ZZ") => Ok(Record::End),
            _ => Err(Refusal::MarkNotAllowed),
        }
    }

    // Whether the end mark was read.
    fn has_ended(&self) -> bool
        ensures { result ≡ has_ended self.now.stage }
    {
        matches!(self.stage, Stage::Ended)
    }

    // Reads the size behind the mark SZ.
    fn size(&mut self, draft: &mut Draft) -> Result<(), Refusal>
        requires { self.old.at + 3 ≤ length self.old.job.now }
        ensures read { Changed result draft.old draft.new (sized (byte_at self.old.job.now (self.old.at + 2))) }
        ensures walked { is_ok result ≡ true → Stands self.old self.new 3 None }
    {
        draft.renew(usize::from(byte(self.job, self.at + 2)))?;
        self.at += 3;
        self.previous = None;
        self.stage = Stage::Entries;
        Ok(())
    }

    // Reads the entry behind the mark EN.
    fn entry(&mut self, draft: &mut Draft) -> Result<(), Refusal>
        requires { self.old.at + 11 ≤ length self.old.job.now }
        ensures read { Entered result (drafted draft.new) (entered (drafted draft.old) (byte_at self.old.job.now (self.old.at + 2)) (number_at self.old.job.now (self.old.at + 3)) (number_at self.old.job.now (self.old.at + 7))) }
        ensures walked { is_ok result ≡ true → Stands self.old self.new 11 (Some (byte_at self.old.job.now (self.old.at + 2))) }
    {
        let place = byte(self.job, self.at + 2);
        let low = number(self.job, self.at + 3);
        let high = number(self.job, self.at + 7);
        enter(draft, place, low, high)?;
        self.at += 11;
        self.previous = Some(place);
        self.stage = Stage::Entries;
        Ok(())
    }

    // Reads one record: what is left to be read then means what was left before, or it is this refusal.
    fn record(&mut self, draft: &mut Draft) -> Result<(), Refusal>
        requires within { self.old.at ≤ length self.old.job.now }
        requires open { has_ended self.old.stage ≡ false }
        ensures walked { Walked result (remaining self.old (drafted draft.old)) (remaining self.new (drafted draft.new)) }
        ensures onward { is_ok result ≡ true → Onward self.old self.new }
    {
        match self.next(draft.places())? {
            Record::Size => self.size(draft),
            Record::Entry => self.entry(draft),
            Record::End => {
                self.at += 2;
                self.stage = Stage::Ended;
                Ok(())
            }
        }
    }
}

/// Replaces the draft by the system that a job holds. A refusal leaves the draft as it was. A job that is read is the one that
/// `write` writes for that system.
pub fn read(job: &[u8], draft: &mut Draft) -> Result<(), Refusal>
    ensures value { Changed result draft.old draft.new (parsed job.now) }
    ensures written_again { WrittenAgain result job.now (drafted draft.new) }
{
    let mut reader = Reader {
        job,
        at: 0,
        previous: None,
        stage: Stage::First,
    };
    let mut fresh = Draft::new();
    while !reader.has_ended() {
        reader.record(&mut fresh)?;
    }
    *draft = fresh;
    Ok(())
}
