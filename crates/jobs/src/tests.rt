use crate::reader::read;
use crate::writer::write;
use std::process::Abort;
use std::test::Fail;
use systems::draft::Draft;
use systems::entry::Entry;
use systems::refusal::Refusal;
use systems::system::System;

const WORKED: &[u8] =
    b"SZ\x01EN\x00\x00\x00\x00\x02\x00\x00\x00\x04EN\x01\x00\x00\x00\x01\x00\x00\x00\x03ZZ";

// Checks why a job is refused, or with `None` that it is not.
fn verdict(rt: &impl Abort, job: &[u8], why: Option<Refusal>) {
    assert_eq!(rt; read(job, &mut Draft::new()).err(), why);
}

#[test]
fn worked_job(rt: HostRuntime) -> Result<(), Fail> {
    let mut draft = Draft::new();
    read(WORKED, &mut draft)?;
    assert_eq!(rt; draft.size(), 1);
    assert_eq!(rt; draft.entry(0), Entry::new(2, 4).ok());
    assert_eq!(rt; draft.entry(1), Entry::new(1, 3).ok());
    Ok(())
}

#[test]
fn cut_short(rt: HostRuntime) -> Result<(), Fail> {
    let mut draft = Draft::new();
    draft.renew(2)?;
    draft.set(5, 6, 7)?;
    for end in 0..WORKED.len() {
        assert_eq!(rt;
            read(&WORKED[..end], &mut draft).err(),
            Some(Refusal::JobEndsEarly)
        );
    }
    assert_eq!(rt; draft.size(), 2);
    assert_eq!(rt; draft.entry(0), Entry::new(0, 0).ok());
    assert_eq!(rt; draft.entry(5), Entry::new(6, 7).ok());
    Ok(())
}

#[test]
fn refusals(rt: HostRuntime) {
    verdict(&rt, b"SZ\x09ZZ", Some(Refusal::SizeOutOfRange));
    verdict(
        &rt,
        b"SZ\x01EN\x02\x00\x00\x00\x02\x00\x00\x00\x04ZZ",
        Some(Refusal::PlaceOutOfRange),
    );
    verdict(
        &rt,
        b"SZ\x01EN\x00\x80\x00\x00\x00\x00\x00\x00\x04ZZ",
        Some(Refusal::EndOutOfRange),
    );
    verdict(
        &rt,
        b"SZ\x01EN\x00\x00\x00\x00\x02\xff\xff\xff\xffZZ",
        Some(Refusal::EndsOutOfOrder),
    );
    verdict(&rt, b"SZ\x01EN", Some(Refusal::JobEndsEarly));
    verdict(&rt, b"SZ\x01SZ\x01ZZ", Some(Refusal::MarkNotAllowed));
    verdict(
        &rt,
        b"SZ\x01EN\x00\x00\x00\x00\x02\x00\x00\x00\x04EN\x00\x00\x00\x00\x02\x00\x00\x00\x04ZZ",
        Some(Refusal::PlaceNotRising),
    );
    verdict(
        &rt,
        b"SZ\x01EN\x00\x00\x00\x00\x00\x00\x00\x00\x00ZZ",
        Some(Refusal::EntryIsZero),
    );
    verdict(&rt, b"SZ\x01ZZ\x00", Some(Refusal::BytesAfterEnd));
}

#[test]
fn limits(rt: HostRuntime) {
    verdict(&rt, b"SZ\x00ZZ", Some(Refusal::SizeOutOfRange));
    verdict(&rt, b"SZ\x01ZZ", None);
    verdict(&rt, b"SZ\x06ZZ", None);
    verdict(&rt, b"SZ\x07ZZ", Some(Refusal::SizeOutOfRange));
    verdict(&rt, b"SZ\x06EN\x29\xff\xff\x00\x00\x00\x01\x00\x00ZZ", None);
    verdict(
        &rt,
        b"SZ\x06EN\x2a\xff\xff\x00\x00\x00\x01\x00\x00ZZ",
        Some(Refusal::PlaceOutOfRange),
    );
    verdict(
        &rt,
        b"SZ\x06EN\x29\xff\xff\x00\x00\x00\x01\x00\x01ZZ",
        Some(Refusal::EndOutOfRange),
    );
}

// The system of the worked job.
fn worked_system() -> Result<System, Refusal> {
    let mut draft = Draft::new();
    draft.set(0, 2, 4)?;
    draft.set(1, 1, 3)?;
    Ok(draft.close())
}

#[test]
fn worked_job_written(rt: HostRuntime) -> Result<(), Fail> {
    let mut buffer = [7u8; 28];
    assert_eq!(rt; write(&worked_system()?, &mut buffer), Ok(27));
    assert_eq!(rt; &buffer[0..27], WORKED);
    assert_eq!(rt; buffer[27], 7);
    Ok(())
}

#[test]
fn buffer_too_short(rt: HostRuntime) -> Result<(), Fail> {
    let mut buffer = [7u8; 26];
    assert_eq!(rt;
        write(&worked_system()?, &mut buffer),
        Err(Refusal::BufferTooShort)
    );
    assert_eq!(rt; buffer, [7u8; 26]);
    Ok(())
}

#[test]
fn blank_systems_written(rt: HostRuntime) -> Result<(), Fail> {
    let mut draft = Draft::new();
    for size in 1..=6usize {
        draft.renew(size)?;
        let mut buffer = [7u8; 6];
        assert_eq!(rt; write(&draft.close(), &mut buffer), Ok(5));
        assert_eq!(rt; buffer, [0x53, 0x5a, size as u8, 0x5a, 0x5a, 7]);
        let mut again = Draft::new();
        read(&buffer[..5], &mut again)?;
        assert_eq!(rt; again.size(), size);
    }
    Ok(())
}

#[test]
fn ends_written(rt: HostRuntime) -> Result<(), Fail> {
    let mut draft = Draft::new();
    draft.set(0, -65536, -1)?;
    draft.set(1, 65536, 65536)?;
    let mut buffer = [0u8; 27];
    assert_eq!(rt; write(&draft.close(), &mut buffer), Ok(27));
    assert_eq!(rt;
        &buffer[3..14],
        b"EN\x00\xff\xff\x00\x00\xff\xff\xff\xff".as_slice()
    );
    assert_eq!(rt;
        &buffer[14..25],
        b"EN\x01\x00\x01\x00\x00\x00\x01\x00\x00".as_slice()
    );
    Ok(())
}

#[test]
fn largest_system_written(rt: HostRuntime) -> Result<(), Fail> {
    let mut draft = Draft::new();
    draft.renew(6)?;
    for place in 0..42u8 {
        draft.set(usize::from(place), -65536, 65536 - i32::from(place))?;
    }
    let mut buffer = [0u8; 467];
    assert_eq!(rt; write(&draft.close(), &mut buffer), Ok(467));
    let mut again = Draft::new();
    read(&buffer, &mut again)?;
    for place in 0..42u8 {
        assert_eq!(rt;
            again.entry(usize::from(place)),
            Entry::new(-65536, 65536 - i32::from(place)).ok()
        );
    }
    Ok(())
}
