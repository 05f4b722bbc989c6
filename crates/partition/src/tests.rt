use crate::marks::{End, Marks};
use crate::rule::Rule;
use crate::rules::{Heaviest, Widest};
use grains::interval::Interval;
use std::test::Fail;
use systems::draft::Draft;
use systems::entry::Entry;
use systems::refusal::Refusal;
use systems::system::System;

fn around_zero(high: i64) -> Interval {
    match Interval::new(high.saturating_neg(), high) {
        Some(interval) => interval,
        None => Interval::zero(),
    }
}

// [2, 4], [-2, 1] / [-1, 2], [2, 4] with the right side [-2, 2] twice: widths 2, 3, 4, 3, 2, 4.
fn wide_rows() -> Result<System, Refusal> {
    let mut draft = Draft::new();
    draft.renew(2)?;
    draft.set(0, 2, 4)?;
    draft.set(1, -2, 1)?;
    draft.set(2, -2, 2)?;
    draft.set(3, -1, 2)?;
    draft.set(4, 2, 4)?;
    draft.set(5, -2, 2)?;
    Ok(draft.close())
}

#[test]
fn widest_is_the_first_of_the_greatest_widths(rt: HostRuntime) -> Result<(), Fail> {
    let system = wide_rows()?;
    assert_eq!(rt; Widest.choose(&system, &[]), Some(2));
    assert_eq!(rt;
        Widest.choose(&system, &[around_zero(81920), around_zero(65536)]),
        Some(2)
    );
    Ok(())
}

// With components up to 5 and 4, the weights in ones are 10, 12, 4, 15, 8, 4.
#[test]
fn heaviest_weighs_by_the_row(rt: HostRuntime) -> Result<(), Fail> {
    let system = wide_rows()?;
    assert_eq!(rt;
        Heaviest.choose(&system, &[around_zero(81920), around_zero(65536)]),
        Some(3)
    );
    // components up to 2 and 3: 4, 9, 4, 6, 6, 4
    assert_eq!(rt;
        Heaviest.choose(&system, &[around_zero(32768), around_zero(49152)]),
        Some(1)
    );
    // components up to 1 and 1: 2, 3, 4, 3, 2, 4, and the first of the two right-hand entries
    assert_eq!(rt;
        Heaviest.choose(&system, &[around_zero(16384), around_zero(16384)]),
        Some(2)
    );
    // the second interval is missing: 2, 0, 4, 3, 0, 4 and, up to 3, 6, 0, 4, 9, 0, 4
    assert_eq!(rt; Heaviest.choose(&system, &[around_zero(16384)]), Some(2));
    assert_eq!(rt; Heaviest.choose(&system, &[around_zero(49152)]), Some(3));
    Ok(())
}

#[test]
fn a_wide_entry_of_weight_zero_is_wide(rt: HostRuntime) -> Result<(), Fail> {
    let mut draft = Draft::new();
    draft.set(0, 2, 4)?;
    let system = draft.close();
    assert_eq!(rt; Heaviest.choose(&system, &[]), Some(0));
    assert_eq!(rt; Heaviest.choose(&system, &[Interval::zero()]), Some(0));
    assert_eq!(rt; Widest.choose(&system, &[]), Some(0));
    Ok(())
}

#[test]
fn no_entry_is_wide(rt: HostRuntime) {
    let system = Draft::new().close();
    assert_eq!(rt; Widest.choose(&system, &[around_zero(1)]), None);
    assert_eq!(rt; Heaviest.choose(&system, &[around_zero(1)]), None);
}

// The greatest weights are 2^17 × 2^31.
#[test]
fn greatest_weights(rt: HostRuntime) -> Result<(), Fail> {
    let mut draft = Draft::new();
    draft.renew(2)?;
    draft.set(0, -65536, 65535)?;
    draft.set(1, -65536, 65536)?;
    draft.set(2, -65536, 65536)?;
    let system = draft.close();
    let row = [around_zero(2147483647), around_zero(2147483647)];
    assert_eq!(rt; Heaviest.choose(&system, &row), Some(1));
    Ok(())
}

#[test]
fn box_of_marks(rt: HostRuntime) -> Result<(), Fail> {
    let system = wide_rows()?;
    let marks = Marks::none().fix(3, End::High).fix(0, End::Low);
    assert_eq!(rt; marks.count(), 2);
    let inner = marks.boxed(&system);
    assert_eq!(rt; inner.entry(0), Entry::new(2, 2).ok());
    assert_eq!(rt; inner.entry(1), Entry::new(-2, 1).ok());
    assert_eq!(rt; inner.entry(3), Entry::new(2, 2).ok());
    assert_eq!(rt; inner.wide_entries(), 4);
    Ok(())
}

#[test]
fn marks_that_stay(rt: HostRuntime) -> Result<(), Fail> {
    let marks = Marks::none().fix(3, End::Low);
    let again = marks.fix(3, End::High).fix(64, End::Low);
    assert_eq!(rt; again.count(), 1);
    assert_eq!(rt;
        again.boxed(&wide_rows()?).entry(3),
        Entry::new(-1, -1).ok()
    );
    Ok(())
}
