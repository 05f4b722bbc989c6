use crate::interval::{ArithmeticError, Interval};
use std::test::Fail;

// The interval from `low` to `high`, in ones.
fn whole(low: i64, high: i64) -> Option<Interval> {
    Interval::new(low.saturating_mul(16384), high.saturating_mul(16384))
}

#[test]
fn one_third(rt: HostRuntime) -> Result<(), Fail> {
    let one = whole(1, 1).ok_or(ArithmeticError::OutsideSpan)?;
    let minus_one = whole(-1, -1).ok_or(ArithmeticError::OutsideSpan)?;
    let three = whole(3, 3).ok_or(ArithmeticError::OutsideSpan)?;
    assert_eq!(rt; one.quotient(three).ok(), Interval::new(5461, 5462));
    assert_eq!(rt; minus_one.quotient(three).ok(), Interval::new(-5462, -5461));
    Ok(())
}

#[test]
fn refusals(rt: HostRuntime) -> Result<(), Fail> {
    let one = whole(1, 1).ok_or(ArithmeticError::OutsideSpan)?;
    let wide = whole(-1, 1).ok_or(ArithmeticError::OutsideSpan)?;
    let grain = Interval::new(1, 1).ok_or(ArithmeticError::OutsideSpan)?;
    let top = whole(131072, 131072).ok_or(ArithmeticError::OutsideSpan)?;
    assert_eq!(rt;
        one.quotient(wide).err(),
        Some(ArithmeticError::DivisorContainsZero)
    );
    assert_eq!(rt;
        top.quotient(grain).err(),
        Some(ArithmeticError::OutsideSpan)
    );
    assert_eq!(rt; top.product(top).err(), Some(ArithmeticError::OutsideSpan));
    assert_eq!(rt;
        wide.difference(top).err(),
        Some(ArithmeticError::OutsideSpan)
    );
    assert_eq!(rt; Interval::new(2, 1), None);
    Ok(())
}

#[test]
fn parts(rt: HostRuntime) -> Result<(), Fail> {
    let a = whole(-2, 3).ok_or(ArithmeticError::OutsideSpan)?;
    let b = whole(1, 5).ok_or(ArithmeticError::OutsideSpan)?;
    let c = whole(4, 5).ok_or(ArithmeticError::OutsideSpan)?;
    assert_eq!(rt; a.common(b), whole(1, 3));
    assert_eq!(rt; a.common(c), None);
    assert_eq!(rt; a.product(b).ok(), whole(-10, 15));
    assert_eq!(rt; a.difference(b).ok(), whole(-7, 2));
    assert!(rt; a.contains_zero());
    assert!(rt; !b.contains_zero());
    Ok(())
}
