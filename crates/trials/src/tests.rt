use crate::corner::Corner;
use crate::part::Part;
use crate::random::Random;
use crate::violations::Violations;
use std::test::Fail;
use systems::draft::Draft;
use systems::refusal::Refusal;
use systems::system::System;

// The thin system of `size` rows with these numbers, place by place.
fn thin(size: usize, numbers: &[i32]) -> Result<System, Refusal> {
    let mut draft = Draft::new();
    draft.renew(size)?;
    for (place, &number) in numbers.iter().enumerate() {
        draft.set(place, number, number)?;
    }
    Ok(draft.close())
}

#[test]
fn draws(rt: HostRuntime) {
    let mut random = Random::new(1);
    assert_eq!(rt; random.up_to(u32::MAX), 908834774);
    assert_eq!(rt; random.up_to(9), 3);
    assert_eq!(rt; random.between(-10, 10), 5);
    let mut turned = Random::new(1);
    let mut again = Random::new(1);
    assert_eq!(rt; turned.between(10, -10), again.between(-10, 10));
}

#[test]
fn parts(rt: HostRuntime) -> Result<(), Fail> {
    let mut draft = Draft::new();
    draft.renew(2)?;
    assert_eq!(rt; Part::of(&draft, 0), Part::Diagonal);
    assert_eq!(rt; Part::of(&draft, 1), Part::Beside);
    assert_eq!(rt; Part::of(&draft, 2), Part::Right);
    assert_eq!(rt; Part::of(&draft, 3), Part::Beside);
    assert_eq!(rt; Part::of(&draft, 4), Part::Diagonal);
    Ok(())
}

// The rows 2, 1 | 3 and 1, 3 | 5 have the solution 4/5, 7/5; in grains 13107.2 and 22937.6.
#[test]
fn components(rt: HostRuntime) -> Result<(), Fail> {
    let corner = Corner::at_low(thin(2, &[2, 1, 3, 1, 3, 5])?);
    for (component, low) in [13107i64, 22937].iter().enumerate() {
        let exact = corner.component(component);
        assert!(rt; exact.is_some_and(|exact| exact.is_at_least(*low)));
        assert!(rt; !exact.is_some_and(|exact| exact.is_at_least(*low + 1)));
        assert!(rt; !exact.is_some_and(|exact| exact.is_at_most(*low)));
        assert!(rt; exact.is_some_and(|exact| exact.is_at_most(*low + 1)));
    }
    Ok(())
}

// A negative determinant: 0, 1 | 2 and 1, 0 | -3 have the solution -3, 2.
#[test]
fn whole_components(rt: HostRuntime) -> Result<(), Fail> {
    let corner = Corner::at_low(thin(2, &[0, 1, 2, 1, 0, -3])?);
    let exact = corner.component(0);
    assert!(rt; exact.is_some_and(|exact| exact.is_at_least(-49152) && exact.is_at_most(-49152)));
    let exact = corner.component(1);
    assert!(rt; exact.is_some_and(|exact| exact.is_at_least(32768) && exact.is_at_most(32768)));
    Ok(())
}

#[test]
fn singular(rt: HostRuntime) -> Result<(), Fail> {
    let corner = Corner::at_low(thin(2, &[1, 2, 3, 2, 4, 6])?);
    assert!(rt; corner.component(0).is_none());
    Ok(())
}

#[test]
fn violations(rt: HostRuntime) {
    let mut found = Violations::default();
    found.expect(true);
    assert_eq!(rt; found, Violations::default());
    found.expect(false);
    assert_ne!(rt; found, Violations::default());
    let mut again = found;
    again.expect(true);
    assert_eq!(rt; again, found);
    again.expect(false);
    assert_ne!(rt; again, found);
}
