use model::{Fault, Refusal};
use report::{FaultLine, Line};
use script::{Cause, Group, Head, ListingFault, Section, Test};
use std::fmt::Write;
use std::test::Fail;

// The letters, how many fields their lines have, and where these may stand.
const LETTERS: [(char, usize, Group); 12] = [
    ('M', 1, Group::OfSize),
    ('C', 2, Group::OfCell),
    ('J', 1, Group::OfJob),
    ('R', 2, Group::OfStep),
    ('W', 2, Group::OfStep),
    ('K', 2, Group::OfStep),
    ('A', 2, Group::OfStep),
    ('S', 2, Group::OfStep),
    ('L', 3, Group::OfStep),
    ('T', 0, Group::OfStep),
    ('E', 0, Group::OfStep),
    ('G', 2, Group::OfTurns),
];

#[test]
fn letters_and_their_kinds(rt: HostRuntime) {
    for (letter, fields, group) in &LETTERS {
        let head = Head::try_from(*letter);
        assert_eq!(rt; head.map(|head| head.fields), Ok(*fields));
        assert_eq!(rt; head.map(|head| head.kind.group()), Ok(*group));
    }
    assert_eq!(rt; Head::try_from('m'), Err(Cause::Letter));
    assert_eq!(rt; Head::try_from(' '), Err(Cause::Letter));
}

#[test]
fn what_may_follow(rt: HostRuntime) {
    assert!(rt; Section::AtStart.admits(Group::OfSize));
    assert!(rt; !Section::AtStart.admits(Group::OfCell));
    assert!(rt; Section::InCells.admits(Group::OfCell));
    assert!(rt; !Section::InCells.admits(Group::OfStep));
    assert!(rt; Section::InJob.admits(Group::OfStep));
    assert!(rt; !Section::AfterJob.admits(Group::OfCell));
    assert!(rt; Section::AfterJob.admits(Group::OfJob));
    assert!(rt; Section::InTurns.admits(Group::OfTurns));
    assert!(rt; !Section::InTurns.admits(Group::OfJob));
}

#[test]
fn numbers_at_their_bounds(rt: HostRuntime) {
    assert_eq!(rt; Test::AnyNumber.cause(u32::MAX), None);
    assert_eq!(rt; Test::CellCount.cause(0), Some(Cause::NotAllowed));
    assert_eq!(rt; Test::CellCount.cause(4_096), None);
    assert_eq!(rt; Test::CellCount.cause(4_097), Some(Cause::NotAllowed));
    assert_eq!(rt; Test::CellBelow(3).cause(2), None);
    assert_eq!(rt; Test::CellBelow(3).cause(3), Some(Cause::NoSuchCell));
    assert_eq!(rt; Test::JobNumber(2).cause(1), Some(Cause::NotAllowed));
    assert_eq!(rt; Test::JobNumber(2).cause(2), None);
    assert_eq!(rt; Test::JobUpTo(2).cause(0), Some(Cause::NoSuchJob));
    assert_eq!(rt; Test::JobUpTo(2).cause(3), Some(Cause::NoSuchJob));
    assert_eq!(rt; Test::TurnCount.cause(0), Some(Cause::NotAllowed));
    assert_eq!(rt; Test::TurnCount.cause(10_000), None);
    assert_eq!(rt; Test::TurnCount.cause(10_001), Some(Cause::NotAllowed));
}

#[test]
fn faults_and_their_numbers(rt: HostRuntime) {
    let fault = Fault {
        refusal: Refusal::LastStep,
        step: 2,
        field: 0,
    };
    assert_eq!(rt; u32::from(Cause::TooLong), 13);
    assert_eq!(rt; u32::from(Cause::Shape), 14);
    assert_eq!(rt; u32::from(Cause::Letter), 15);
    assert_eq!(rt; u32::from(Cause::NotANumber), 16);
    assert_eq!(rt; u32::from(Cause::NotAllowed), 17);
    assert_eq!(rt; u32::from(Cause::NoSuchCell), 4);
    assert_eq!(rt; u32::from(Cause::NoSuchJob), 7);
    assert_eq!(rt; u32::from(Cause::Admission(fault)), 6);
    assert_eq!(rt; ListingFault::of_line(Cause::Shape, 5).column, 1);
    assert_eq!(rt; ListingFault::of_field(Cause::NotANumber, 5, 2).column, 24);
}

#[test]
fn lines_as_they_are_printed(rt: HostRuntime) -> Result<(), Fail> {
    let mut text = String::new(rt.alloc());
    writeln!(text, "{}", Line::Committed { place: 1, job: 16 })?;
    let job = Line::Job {
        job: 16,
        starts: 2,
        committed: true,
    };
    writeln!(text, "{job}")?;
    writeln!(
        text,
        "{}",
        Line::Cell {
            cell: 0,
            number: u32::MAX
        }
    )?;
    let fault = FaultLine {
        number: 16,
        line: 28,
        column: 2,
    };
    writeln!(text, "{fault}")?;
    assert_eq!(rt;
        text.as_str(),
        "D          1         16\nN         16          2          1\nC          0 4294967295\n!         16         28          2\n"
    );
    Ok(())
}
