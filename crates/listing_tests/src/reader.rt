use listing::field::number_in;
use listing_reader::read::read;
use listing_reader::room::Room;
use model::{Fault, Refusal, Step};
use script::{Allotment, Cause, ListingFault, Preset};
use std::test::Fail;

#[test]
fn a_fault_has_the_intakes_fault_whole(rt: HostRuntime) -> Result<(), Fail> {
    let room = Room::new(rt.alloc())?;
    let listing = b"M          1\nJ          1\nT\nR          0          1\nE\n";
    let Err(fault) = read(room, listing) else {
        return Err(Fail::new("accepted"));
    };
    assert_eq!(rt;
        fault,
        ListingFault {
            cause: Cause::Admission(Fault {
                refusal: Refusal::NoSuchCell,
                step: 2,
                field: 2,
            }),
            line: 4,
            column: 13,
        }
    );
    Ok(())
}

#[test]
fn a_script_has_what_the_lines_say(rt: HostRuntime) -> Result<(), Fail> {
    let room = Room::new(rt.alloc())?;
    let listing =
        b"M       4096\nC       4095          5\nJ          1\nK          7          9\nE\nG          1      10000\n";
    let Ok(script) = read(room, listing) else {
        return Err(Fail::new("refused"));
    };
    assert_eq!(rt; script.count(), 4096);
    assert_eq!(rt;
        script.presets().first().copied(),
        Some(Preset {
            cell: 4095,
            number: 5,
        })
    );
    assert_eq!(rt;
        script.turns().first().copied(),
        Some(Allotment {
            job: 1,
            turns: 10_000,
        })
    );
    let lengths = [
        script.presets().len(),
        script.turns().len(),
        script.jobs().len(),
    ];
    assert_eq!(rt; lengths, [1, 1, 1]);
    let Some(program) = script.jobs().first() else {
        return Err(Fail::new("no job"));
    };
    assert_eq!(rt; program.steps().len(), 2);
    assert_eq!(rt;
        program.steps().first().copied(),
        Some(Step::Load {
            register: 7,
            number: 9,
        })
    );
    Ok(())
}

// A field and the number in it.
#[derive(Clone, Copy)]
struct Case {
    field: &'static [u8],
    number: Option<u32>,
}

const FIELDS: [Case; 8] = [
    Case {
        field: b"          0",
        number: Some(0),
    },
    Case {
        field: b" 4294967295",
        number: Some(4_294_967_295),
    },
    Case {
        field: b" 4294967296",
        number: None,
    },
    Case {
        field: b"99999999999",
        number: None,
    },
    Case {
        field: b"         07",
        number: None,
    },
    Case {
        field: b"         7 ",
        number: None,
    },
    Case {
        field: b"         7",
        number: None,
    },
    Case {
        field: b"           ",
        number: None,
    },
];

#[test]
fn fields_and_their_numbers(rt: HostRuntime) {
    for case in &FIELDS {
        assert_eq!(rt; number_in(case.field), case.number);
    }
}
