use model::Step;

// Adds the number to the cell and ends.
pub(crate) fn adder(cell: u32, number: u32) -> [Step; 5] {
    [
        Step::Read { register: 0, cell },
        Step::Load {
            register: 1,
            number,
        },
        Step::Add {
            register: 0,
            other: 1,
        },
        Step::Write { cell, register: 0 },
        Step::End,
    ]
}

// Waits until the cell is above 0, and then moves its number to the other cell.
pub(crate) fn mover(from: u32, to: u32) -> [Step; 7] {
    [
        Step::Read {
            register: 0,
            cell: from,
        },
        Step::JumpIfLess {
            register: 1,
            other: 0,
            step: 4,
        },
        Step::Wait,
        Step::Write {
            cell: to,
            register: 0,
        },
        Step::Load {
            register: 2,
            number: 0,
        },
        Step::Write {
            cell: from,
            register: 2,
        },
        Step::End,
    ]
}
