ghost use Rattle.std.specs.Prelude.{◌≡◌, ℕ, suc, ◌<◌, List, Ok};
ghost use Rattle.listing.specs.Columns.{number_of};
ghost use Rattle.script.specs.Faults.{Progress, next, fault_at, column_of, tests_of, read_number, read_numbers, step_from};
ghost use Rattle.script.specs.Lines.{group_of};
ghost use Rattle.script.specs.declared.Group.TheVariants.{OfStep};
ghost use Rattle.script.specs.declared.Test.TheVariants.{AnyNumber};
ghost use Rattle.listing_reader.specs.Parts.{kind_in, Placed};

use crate::line::Line;
use listing::field::number_in;
use model::Step;
use script::{Cause, ListingFault, Test};

// Where a field stands: its line, and how many fields stand before it there.
#[derive(Clone, Copy)]
pub struct FieldPlace {
    pub(crate) line: u32,
    pub(crate) k: u8,
    ghost few: { k < 3 },
}

impl FieldPlace {
    fn fault(self, cause: Cause) -> ListingFault
        ensures { result ≡ fault_at cause self.line (column_of (suc self.k)) }
    {
        ListingFault::of_field(cause, self.line, self.k)
    }

    // The number in the field, if it is one and passes the test.
    pub(crate) fn number(self, field: &[u8], test: Test) -> Result<u32, ListingFault>
        ensures { result ≡ read_number test (number_of field.now) self.line self.k }
    {
        let number = number_in(field).ok_or(self.fault(Cause::NotANumber))?;
        match test.cause(number) {
            Some(cause) => Err(self.fault(cause)),
            None => Ok(number),
        }
    }

    pub(crate) fn any_number(self, field: &[u8]) -> Result<u32, ListingFault>
        ensures { result ≡ read_number AnyNumber (number_of field.now) self.line self.k }
    {
        self.number(field, Test::AnyNumber)
    }
}

// The step that a line means. Of a line that is no step it is never asked.
pub(crate) fn step_in(content: Line, line: u32) -> Result<Step, ListingFault>
    requires step { group_of (kind_in content) ≡ OfStep }
    ensures { (p : Progress) (fields : List ℕ) → Placed fields content.entry → result ≡ next (read_numbers (tests_of p (kind_in content.entry)) line 0 fields) (λ ns. Ok (step_from (kind_in content.entry) ns)) }
{
    let first = FieldPlace { line, k: 0 };
    let second = FieldPlace { line, k: 1 };
    let third = FieldPlace { line, k: 2 };
    match content {
        Line::Read(register, cell) => Ok(Step::Read {
            register: first.any_number(register)?,
            cell: second.any_number(cell)?,
        }),
        Line::Write(cell, register) => Ok(Step::Write {
            cell: first.any_number(cell)?,
            register: second.any_number(register)?,
        }),
        Line::Load(register, number) => Ok(Step::Load {
            register: first.any_number(register)?,
            number: second.any_number(number)?,
        }),
        Line::Add(register, other) => Ok(Step::Add {
            register: first.any_number(register)?,
            other: second.any_number(other)?,
        }),
        Line::Subtract(register, other) => Ok(Step::Subtract {
            register: first.any_number(register)?,
            other: second.any_number(other)?,
        }),
        Line::JumpIfLess(register, other, step) => Ok(Step::JumpIfLess {
            register: first.any_number(register)?,
            other: second.any_number(other)?,
            step: third.any_number(step)?,
        }),
        Line::Wait => Ok(Step::Wait),
        _ => Ok(Step::End),
    }
}
