ghost use Rattle.std.specs.Prelude.{◌≡◌, suc, ◌*◌, ◌≤◌, length};
ghost use Rattle.script.specs.Faults.{field_at};
ghost use Rattle.script.specs.Lines.{fields_of};
ghost use Rattle.listing_reader.specs.Parts.{Found};

use crate::line::Line;
use listing::field::COLUMNS;
use script::{Head, Kind};

// Field k of a line, counted from 0.
fn field<'a>(fields: &'a [u8], k: usize) -> &'a [u8]
    requires { 11 * suc k ≤ length fields.now }
    ensures { result.now ≡ field_at k fields.now }
{
    &fields[COLUMNS * k..COLUMNS * k + COLUMNS]
}

// The line whose letter says this and whose fields are these bytes, if there are as many as there should be.
// Each field is cut at its place: patterns over chunks would test the number of fields a second time, arm by arm.
pub(crate) fn line_of<'a>(head: Head, fields: &'a [u8]) -> Option<Line<'a>>
    requires { head.fields ≡ fields_of head.kind }
    ensures { Found head.kind fields.now result }
{
    if fields.len() != COLUMNS * head.fields {
        return None;
    }
    Some(match head.kind {
        Kind::Size => Line::Size(field(fields, 0)),
        Kind::Cell => Line::Cell(field(fields, 0), field(fields, 1)),
        Kind::Job => Line::Job(field(fields, 0)),
        Kind::Read => Line::Read(field(fields, 0), field(fields, 1)),
        Kind::Write => Line::Write(field(fields, 0), field(fields, 1)),
        Kind::Load => Line::Load(field(fields, 0), field(fields, 1)),
        Kind::Add => Line::Add(field(fields, 0), field(fields, 1)),
        Kind::Subtract => Line::Subtract(field(fields, 0), field(fields, 1)),
        Kind::JumpIfLess => Line::JumpIfLess(field(fields, 0), field(fields, 1), field(fields, 2)),
        Kind::Wait => Line::Wait,
        Kind::End => Line::End,
        Kind::Turns => Line::Turns(field(fields, 0), field(fields, 1)),
    })
}
