ghost use Rattle.std.specs.Prelude.{◌≡◌, ℕ, ◌^◌, ◌<◌, true, MatchOption, ◌≢◌};
ghost use Rattle.report.specs.Text as text;
ghost use Rattle.listing.specs.Columns.{left_of, value_from};

// How many columns a field has.
pub const COLUMNS: usize = 11;

// The number in a field, if the field is exactly what that number is written as. By hand, since what parses a number
// takes other texts too, with a sign or with zeros before it.
pub fn number_in(field: &[u8]) -> Option<u32>
    ensures { MatchOption result ((n : ℕ) → n < 2 ^ 32 → field.now ≢ text.field n) (λ n. field.now ≡ text.field n) }
{
    let number = value(field);
    shows(field, number).then_some(number)
}

// What the columns come to if they are digits, with blanks before them; of no use otherwise.
fn value(field: &[u8]) -> u32
    ensures { result ≡ value_from 0 field.now }
{
    field.iter().fold(0u32, |value, column| {
        value.wrapping_mul(10).wrapping_add(u32::from(*column % 16))
    })
}

// Whether the field is what the number is written as.
fn shows(field: &[u8], number: u32) -> bool
    ensures written { result ≡ true → field.now ≡ text.field number }
    ensures found { field.now ≡ text.field number → result ≡ true }
{
    if field.len() != COLUMNS {
        return false;
    }
    if field[10] != b'0' + (number % 10) as u8 {
        return false;
    }
    // A loop and no `all`: what is left of the number changes from column to column.
    let mut rest = number / 10;
    for column in field[..10].iter().rev() {
        if *column != left_of(rest) {
            return false;
        }
        rest /= 10;
    }
    true
}

// What stands left of a number's last digits, where this is the rest of it: its own last digit, or a blank.
fn left_of(rest: u32) -> u8
    ensures { result ≡ left_of rest }
{
    if rest == 0 {
        b' '
    } else {
        b'0' + (rest % 10) as u8
    }
}
