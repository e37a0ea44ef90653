ghost use Rattle.std.specs.Prelude.{◌≡◌, true, is_ok, IfOk};
ghost use Rattle.cell_log.specs.Rows.{sound};

use crate::log::NotALog;
use crate::row::LogRow;

// The log in a row, where it lies: at most 24 entries, ascending by cell, each cell once.
#[derive(Clone, Copy)]
pub struct LogIn<'a> {
    pub(crate) row: &'a LogRow,
    ghost ordered: { sound row.now ≡ true },
}

// The log that a row holds, if it is one.
impl<'a> TryFrom<&'a LogRow> for LogIn<'a> {
    type Error = NotALog;

    ghost try_from_gives = { λ row result. (is_ok result ≡ sound row.now) × IfOk result (λ l. l.row.now ≡ row.now) };

    fn try_from(row: &'a LogRow) -> Result<LogIn<'a>, NotALog> {
        if row.is_sound() {
            Ok(LogIn { row })
        } else {
            Err(NotALog)
        }
    }
}
