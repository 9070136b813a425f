//! Tables of names.

ghost use Rattle.asm_lex.specs.Registers.{named, rows_of};
ghost use Rattle.std.specs.Prelude.{◌≡◌};

/// What a name stands for in a table.
pub(crate) fn named<T: Copy>(rows: &[(&[u8], T)], text: &[u8]) -> Option<T>
    ensures { result ≡ named (rows_of rows.now) text.now }
{
    for row in rows {
        if text == row.0 {
            return Some(row.1);
        }
    }
    None
}
