// Rows that lead to rows.
ghost use Rattle.std.specs.Prelude.{◌≡◌, ◌<◌, ◌^◌, length, option_map, IfOk};
ghost use Rattle.set_names.specs.Paths.{next_in, with_next, path_within};

use std::alloc::{AllocError, Global};

/// The row that a row leads to, where there is one.
fn next_row(rows: &[u32], row: u32) -> Option<u32>
    ensures { result ≡ next_in rows.now row }
{
    if row == 0 || row as usize > rows.len() || rows[row as usize - 1] == 0 {
        return None;
    }
    Some(rows[row as usize - 1])
}

/// Notes where a row leads to, 0 for nowhere; `rows` goes by row from 0. A row that isn't there is
/// passed over.
pub fn note_next(rows: &mut Vec<u32>, row: u32, next: u32)
    ensures { rows.new.items ≡ with_next rows.old.items row next }
{
    if row != 0 && row as usize <= rows.len() {
        rows[row as usize - 1] = next;
    }
}

/// The rows from this one on, or None where they lead into a circle.
pub fn path_of(alloc: Global, rows: &[u32], row: u32) -> Result<Option<Vec<u32>>, AllocError>
    requires { length rows.now < 2 ^ 32 }
    ensures { IfOk result (λ path. option_map (λ rows. rows.items) path ≡ path_within (next_in rows.now) (length rows.now) row) }
{
    let mut path = Vec::new(alloc);
    let mut at = row;
    for _k in 0..rows.len() {
        path.push(at)?;
        match next_row(rows, at) {
            None => return Ok(Some(path)),
            Some(next) => at = next,
        }
    }
    Ok(None)
}
