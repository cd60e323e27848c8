// Numbers in the caller's bytes.
ghost use Rattle.std.specs.Prelude.{◌≡◌, ◌+◌, ◌^◌, ◌<◌, ◌≤◌, length};
ghost use Rattle.dayfile.specs.Bytes.{little_endian, value};

use crate::field::Column;

// The number that at most eight bytes are, the lowest first.
fn little_endian(bytes: &[u8]) -> u64
    requires { length bytes.now ≤ 8 }
    ensures is { result ≡ little_endian bytes.now }
    ensures bound { result < 256 ^ length bytes.now }
{
    let mut eight = [0; 8];
    eight[..bytes.len()].copy_from_slice(bytes);
    u64::from_le_bytes(eight)
}

// The number that stands in a column. Who reads it narrows it to the column's width by a cast: a function per width would be no shorter.
pub(crate) fn read(bytes: &[u8], column: Column) -> u64
    requires inside { column.at + column.width ≤ length bytes.now }
    requires narrow { column.width ≤ 8 }
    ensures is { result ≡ value bytes.now column }
    ensures bound { result < 256 ^ column.width }
{
    let at = column.at;
    let end = at + column.width;
    little_endian(&bytes[at..end])
}
