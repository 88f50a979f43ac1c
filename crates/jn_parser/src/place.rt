//! Places in a source.

ghost use Rattle.std.specs.Prelude.{◌≡◌, ◌≤◌, ◌+◌, length};
ghost use Rattle.jn_base.specs.Places.{place_of};
ghost use Rattle.jn_parser.specs.Moved.{moved};

use jn_base::tree::Place;

/// The place behind these bytes, the first of which stands at `from`.
pub fn moved(from: Place, bytes: &[u8]) -> Place
    requires line { from.line + length bytes.now ≤ 4_000_000 }
    requires column { from.column + length bytes.now ≤ 4_000_000 }
    ensures { result ≡ moved from bytes.now }
{
    let mut line = from.line;
    let mut column = from.column;
    for b in bytes {
        if *b == b'\n' {
            line += 1;
            column = 1;
        } else {
            column += 1;
        }
    }
    Place { line, column }
}

/// The place of a byte, or of the end for one that is not there.
pub fn place_of(bytes: &[u8], at: usize) -> Place
    requires { length bytes.now ≤ 1_048_576 }
    ensures { result ≡ place_of bytes.now at }
{
    let start = Place { line: 1, column: 1 };
    moved(start, &bytes[..at.min(bytes.len())])
}
