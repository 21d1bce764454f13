// What a line shows on a terminal, cell by cell: nothing of it reaches the terminal that would move the cursor.
ghost use Rattle.std.specs.Prelude.{◌≡◌, ◌<◌, ◌≤◌, length, IfSome, Some, encode_utf8_all};
ghost use Rattle.source_text.specs.Cells.{cell_chars, first_cell};

use bstr::decode_utf8;
use std::fmt;
use unicode_width::UnicodeWidthChar;

/// A tab, a character that has a width, or a byte that is shown as an escape.
#[derive(Clone, Copy, PartialEq, Eq, Debug)]
pub(crate) enum Cell {
    Tab,
    Char(char),
    Byte(u8),
}

#[tactic(auto, using(crate::proofs::Cells::escape))]
impl fmt::Display for Cell {
    ghost output = { λ c. Some (encode_utf8_all (cell_chars c)) };

    fn fmt<W: fmt::Write>(&self, f: &mut fmt::Formatter<W>) -> fmt::Result {
        match *self {
            Cell::Tab => f.write_str("\t"),
            Cell::Char(c) => write!(f, "{c}"),
            Cell::Byte(b) => write!(f, "\\x{b:02x}"),
        }
    }
}

/// The first cell of a text and how many bytes it takes.
#[tactic(auto, using(crate::proofs::Cells::size_bounds), unfolding(unicode_width::specs::Width::char_width))]
pub(crate) fn first_cell(text: &[u8]) -> Option<(Cell, usize)>
    ensures value { result ≡ first_cell text.now }
    ensures bounds { IfSome result (λ c. (0 < c.1) × (c.1 ≤ length text.now)) }
{
    let first = *text.first()?;
    if first == b'\t' {
        return Some((Cell::Tab, 1));
    }
    match decode_utf8(text) {
        (Some(c), size) if c.width().unwrap_or(0) > 0 => Some((Cell::Char(c), size)),
        _ => Some((Cell::Byte(first), 1)),
    }
}
