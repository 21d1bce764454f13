// A line of a file as a person sees it, with a caret under one of its bytes.
ghost use Rattle.std.specs.Prelude.{◌≡◌, ◌≤◌, nat_le, not, length, take, Some, None, encode_utf8_all};
ghost use Rattle.std.specs.List.{position};
ghost use Rattle.std.specs.Fmt.{DisplaysOnOk, DisplaysStyledOnOk, formatter_spec};
ghost use Rattle.source_text.specs.Cells.{cell_margin, shown, margin};
ghost use Rattle.source_text.specs.Excerpts.{goes_on, cut, before, after, dots, end_of, start_of, shown_before, shown_after, caret_margin, excerpt_text, CaretUnder};

use crate::cell::{Cell, first_cell};
use std::fmt;
use unicode_width::UnicodeWidthChar;

/// A line, its place in the file left out, and the byte under which the caret stands; past the end it stands behind the line.
/// A tab stays a tab. A byte that is no text, and a character without a width, is shown as an escape like `\x1b`. Of what
/// stands before the caret at most 60 bytes are shown where there are more than 80, and of the rest 80 where there are more
/// than 100; three dots stand for what is left out.
#[derive(Clone, Copy, Debug)]
pub struct Excerpt<'a> {
    pub line: &'a [u8],
    pub column: usize,
}

#[derive(Clone, Copy)]
struct Shown<'a>(&'a [u8]);

// Blanks as wide as the text, so that a caret stands under what follows it.
#[derive(Clone, Copy)]
struct Margin<'a>(&'a [u8]);

// What is shown of the text before the caret.
#[derive(Clone, Copy)]
struct Before<'a>(&'a [u8]);

// What is shown of the text from the caret on.
#[derive(Clone, Copy)]
struct After<'a>(&'a [u8]);

// Blanks as wide as what is shown of the text before the caret.
#[derive(Clone, Copy)]
struct Under<'a>(&'a [u8]);

// Blanks as wide as a cell.
#[derive(Clone, Copy)]
struct Blank(Cell);

const DOTS: &str = "...";

#[tactic(auto, using(crate::proofs::CellLists::shown_step, crate::proofs::CellLists::none_left))]
impl<'a> fmt::Display for Shown<'a> {
    ghost output = { λ s. Some (encode_utf8_all (shown s.0.now)) };

    fn fmt<W: fmt::Write>(&self, f: &mut fmt::Formatter<W>) -> fmt::Result {
        let mut rest = self.0;
        while let Some((cell, size)) = first_cell(rest) {
            write!(f, "{cell}")?;
            (_, rest) = rest.split_at(size);
        }
        Ok(())
    }
}

#[tactic(auto, using(crate::proofs::Cells::blanks, crate::proofs::Cells::four_blanks), unfolding(unicode_width::specs::Width::char_width))]
impl fmt::Display for Blank {
    ghost output = { λ b. Some (encode_utf8_all (cell_margin b.0)) };

    fn fmt<W: fmt::Write>(&self, f: &mut fmt::Formatter<W>) -> fmt::Result {
        match self.0 {
            Cell::Tab => f.write_str("\t"),
            Cell::Char(c) => {
                let width = c.width().unwrap_or(0);
                write!(f, "{:width$}", "")
            }
            Cell::Byte(_) => f.write_str("    "),
        }
    }
}

#[tactic(auto, using(crate::proofs::CellLists::margin_step, crate::proofs::CellLists::none_left))]
impl<'a> fmt::Display for Margin<'a> {
    ghost output = { λ m. Some (encode_utf8_all (margin m.0.now)) };

    fn fmt<W: fmt::Write>(&self, f: &mut fmt::Formatter<W>) -> fmt::Result {
        let mut rest = self.0;
        while let Some((cell, size)) = first_cell(rest) {
            let blank = Blank(cell);
            write!(f, "{blank}")?;
            (_, rest) = rest.split_at(size);
        }
        Ok(())
    }
}

fn goes_on(b: u8) -> bool
    ensures { result ≡ goes_on b }
{
    b & 0xC0 == 0x80
}

// The first of three bytes with which a character may begin.
fn find_begin(text: &[u8]) -> Option<usize>
    ensures { result ≡ position (λ b. not (goes_on b)) (take 3 text.now) }
{
    text.iter().take(3).position(|b| !goes_on(*b))
}

// The first place from there on where a character may begin.
fn cut(text: &[u8], from: usize) -> usize
    requires { from ≤ length text.now }
    ensures value { result ≡ cut text.now from }
    ensures within { result ≤ length text.now }
{
    let (_, rest) = text.split_at(from);
    from + find_begin(rest).unwrap_or(0)
}

// What is shown of the text before the caret, and whether that is not all.
fn end_of(text: &[u8]) -> (&str, &[u8])
    ensures dots { result.0.now ≡ dots (not (nat_le (length text.now) 80)) }
    ensures end { result.1.now ≡ end_of text.now }
{
    if text.len() <= 80 {
        return ("", text);
    }
    let (_, end) = text.split_at(cut(text, text.len() - 60));
    (DOTS, end)
}

// What is shown of the text from the caret on, and whether that is not all.
fn start_of(text: &[u8]) -> (&[u8], &str)
    ensures start { result.0.now ≡ start_of text.now }
    ensures dots { result.1.now ≡ dots (not (nat_le (length text.now) 100)) }
{
    if text.len() <= 100 {
        return (text, "");
    }
    let (start, _) = text.split_at(cut(text, 80));
    (start, DOTS)
}

#[tactic(auto, using(crate::proofs::Encoded::before_encoded))]
impl<'a> fmt::Display for Before<'a> {
    ghost output = { λ b. Some (encode_utf8_all (shown_before b.0.now)) };

    fn fmt<W: fmt::Write>(&self, f: &mut fmt::Formatter<W>) -> fmt::Result {
        let (left, text) = end_of(self.0);
        let shown = Shown(text);
        write!(f, "    {left}{shown}")
    }
}

#[tactic(auto, using(crate::proofs::Encoded::after_encoded))]
impl<'a> fmt::Display for After<'a> {
    ghost output = { λ a. Some (encode_utf8_all (shown_after a.0.now)) };

    fn fmt<W: fmt::Write>(&self, f: &mut fmt::Formatter<W>) -> fmt::Result {
        let (text, right) = start_of(self.0);
        let shown = Shown(text);
        write!(f, "{shown}{right}")
    }
}

#[tactic(auto, using(crate::proofs::Encoded::margin_encoded))]
impl<'a> fmt::Display for Under<'a> {
    ghost output = { λ u. Some (encode_utf8_all (caret_margin u.0.now)) };

    fn fmt<W: fmt::Write>(&self, f: &mut fmt::Formatter<W>) -> fmt::Result {
        let (left, text) = end_of(self.0);
        let dots = Margin(left.as_bytes());
        let margin = Margin(text);
        write!(f, "    {dots}{margin}")
    }
}

impl<'a> Excerpt<'a> {
    // The line before the byte, and from it on.
    #[tactic(auto, unfolding(crate::specs::Excerpts::before, crate::specs::Excerpts::after))]
    fn halves(&self) -> (&'a [u8], &'a [u8])
        ensures before { result.0.now ≡ before self.now.line.now self.now.column }
        ensures after { result.1.now ≡ after self.now.line.now self.now.column }
    {
        self.line.split_at(self.column.min(self.line.len()))
    }
}

#[tactic(auto, using(crate::proofs::Carets::caret_under))]
impl<'a> fmt::Display for Excerpt<'a> {
    ghost output = { λ e. Some (excerpt_text e.line.now e.column) };

    fn fmt<W: fmt::Write>(&self, f: &mut fmt::Formatter<W>) -> fmt::Result
        ensures writes { DisplaysOnOk W.write_str_gives f.old result (Some (excerpt_text self.now.line.now self.now.column)) f.new }
        ensures styled { DisplaysStyledOnOk W.write_str_gives f.old result None f.new }

        // The caret stands under the byte.
        ensures aligned { CaretUnder self.now.line.now self.now.column }
    {
        let (before, after) = self.halves();
        let under = Under(before);
        let before = Before(before);
        let after = After(after);
        write!(f, "{before}{after}\n{under}^")
    }
}
