// What is written of an item that is kept or cut: for people, and as a line of words for programs.
ghost use Rattle.std.specs.Prelude.{◌≡◌, Some};
ghost use Rattle.model_wording.specs.ItemTold.{item_text, line_of, kept_told, kept_line, cut_told, cut_line};

use crate::reason_told::{ReasonTold, ReasonWords};
use std::fmt;
use wording::holders::Told;
use wording::places::{LineText, ToldText, kind_word};

/// An item that is kept, and why.
#[derive(Clone, Copy)]
pub struct KeptTold<'a> {
    pub item: Told<'a>,
    pub reason: ReasonTold<'a>,
}

/// The same as a line: `kept`, the item's kind, its full name and the line of its statement, and the reason as words.
#[derive(Clone, Copy)]
pub struct KeptLine<'a>(pub KeptTold<'a>);

/// An item that is cut.
#[derive(Clone, Copy)]
pub struct CutTold<'a>(pub Told<'a>);

/// The same as a line: `cut`, the item's kind, its full name and the line of its statement.
#[derive(Clone, Copy)]
pub struct CutLine<'a>(pub Told<'a>);

// An item by its kind and its full name.
#[derive(Clone, Copy)]
struct ItemText<'a>(Told<'a>);

/// The line of an item's statement.
pub(crate) fn line_of(item: Told) -> Option<usize>
    ensures { result ≡ line_of item.entry }
{
    item.definition.map(|definition| definition.line)
}

impl<'a> fmt::Display for ItemText<'a> {
    ghost output = { λ i. Some (item_text i.0) };

    fn fmt<W: fmt::Write>(&self, f: &mut fmt::Formatter<W>) -> fmt::Result {
        let kind = kind_word(self.0.def);
        let told = ToldText(self.0);
        write!(f, "{kind} {told}")
    }
}

impl<'a> fmt::Display for KeptTold<'a> {
    ghost output = { λ k. Some (kept_told k.item k.reason) };

    fn fmt<W: fmt::Write>(&self, f: &mut fmt::Formatter<W>) -> fmt::Result {
        let item = ItemText(self.item);
        let reason = self.reason;
        write!(f, "kept {item}\n{reason}")
    }
}

impl<'a> fmt::Display for KeptLine<'a> {
    ghost output = { λ k. Some (kept_line k.0.item k.0.reason) };

    fn fmt<W: fmt::Write>(&self, f: &mut fmt::Formatter<W>) -> fmt::Result {
        let item = ItemText(self.0.item);
        let line = LineText(line_of(self.0.item));
        let reason = ReasonWords(self.0.reason);
        write!(f, "kept {item} {line} {reason}")
    }
}

impl<'a> fmt::Display for CutTold<'a> {
    ghost output = { λ c. Some (cut_told c.0) };

    fn fmt<W: fmt::Write>(&self, f: &mut fmt::Formatter<W>) -> fmt::Result {
        let item = ItemText(self.0);
        let line = LineText(line_of(self.0));
        write!(f, "cut {item} in line {line}\n")
    }
}

impl<'a> fmt::Display for CutLine<'a> {
    ghost output = { λ c. Some (cut_line c.0) };

    fn fmt<W: fmt::Write>(&self, f: &mut fmt::Formatter<W>) -> fmt::Result {
        let item = ItemText(self.0);
        let line = LineText(line_of(self.0));
        write!(f, "cut {item} {line}")
    }
}
