// What is written of why an item is kept: for people, and as words for programs.
ghost use Rattle.std.specs.Prelude.{◌≡◌, Some};
ghost use Rattle.model_wording.specs.Reasons.{reason_by};
ghost use Rattle.model_wording.specs.ReasonTold.{variant_name, path_at, as_variant, through_told, by_told, entry_told, reason_told, place_words, by_words, reason_words};

use bstr::BStr;
use cuts::reached::Reason;
use firmware::definition::Definition;
use firmware::file::Firmware;
use hir_def::{ModuleDefId, Namespace};
use std::fmt;
use wording::holders::{Holder, entry_holder, entry_in};
use wording::places::{LineText, by_word, namespace_word};

/// Why an item is kept: the path with the line of its statement, the namespace, the entry that stands for the item, and the place
/// that the entry came to, if it came to one.
#[derive(Clone, Copy)]
pub struct ReasonTold<'a> {
    pub path: &'a [u8],
    pub line: Option<usize>,
    pub namespace: Namespace,
    pub holder: Option<Holder<'a>>,
    pub place: Option<Definition<'a>>,
}

/// The same as words: the line of the path, the namespace, the name and the module of the place, whether a name or a glob brought
/// the entry, and the line of the statement that did.
#[derive(Clone, Copy)]
pub(crate) struct ReasonWords<'a>(pub(crate) ReasonTold<'a>);

// A path and the line of its statement.
#[derive(Clone, Copy)]
struct PathAt<'a> {
    path: &'a [u8],
    line: Option<usize>,
}

// The variant by which its enum is reached, if one is.
#[derive(Clone, Copy)]
struct AsVariant<'a>(Option<&'a str>);

// The place that an entry came to, if it came to one.
#[derive(Clone, Copy)]
struct ThroughTold<'a>(Option<Definition<'a>>);

// What brought an entry.
#[derive(Clone, Copy)]
struct ByTold<'a>(Option<Holder<'a>>);

// An entry by its namespace, its variant, its place and what brought it.
#[derive(Clone, Copy)]
struct EntryTold<'a>(ReasonTold<'a>);

// The name and the module of a place, `- -` for none.
#[derive(Clone, Copy)]
struct PlaceWords<'a>(Option<Definition<'a>>);

// What brought an entry, `- -` for none.
#[derive(Clone, Copy)]
struct ByWords<'a>(Option<Holder<'a>>);

impl<'s> ReasonTold<'s> {
    /// The reason by the statements of the file. The path is given as text.
    pub fn of<'a: 's>(firmware: &Firmware<'a>, path: &'s [u8], reason: &Reason) -> ReasonTold<'s>
        ensures { result ≡ reason_by firmware.now path.entry reason.now }
    {
        let definitions = &firmware.definitions;
        let namespace = reason.namespace;
        let place = match entry_in(&reason.entries, namespace) {
            Some(entry) => definitions.place_of(entry.def, entry.import),
            None => None,
        };
        ReasonTold {
            path,
            line: firmware.path_line(reason.path),
            namespace,
            holder: entry_holder(definitions, &reason.entries, namespace),
            place,
        }
    }
}

/// The name of the variant that an entry stands for, if it is one.
pub(crate) fn variant_name<'a>(holder: Option<Holder<'a>>) -> Option<&'a str>
    ensures { result ≡ variant_name holder.entry }
{
    let told = holder?.told;
    match told.def {
        ModuleDefId::EnumVariantId(_) => told.definition.map(|definition| definition.name),
        _ => None,
    }
}

impl<'a> fmt::Display for PathAt<'a> {
    ghost output = { λ p. Some (path_at p.path.now p.line) };

    fn fmt<W: fmt::Write>(&self, f: &mut fmt::Formatter<W>) -> fmt::Result {
        let path = BStr::new(self.path);
        let line = LineText(self.line);
        write!(f, "path {path} in line {line}")
    }
}

impl<'a> fmt::Display for AsVariant<'a> {
    ghost output = { λ v. Some (as_variant v.0) };

    fn fmt<W: fmt::Write>(&self, f: &mut fmt::Formatter<W>) -> fmt::Result {
        match self.0 {
            Some(name) => write!(f, " as its variant {name}"),
            None => Ok(()),
        }
    }
}

impl<'a> fmt::Display for ThroughTold<'a> {
    ghost output = { λ p. Some (through_told p.0) };

    fn fmt<W: fmt::Write>(&self, f: &mut fmt::Formatter<W>) -> fmt::Result {
        match self.0 {
            Some(place) => {
                let name = place.name;
                let module = place.within;
                write!(f, " through {name} in {module}")
            }
            None => Ok(()),
        }
    }
}

impl<'a> fmt::Display for ByTold<'a> {
    ghost output = { λ b. Some (by_told b.0) };

    fn fmt<W: fmt::Write>(&self, f: &mut fmt::Formatter<W>) -> fmt::Result {
        match self.0 {
            Some(holder) => {
                let by = by_word(holder.by_name);
                let line = LineText(holder.line);
                write!(f, ", by {by} in line {line}")
            }
            None => Ok(()),
        }
    }
}

impl<'a> fmt::Display for EntryTold<'a> {
    ghost output = { λ e. Some (entry_told e.0.namespace e.0.holder e.0.place) };

    fn fmt<W: fmt::Write>(&self, f: &mut fmt::Formatter<W>) -> fmt::Result {
        let namespace = namespace_word(self.0.namespace);
        let variant = AsVariant(variant_name(self.0.holder));
        let through = ThroughTold(self.0.place);
        let by = ByTold(self.0.holder);
        write!(f, "{namespace}{variant}{through}{by}")
    }
}

impl<'a> fmt::Display for ReasonTold<'a> {
    ghost output = { λ r. Some (reason_told r) };

    fn fmt<W: fmt::Write>(&self, f: &mut fmt::Formatter<W>) -> fmt::Result {
        let path = PathAt {
            path: self.path,
            line: self.line,
        };
        let entry = EntryTold(*self);
        write!(f, "    reached by {path}, in {entry}\n")
    }
}

impl<'a> fmt::Display for PlaceWords<'a> {
    ghost output = { λ p. Some (place_words p.0) };

    fn fmt<W: fmt::Write>(&self, f: &mut fmt::Formatter<W>) -> fmt::Result {
        match self.0 {
            Some(place) => {
                let name = place.name;
                let module = place.within;
                write!(f, "{name} {module}")
            }
            None => f.write_str("- -"),
        }
    }
}

impl<'a> fmt::Display for ByWords<'a> {
    ghost output = { λ b. Some (by_words b.0) };

    fn fmt<W: fmt::Write>(&self, f: &mut fmt::Formatter<W>) -> fmt::Result {
        match self.0 {
            Some(holder) => {
                let by = by_word(holder.by_name);
                let line = LineText(holder.line);
                write!(f, "{by} {line}")
            }
            None => f.write_str("- -"),
        }
    }
}

impl<'a> fmt::Display for ReasonWords<'a> {
    ghost output = { λ r. Some (reason_words r.0) };

    fn fmt<W: fmt::Write>(&self, f: &mut fmt::Formatter<W>) -> fmt::Result {
        let line = LineText(self.0.line);
        let namespace = namespace_word(self.0.namespace);
        let place = PlaceWords(self.0.place);
        let by = ByWords(self.0.holder);
        write!(f, "{line} {namespace} {place} {by}")
    }
}
