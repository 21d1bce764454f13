// What a path was read as, for people: the path as it is written, and below it its kind and its names with their numbers.
ghost use Rattle.std.specs.Prelude.{Some};
ghost use Rattle.paths.specs.Told.{named, each_named, names_told, kind_told, path_told};

use crate::show::kind_word;
use bstr::BStr;
use hir_def::Name;
use path_text::mod_path::{ModPath, PathKind};
use path_text::name_list::NameList;
use std::fmt;

/// A path that was read, the text that it is written as, and the list that has its names.
#[derive(Clone, Copy)]
pub struct PathTold<'a, 'n> {
    pub text: &'a [u8],
    pub list: &'a NameList<'n>,
    pub path: &'a ModPath,
}

// A name and its number.
#[derive(Clone, Copy)]
struct Named<'a, 'n> {
    list: &'a NameList<'n>,
    name: Name,
}

// Names, each after a comma.
#[derive(Clone, Copy)]
struct EachNamed<'a, 'n> {
    list: &'a NameList<'n>,
    names: &'a [Name],
}

#[derive(Clone, Copy)]
struct NamesTold<'a, 'n> {
    list: &'a NameList<'n>,
    names: &'a [Name],
}

#[derive(Clone, Copy)]
struct KindTold(PathKind);

impl fmt::Display for KindTold {
    ghost output = { λ k. Some (kind_told k.0) };

    fn fmt<W: fmt::Write>(&self, f: &mut fmt::Formatter<W>) -> fmt::Result {
        let word = kind_word(self.0);
        match self.0 {
            PathKind::Super(level) => write!(f, "{word} of level {level}"),
            _ => f.write_str(word),
        }
    }
}

impl<'a, 'n> fmt::Display for Named<'a, 'n> {
    ghost output = { λ n. Some (named n.list.now n.name) };

    fn fmt<W: fmt::Write>(&self, f: &mut fmt::Formatter<W>) -> fmt::Result {
        let number = self.name.0;
        match self.list.text(self.name) {
            Some(line) => {
                let text = BStr::new(line);
                write!(f, "{text} #{number}")
            }
            None => write!(f, "#{number}"),
        }
    }
}

#[tactic(auto, using(crate::proofs::Numbers::named_more, crate::proofs::Numbers::named_all))]
impl<'a, 'n> fmt::Display for EachNamed<'a, 'n> {
    ghost output = { λ e. Some (each_named e.list.now e.names.now) };

    fn fmt<W: fmt::Write>(&self, f: &mut fmt::Formatter<W>) -> fmt::Result {
        let list = self.list;
        for name in self.names.iter() {
            let told = Named { list, name: *name };
            write!(f, ", {told}")?;
        }
        Ok(())
    }
}

impl<'a, 'n> fmt::Display for NamesTold<'a, 'n> {
    ghost output = { λ n. Some (names_told n.list.now n.names.now) };

    fn fmt<W: fmt::Write>(&self, f: &mut fmt::Formatter<W>) -> fmt::Result {
        let list = self.list;
        match self.names {
            [] => Ok(()),
            [first, rest @ ..] => {
                let name = Named { list, name: *first };
                let more = EachNamed { list, names: rest };
                write!(f, ": {name}{more}")
            }
        }
    }
}

impl<'a, 'n> fmt::Display for PathTold<'a, 'n> {
    ghost output = { λ p. Some (path_told p.list.now p.text.now p.path.now) };

    fn fmt<W: fmt::Write>(&self, f: &mut fmt::Formatter<W>) -> fmt::Result {
        let text = BStr::new(self.text);
        let kind = KindTold(self.path.kind);
        let names = NamesTold {
            list: self.list,
            names: self.path.names.as_slice(),
        };
        write!(f, "path {text}\n    read as {kind}{names}\n")
    }
}
