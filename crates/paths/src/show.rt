// A path by its kind and its numbers, as text: in one line for programs, and with the names for people.
ghost use Rattle.std.specs.Prelude.{◌≡◌, ◌++◌, Some, vec_items};
ghost use Rattle.path_text.specs.Laws.{level_of};
ghost use Rattle.paths.specs.Apart.{WordsApart, LinesApart};
ghost use Rattle.paths.specs.Shown.{kind_word, kind_text, each_after, dotted, path_words, path_line};

use hir_def::Name;
use path_text::mod_path::{ModPath, PathKind};
use path_text::name_list::NameList;
use std::fmt;

/// The kind as one word of a line: `plain`, `abs`, `crate`, `super:LEVEL` or `dollar:CRATE`.
#[derive(Clone, Copy, Debug)]
pub struct KindText(pub PathKind);

/// The numbers of names, each with that text before it.
#[derive(Clone, Copy, Debug)]
pub struct Numbers<'a> {
    pub names: &'a [Name],
    pub before: &'a str,
}

/// The numbers of names with dots between them, or `-` for none.
#[derive(Clone, Copy, Debug)]
pub struct Dotted<'a>(pub &'a [Name]);

/// A path as two words: its kind, and its numbers with dots between them.
#[derive(Clone, Copy, Debug)]
pub struct PathWords<'a>(pub &'a ModPath);

/// A path as a line of words: `path`, its kind, its level and each of its numbers.
#[derive(Clone, Copy, Debug)]
pub struct PathLine<'a>(pub &'a ModPath);

impl<'a> PathWords<'a> {
    /// A path as its words, which no other path has.
    #[tactic(auto, using(crate::proofs::Apart::words_apart))]
    pub fn of(path: &'a ModPath) -> PathWords<'a>
        ensures path { result.0.now ≡ path.entry.now }
        ensures alone { WordsApart path.entry.now.kind path.entry.now.names.items }
    {
        PathWords(path)
    }
}

impl<'a> PathLine<'a> {
    /// A path as its line, which no other path has, unless one of them begins with `$crate`.
    #[tactic(auto, using(crate::proofs::Apart::lines_apart))]
    pub fn of(path: &'a ModPath) -> PathLine<'a>
        ensures path { result.0.now ≡ path.entry.now }
        ensures alone { LinesApart path.entry.now.kind path.entry.now.names.items }
    {
        PathLine(path)
    }
}

/// How a path begins, in one word.
pub fn kind_word(kind: PathKind) -> &'static str
    ensures { result.now ≡ kind_word kind }
{
    match kind {
        PathKind::Plain => "plain",
        PathKind::Super(_) => "super",
        PathKind::Crate => "crate",
        PathKind::Abs => "abs",
        PathKind::DollarCrate(_) => "dollar",
    }
}

/// How many `super` a path of that kind begins with.
pub fn level_of(kind: PathKind) -> u32
    ensures { result ≡ level_of kind }
{
    match kind {
        PathKind::Super(level) => level,
        _ => 0,
    }
}

impl fmt::Display for KindText {
    ghost output = { λ k. Some (kind_text k.0) };

    fn fmt<W: fmt::Write>(&self, f: &mut fmt::Formatter<W>) -> fmt::Result {
        let word = kind_word(self.0);
        match self.0 {
            PathKind::Super(level) => write!(f, "{word}:{level}"),
            PathKind::DollarCrate(krate) => {
                let number = krate.0;
                write!(f, "{word}:{number}")
            }
            _ => f.write_str(word),
        }
    }
}

#[tactic(auto, using(crate::proofs::Numbers::number_more, crate::proofs::Numbers::number_all))]
impl<'a> fmt::Display for Numbers<'a> {
    ghost output = { λ n. Some (each_after n.before.now n.names.now) };

    fn fmt<W: fmt::Write>(&self, f: &mut fmt::Formatter<W>) -> fmt::Result {
        let before = self.before;
        for name in self.names.iter() {
            let number = name.0;
            write!(f, "{before}{number}")?;
        }
        Ok(())
    }
}

impl<'a> fmt::Display for Dotted<'a> {
    ghost output = { λ d. Some (dotted d.0.now) };

    fn fmt<W: fmt::Write>(&self, f: &mut fmt::Formatter<W>) -> fmt::Result {
        match self.0 {
            [] => f.write_str("-"),
            [first, rest @ ..] => {
                let number = first.0;
                let more = Numbers {
                    names: rest,
                    before: ".",
                };
                write!(f, "{number}{more}")
            }
        }
    }
}

impl<'a> fmt::Display for PathWords<'a> {
    ghost output = { λ p. Some (path_words p.0.now.kind (vec_items p.0.now.names)) };

    fn fmt<W: fmt::Write>(&self, f: &mut fmt::Formatter<W>) -> fmt::Result {
        let kind = KindText(self.0.kind);
        let names = Dotted(self.0.names.as_slice());
        write!(f, "{kind} {names}")
    }
}

impl<'a> fmt::Display for PathLine<'a> {
    ghost output = { λ p. Some (path_line p.0.now.kind (vec_items p.0.now.names)) };

    fn fmt<W: fmt::Write>(&self, f: &mut fmt::Formatter<W>) -> fmt::Result {
        let kind = kind_word(self.0.kind);
        let level = level_of(self.0.kind);
        let numbers = Numbers {
            names: self.0.names.as_slice(),
            before: " ",
        };
        write!(f, "path {kind} {level}{numbers}")
    }
}
