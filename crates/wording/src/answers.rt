// What is written of the answer to a path: for people, and as a line of words for programs.
ghost use Rattle.std.specs.Prelude.{◌≡◌, Some};
ghost use Rattle.wording.specs.Shown.{held};
ghost use Rattle.wording.specs.Answers.{mode_word, shadow_word, macro_word, status_word, flags_word, flags_told, question_text, mode_told, shadow_told, macro_told, question_told, name_text, stop_told, stop_text, entry_words, entries_words, answer_words, answer_told, answer_line, answer_report, entry_told, entries_told};

use crate::holders::Holder;
use crate::names::ModuleText;
use crate::places::{HolderTold, ToldText, kind_word};
use bstr::BStr;
use hir_def::{Name, Namespace};
use path_resolution::answer::{ReachedFixedPoint, ResolvePathResult, ResolvePathResultPrefixInfo};
use path_resolution::question::{BuiltinShadowMode, MacroSubNs, Question, ResolveMode};
use path_text::name_list::NameList;
use std::fmt;

/// Who asks, and what is asked beside the path.
#[derive(Clone, Copy)]
pub struct QuestionText<'a> {
    pub names: &'a [&'a str],
    pub question: Question,
}

/// The same for people: the module, and of the options those that are otherwise than a statement without options has them.
#[derive(Clone, Copy)]
pub struct QuestionTold<'a> {
    pub names: &'a [&'a str],
    pub question: Question,
}

/// Where an answer stops: the first name that was not resolved, since the type before it has none such, with its index in the path.
#[derive(Clone, Copy)]
pub struct Stop<'a, 'n> {
    pub list: &'a NameList<'n>,
    pub path: &'a [Name],
    pub index: Option<usize>,
}

/// An answer beside its entries, for people: its status, where it stops and its flags.
#[derive(Clone, Copy)]
pub struct AnswerTold<'a, 'n> {
    pub list: &'a NameList<'n>,
    pub path: &'a [Name],
    pub answer: ResolvePathResult,
}

/// The kinds and the full names of the entries of an answer, `- -` where there is none.
#[derive(Clone, Copy)]
pub struct EntriesWords<'a> {
    pub types: Option<Holder<'a>>,
    pub values: Option<Holder<'a>>,
    pub macros: Option<Holder<'a>>,
}

/// The entries of an answer, for people: a line for each that there is.
#[derive(Clone, Copy)]
pub struct EntriesTold<'a> {
    pub names: &'a [&'a str],
    pub types: Option<Holder<'a>>,
    pub values: Option<Holder<'a>>,
    pub macros: Option<Holder<'a>>,
}

/// An answer as a line: `answer`, the module that asks, the mode, the shadow mode, the kind of macro, the status, the index of the first
/// name that was not resolved and that name, the flags, and the entries; `-` for what there is not.
#[derive(Clone, Copy)]
pub struct AnswerLine<'a, 'n> {
    pub names: &'a [&'a str],
    pub question: Question,
    pub told: AnswerTold<'a, 'n>,
    pub entries: EntriesWords<'a>,
}

/// The same for people: who asks, a line for each entry, and what else is answered.
#[derive(Clone, Copy)]
pub struct AnswerReport<'a, 'n>(pub AnswerLine<'a, 'n>);

// An answer beside its entries, as words.
#[derive(Clone, Copy)]
struct AnswerWords<'a, 'n> {
    list: &'a NameList<'n>,
    path: &'a [Name],
    answer: ResolvePathResult,
}

// A name of the path, `-` where there is none.
#[derive(Clone, Copy)]
struct NameText<'a, 'n> {
    list: &'a NameList<'n>,
    name: Option<Name>,
}

// Where an answer stops, for people.
#[derive(Clone, Copy)]
struct StopTold<'a, 'n>(Stop<'a, 'n>);

// The kind and the full name of an entry.
#[derive(Clone, Copy)]
struct EntryWords<'a>(Option<Holder<'a>>);

// The line of an entry for people, if there is one.
#[derive(Clone, Copy)]
struct EntryTold<'a> {
    names: &'a [&'a str],
    namespace: Namespace,
    holder: Option<Holder<'a>>,
}

pub fn mode_word(mode: ResolveMode) -> &'static str
    ensures { result.now ≡ mode_word mode }
{
    match mode {
        ResolveMode::Import => "import",
        ResolveMode::Other => "other",
    }
}

pub fn shadow_word(shadow: BuiltinShadowMode) -> &'static str
    ensures { result.now ≡ shadow_word shadow }
{
    match shadow {
        BuiltinShadowMode::Module => "module",
        BuiltinShadowMode::Other => "other",
    }
}

/// The kind of macro that is asked for, `-` for none.
pub fn macro_word(expected: Option<MacroSubNs>) -> &'static str
    ensures { result.now ≡ macro_word expected }
{
    match expected {
        Some(MacroSubNs::Bang) => "bang",
        Some(MacroSubNs::Attr) => "attribute",
        None => "-",
    }
}

/// `no` where a name is left and there is no type to ask it of, else `yes`.
pub fn status_word(status: ReachedFixedPoint) -> &'static str
    ensures { result.now ≡ status_word status }
{
    match status {
        ReachedFixedPoint::Yes => "yes",
        ReachedFixedPoint::No => "no",
    }
}

fn mode_told(mode: ResolveMode) -> &'static str
    ensures { result.now ≡ mode_told mode }
{
    match mode {
        ResolveMode::Import => " mode=import",
        ResolveMode::Other => "",
    }
}

fn shadow_told(shadow: BuiltinShadowMode) -> &'static str
    ensures { result.now ≡ shadow_told shadow }
{
    match shadow {
        BuiltinShadowMode::Module => " shadow=module",
        BuiltinShadowMode::Other => "",
    }
}

fn macro_told(expected: Option<MacroSubNs>) -> &'static str
    ensures { result.now ≡ macro_told expected }
{
    match expected {
        Some(MacroSubNs::Bang) => " macro=bang",
        Some(MacroSubNs::Attr) => " macro=attribute",
        None => "",
    }
}

fn flags_word(flags: ResolvePathResultPrefixInfo) -> &'static str
    ensures { result.now ≡ flags_word flags.differing_crate flags.enum_variant }
{
    match (flags.differing_crate, flags.enum_variant) {
        (true, true) => "de",
        (true, false) => "d",
        (false, true) => "e",
        (false, false) => "-",
    }
}

// The flags for people.
fn flags_told(flags: ResolvePathResultPrefixInfo) -> &'static str
    ensures { result.now ≡ flags_told flags.differing_crate flags.enum_variant }
{
    match (flags.differing_crate, flags.enum_variant) {
        (true, true) => ", through another crate, a variant of its enum",
        (true, false) => ", through another crate",
        (false, true) => ", a variant of its enum",
        (false, false) => "",
    }
}

impl<'a> fmt::Display for QuestionText<'a> {
    ghost output = { λ q. Some (question_text (held q.names.now) q.question) };

    fn fmt<W: fmt::Write>(&self, f: &mut fmt::Formatter<W>) -> fmt::Result {
        let from = ModuleText {
            names: self.names,
            module: self.question.original_module,
        };
        let mode = mode_word(self.question.mode);
        let shadow = shadow_word(self.question.shadow);
        let expected = macro_word(self.question.expected_macro_subns);
        write!(f, "{from} {mode} {shadow} {expected}")
    }
}

impl<'a> fmt::Display for QuestionTold<'a> {
    ghost output = { λ q. Some (question_told (held q.names.now) q.question) };

    fn fmt<W: fmt::Write>(&self, f: &mut fmt::Formatter<W>) -> fmt::Result {
        let from = ModuleText {
            names: self.names,
            module: self.question.original_module,
        };
        let mode = mode_told(self.question.mode);
        let shadow = shadow_told(self.question.shadow);
        let expected = macro_told(self.question.expected_macro_subns);
        write!(f, "{from}{mode}{shadow}{expected}")
    }
}

impl<'a, 'n> fmt::Display for NameText<'a, 'n> {
    ghost output = { λ n. Some (name_text n.list.now n.name) };

    fn fmt<W: fmt::Write>(&self, f: &mut fmt::Formatter<W>) -> fmt::Result {
        let Some(name) = self.name else {
            return f.write_str("-");
        };
        match self.list.text(name) {
            Some(line) => {
                let text = BStr::new(line);
                write!(f, "{text}")
            }
            None => f.write_str("-"),
        }
    }
}

/// The index and the name, `- -` where all names were resolved.
impl<'a, 'n> fmt::Display for Stop<'a, 'n> {
    ghost output = { λ s. Some (stop_text s.list.now s.path.now s.index) };

    fn fmt<W: fmt::Write>(&self, f: &mut fmt::Formatter<W>) -> fmt::Result {
        match self.index {
            Some(index) => {
                let name = NameText {
                    list: self.list,
                    name: self.path.get(index).copied(),
                };
                write!(f, "{index} {name}")
            }
            None => f.write_str("- -"),
        }
    }
}

impl<'a, 'n> fmt::Display for StopTold<'a, 'n> {
    ghost output = { λ s. Some (stop_told s.0.list.now s.0.path.now s.0.index) };

    fn fmt<W: fmt::Write>(&self, f: &mut fmt::Formatter<W>) -> fmt::Result {
        match self.0.index {
            Some(_) => {
                let stop = self.0;
                write!(f, ", not resolved from index {stop}")
            }
            None => Ok(()),
        }
    }
}

impl<'a, 'n> fmt::Display for AnswerTold<'a, 'n> {
    ghost output = { λ a. Some (answer_told a.list.now a.path.now a.answer) };

    fn fmt<W: fmt::Write>(&self, f: &mut fmt::Formatter<W>) -> fmt::Result {
        let status = status_word(self.answer.reached_fixedpoint);
        let stop = StopTold(Stop {
            list: self.list,
            path: self.path,
            index: self.answer.segment_index,
        });
        let flags = flags_told(self.answer.prefix_info);
        write!(f, "    status {status}{stop}{flags}\n")
    }
}

impl<'a> fmt::Display for EntryWords<'a> {
    ghost output = { λ e. Some (entry_words e.0) };

    fn fmt<W: fmt::Write>(&self, f: &mut fmt::Formatter<W>) -> fmt::Result {
        match self.0 {
            Some(holder) => {
                let kind = kind_word(holder.told.def);
                let told = ToldText(holder.told);
                write!(f, "{kind} {told}")
            }
            None => f.write_str("- -"),
        }
    }
}

impl<'a, 'n> fmt::Display for AnswerWords<'a, 'n> {
    ghost output = { λ a. Some (answer_words a.list.now a.path.now a.answer) };

    fn fmt<W: fmt::Write>(&self, f: &mut fmt::Formatter<W>) -> fmt::Result {
        let status = status_word(self.answer.reached_fixedpoint);
        let stop = Stop {
            list: self.list,
            path: self.path,
            index: self.answer.segment_index,
        };
        let flags = flags_word(self.answer.prefix_info);
        write!(f, "{status} {stop} {flags}")
    }
}

impl<'a> fmt::Display for EntriesWords<'a> {
    ghost output = { λ e. Some (entries_words e.types e.values e.macros) };

    fn fmt<W: fmt::Write>(&self, f: &mut fmt::Formatter<W>) -> fmt::Result {
        let types = EntryWords(self.types);
        let values = EntryWords(self.values);
        let macros = EntryWords(self.macros);
        write!(f, "{types} {values} {macros}")
    }
}

impl<'a> fmt::Display for EntryTold<'a> {
    ghost output = { λ e. Some (entry_told (held e.names.now) e.namespace e.holder) };

    fn fmt<W: fmt::Write>(&self, f: &mut fmt::Formatter<W>) -> fmt::Result {
        match self.holder {
            Some(holder) => {
                let told = HolderTold {
                    names: self.names,
                    namespace: self.namespace,
                    holder,
                };
                write!(f, "{told}")
            }
            None => Ok(()),
        }
    }
}

impl<'a> fmt::Display for EntriesTold<'a> {
    ghost output = { λ e. Some (entries_told (held e.names.now) e.types e.values e.macros) };

    fn fmt<W: fmt::Write>(&self, f: &mut fmt::Formatter<W>) -> fmt::Result {
        let names = self.names;
        let types = EntryTold {
            names,
            namespace: Namespace::Types,
            holder: self.types,
        };
        let values = EntryTold {
            names,
            namespace: Namespace::Values,
            holder: self.values,
        };
        let macros = EntryTold {
            names,
            namespace: Namespace::Macros,
            holder: self.macros,
        };
        write!(f, "{types}{values}{macros}")
    }
}

impl<'a, 'n> fmt::Display for AnswerReport<'a, 'n> {
    ghost output = { λ a. Some (answer_report (held a.0.names.now) a.0.told.list.now a.0.told.path.now a.0.question a.0.told.answer a.0.entries.types a.0.entries.values a.0.entries.macros) };

    fn fmt<W: fmt::Write>(&self, f: &mut fmt::Formatter<W>) -> fmt::Result {
        let names = self.0.names;
        let question = QuestionTold {
            names,
            question: self.0.question,
        };
        let EntriesWords {
            types,
            values,
            macros,
        } = self.0.entries;
        let entries = EntriesTold {
            names,
            types,
            values,
            macros,
        };
        let told = self.0.told;
        write!(f, "    asked from {question}\n{entries}{told}")
    }
}

impl<'a, 'n> fmt::Display for AnswerLine<'a, 'n> {
    ghost output = { λ a. Some (answer_line (held a.names.now) a.told.list.now a.told.path.now a.question a.told.answer a.entries.types a.entries.values a.entries.macros) };

    fn fmt<W: fmt::Write>(&self, f: &mut fmt::Formatter<W>) -> fmt::Result {
        let question = QuestionText {
            names: self.names,
            question: self.question,
        };
        let answer = AnswerWords {
            list: self.told.list,
            path: self.told.path,
            answer: self.told.answer,
        };
        let entries = self.entries;
        write!(f, "answer {question} {answer} {entries}")
    }
}
