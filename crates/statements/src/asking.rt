// Who asks a path, and what is asked beside it.
ghost use Rattle.source_text.specs.Words.{first_word, after_word};
ghost use Rattle.std.specs.Prelude.{◌≡◌, Option, IfOk, IfErr};
ghost use Rattle.std.specs.Result.{result_ok};
ghost use Rattle.statements.specs.Clauses.{asking_of, with_option};
ghost use Rattle.statements.specs.Columns.{AskingAt, ToldAt, end_of};
ghost use Rattle.statements.specs.Lines.{AskingStandsIn, ToldIn};
ghost use Rattle.statements.specs.Spelling.{MayBeOption, MayAsk, after_asking};
ghost use Rattle.statements.specs.declared.asking.Asking.{Asking};

use crate::words::{StatementWords, misplaced};
use hir_def::ModuleId;
use path_resolution::question::{BuiltinShadowMode, MacroSubNs, Question, ResolveMode};
use source_text::words::Word;
use troubles::complaint::Complaint;

/// The module where a path stands, and the options of the question.
#[derive(Clone, Copy)]
pub struct Asking<'a> {
    pub module: Word<'a>,
    pub mode: ResolveMode,
    pub shadow: BuiltinShadowMode,
    pub expected: Option<MacroSubNs>,
}

impl<'a> Asking<'a> {
    /// The question of the module with that number.
    pub fn question(self, original_module: ModuleId) -> Question
        ensures { result ≡ record {
          mode = self.entry.mode;
          original_module = original_module;
          shadow = self.entry.shadow;
          expected_macro_subns = self.entry.expected;
        } }
    {
        Question {
            mode: self.mode,
            original_module,
            shadow: self.shadow,
            expected_macro_subns: self.expected,
        }
    }
}

const FROM: &str = "`from` and the module where the path stands, or the end of the line";

const OPTION: &str =
    "`mode=import`, `mode=other`, `shadow=module`, `shadow=other`, `macro=bang` or `macro=attribute`";

// With the option that the word says.
fn with_option<'a>(asking: Asking<'a>, word: Word<'a>) -> Result<Asking<'a>, Complaint>
    ensures option { result_ok result ≡ asking_of asking.entry word.entry.text.now }
    ensures told { ToldIn word.entry.line result }
    ensures place { ToldAt word.entry.column result }
{
    if word.is("mode=import") {
        Ok(Asking {
            mode: ResolveMode::Import,
            ..asking
        })
    } else if word.is("mode=other") {
        Ok(Asking {
            mode: ResolveMode::Other,
            ..asking
        })
    } else if word.is("shadow=module") {
        Ok(Asking {
            shadow: BuiltinShadowMode::Module,
            ..asking
        })
    } else if word.is("shadow=other") {
        Ok(Asking {
            shadow: BuiltinShadowMode::Other,
            ..asking
        })
    } else if word.is("macro=bang") {
        Ok(Asking {
            expected: Some(MacroSubNs::Bang),
            ..asking
        })
    } else if word.is("macro=attribute") {
        Ok(Asking {
            expected: Some(MacroSubNs::Attr),
            ..asking
        })
    } else {
        Err(Complaint::at(word, "this is no option of a question", OPTION))
    }
}

// With the option that the next word says, if there is one.
fn with_next_option<'a>(
    asking: Asking<'a>,
    words: &mut StatementWords<'a>,
) -> Result<Asking<'a>, Complaint>
    ensures option { IfOk result (λ a. MayBeOption (first_word words.old.words.rest.now) × (a ≡ with_option asking.entry (first_word words.old.words.rest.now))) }
    ensures refused { IfErr result (λ _. ¬ (MayBeOption (first_word words.old.words.rest.now))) }
    ensures rest { words.new.words.rest.now ≡ after_word words.old.words.rest.now }
    ensures line { words.new.words.line ≡ words.old.words.line }
    ensures told { ToldIn words.old.words.line result }
{
    match words.next_word() {
        Some(word) => with_option(asking, word),
        None => Ok(asking),
    }
}

/// `from MODULE` and up to three options, if there is more of the statement.
pub(crate) fn read_asking<'a>(
    words: &mut StatementWords<'a>,
) -> Result<Option<Asking<'a>>, Complaint>
    ensures asking { IfOk result (λ a. MayAsk a words.old.words.rest.now) }
    ensures refused { IfErr result (λ _. (a : Option Asking) → ¬ (MayAsk a words.old.words.rest.now)) }
    ensures rest { IfOk result (λ a. words.new.words.rest.now ≡ after_asking a words.old.words.rest.now) }
    ensures lines { IfOk result (AskingStandsIn words.old.words.line) }
    ensures columns { IfOk result (λ a. AskingAt a 1 (end_of words.old.words) words.old.words.rest.now) }
    ensures line { words.new.words.line ≡ words.old.words.line }
    ensures told { ToldIn words.old.words.line result }
{
    let Some(from) = words.next_word() else {
        return Ok(None);
    };
    if !from.is("from") {
        return Err(misplaced(from, FROM));
    }
    let plain = Asking {
        module: words.expect("the full name of a module declared above")?,
        mode: ResolveMode::Other,
        shadow: BuiltinShadowMode::Other,
        expected: None,
    };
    let one = with_next_option(plain, words)?;
    let two = with_next_option(one, words)?;
    let three = with_next_option(two, words)?;
    Ok(Some(three))
}
