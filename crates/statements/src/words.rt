// The words of a statement, and what is wrong where one is missing or one too many.
ghost use Rattle.source_text.specs.Words.{NextWord, first_word, after_word};
ghost use Rattle.std.specs.Prelude.{◌≡◌, ◌≢◌, ◌⊎◌, IfSome, IfOk, IfErr};
ghost use Rattle.std.specs.Result.{result_ok};
ghost use Rattle.statements.specs.Columns.{IsAt, ToldNext, end_of};
ghost use Rattle.statements.specs.Lines.{ToldIn};
ghost use Rattle.statements.specs.Spelling.{BeforeComment, Ends};

use bstr::ByteSlice;
use source_text::words::{Word, Words};
use troubles::complaint::Complaint;

/// What is wrong with a word where another one is expected.
pub(crate) fn misplaced(word: Word, expected: &'static str) -> Complaint
    ensures { (result.line ≡ word.entry.line) × (result.column ≡ word.entry.column) }
{
    Complaint::at(word, "this word cannot stand here", expected)
}

/// What is left of a line before its comment, which begins with `//`.
#[derive(Clone, Copy)]
pub struct StatementWords<'a> {
    words: Words<'a>,
}

impl<'a> StatementWords<'a> {
    /// The words of a text that is the line of that number.
    pub fn of(text: &'a [u8], line: usize) -> StatementWords<'a>
        ensures code { BeforeComment text.entry.now result.words.rest.now }
        ensures line { result.words.line ≡ line }
        ensures column { result.words.column ≡ 0 }
    {
        let code = match text.split_once_str(b"//") {
            Some((code, _)) => code,
            None => text,
        };
        StatementWords {
            words: Words::of(code, line),
        }
    }

    #[tactic(auto, using(crate::proofs::Columns::blanks_and_rest))]
    pub(crate) fn next_word(&mut self) -> Option<Word<'a>>
        ensures word { NextWord self.old.words.rest.now self.old.words.line self.old.words.column result }
        ensures rest { self.new.words.rest.now ≡ after_word self.old.words.rest.now }
        ensures line { self.new.words.line ≡ self.old.words.line }
        ensures column { IfSome result (λ w. IsAt w 0 (end_of self.old.words) self.old.words.rest.now) }
        ensures end { end_of self.new.words ≡ end_of self.old.words }
    {
        self.words.next_word()
    }

    /// The next word, where there has to be one.
    #[tactic(auto, using(crate::proofs::Columns::no_word))]
    pub(crate) fn expect(&mut self, expected: &'static str) -> Result<Word<'a>, Complaint>
        ensures word { NextWord self.old.words.rest.now self.old.words.line self.old.words.column (result_ok result) }
        ensures rest { self.new.words.rest.now ≡ after_word self.old.words.rest.now }
        ensures line { self.new.words.line ≡ self.old.words.line }
        ensures column { IfOk result (λ w. IsAt w 0 (end_of self.old.words) self.old.words.rest.now) }
        ensures end { end_of self.new.words ≡ end_of self.old.words }
        ensures told { ToldIn self.old.words.line result }
        ensures place { ToldNext (end_of self.old.words) self.old.words.rest.now result }
    {
        let (line, column) = self.words.end();
        self.next_word().ok_or(Complaint {
            line,
            column,
            problem: "the statement ends here",
            expected,
        })
    }

    /// Passes a word that has to stand there.
    pub(crate) fn keyword(&mut self, text: &str, expected: &'static str) -> Result<(), Complaint>
        ensures word { IfOk result (λ _. first_word self.old.words.rest.now ≡ text.now) }
        ensures refused { IfErr result (λ _. Ends self.old.words.rest.now
            ⊎ (first_word self.old.words.rest.now ≢ text.now)) }
        ensures rest { self.new.words.rest.now ≡ after_word self.old.words.rest.now }
        ensures line { self.new.words.line ≡ self.old.words.line }
        ensures end { end_of self.new.words ≡ end_of self.old.words }
        ensures told { ToldIn self.old.words.line result }
        ensures place { ToldNext (end_of self.old.words) self.old.words.rest.now result }
    {
        let word = self.expect(expected)?;
        if word.is(text) {
            Ok(())
        } else {
            Err(misplaced(word, expected))
        }
    }

    pub(crate) fn expect_end(&mut self) -> Result<(), Complaint>
        ensures ends { IfOk result (λ _. Ends self.old.words.rest.now) }
        ensures refused { IfErr result (λ _. ¬ (Ends self.old.words.rest.now)) }
        ensures line { self.new.words.line ≡ self.old.words.line }
        ensures told { ToldIn self.old.words.line result }
        ensures place { ToldNext (end_of self.old.words) self.old.words.rest.now result }
    {
        match self.next_word() {
            Some(word) => Err(Complaint::at(
                word,
                "this word is one too many",
                "the end of the line, or a comment that begins with `//`",
            )),
            None => Ok(()),
        }
    }
}
