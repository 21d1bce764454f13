// The words of a line: runs of bytes without blanks, each with its place.
ghost use Rattle.std.specs.Prelude.{◌≡◌, ◌+◌, ◌<◌, ◌≤◌, ◌^◌, ◌↔◌, length, not, IsTrue};
ghost use Rattle.std.specs.List.{position, position_or_len};
ghost use Rattle.source_text.specs.Words.{is_blank, blanks, NextWord, after_word};

#[derive(Clone, Copy, Debug)]
pub struct Word<'a> {
    pub text: &'a [u8],
    /// Lines count from 1.
    pub line: usize,
    /// Columns count bytes from 0.
    pub column: usize,
}

/// What is left of a line.
#[derive(Clone, Copy, Debug)]
pub struct Words<'a> {
    rest: &'a [u8],
    line: usize,
    column: usize,
    ghost fits: { column + length rest.now < 2 ^ 64 },
}

fn is_blank(b: u8) -> bool
    ensures { result ≡ is_blank b }
{
    matches!(b, b' ' | b'\t' | b'\r')
}

fn find_blank(text: &[u8]) -> Option<usize>
    ensures { result ≡ position is_blank text.now }
{
    text.iter().position(|b| is_blank(*b))
}

fn find_word(text: &[u8]) -> Option<usize>
    ensures { result ≡ position (λ b. not (is_blank b)) text.now }
{
    text.iter().position(|b| !is_blank(*b))
}

// How many blanks a text begins with.
#[tactic(auto, using(crate::proofs::Places::first_or_end))]
fn count_blanks(text: &[u8]) -> usize
    ensures value { result ≡ blanks text.now }
    ensures few { result ≤ length text.now }
{
    find_word(text).unwrap_or(text.len())
}

// How many bytes come before the first blank.
#[tactic(auto, using(crate::proofs::Places::first_or_end))]
fn word_len(text: &[u8]) -> usize
    ensures value { result ≡ position_or_len is_blank text.now }
    ensures few { result ≤ length text.now }
{
    find_blank(text).unwrap_or(text.len())
}

impl<'a> Word<'a> {
    pub fn is(&self, text: &str) -> bool
        ensures { IsTrue result ↔ (self.now.text.now ≡ text.now) }
    {
        self.text == text.as_bytes()
    }
}

impl<'a> Words<'a> {
    /// The words of a text that is the line of that number.
    pub fn of(text: &'a [u8], line: usize) -> Words<'a>
        ensures rest { result.rest.now ≡ text.entry.now }
        ensures line { result.line ≡ line }
        ensures column { result.column ≡ 0 }
    {
        Words {
            rest: text,
            line,
            column: 0,
        }
    }

    /// Where the line ends: its number, and the column past its last byte.
    pub fn end(&self) -> (usize, usize)
        ensures { (result.0 ≡ self.now.line) × (result.1 ≡ self.now.column + length self.now.rest.now) }
    {
        (self.line, self.column + self.rest.len())
    }

    /// The next word, if there is one, and what is left is what follows it, up to the same end.
    pub fn next_word(&mut self) -> Option<Word<'a>>
        ensures word { NextWord self.old.rest.now self.old.line self.old.column result }
        ensures rest { self.new.rest.now ≡ after_word self.old.rest.now }
        ensures line { self.new.line ≡ self.old.line }
        ensures end { self.new.column + length self.new.rest.now ≡ self.old.column + length self.old.rest.now }
    {
        let blanks = count_blanks(self.rest);
        let (_, from) = self.rest.split_at(blanks);
        let (text, rest) = from.split_at(word_len(from));
        let column = self.column + blanks;
        self.rest = rest;
        self.column = column + text.len();
        if text.is_empty() {
            None
        } else {
            Some(Word {
                text,
                line: self.line,
                column,
            })
        }
    }
}
