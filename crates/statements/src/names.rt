// The words of a statement as names: of one segment, full names, and numbers.
ghost use Rattle.std.specs.Prelude.{◌≡◌, ℕ, ◌<◌, ◌≤◌, ◌^◌, ◌+◌, length, ◌++◌, ◌↔◌, ◌⊎◌, [], MatchResult, IfSome, IfNone, IfOk, IfErr, IsErr, codes, decimal};
ghost use Rattle.std.specs.Str.{IsUtf8};
ghost use Rattle.path_text.specs.Grammar.{IsName};
ghost use Rattle.statements.specs.Columns.{further, LastNameAt, ToldAt};
ghost use Rattle.statements.specs.Lines.{ToldIn};
ghost use Rattle.statements.specs.Names.{Parts, LastName};

use bstr::ByteSlice;
use path_text::path_text::is_name;
use source_text::number::number;
use source_text::words::Word;
use troubles::complaint::Complaint;

const NAME: &str =
    "an identifier (a letter or `_`, then letters, digits or `_`, and not `_` alone) other than `crate`, `self` and `super`";

/// The word as a name of one segment; refused where it is no such name, or is `crate`, `self` or `super`.
pub fn name_of<'a>(word: Word<'a>) -> Result<&'a str, Complaint>
    ensures named { IfOk result (λ t. (t.now ≡ word.entry.text.now) × IsName word.entry.text.now) }
    ensures refused { IfErr result (λ _. ¬ (IsName word.entry.text.now × IsUtf8 word.entry.text.now)) }
    ensures told { ToldIn word.entry.line result }
    ensures place { ToldAt word.entry.column result }
{
    if !is_name(word.text) {
        return Err(Complaint::at(word, "this is no name", NAME));
    }
    text_of(word)
}

/// The word as text; refused where its bytes are no UTF-8.
pub fn text_of<'a>(word: Word<'a>) -> Result<&'a str, Complaint>
    ensures text { MatchResult result (λ t. (t.now ≡ word.entry.text.now) × IsUtf8 word.entry.text.now) (λ _. ¬ (IsUtf8 word.entry.text.now)) }
    ensures told { ToldIn word.entry.line result }
    ensures place { ToldAt word.entry.column result }
{
    match std::str::from_utf8(word.text) {
        Ok(text) => Ok(text),
        Err(_) => Err(Complaint::at(word, "these bytes are no text", "text in UTF-8")),
    }
}

/// The word as text, and nothing where its bytes are none.
pub(crate) fn text_or_nothing<'a>(word: Word<'a>) -> &'a str
    ensures { (result.now ≡ word.entry.text.now) ⊎ ((result.now ≡ []) × ¬ (IsUtf8 word.entry.text.now)) }
{
    std::str::from_utf8(word.text).unwrap_or("")
}

/// A full name as what stands before its last `::` and the name after it; refused where it has no `::`.
pub fn split<'a>(word: Word<'a>) -> Result<(Word<'a>, Word<'a>), Complaint>
    ensures parts { Parts word.entry.text.now result }
    ensures lines { IfOk result (λ p. (p.0.line ≡ word.entry.line) × (p.1.line ≡ word.entry.line)) }
    ensures columns { IfOk result (λ p. (p.0.column ≡ word.entry.column)
        × (p.1.column ≡ further word.entry.column (length p.0.text.now + 2))) }
    ensures told { ToldIn word.entry.line result }
    ensures place { ToldAt word.entry.column result }
{
    let Some((outer, name)) = word.text.rsplit_once_str(b"::") else {
        return Err(Complaint::at(
            word,
            "this name has no `::`",
            "a full name: the module around it, `::` and a name, as in `raid::layout`",
        ));
    };
    let outer_word = Word {
        text: outer,
        line: word.line,
        column: word.column,
    };
    let name_word = Word {
        text: name,
        line: word.line,
        column: word.column.saturating_add(outer.len() + 2),
    };
    Ok((outer_word, name_word))
}

/// `#7` is the module of row 7, whether or not there is one; none where the text is no `#` with a number below 2^32.
#[tactic(auto, using(crate::proofs::Numbered::without_mark, crate::proofs::Numbered::without_number))]
pub fn numbered(text: &[u8]) -> Option<u32>
    ensures number { IfSome result (λ n. text.now ≡ codes "#" ++ decimal n) }
    ensures none { IfNone result ((n : ℕ) → n < 2 ^ 32 → ¬ (text.now ≡ codes "#" ++ decimal n)) }
{
    let digits = text.strip_prefix(b"#")?;
    match std::str::from_utf8(digits) {
        Ok(digits) => number(digits),
        Err(_) => None,
    }
}

/// The number of a new row after `count` others; refused from 2^32 on.
pub fn row_number(word: Word, count: usize) -> Result<u32, Complaint>
    ensures number { IfOk result (λ n. n ≡ count) }
    ensures refused { IsErr result ↔ (2 ^ 32 ≤ count) }
    ensures told { ToldIn word.entry.line result }
    ensures place { ToldAt word.entry.column result }
{
    match u32::try_from(count) {
        Ok(n) => Ok(n),
        Err(_) => Err(Complaint::at(word, "there are too many", "at most 4294967296 of a kind")),
    }
}

/// What stands after the last `::` of a full name; all of it, where it has none.
#[tactic(auto, using(crate::proofs::Columns::before_colons))]
pub fn last_name<'a>(word: Word<'a>) -> Word<'a>
    ensures name { LastName word.entry.text.now result.text.now }
    ensures line { result.line ≡ word.entry.line }
    ensures column { LastNameAt word.entry result }
{
    match split(word) {
        Ok((_, name)) => name,
        Err(_) => word,
    }
}
