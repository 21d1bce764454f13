// The parts of statements: editions, visibilities, where an item stands, shapes and the styles of macros.
ghost use Rattle.hir_def.specs.Editions.{edition_text};
ghost use Rattle.source_text.specs.Words.{first_word, after_word};
ghost use Rattle.std.specs.Prelude.{◌≡◌, ◌≢◌, ◌++◌, ℕ, List, IfOk, IfErr, codes};
ghost use Rattle.std.specs.Result.{result_ok};
ghost use Rattle.statements.specs.Clauses.{styles_of, with_style, shape_of, Says};
ghost use Rattle.statements.specs.Columns.{IsAt, VisibilityAt, SiteAt, ToldAt, end_of};
ghost use Rattle.statements.specs.Lines.{VisibilityStandsIn, SiteStandsIn, ToldIn};
ghost use Rattle.statements.specs.Spelling.{after_module, after_visibility, MaySay, IsWithin, IsSite, after_site, MayBeStyle, AreStyles, after_words};
ghost use Rattle.hir_def.specs.declared.edition.Edition.{Edition};
ghost use Rattle.item_scope.specs.declared.index_data.CallStyles.{CallStyles};
ghost use Rattle.source_text.specs.declared.words.Word.{Word};
ghost use Rattle.statements.specs.declared.clauses.RawVisibility.{RawVisibility};
ghost use Rattle.statements.specs.declared.clauses.Site.{Site};

use crate::kinds::Shape;
use crate::names::text_or_nothing;
use crate::words::StatementWords;
use hir_def::edition::Edition;
use item_scope::index_data::CallStyles;
use source_text::words::Word;
use troubles::complaint::Complaint;

/// A visibility as it is written.
#[derive(Clone, Copy)]
pub enum RawVisibility<'a> {
    Public,
    Crate,
    In(Word<'a>),
    Private,
}

/// `NAME in MODULE VISIBILITY`.
#[derive(Clone, Copy)]
pub struct Site<'a> {
    pub name: Word<'a>,
    pub module: Word<'a>,
    pub vis: RawVisibility<'a>,
}

pub(crate) const EDITION: &str = "an edition: 2015, 2018, 2021 or 2024";

const VISIBILITY: &str = "a visibility: `pub`, `pub(crate)`, `pub(in MODULE)` or `private`";

const SHAPE: &str = "a shape: `unit`, `tuple` or `record`";

const STYLE: &str = "how the macro is called: `bang`, `attribute` or `derive`, one at least";

pub(crate) const WITHIN: &str = "`in` and the module that the item stands in";

pub(crate) const MODULE: &str = "the module that it stands in";

pub(crate) fn read_edition(word: Word) -> Result<Edition, Complaint>
    ensures edition { IfOk result (λ e. word.entry.text.now ≡ edition_text e) }
    ensures refused { IfErr result (λ _. (e : Edition) → word.entry.text.now ≢ edition_text e) }
    ensures told { ToldIn word.entry.line result }
    ensures place { ToldAt word.entry.column result }
{
    match text_or_nothing(word).parse::<Edition>() {
        Ok(edition) => Ok(edition),
        Err(_) => Err(Complaint::at(word, "this is no edition", EDITION)),
    }
}

// `MODULE)`, after `pub(in`.
fn closed<'a>(word: Word<'a>) -> Result<Word<'a>, Complaint>
    ensures module { IfOk result (λ w. word.entry.text.now ≡ w.text.now ++ codes ")") }
    ensures refused { IfErr result (λ _. (text : List ℕ) → word.entry.text.now ≢ text ++ codes ")") }
    ensures line { IfOk result (λ w. w.line ≡ word.entry.line) }
    ensures column { IfOk result (λ w. w.column ≡ word.entry.column) }
    ensures told { ToldIn word.entry.line result }
    ensures place { ToldAt word.entry.column result }
{
    match word.text {
        [text @ .., b')'] => Ok(Word {
            text,
            line: word.line,
            column: word.column,
        }),
        _ => Err(Complaint::at(
            word,
            "the parenthesis is not closed",
            "a module and then `)`, as in `pub(in raid::layout)`",
        )),
    }
}

fn visibility_of<'a>(
    word: Word<'a>,
    words: &mut StatementWords<'a>,
) -> Result<RawVisibility<'a>, Complaint>
    ensures says { IfOk result (Says word.entry.text.now (first_word words.old.words.rest.now)) }
    ensures refused { IfErr result (λ _. (vis : RawVisibility) →
        ¬ (Says word.entry.text.now (first_word words.old.words.rest.now) vis)) }
    ensures rest { IfOk result (λ vis. words.new.words.rest.now ≡ after_module vis words.old.words.rest.now) }
    ensures lines { IfOk result (VisibilityStandsIn words.old.words.line) }
    ensures columns { IfOk result (λ vis. VisibilityAt vis 0 (end_of words.old.words) words.old.words.rest.now) }
    ensures line { words.new.words.line ≡ words.old.words.line }
    ensures told { word.entry.line ≡ words.old.words.line → ToldIn words.old.words.line result }
{
    if word.is("pub") {
        Ok(RawVisibility::Public)
    } else if word.is("pub(crate)") {
        Ok(RawVisibility::Crate)
    } else if word.is("private") {
        Ok(RawVisibility::Private)
    } else if word.is("pub(in") {
        let module = words.expect("a module, as in `pub(in raid::layout)`")?;
        Ok(RawVisibility::In(closed(module)?))
    } else {
        Err(Complaint::at(word, "this is no visibility", VISIBILITY))
    }
}

// A visibility, or none where the statement ends: then it is private, as in Rust.
pub(crate) fn read_optional<'a>(
    words: &mut StatementWords<'a>,
) -> Result<RawVisibility<'a>, Complaint>
    ensures says { IfOk result (λ vis. MaySay vis words.old.words.rest.now) }
    ensures refused { IfErr result (λ _. (vis : RawVisibility) → ¬ (MaySay vis words.old.words.rest.now)) }
    ensures rest { IfOk result (λ vis. words.new.words.rest.now ≡ after_visibility vis words.old.words.rest.now) }
    ensures lines { IfOk result (VisibilityStandsIn words.old.words.line) }
    ensures columns { IfOk result (λ vis. VisibilityAt vis 1 (end_of words.old.words) words.old.words.rest.now) }
    ensures line { words.new.words.line ≡ words.old.words.line }
    ensures told { ToldIn words.old.words.line result }
{
    match words.next_word() {
        Some(word) => visibility_of(word, words),
        None => Ok(RawVisibility::Private),
    }
}

// `MODULE VISIBILITY`, after a name and `in`.
pub(crate) fn site_within<'a>(
    name: Word<'a>,
    words: &mut StatementWords<'a>,
) -> Result<Site<'a>, Complaint>
    ensures name { IfOk result (λ s. s.name ≡ name.entry) }
    ensures within { IfOk result (λ s. IsWithin s.«module» s.vis words.old.words.rest.now) }
    ensures refused { IfErr result (λ _. (at : Word) (vis : RawVisibility) →
        ¬ (IsWithin at vis words.old.words.rest.now)) }
    ensures rest { IfOk result (λ s. words.new.words.rest.now ≡ after_visibility s.vis (after_word words.old.words.rest.now)) }
    ensures lines { IfOk result (λ s. (s.«module».line ≡ words.old.words.line) × VisibilityStandsIn words.old.words.line s.vis) }
    ensures columns { IfOk result (λ s. IsAt s.«module» 0 (end_of words.old.words) words.old.words.rest.now
        × VisibilityAt s.vis 2 (end_of words.old.words) words.old.words.rest.now) }
    ensures line { words.new.words.line ≡ words.old.words.line }
    ensures told { ToldIn words.old.words.line result }
{
    let module = words.expect(MODULE)?;
    let word = words.expect(VISIBILITY)?;
    let vis = visibility_of(word, words)?;
    Ok(Site { name, module, vis })
}

pub(crate) fn read_site<'a>(words: &mut StatementWords<'a>) -> Result<Site<'a>, Complaint>
    ensures site { IfOk result (λ s. IsSite s words.old.words.rest.now) }
    ensures refused { IfErr result (λ _. (s : Site) → ¬ (IsSite s words.old.words.rest.now)) }
    ensures rest { IfOk result (λ s. words.new.words.rest.now ≡ after_site s words.old.words.rest.now) }
    ensures lines { IfOk result (SiteStandsIn words.old.words.line) }
    ensures columns { IfOk result (λ s. SiteAt s (end_of words.old.words) words.old.words.rest.now) }
    ensures line { words.new.words.line ≡ words.old.words.line }
    ensures told { ToldIn words.old.words.line result }
{
    let name = words.expect("the item's name")?;
    words.keyword("in", WITHIN)?;
    site_within(name, words)
}

pub(crate) fn read_shape(words: &mut StatementWords) -> Result<Shape, Complaint>
    ensures shape { result_ok result ≡ shape_of (first_word words.old.words.rest.now) }
    ensures rest { words.new.words.rest.now ≡ after_word words.old.words.rest.now }
    ensures line { words.new.words.line ≡ words.old.words.line }
    ensures told { ToldIn words.old.words.line result }
{
    let word = words.expect(SHAPE)?;
    if word.is("unit") {
        Ok(Shape::Unit)
    } else if word.is("tuple") {
        Ok(Shape::Tuple)
    } else if word.is("record") {
        Ok(Shape::Record)
    } else {
        Err(Complaint::at(word, "this is no shape", SHAPE))
    }
}

// Adds a way in which a macro is called.
#[tactic(auto, unfolding(crate::specs::Clauses::with_style))]
fn with_style(styles: CallStyles, word: Word) -> Result<CallStyles, Complaint>
    ensures styles { result_ok result ≡ styles_of styles word.entry.text.now }
    ensures told { ToldIn word.entry.line result }
    ensures place { ToldAt word.entry.column result }
{
    if word.is("bang") {
        Ok(CallStyles {
            fn_like: true,
            ..styles
        })
    } else if word.is("attribute") {
        Ok(CallStyles {
            attr: true,
            ..styles
        })
    } else if word.is("derive") {
        Ok(CallStyles {
            derive: true,
            ..styles
        })
    } else {
        Err(Complaint::at(word, "this is no way to call a macro", STYLE))
    }
}

// Adds the way that the next word tells, if there is one.
#[tactic(auto, unfolding(crate::specs::Clauses::with_style, crate::specs::Spelling::MayBeStyle))]
fn with_next_style(styles: CallStyles, words: &mut StatementWords) -> Result<CallStyles, Complaint>
    ensures style { IfOk result (λ s. MayBeStyle (first_word words.old.words.rest.now) × (s ≡ with_style styles (first_word words.old.words.rest.now))) }
    ensures refused { IfErr result (λ _. ¬ (MayBeStyle (first_word words.old.words.rest.now))) }
    ensures rest { words.new.words.rest.now ≡ after_word words.old.words.rest.now }
    ensures line { words.new.words.line ≡ words.old.words.line }
    ensures told { ToldIn words.old.words.line result }
{
    match words.next_word() {
        Some(word) => with_style(styles, word),
        None => Ok(styles),
    }
}

// One way at least in which a macro is called, up to the end of the statement: there are three.
#[tactic(auto, unfolding(crate::specs::Spelling::AreStyles))]
pub(crate) fn read_styles(words: &mut StatementWords) -> Result<CallStyles, Complaint>
    ensures styles { IfOk result (λ s. AreStyles s words.old.words.rest.now) }
    ensures refused { IfErr result (λ _. (s : CallStyles) → ¬ (AreStyles s words.old.words.rest.now)) }
    ensures rest { IfOk result (λ _. words.new.words.rest.now ≡ after_words 3 words.old.words.rest.now) }
    ensures line { words.new.words.line ≡ words.old.words.line }
    ensures told { ToldIn words.old.words.line result }
{
    let none = CallStyles {
        fn_like: false,
        attr: false,
        derive: false,
    };
    let one = with_style(none, words.expect(STYLE)?)?;
    let two = with_next_style(one, words)?;
    let three = with_next_style(two, words)?;
    Ok(three)
}
