// One statement of a firmware file, as its words say it.
ghost use Rattle.std.specs.Prelude.{◌≡◌, ◌≢◌, ℕ, List, Option, IsTrue, IfOk, IfErr, IfSome, IfNone, codes};
ghost use Rattle.source_text.specs.Words.{after_word};
ghost use Rattle.statements.specs.Columns.{IsAt, MayBeAt, ImportNameAt, ImportAt, StandsAt, AllStandAt, end_of};
ghost use Rattle.statements.specs.Lines.{WordStandsIn, SiteStandsIn, StandsIn, AllStandIn, ToldIn};
ghost use Rattle.statements.specs.Spelling.{word, after_words, kind_word, ends_with_site, import_word, IsImportName, after_import_name, IsImport, after_import, MayGoOn, after_going_on, IsLegacy, IsMeaning, IsModel, Spells, after_statement, IsRead, IsReadable, stands_below_models};
ghost use Rattle.source_text.specs.declared.words.Word.{Word};
ghost use Rattle.statements.specs.declared.clauses.Site.{Site};
ghost use Rattle.statements.specs.declared.kinds.Bringing.{Bringing};
ghost use Rattle.statements.specs.declared.kinds.ItemKind.{ItemKind};
ghost use Rattle.statements.specs.declared.statement.Statement.{Statement};

use crate::asking::{Asking, read_asking};
use crate::clauses::{
    EDITION, MODULE, RawVisibility, Site, WITHIN, read_edition, read_optional, read_shape,
    read_site, read_styles, site_within,
};
use crate::kinds::{Bringing, ItemKind, Shape};
use crate::names::{last_name, text_or_nothing};
use crate::words::{StatementWords, misplaced};
use hir_def::edition::Edition;
use source_text::words::Word;
use troubles::complaint::Complaint;

const IN_CRATE: &str = "`in` and a crate";

const IN_MAP: &str = "`in` and a crate or a block";

const MAP: &str = "a crate or a block";

/// A statement, by its words.
#[derive(Clone, Copy)]
pub enum Statement<'a> {
    Crate(Word<'a>, Edition),
    Module(Word<'a>, RawVisibility<'a>),
    Block(Word<'a>),
    /// An item whose kind is not told.
    Item(Site<'a>),
    Defined(ItemKind, Site<'a>),
    /// The variant's full name, and its shape.
    Variant(Word<'a>, Shape),
    /// The name, the module, and the full name of the macro that it means there, if it is not a new one.
    LegacyMacro(Word<'a>, Word<'a>, Option<Word<'a>>),
    /// What is imported by its full name, and where to under which name.
    Use(Bringing, Word<'a>, Site<'a>),
    /// A name, a crate, and the crate that the name means there.
    ExternPrelude(Word<'a>, Word<'a>, Word<'a>),
    /// A name, a crate or a block, and the macro that the name means there.
    MacroUse(Word<'a>, Word<'a>, Word<'a>),
    /// A module, and the crate or block that it is the prelude of.
    Prelude(Word<'a>, Word<'a>),
    /// A path, and who asks it, if anyone does.
    Path(Word<'a>, Option<Asking<'a>>),
    /// A card model, and the one that it is over, if it is not over the tree.
    Model(Word<'a>, Option<Word<'a>>),
}

// The keyword and a word that is expected after it, or the end of the statement.
fn read_more<'a>(
    keyword: &str,
    here: &'static str,
    expected: &'static str,
    words: &mut StatementWords<'a>,
) -> Result<Option<Word<'a>>, Complaint>
    ensures more { IfOk result (λ o. MayGoOn keyword.now o words.old.words.rest.now) }
    ensures refused { IfErr result (λ _. (o : Option Word) → ¬ (MayGoOn keyword.now o words.old.words.rest.now)) }
    ensures rest { IfOk result (λ o. words.new.words.rest.now ≡ after_going_on o words.old.words.rest.now) }
    ensures lines { IfOk result (WordStandsIn words.old.words.line) }
    ensures columns { IfOk result (λ o. MayBeAt o 1 (end_of words.old.words) words.old.words.rest.now) }
    ensures line { words.new.words.line ≡ words.old.words.line }
    ensures told { ToldIn words.old.words.line result }
{
    let Some(word) = words.next_word() else {
        return Ok(None);
    };
    if !word.is(keyword) {
        return Err(misplaced(word, here));
    }
    Ok(Some(words.expect(expected)?))
}

// `NAME in MODULE` or `NAME in MODULE is MACRO`.
fn read_legacy<'a>(
    words: &mut StatementWords<'a>,
) -> Result<(Word<'a>, Word<'a>, Option<Word<'a>>), Complaint>
    ensures legacy { IfOk result (λ t. IsLegacy t.0 t.1 t.2 words.old.words.rest.now) }
    ensures refused { IfErr result (λ _. (name at : Word) (o : Option Word) →
        ¬ (IsLegacy name at o words.old.words.rest.now)) }
    ensures rest { IfOk result (λ t. words.new.words.rest.now ≡ after_going_on t.2 (after_words 3 words.old.words.rest.now)) }
    ensures lines { IfOk result (λ t. (t.0.line ≡ words.old.words.line) × (t.1.line ≡ words.old.words.line) × WordStandsIn words.old.words.line t.2) }
    ensures columns { IfOk result (λ t. IsAt t.0 0 (end_of words.old.words) words.old.words.rest.now
        × IsAt t.1 2 (end_of words.old.words) words.old.words.rest.now
        × MayBeAt t.2 4 (end_of words.old.words) words.old.words.rest.now) }
    ensures line { words.new.words.line ≡ words.old.words.line }
    ensures told { ToldIn words.old.words.line result }
{
    let name = words.expect("the macro's name")?;
    words.keyword("in", WITHIN)?;
    let module = words.expect(MODULE)?;
    let meant = read_more(
        "is",
        "`is` and the full name of a macro declared above, or the end of the line",
        "the full name of a macro",
        words,
    )?;
    Ok((name, module, meant))
}

// `in`, or where a name may be given `as NAME in`: the name that the import has.
#[tactic(auto, unfolding(crate::specs::Spelling::IsImportName, crate::specs::Spelling::after_import_name))]
fn read_import_name<'a>(
    bringing: Bringing,
    full: Word<'a>,
    words: &mut StatementWords<'a>,
) -> Result<Word<'a>, Complaint>
    ensures name { IfOk result (λ name. IsImportName bringing full.entry.text.now name.text.now words.old.words.rest.now) }
    ensures within { IfOk result (λ _. word 0 (after_import_name words.old.words.rest.now) ≡ codes "in") }
    ensures refused { IfErr result (λ _. (f name : List ℕ) → IsImportName bringing f name words.old.words.rest.now
        → word 0 (after_import_name words.old.words.rest.now) ≢ codes "in") }
    ensures rest { IfOk result (λ _. words.new.words.rest.now ≡ after_word (after_import_name words.old.words.rest.now)) }
    ensures lines { IfOk result (λ name. full.entry.line ≡ words.old.words.line → name.line ≡ words.old.words.line) }
    ensures columns { IfOk result (λ name. ImportNameAt full.entry name (end_of words.old.words) words.old.words.rest.now) }
    ensures end { IfOk result (λ _. end_of words.new.words ≡ end_of words.old.words) }
    ensures line { words.new.words.line ≡ words.old.words.line }
    ensures told { ToldIn words.old.words.line result }
{
    let is_glob = matches!(bringing, Bringing::Glob);
    let expected = if is_glob { WITHIN } else { "`in` or `as`" };
    let word = words.expect(expected)?;
    if word.is("as") && !is_glob {
        let name = words.expect("the name that it has here")?;
        words.keyword("in", WITHIN)?;
        Ok(name)
    } else if word.is("in") {
        Ok(last_name(full))
    } else {
        Err(misplaced(word, expected))
    }
}

// `FULL in MODULE VISIBILITY` or, where a name may be given, `FULL as NAME in MODULE VISIBILITY`.
fn read_use<'a>(
    bringing: Bringing,
    words: &mut StatementWords<'a>,
) -> Result<(Word<'a>, Site<'a>), Complaint>
    ensures import { IfOk result (λ t. IsImport bringing t.0 t.1 words.old.words.rest.now) }
    ensures refused { IfErr result (λ _. (f : Word) (s : Site) → ¬ (IsImport bringing f s words.old.words.rest.now)) }
    ensures rest { IfOk result (λ t. words.new.words.rest.now ≡ after_import t.1 words.old.words.rest.now) }
    ensures lines { IfOk result (λ t. (t.0.line ≡ words.old.words.line) × SiteStandsIn words.old.words.line t.1) }
    ensures columns { IfOk result (λ t. ImportAt t.0 t.1 (end_of words.old.words) words.old.words.rest.now) }
    ensures line { words.new.words.line ≡ words.old.words.line }
    ensures told { ToldIn words.old.words.line result }
{
    let full = words.expect("what is imported, by its full name")?;
    let name = read_import_name(bringing, full, words)?;
    Ok((full, site_within(name, words)?))
}

// `NAME in MAP is MEANT`: a crate, or what else may stand there.
fn read_meaning<'a>(
    in_map: &'static str,
    map: &'static str,
    expected: &'static str,
    words: &mut StatementWords<'a>,
) -> Result<(Word<'a>, Word<'a>, Word<'a>), Complaint>
    ensures meaning { IfOk result (λ t. IsMeaning t.0 t.1 t.2 words.old.words.rest.now) }
    ensures refused { IfErr result (λ _. (name within meant : Word) →
        ¬ (IsMeaning name within meant words.old.words.rest.now)) }
    ensures rest { IfOk result (λ _. words.new.words.rest.now ≡ after_words 5 words.old.words.rest.now) }
    ensures lines { IfOk result (λ t. (t.0.line ≡ words.old.words.line) × (t.1.line ≡ words.old.words.line) × (t.2.line ≡ words.old.words.line)) }
    ensures columns { IfOk result (λ t. IsAt t.0 0 (end_of words.old.words) words.old.words.rest.now
        × IsAt t.1 2 (end_of words.old.words) words.old.words.rest.now
        × IsAt t.2 4 (end_of words.old.words) words.old.words.rest.now) }
    ensures line { words.new.words.line ≡ words.old.words.line }
    ensures told { ToldIn words.old.words.line result }
{
    let name = words.expect("a name")?;
    words.keyword("in", in_map)?;
    let within = words.expect(map)?;
    words.keyword("is", "`is` and what the name means")?;
    Ok((name, within, words.expect(expected)?))
}

// `NAME`, or `NAME over MODEL`.
fn read_model<'a>(words: &mut StatementWords<'a>) -> Result<(Word<'a>, Option<Word<'a>>), Complaint>
    ensures model { IfOk result (λ t. IsModel t.0 t.1 words.old.words.rest.now) }
    ensures refused { IfErr result (λ _. (name : Word) (below : Option Word) →
        ¬ (IsModel name below words.old.words.rest.now)) }
    ensures rest { IfOk result (λ t. words.new.words.rest.now ≡ after_going_on t.1 (after_word words.old.words.rest.now)) }
    ensures lines { IfOk result (λ t. (t.0.line ≡ words.old.words.line) × WordStandsIn words.old.words.line t.1) }
    ensures columns { IfOk result (λ t. IsAt t.0 0 (end_of words.old.words) words.old.words.rest.now
        × MayBeAt t.1 2 (end_of words.old.words) words.old.words.rest.now) }
    ensures line { words.new.words.line ≡ words.old.words.line }
    ensures told { ToldIn words.old.words.line result }
{
    let name = words.expect("the model's name")?;
    let below = read_more(
        "over",
        "`over` and the name of a model declared above, or the end of the line",
        "the name of a model declared above",
        words,
    )?;
    Ok((name, below))
}

// The kind of a definition that ends with its visibility, by its first word.
fn kind_of_word(word: &str) -> Option<ItemKind>
    ensures kind { IfSome result (λ k. (word.now ≡ kind_word k) × IsTrue (ends_with_site k)) }
    ensures none { IfNone result ((k : ItemKind) → IsTrue (ends_with_site k) → word.now ≢ kind_word k) }
{
    match word {
        "fn" => Some(ItemKind::Function),
        "const" => Some(ItemKind::Const),
        "static" => Some(ItemKind::Static),
        "union" => Some(ItemKind::Union),
        "enum" => Some(ItemKind::Enum),
        "trait" => Some(ItemKind::Trait),
        "type" => Some(ItemKind::TypeAlias),
        _ => None,
    }
}

// How an import brings what it names, by its first word.
fn bringing_of_word(word: &str) -> Option<Bringing>
    ensures bringing { IfSome result (λ b. word.now ≡ import_word b) }
    ensures none { IfNone result ((b : Bringing) → word.now ≢ import_word b) }
{
    match word {
        "use" => Some(Bringing::Named),
        "use-glob" => Some(Bringing::Glob),
        "extern-crate" => Some(Bringing::ExternCrate),
        _ => None,
    }
}

impl<'a> Statement<'a> {
    /// The statement of a line, if it has one, and its first word. Refused where no statement is spelt by the line's words.
    pub fn of(mut words: StatementWords<'a>) -> Result<Option<(Word<'a>, Statement<'a>)>, Complaint>
        ensures read { IfOk result (IsRead words.entry.words.rest.now) }
        ensures refused { IfErr result (λ _. ¬ (IsReadable words.entry.words.rest.now)) }
        ensures line { IfOk result (AllStandIn words.entry.words.line) }
        ensures columns { IfOk result (AllStandAt (end_of words.entry.words) words.entry.words.rest.now) }
        ensures told { ToldIn words.entry.words.line result }
    {
        let Some(verb) = words.next_word() else {
            return Ok(None);
        };
        let statement = Statement::after(verb, &mut words)?;
        words.expect_end()?;
        Ok(Some((verb, statement)))
    }

    /// Whether it may stand below a model: an item of a kind, an import, a path or a model.
    pub fn stands_below_models(self) -> bool
        ensures { result ≡ stands_below_models self.entry }
    {
        matches!(
            self,
            Statement::Defined(_, _)
                | Statement::Use(_, _, _)
                | Statement::Path(_, _)
                | Statement::Model(_, _)
        )
    }

    fn after(verb: Word<'a>, words: &mut StatementWords<'a>) -> Result<Statement<'a>, Complaint>
        ensures spelt { IfOk result (Spells verb.entry.text.now words.old.words.rest.now) }
        ensures refused { IfErr result (λ _. (s : Statement) →
            ¬ (Spells verb.entry.text.now words.old.words.rest.now s)) }
        ensures rest { IfOk result (λ s. words.new.words.rest.now ≡ after_statement s words.old.words.rest.now) }
        ensures lines { IfOk result (StandsIn words.old.words.line) }
        ensures columns { IfOk result (StandsAt (end_of words.old.words) words.old.words.rest.now) }
        ensures line { IfOk result (λ _. words.new.words.line ≡ words.old.words.line) }
        ensures told { verb.entry.line ≡ words.old.words.line → ToldIn words.old.words.line result }
    {
        let text = text_or_nothing(verb);
        if let Some(kind) = kind_of_word(text) {
            return Ok(Statement::Defined(kind, read_site(words)?));
        }
        if let Some(bringing) = bringing_of_word(text) {
            let (full, site) = read_use(bringing, words)?;
            return Ok(Statement::Use(bringing, full, site));
        }
        match text {
            "crate" => {
                let name = words.expect("the crate's name")?;
                Ok(Statement::Crate(name, read_edition(words.expect(EDITION)?)?))
            }
            "module" => {
                let name = words.expect("the module's full name")?;
                Ok(Statement::Module(name, read_optional(words)?))
            }
            "block" => Ok(Statement::Block(words.expect("the block's full name")?)),
            "item" => Ok(Statement::Item(read_site(words)?)),
            "struct" => {
                let site = read_site(words)?;
                Ok(Statement::Defined(ItemKind::Struct(read_shape(words)?), site))
            }
            "macro" => {
                let site = read_site(words)?;
                Ok(Statement::Defined(ItemKind::Macro(read_styles(words)?), site))
            }
            "variant" => {
                let name = words.expect("the variant's full name")?;
                Ok(Statement::Variant(name, read_shape(words)?))
            }
            "legacy-macro" => {
                let (name, module, meant) = read_legacy(words)?;
                Ok(Statement::LegacyMacro(name, module, meant))
            }
            "extern-prelude" => {
                let (name, within, meant) = read_meaning(
                    IN_CRATE,
                    "a crate",
                    "the crate that it means",
                    words,
                )?;
                Ok(Statement::ExternPrelude(name, within, meant))
            }
            "macro-use" => {
                let (name, within, meant) = read_meaning(
                    IN_MAP,
                    MAP,
                    "the full name of a macro",
                    words,
                )?;
                Ok(Statement::MacroUse(name, within, meant))
            }
            "prelude" => {
                let module = words.expect("the full name of a module")?;
                words.keyword("in", IN_MAP)?;
                Ok(Statement::Prelude(module, words.expect(MAP)?))
            }
            "path" => {
                let path = words.expect("a path, as in `crate::layout::stripe_of`")?;
                Ok(Statement::Path(path, read_asking(words)?))
            }
            "model" => {
                let (name, below) = read_model(words)?;
                Ok(Statement::Model(name, below))
            }
            _ => Err(Complaint::at(
                verb,
                "no statement begins so",
                "the first word of a statement, as `crate`, `module`, `fn`, `use` or `path`",
            )),
        }
    }
}
