// What the statements of items, macros, imports and preludes add to a file's tables and deliveries.
ghost use Rattle.std.specs.Prelude.{◌≡◌, ◌++◌, ℕ, IfOk, OnOk, length};
ghost use Rattle.std.specs.Result.{result_ok};
ghost use Rattle.file_reader.specs.Definitions.{counted, define, defined_as, imports_of, keep, keep_import, kept, styles_of};
ghost use Rattle.file_reader.specs.FullNames.{declared_above, enum_in, enum_meant, imported, macro_meant};
ghost use Rattle.file_reader.specs.Refusals.{IsRowNumber, NoOutcome, OnRefused, ToldAt};
ghost use Rattle.file_reader.specs.Named.{crate_of, map_of};
ghost use Rattle.file_reader.specs.Adding.{AddsDefinition, AddsExternPrelude, AddsImport, AddsLegacy, AddsLegacyOf, AddsMacroUse, AddsPrelude, AddsVariant};
ghost use Rattle.file_reader.specs.Told.{table, told_by, with_row};
ghost use Rattle.statements.specs.Lines.{SiteStandsIn, ToldIn};

use crate::adding::Listed;
use crate::reader::Reader;
use entries::per_ns::PerNs;
use entries::visibility::Visibility;
use firmware::definition::{Definition, Standing};
use firmware::definitions::Definitions;
use firmware::tables::RowsTold;
use hir_def::fault::Failure;
use hir_def::{AdtId, CrateId, EnumId, EnumVariantId, MacroId, ModuleDefId, ModuleId};
use index_tables::keys::{CrateName, EnumName, MapName, ModuleName};
use item_scope::index_data::{CallStyles, DefMapId, EnumVariant, ExternPrelude, MacroUse};
use keyed::row::Row;
use source_text::words::Word;
use statements::clauses::Site;
use statements::kinds::{Bringing, ItemKind, Shape, with_visibility};
use statements::names::{row_number, split, text_of};
use std::alloc::AllocError;
use troubles::complaint::Complaint;
use troubles::trouble::Trouble;

// Adds a row and the word that tells it.
fn tell<'a, K: Copy, V: Copy>(
    told: &mut RowsTold<'a, K, V>,
    key: K,
    value: V,
    word: Word<'a>,
) -> Result<(), AllocError>
    ensures { OnOk result (table told.new ≡ with_row (table told.old) key value word.entry) }
{
    told.words.push(word)?;
    told.rows.push(Row { key, value })?;
    Ok(())
}

// How many are counted with those of a kind.
fn count_of_kind(definitions: &Definitions, kind: ItemKind) -> usize
    ensures { result ≡ length (defined_as (counted definitions.now) kind) }
{
    match kind {
        ItemKind::Enum => definitions.enums.len(),
        ItemKind::Macro(_) => definitions.macros.len(),
        _ => definitions.others.len(),
    }
}

fn add_to_kind<'a>(
    definitions: &mut Definitions<'a>,
    kind: ItemKind,
    definition: Definition<'a>,
) -> Result<(), AllocError>
    ensures { OnOk result (counted definitions.new ≡ keep (counted definitions.old) kind (kept definition.entry)) }
{
    match kind {
        ItemKind::Enum => definitions.enums.push(definition)?,
        ItemKind::Macro(_) => definitions.macros.push(definition)?,
        _ => definitions.others.push(definition)?,
    }
    Ok(())
}

fn count_imports(definitions: &Definitions, bringing: Bringing) -> usize
    ensures { result ≡ length (imports_of (counted definitions.now) bringing) }
{
    match bringing {
        Bringing::Named => definitions.imports.len(),
        Bringing::Glob => definitions.globs.len(),
        Bringing::ExternCrate => definitions.extern_crates.len(),
    }
}

fn add_import<'a>(
    definitions: &mut Definitions<'a>,
    bringing: Bringing,
    definition: Definition<'a>,
) -> Result<(), AllocError>
    ensures { OnOk result (counted definitions.new ≡ keep_import (counted definitions.old) bringing (kept definition.entry)) }
{
    match bringing {
        Bringing::Named => definitions.imports.push(definition)?,
        Bringing::Glob => definitions.globs.push(definition)?,
        Bringing::ExternCrate => definitions.extern_crates.push(definition)?,
    }
    Ok(())
}

// The enum among the entries of a name.
fn enum_in(entries: PerNs) -> Option<EnumId>
    ensures { result ≡ enum_in entries }
{
    match entries.types?.def {
        ModuleDefId::AdtId(AdtId::EnumId(id)) => Some(id),
        _ => None,
    }
}

impl<'a> Reader<'a> {
    fn macro_of(&self, word: Word<'a>) -> Result<MacroId, Complaint>
        ensures meant { result_ok result ≡ macro_meant (declared_above (told_by self.now)) word.entry.text.now }
        ensures line { ToldIn word.entry.line result }
    {
        let item = self.declared_as(word)?.macros.ok_or(Complaint::at(
            word,
            "this is no macro",
            "the full name of a macro declared above",
        ))?;
        Ok(item.def)
    }

    fn enum_of(&self, word: Word<'a>) -> Result<EnumId, Complaint>
        ensures meant { result_ok result ≡ enum_meant (declared_above (told_by self.now)) word.entry.text.now }
        ensures line { ToldIn word.entry.line result }
    {
        enum_in(self.declared_as(word)?).ok_or(Complaint::at(
            word,
            "this is no enum",
            "the full name of an enum declared above",
        ))
    }

    fn crate_of(&self, word: Word<'a>) -> Result<(CrateId, ModuleId), Complaint>
        ensures found { result_ok result ≡ crate_of (told_by self.now).above word.entry.text.now }
        ensures line { ToldIn word.entry.line result }
    {
        let known = self.known(word)?;
        match known.root_of {
            Some(DefMapId::Crate(krate)) => Ok((krate, known.id)),
            _ => Err(Complaint::at(
                word,
                "this is no crate",
                "the name of a crate declared above",
            )),
        }
    }

    fn map_of(&self, word: Word<'a>) -> Result<DefMapId, Complaint>
        ensures found { result_ok result ≡ map_of (told_by self.now).above word.entry.text.now }
        ensures line { ToldIn word.entry.line result }
    {
        self.known(word)?.root_of.ok_or(Complaint::at(
            word,
            "this is no crate and no block",
            "the full name of a crate or a block declared above",
        ))
    }

    // Adds a definition of that kind, and answers its number.
    fn define(
        &mut self,
        kind: ItemKind,
        standing: Standing,
        name: Listed<'a>,
        within: &'a str,
    ) -> Result<u32, Failure<Trouble>>
        ensures numbered { IfOk result (λ n. n ≡ length (defined_as (told_by self.old).definitions kind)) }
        ensures told { OnOk result (told_by self.new ≡ record (told_by self.old) {
          definitions = define (told_by self.old).definitions kind
              (record { within = within.entry.now; name = name.entry.text.now; line = name.entry.word.line; standing = standing });
          styles = (told_by self.old).styles ++ styles_of kind;
        }) }
        ensures number { OnOk result (IsRowNumber (length (defined_as (told_by self.old).definitions kind))) }
        ensures refused { OnRefused result (¬ (IsRowNumber (length (defined_as (told_by self.old).definitions kind)))) }
        ensures line { ToldAt name.entry.word.line result }
    {
        let definition = Definition {
            within,
            name: name.text,
            line: name.word.line,
            standing,
        };
        let count = count_of_kind(&self.firmware.definitions, kind);
        let number = row_number(name.word, count)?;
        add_to_kind(&mut self.firmware.definitions, kind, definition)?;
        if let ItemKind::Macro(styles) = kind {
            self.firmware.tables.styles.push(styles)?;
        }
        if !matches!(kind, ItemKind::Variant(_)) {
            self.firmware.definitions.of_a_kind.push(kind.def(number))?;
        }
        Ok(number)
    }

    /// An item of a kind: it is delivered to its own module.
    pub(crate) fn add_definition(
        &mut self,
        kind: ItemKind,
        site: Site<'a>,
    ) -> Result<(), Failure<Trouble>>
        ensures added { OnOk result (AddsDefinition (told_by self.old) kind site.entry (told_by self.new)) }
        ensures refused { OnRefused result (NoOutcome (AddsDefinition (told_by self.old) kind site.entry)) }
        ensures line { (n : ℕ) → SiteStandsIn n site.entry → ToldAt n result }
    {
        let (name, place) = self.add_item(site)?;
        let number = self.define(kind, Standing::Place, name, place.module)?;
        let entries = kind.entries(number, place.vis);
        self.declare(site.module.text, site.name.text, entries)?;
        Ok(self.deliver(place.known.id, name, place.module, entries, None)?)
    }

    /// A variant of an enum, which is delivered nowhere.
    pub(crate) fn add_variant(
        &mut self,
        word: Word<'a>,
        shape: Shape,
    ) -> Result<(), Failure<Trouble>>
        ensures added { OnOk result (AddsVariant (told_by self.old) word.entry shape (told_by self.new)) }
        ensures refused { OnRefused result (NoOutcome (AddsVariant (told_by self.old) word.entry shape)) }
        ensures line { ToldAt word.entry.line result }
    {
        let (outer, own) = split(word)?;
        let of = self.enum_of(outer)?;
        let within = text_of(outer)?;
        let name = self.list_name(own)?;
        let kind = ItemKind::Variant(shape);
        let variant = self.define(kind, Standing::Variant(of), name, within)?;
        let row = EnumVariant {
            variant: EnumVariantId(variant),
            has_constructor: shape.has_constructor(),
        };
        let key = EnumName {
            of,
            name: name.number,
        };
        tell(&mut self.firmware.tables.variants, key, row, word)?;
        let entries = kind.entries(variant, Visibility::Public);
        Ok(self.declare(outer.text, own.text, entries)?)
    }

    /// A `macro_rules!` macro, which is called by its name alone: it is delivered nowhere.
    pub(crate) fn add_legacy(
        &mut self,
        word: Word<'a>,
        module: Word<'a>,
    ) -> Result<(), Failure<Trouble>>
        ensures added { OnOk result (AddsLegacy (told_by self.old) word.entry «module».entry (told_by self.new)) }
        ensures refused { OnRefused result (NoOutcome (AddsLegacy (told_by self.old) word.entry «module».entry)) }
        ensures line { «module».entry.line ≡ word.entry.line → ToldAt word.entry.line result }
    {
        let at = self.known(module)?.id;
        let within = text_of(module)?;
        let name = self.list_name(word)?;
        let styles = CallStyles {
            fn_like: true,
            attr: false,
            derive: false,
        };
        let def = MacroId(self.define(ItemKind::Macro(styles), Standing::Apart, name, within)?);
        tell(
            &mut self.firmware.tables.legacy,
            ModuleName {
                at,
                name: name.number,
            },
            def,
            word,
        )?;
        let entries = PerNs::macros(def, Visibility::Public, None);
        Ok(self.declare(module.text, word.text, entries)?)
    }

    /// A name by which a macro declared above is called in one more module.
    pub(crate) fn add_legacy_of(
        &mut self,
        word: Word<'a>,
        module: Word<'a>,
        meant: Word<'a>,
    ) -> Result<(), Failure<Trouble>>
        ensures added { OnOk result (AddsLegacyOf (told_by self.old) word.entry «module».entry meant.entry (told_by self.new)) }
        ensures refused { OnRefused result (NoOutcome (AddsLegacyOf (told_by self.old) word.entry «module».entry meant.entry)) }
        ensures line { «module».entry.line ≡ word.entry.line → meant.entry.line ≡ word.entry.line → ToldAt word.entry.line result }
    {
        let at = self.known(module)?.id;
        let def = self.macro_of(meant)?;
        let name = self.list_name(word)?.number;
        let key = ModuleName { at, name };
        Ok(tell(&mut self.firmware.tables.legacy, key, def, word)?)
    }

    // What an import of that kind brings by a full name.
    fn imported(&self, bringing: Bringing, full: Word<'a>) -> Result<PerNs, Complaint>
        ensures brings { result_ok result ≡ imported (declared_above (told_by self.now)) bringing full.entry.text.now }
        ensures line { ToldIn full.entry.line result }
    {
        match bringing {
            Bringing::ExternCrate => {
                let (_, root) = self.crate_of(full)?;
                let def = ModuleDefId::ModuleId(root);
                Ok(PerNs::types(def, Visibility::Public, None))
            }
            _ => self.declared_as(full),
        }
    }

    /// An import brings what is declared above with a full name, as visible as the import is.
    pub(crate) fn add_use(
        &mut self,
        bringing: Bringing,
        full: Word<'a>,
        site: Site<'a>,
    ) -> Result<(), Failure<Trouble>>
        ensures added { OnOk result (AddsImport (told_by self.old) bringing full.entry site.entry (told_by self.new)) }
        ensures refused { OnRefused result (NoOutcome (AddsImport (told_by self.old) bringing full.entry site.entry)) }
        ensures line { SiteStandsIn full.entry.line site.entry → ToldAt full.entry.line result }
    {
        let place = self.place(site)?;
        let entries = with_visibility(self.imported(bringing, full)?, place.vis);
        let count = count_imports(&self.firmware.definitions, bringing);
        let import = bringing.import(row_number(full, count)?);
        let name = self.list_name(site.name)?;
        let definition = Definition {
            within: place.module,
            name: name.text,
            line: name.word.line,
            standing: Standing::Place,
        };
        add_import(&mut self.firmware.definitions, bringing, definition)?;
        Ok(self.deliver(place.known.id, name, place.module, entries, Some(import))?)
    }

    pub(crate) fn add_extern_prelude(
        &mut self,
        word: Word<'a>,
        krate: Word<'a>,
        meant: Word<'a>,
    ) -> Result<(), Failure<Trouble>>
        ensures added { OnOk result (AddsExternPrelude (told_by self.old) word.entry krate.entry meant.entry (told_by self.new)) }
        ensures refused { OnRefused result (NoOutcome (AddsExternPrelude (told_by self.old) word.entry krate.entry meant.entry)) }
        ensures line { krate.entry.line ≡ word.entry.line → meant.entry.line ≡ word.entry.line → ToldAt word.entry.line result }
    {
        let (krate, _) = self.crate_of(krate)?;
        let (_, module) = self.crate_of(meant)?;
        let name = self.list_name(word)?.number;
        let key = CrateName { krate, name };
        let row = ExternPrelude {
            module,
            extern_crate: None,
        };
        Ok(tell(&mut self.firmware.tables.extern_prelude, key, row, word)?)
    }

    pub(crate) fn add_macro_use(
        &mut self,
        word: Word<'a>,
        map: Word<'a>,
        meant: Word<'a>,
    ) -> Result<(), Failure<Trouble>>
        ensures added { OnOk result (AddsMacroUse (told_by self.old) word.entry map.entry meant.entry (told_by self.new)) }
        ensures refused { OnRefused result (NoOutcome (AddsMacroUse (told_by self.old) word.entry map.entry meant.entry)) }
        ensures line { map.entry.line ≡ word.entry.line → meant.entry.line ≡ word.entry.line → ToldAt word.entry.line result }
    {
        let map = self.map_of(map)?;
        let def = self.macro_of(meant)?;
        let name = self.list_name(word)?.number;
        let key = MapName { map, name };
        let row = MacroUse {
            def,
            extern_crate: None,
        };
        Ok(tell(&mut self.firmware.tables.macro_use, key, row, word)?)
    }

    pub(crate) fn add_prelude(
        &mut self,
        module: Word<'a>,
        map: Word<'a>,
    ) -> Result<(), Failure<Trouble>>
        ensures added { OnOk result (AddsPrelude (told_by self.old) «module».entry map.entry (told_by self.new)) }
        ensures refused { OnRefused result (NoOutcome (AddsPrelude (told_by self.old) «module».entry map.entry)) }
        ensures line { map.entry.line ≡ «module».entry.line → ToldAt «module».entry.line result }
    {
        let of = self.map_of(map)?;
        let prelude = self.known(module)?.id;
        Ok(tell(&mut self.firmware.tables.preludes, of, prelude, module)?)
    }
}
