// What holds a place, by the statements of a file.
ghost use Rattle.std.specs.Prelude.{◌≡◌};
ghost use Rattle.wording.specs.Holders.{holder_of, held, holder_at, entry_in, entry_at};

use entries::per_ns::{PerNs, TypesItem, macro_entry, value_entry};
use entries::visibility::Visibility;
use firmware::definition::Definition;
use firmware::definitions::Definitions;
use hir_def::{ModuleDefId, ModuleId, Name, Namespace};
use item_scope::index::Index;
use item_scope::steps::is_by_glob;

/// What a name stands for, by its statement; a built-in type has none.
#[derive(Clone, Copy)]
pub struct Told<'a> {
    pub def: ModuleDefId,
    pub definition: Option<Definition<'a>>,
}

/// What holds a place: what it stands for, who may see it there, whether it came by name and not by a glob, and the line of the
/// statement that brought it.
#[derive(Clone, Copy)]
pub struct Holder<'a> {
    pub told: Told<'a>,
    pub vis: Visibility,
    pub by_name: bool,
    pub line: Option<usize>,
}

fn holder_of<'a>(definitions: &Definitions<'a>, item: TypesItem, by_name: bool) -> Holder<'a>
    ensures { result ≡ holder_of definitions.now item by_name }
{
    Holder {
        told: Told {
            def: item.def,
            definition: definitions.get(item.def),
        },
        vis: item.vis,
        by_name,
        line: definitions.line_of(item.def, item.import),
    }
}

fn held<'a>(
    definitions: &Definitions<'a>,
    entry: Option<TypesItem>,
    by_name: bool,
) -> Option<Holder<'a>>
    ensures { result ≡ held definitions.now entry by_name }
{
    let item = entry?;
    Some(holder_of(definitions, item, by_name))
}

/// What holds the name's place in the namespace, if anything does.
pub fn place_holder<'a, I: Index>(
    index: &I,
    definitions: &Definitions<'a>,
    at: ModuleId,
    name: Name,
    namespace: Namespace,
) -> Option<Holder<'a>>
    ensures { result ≡ holder_at definitions.now (I.view index.now) at name namespace }
{
    match namespace {
        Namespace::Types => {
            let place = index.types(at, name);
            held(definitions, place.holder(), place.is_by_name())
        }
        Namespace::Values => {
            let place = index.values(at, name);
            let entry = place.holder().map(value_entry);
            held(definitions, entry, place.is_by_name())
        }
        Namespace::Macros => {
            let place = index.macros(at, name);
            let entry = place.holder().map(macro_entry);
            held(definitions, entry, place.is_by_name())
        }
    }
}

/// The entry of the namespace, if there is one, told as one of the types is.
pub fn entry_in(entries: &PerNs, namespace: Namespace) -> Option<TypesItem>
    ensures { result ≡ entry_in entries.now namespace }
{
    match namespace {
        Namespace::Types => entries.types,
        Namespace::Values => entries.values.map(value_entry),
        Namespace::Macros => entries.macros.map(macro_entry),
    }
}

/// The same entry, told as what holds a place is.
pub fn entry_holder<'a>(
    definitions: &Definitions<'a>,
    entries: &PerNs,
    namespace: Namespace,
) -> Option<Holder<'a>>
    ensures { result ≡ entry_at definitions.now entries.now namespace }
{
    let item = entry_in(entries, namespace)?;
    Some(holder_of(definitions, item, !is_by_glob(item)))
}
