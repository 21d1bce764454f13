// What is written of a place and of a refused delivery: for people, and as lines of words for programs.
ghost use Rattle.std.specs.Prelude.{◌≡◌, Some};
ghost use Rattle.wording.specs.Shown.{held};
ghost use Rattle.wording.specs.Places.{kind_word, namespace_word, by_word, builtin_text, told_text, line_text, holder_told, place_text, holder_text, place_line, delivery_told, delivery_line};

use crate::holders::{Holder, Told};
use crate::names::VisibilityText;
use firmware::file::DeliveryStatement;
use hir_def::builtin_type::BuiltinType;
use hir_def::fault::FaultCode;
use hir_def::{AdtId, ModuleDefId, Namespace};
use std::fmt;

/// What a name stands for: the full name of its statement, or a built-in type's name.
#[derive(Clone, Copy)]
pub struct ToldText<'a>(pub Told<'a>);

/// A line's number, or `-` where there is none.
#[derive(Clone, Copy)]
pub struct LineText(pub Option<usize>);

/// What holds a place, as a line below the place's name.
#[derive(Clone, Copy)]
pub struct HolderTold<'a> {
    pub names: &'a [&'a str],
    pub namespace: Namespace,
    pub holder: Holder<'a>,
}

/// A place and what holds it as a line: `place`, the name, the module, the namespace, the kind and the full name of what holds it,
/// whether a name or a glob brought it, and the line of the statement that did.
#[derive(Clone, Copy)]
pub struct PlaceLine<'a> {
    pub name: &'a str,
    pub module: &'a str,
    pub namespace: Namespace,
    pub holder: Holder<'a>,
}

// A place by its name, its module and its namespace.
#[derive(Clone, Copy)]
struct PlaceText<'a> {
    name: &'a str,
    module: &'a str,
    namespace: Namespace,
}

// What holds a place by its kind and its full name, whether a name or a glob brought it, and the line of the statement.
#[derive(Clone, Copy)]
struct HolderText<'a>(Holder<'a>);

/// A delivery by its place and the line of its statement.
#[derive(Clone, Copy)]
pub struct DeliveryTold<'a>(pub DeliveryStatement<'a>);

/// A refused delivery as a line: `refused-delivery`, the name, the module, the line of the statement, and the refusal's layer,
/// number and place.
#[derive(Clone, Copy)]
pub struct DeliveryLine<'a> {
    pub statement: DeliveryStatement<'a>,
    pub code: FaultCode,
}

/// The word for the kind of what a name stands for.
pub fn kind_word(def: ModuleDefId) -> &'static str
    ensures { result.now ≡ kind_word def }
{
    match def {
        ModuleDefId::ModuleId(_) => "module",
        ModuleDefId::FunctionId(_) => "fn",
        ModuleDefId::AdtId(AdtId::StructId(_)) => "struct",
        ModuleDefId::AdtId(AdtId::UnionId(_)) => "union",
        ModuleDefId::AdtId(AdtId::EnumId(_)) => "enum",
        ModuleDefId::EnumVariantId(_) => "variant",
        ModuleDefId::ConstId(_) => "const",
        ModuleDefId::StaticId(_) => "static",
        ModuleDefId::TraitId(_) => "trait",
        ModuleDefId::TypeAliasId(_) => "type",
        ModuleDefId::BuiltinType(_) => "builtin",
        ModuleDefId::MacroId(_) => "macro",
    }
}

pub fn namespace_word(namespace: Namespace) -> &'static str
    ensures { result.now ≡ namespace_word namespace }
{
    match namespace {
        Namespace::Types => "types",
        Namespace::Values => "values",
        Namespace::Macros => "macros",
    }
}

/// `name` for what anything but a glob brought, else `glob`.
pub fn by_word(by_name: bool) -> &'static str
    ensures { result.now ≡ by_word by_name }
{
    if by_name { "name" } else { "glob" }
}

// The name of a built-in type; none of anything else.
fn builtin_text(def: ModuleDefId) -> &'static str
    ensures { result.now ≡ builtin_text def }
{
    match def {
        ModuleDefId::BuiltinType(builtin) => BuiltinType::text(builtin.as_name()).unwrap_or("-"),
        _ => "-",
    }
}

impl<'a> fmt::Display for ToldText<'a> {
    ghost output = { λ t. Some (told_text t.0) };

    fn fmt<W: fmt::Write>(&self, f: &mut fmt::Formatter<W>) -> fmt::Result {
        match self.0.definition {
            None => f.write_str(builtin_text(self.0.def)),
            Some(definition) => {
                let within = definition.within;
                let name = definition.name;
                if within.is_empty() {
                    f.write_str(name)
                } else {
                    write!(f, "{within}::{name}")
                }
            }
        }
    }
}

impl fmt::Display for LineText {
    ghost output = { λ l. Some (line_text l.0) };

    fn fmt<W: fmt::Write>(&self, f: &mut fmt::Formatter<W>) -> fmt::Result {
        match self.0 {
            Some(line) => write!(f, "{line}"),
            None => f.write_str("-"),
        }
    }
}

impl<'a> fmt::Display for HolderTold<'a> {
    ghost output = { λ h. Some (holder_told (held h.names.now) h.namespace h.holder) };

    fn fmt<W: fmt::Write>(&self, f: &mut fmt::Formatter<W>) -> fmt::Result {
        let namespace = namespace_word(self.namespace);
        let kind = kind_word(self.holder.told.def);
        let told = ToldText(self.holder.told);
        let vis = VisibilityText {
            names: self.names,
            vis: self.holder.vis,
        };
        let by = by_word(self.holder.by_name);
        let line = LineText(self.holder.line);
        write!(
            f,
            "    {namespace}: {kind} {told}, {vis}, by {by} in line {line}\n"
        )
    }
}

impl<'a> fmt::Display for PlaceText<'a> {
    ghost output = { λ p. Some (place_text p.name.now p.«module».now p.namespace) };

    fn fmt<W: fmt::Write>(&self, f: &mut fmt::Formatter<W>) -> fmt::Result {
        let name = self.name;
        let module = self.module;
        let namespace = namespace_word(self.namespace);
        write!(f, "{name} {module} {namespace}")
    }
}

impl<'a> fmt::Display for HolderText<'a> {
    ghost output = { λ h. Some (holder_text h.0) };

    fn fmt<W: fmt::Write>(&self, f: &mut fmt::Formatter<W>) -> fmt::Result {
        let kind = kind_word(self.0.told.def);
        let told = ToldText(self.0.told);
        let by = by_word(self.0.by_name);
        let line = LineText(self.0.line);
        write!(f, "{kind} {told} {by} {line}")
    }
}

impl<'a> fmt::Display for PlaceLine<'a> {
    ghost output = { λ p. Some (place_line p.name.now p.«module».now p.namespace p.holder) };

    fn fmt<W: fmt::Write>(&self, f: &mut fmt::Formatter<W>) -> fmt::Result {
        let place = PlaceText {
            name: self.name,
            module: self.module,
            namespace: self.namespace,
        };
        let holder = HolderText(self.holder);
        write!(f, "place {place} {holder}\n")
    }
}

impl<'a> fmt::Display for DeliveryTold<'a> {
    ghost output = { λ d. Some (delivery_told d.0) };

    fn fmt<W: fmt::Write>(&self, f: &mut fmt::Formatter<W>) -> fmt::Result {
        let name = self.0.name;
        let module = self.0.module;
        let line = self.0.line;
        write!(f, "delivery of {name} to {module} in line {line}")
    }
}

impl<'a> fmt::Display for DeliveryLine<'a> {
    ghost output = { λ d. Some (delivery_line d.statement d.code) };

    fn fmt<W: fmt::Write>(&self, f: &mut fmt::Formatter<W>) -> fmt::Result {
        let name = self.statement.name;
        let module = self.statement.module;
        let line = self.statement.line;
        let code = self.code;
        write!(f, "refused-delivery {name} {module} {line} {code}")
    }
}
