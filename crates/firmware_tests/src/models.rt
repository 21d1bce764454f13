// Card models: what is read of each part of a file, and what is told of bad ones.
use crate::written::complain_each;
use file_reader::reader::read_firmware;
use firmware::definition::Standing;
use firmware::file::Firmware;
use firmware::pile::{Part, Pile};
use hir_def::import::ImportOrExternCrate;
use hir_def::{AdtId, EnumId, EnumVariantId, FunctionId, GlobId, ModuleDefId, StructId};
use std::alloc::Global;
use std::process::Abort;
use std::test::Fail;

// `two` is over `one`, and `three` over the tree. A path of a crate stands in the base, and others in the models.
const CARDS: &[u8] =
    b"crate a 2021\nmodule a::b pub\nfn f in a pub\npath f from a\nmodel one // for cards\nfn f in a::b pub\nstruct s in a pub tuple\npath b::f from a\nmodel two over one\nuse a::s as t in a::b pub\nuse-glob a::b::f in a private\npath t\npath b::t from a\nmodel three\nfn g in a private\n";

fn function(number: u32) -> ModuleDefId {
    ModuleDefId::FunctionId(FunctionId(number))
}

// The names of a part's deliveries, the positions of its paths, and its items.
fn has(
    rt: &(impl Abort + Alloc<A = Global>),
    firmware: &Firmware,
    part: Part,
    names: &[&str],
    paths: (usize, usize),
    items: &[ModuleDefId],
) -> Result<(), Fail> {
    let deliveries = firmware.deliveries_of(part);
    assert_eq!(rt; deliveries.len(), names.len());
    for (delivery, name) in deliveries.iter().zip(names) {
        assert_eq!(rt; delivery.name, *name);
    }
    let range = firmware.paths_of(part);
    assert_eq!(rt; (range.start, range.end), paths);
    assert_eq!(rt; firmware.definitions_of(part), items);
    Ok(())
}

#[test]
fn parts(rt: HostRuntime) -> Result<(), Fail> {
    let firmware = read_firmware(rt.alloc(), CARDS)?;
    let structure = ModuleDefId::AdtId(AdtId::StructId(StructId(2)));
    has(
        &rt,
        &firmware,
        Part::Base,
        &["b", "f"],
        (0, 1),
        &[function(0)],
    )?;
    has(
        &rt,
        &firmware,
        Part::Model(0),
        &["f", "s"],
        (1, 2),
        &[function(1), structure],
    )?;
    has(&rt, &firmware, Part::Model(1), &["t", "f"], (2, 4), &[])?;
    has(
        &rt,
        &firmware,
        Part::Model(2),
        &["g"],
        (4, 4),
        &[function(3)],
    )?;
    has(&rt, &firmware, Part::Model(3), &[], (4, 4), &[])?;
    let imported = match firmware.deliveries_of(Part::Model(1)) {
        [first, ..] => first.delivery.entries.values,
        [] => None,
    };
    assert_eq!(rt; imported.map(|item| item.def), Some(structure));
    Ok(())
}

#[test]
fn piles(rt: HostRuntime) -> Result<(), Fail> {
    let firmware = read_firmware(rt.alloc(), CARDS)?;
    assert_eq!(rt; firmware.models.len(), 3);
    let two = firmware.models[1];
    assert_eq!(rt; (two.name, two.line), ("two", 9));
    assert_eq!(rt; two.pile, Pile::Two(0, 1));
    assert_eq!(rt; firmware.models[2].pile, Pile::One(2));
    let parts = two.pile.parts(rt.alloc())?;
    assert_eq!(rt;
        parts.as_slice(),
        [Part::Base, Part::Model(0), Part::Model(1)].as_slice()
    );
    Ok(())
}

#[test]
fn statements(rt: HostRuntime) -> Result<(), Fail> {
    let firmware = read_firmware(rt.alloc(), CARDS)?;
    let glob = Some(ImportOrExternCrate::Glob(GlobId(0)));
    let definitions = &firmware.definitions;
    let import = definitions
        .place_of(function(1), glob)
        .ok_or("no statement")?;
    assert_eq!(rt; (import.within, import.name, import.line), ("a", "f", 11));
    let own = definitions
        .place_of(function(1), None)
        .ok_or("no statement")?;
    assert_eq!(rt; (own.within, own.name, own.line), ("a::b", "f", 6));
    let text = b"crate a 2021\nenum e in a pub\nvariant a::e::v unit\n";
    let firmware = read_firmware(rt.alloc(), text)?;
    let variant = ModuleDefId::EnumVariantId(EnumVariantId(0));
    let of = ModuleDefId::AdtId(AdtId::EnumId(EnumId(0)));
    assert_eq!(rt; firmware.definitions.item_of(variant), of);
    assert!(rt; firmware.definitions.place_of(variant, None).is_none());
    let told = firmware.definitions.get(variant).ok_or("no statement")?;
    assert_eq!(rt; told.standing, Standing::Variant(EnumId(0)));
    Ok(())
}

#[test]
fn bad_models(rt: HostRuntime) -> Result<(), Fail> {
    complain_each(
        &rt,
        &[
            (
                b"model m\nmodel n over m\nmodel o over n\nmodel p over o\n",
                "f.feq:4:14: a model over this one is the fourth of its pile\n    model p over o\n                 ^\nexpected a model that stands over the tree, or over one that does: a pile has at most three\n",
            ),
            (
                b"model m over n\n",
                "f.feq:1:14: no model of this name is declared above\n    model m over n\n                 ^\nexpected the name of a model declared above\n",
            ),
            (
                b"model m\nmodel m\n",
                "f.feq:2:7: a model of this name is declared above\n    model m\n          ^\nexpected a name of its own\n",
            ),
            (
                b"model m on n\n",
                "f.feq:1:9: this word cannot stand here\n    model m on n\n            ^\nexpected `over` and the name of a model declared above, or the end of the line\n",
            ),
        ],
    )
}

#[test]
fn bad_statements_below_models(rt: HostRuntime) -> Result<(), Fail> {
    complain_each(
        &rt,
        &[
            (
                b"model m\n  crate a 2021\n",
                "f.feq:2:3: this cannot stand below a model\n      crate a 2021\n      ^\nexpected an item of a kind, an import, a path or a model; what is told of the tree stands above the first model\n",
            ),
            (
                b"crate a 2021\nmodel m\nfn x in a pub\nmodel n\nuse a::x in a pub\n",
                "f.feq:5:5: nothing that has a kind is declared above with this full name\n    use a::x in a pub\n        ^\nexpected the full name of a module, an item of a kind or a variant declared above; an `item` has no kind\n",
            ),
        ],
    )
}
