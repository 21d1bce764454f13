// What a statement of a file declares, and where that stands.
use hir_def::EnumId;

/// Where what a statement tells stands.
#[derive(Clone, Copy, PartialEq, Eq, Debug)]
pub enum Standing {
    /// It is delivered to the module around it, under its name.
    Place,
    /// It is a variant of that enum.
    Variant(EnumId),
    /// It is delivered nowhere: a crate, a block's root or a legacy macro.
    Apart,
}

/// A module, an item of a kind, a variant or an import, as its statement has it.
#[derive(Clone, Copy)]
pub struct Definition<'a> {
    /// The full name of the module or of the enum around it, empty for a crate.
    pub within: &'a str,
    /// Of an import the name that it binds.
    pub name: &'a str,
    /// Lines count from 1.
    pub line: usize,
    pub standing: Standing,
}
