// A question: who asks, and what is asked beside the path.
use hir_def::ModuleId;

/// Whether an import asks, or anything else.
#[derive(Clone, Copy, PartialEq, Eq, Hash, Debug)]
pub enum ResolveMode {
    Import,
    Other,
}

/// What a built-in type's name means where a module has it too: in mode `Module` the module, in mode `Other` the built-in
/// type. It counts for paths of one name.
#[derive(Clone, Copy, PartialEq, Eq, Hash, Debug)]
pub enum BuiltinShadowMode {
    Module,
    Other,
}

/// The kind of macro that is asked for: `m!()`, or one of `#[m]` and `#[derive(m)]`.
#[derive(Clone, Copy, PartialEq, Eq, Hash, Debug)]
pub enum MacroSubNs {
    Bang,
    Attr,
}

/// What is asked beside the path. The original module is the one where the path stands: it is asked first, and who may see is
/// judged from it.
#[derive(Clone, Copy, PartialEq, Eq, Hash, Debug)]
pub struct Question {
    pub mode: ResolveMode,
    pub original_module: ModuleId,
    pub shadow: BuiltinShadowMode,
    pub expected_macro_subns: Option<MacroSubNs>,
}
