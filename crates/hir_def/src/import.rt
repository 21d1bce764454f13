// What brought an entry into a module's scope.
ghost use Rattle.std.specs.Prelude.{◌≡◌};
ghost use Rattle.hir_def.specs.Imports.{narrowed, widened, Narrows};

use crate::{ExternCrateId, GlobId, ImportId};

#[derive(Clone, Copy, PartialEq, Eq, Hash, Debug)]
pub enum ImportOrExternCrate {
    Glob(GlobId),
    Import(ImportId),
    ExternCrate(ExternCrateId),
}

/// The imports of values: an extern crate brings none.
#[derive(Clone, Copy, PartialEq, Eq, Hash, Debug)]
pub enum ImportOrGlob {
    Glob(GlobId),
    Import(ImportId),
}

/// The import as an entry of the values keeps it.
#[tactic(auto, using(crate::proofs::Narrowing::narrows))]
pub fn import_or_glob(import: Option<ImportOrExternCrate>) -> Option<ImportOrGlob>
    ensures value { result ≡ narrowed import }
    ensures keeps { Narrows import result }
{
    match import {
        Some(ImportOrExternCrate::Glob(g)) => Some(ImportOrGlob::Glob(g)),
        Some(ImportOrExternCrate::Import(i)) => Some(ImportOrGlob::Import(i)),
        Some(ImportOrExternCrate::ExternCrate(_)) => None,
        None => None,
    }
}

/// The import as an entry of any namespace keeps it.
pub fn widened(import: Option<ImportOrGlob>) -> Option<ImportOrExternCrate>
    ensures { result ≡ widened import }
{
    match import {
        Some(ImportOrGlob::Glob(g)) => Some(ImportOrExternCrate::Glob(g)),
        Some(ImportOrGlob::Import(i)) => Some(ImportOrExternCrate::Import(i)),
        None => None,
    }
}
