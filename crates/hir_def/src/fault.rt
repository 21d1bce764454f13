// Refusals: of which layer one is, why it was made, and the number and the place that it tells.
ghost use Rattle.std.specs.Prelude.{◌≡◌, ◌+◌, alloc_error, Some};
ghost use Rattle.hir_def.specs.declared.fault.Fault.TheVariants.{Text, Path, Tree, Index};
ghost use Rattle.hir_def.specs.declared.fault.Failure.TheVariants.{Memory, Refused};
ghost use Rattle.hir_def.specs.Faults.{text_number, text_place, path_number, path_place, tree_number, tree_place, index_number, index_place, code_of, namespace_number};
ghost use Rattle.hir_def.specs.FaultTexts.{layer_text, code_text};

use crate::Namespace;
use std::alloc::{AllocError, AllocFailed};
use std::fmt;
use thiserror::Error;

/// Why a text is no path, or a list no list of names.
#[derive(Clone, Copy, PartialEq, Eq, Debug, Error)]
pub enum TextFault {
    #[error("the path has more than 64 names")]
    TooManyNames,
    #[error("the path has more than 255 `super`")]
    TooManySupers,
    /// The first line at fault, from 0.
    #[error("a line of the name list is missing, unfinished, one too many, or not the built-in name that belongs there; the place is the first such line")]
    BadLine(usize),
    /// The first byte that cannot go on, or the text's length.
    #[error("the text is no path; the place is the first byte that cannot go on")]
    BadText(usize),
    /// The name's first byte.
    #[error("a name is not in the name list; the place is its first byte")]
    UnknownName(usize),
}

/// Why a question is not answered.
#[derive(Clone, Copy, PartialEq, Eq, Debug, Error)]
pub enum PathFault {
    #[error("the module that asks does not exist")]
    NoModule,
    #[error("the path has more than 64 names")]
    TooManyNames,
    #[error("the path has more than 255 `super`")]
    TooManySupers,
    #[error("the crate that `$crate` stands for does not exist")]
    NoCrate,
    /// The name's index in the path, from 0.
    #[error("a name's number does not exist; the place is its index in the path")]
    NoName(usize),
}

/// Why a module tree does not come in, or does not tell who may see an item.
#[derive(Clone, Copy, PartialEq, Eq, Debug, Error)]
pub enum TreeFault {
    #[error("the module that asks does not exist")]
    NoModule,
    #[error("a module or a crate that the item's visibility names does not exist")]
    Dangling,
    /// The first row at fault, from 0 through modules, blocks and crates.
    #[error("a row of the tree's tables breaks a rule or lies beyond a limit; the place is the first such row")]
    BadRow(usize),
}

/// Why an index does not come in, or does not take a delivery.
#[derive(Clone, Copy, PartialEq, Eq, Debug, Error)]
pub enum IndexFault {
    #[error("the module that receives does not exist")]
    NoModule,
    #[error("the name's number does not exist")]
    NoName,
    #[error("the delivery fills no namespace")]
    NothingFilled,
    /// The namespace of the first such entry.
    #[error("a module, crate, enum or macro in an entry does not exist; the place is the entry's namespace: 0 types, 1 values, 2 macros")]
    Dangling(Namespace),
    /// How many rows are free.
    #[error("fewer rows are free than the delivery fills namespaces; the place is the number of free rows")]
    NoRows(usize),
    /// The first row at fault, from 0 through the counts and the tables.
    #[error("a row of the index's tables breaks a rule or lies beyond a limit; the place is the first such row")]
    BadRow(usize),
}

/// A refusal under the layer that it comes from: the text of a path, a question, the tree's tables, an index.
#[derive(Clone, Copy, PartialEq, Eq, Debug, Error)]
pub enum Fault {
    #[error(transparent)]
    Text(TextFault),
    #[error(transparent)]
    Path(PathFault),
    #[error(transparent)]
    Tree(TreeFault),
    #[error(transparent)]
    Index(IndexFault),
}

#[derive(Clone, Copy, PartialEq, Eq, Debug)]
pub enum Layer {
    Text,
    Path,
    Tree,
    Index,
}

/// A refusal as numbers, for programs.
#[derive(Clone, Copy, PartialEq, Eq, Debug)]
pub struct FaultCode {
    pub layer: Layer,
    /// Which refusal it is, from 1 to 10.
    pub number: u32,
    /// What the refusal tells beside its number; 0 where it tells nothing.
    pub place: usize,
}

impl TextFault {
    fn number(self) -> u32
        ensures { result ≡ text_number self }
    {
        match self {
            TextFault::TooManyNames => 2,
            TextFault::TooManySupers => 2,
            TextFault::BadLine(_) => 8,
            TextFault::BadText(_) => 9,
            TextFault::UnknownName(_) => 10,
        }
    }

    fn place(self) -> usize
        ensures { result ≡ text_place self }
    {
        match self {
            TextFault::TooManyNames => 64,
            TextFault::TooManySupers => 255,
            TextFault::BadLine(line) => line,
            TextFault::BadText(at) => at,
            TextFault::UnknownName(at) => at,
        }
    }
}

impl PathFault {
    fn number(self) -> u32
        ensures { result ≡ path_number self }
    {
        match self {
            PathFault::NoModule => 1,
            PathFault::TooManyNames => 2,
            PathFault::TooManySupers => 2,
            PathFault::NoCrate => 3,
            PathFault::NoName(_) => 4,
        }
    }

    fn place(self) -> usize
        ensures { result ≡ path_place self }
    {
        match self {
            PathFault::NoModule => 0,
            PathFault::TooManyNames => 64,
            PathFault::TooManySupers => 255,
            PathFault::NoCrate => 0,
            PathFault::NoName(index) => index,
        }
    }
}

impl TreeFault {
    fn number(self) -> u32
        ensures { result ≡ tree_number self }
    {
        match self {
            TreeFault::NoModule => 1,
            TreeFault::Dangling => 6,
            TreeFault::BadRow(_) => 8,
        }
    }

    fn place(self) -> usize
        ensures { result ≡ tree_place self }
    {
        match self {
            TreeFault::NoModule => 0,
            TreeFault::Dangling => 0,
            TreeFault::BadRow(row) => row,
        }
    }
}

impl Namespace {
    fn number(self) -> usize
        ensures { result ≡ namespace_number self }
    {
        match self {
            Namespace::Types => 0,
            Namespace::Values => 1,
            Namespace::Macros => 2,
        }
    }
}

impl IndexFault {
    fn number(self) -> u32
        ensures { result ≡ index_number self }
    {
        match self {
            IndexFault::NoModule => 1,
            IndexFault::NoName => 4,
            IndexFault::NothingFilled => 5,
            IndexFault::Dangling(_) => 6,
            IndexFault::NoRows(_) => 7,
            IndexFault::BadRow(_) => 8,
        }
    }

    fn place(self) -> usize
        ensures { result ≡ index_place self }
    {
        match self {
            IndexFault::NoModule => 0,
            IndexFault::NoName => 0,
            IndexFault::NothingFilled => 0,
            IndexFault::Dangling(namespace) => namespace.number(),
            IndexFault::NoRows(left) => left,
            IndexFault::BadRow(row) => row,
        }
    }
}

impl Fault {
    /// The refusal as numbers.
    pub fn code(self) -> FaultCode
        ensures { result ≡ code_of self }
    {
        let (layer, number, place) = match self {
            Fault::Text(fault) => (Layer::Text, fault.number(), fault.place()),
            Fault::Path(fault) => (Layer::Path, fault.number(), fault.place()),
            Fault::Tree(fault) => (Layer::Tree, fault.number(), fault.place()),
            Fault::Index(fault) => (Layer::Index, fault.number(), fault.place()),
        };
        FaultCode {
            layer,
            number,
            place,
        }
    }
}

impl From<TextFault> for Fault {
    ghost from_gives = { λ e r. r ≡ Text e };

    fn from(e: TextFault) -> Fault {
        Fault::Text(e)
    }
}

impl From<PathFault> for Fault {
    ghost from_gives = { λ e r. r ≡ Path e };

    fn from(e: PathFault) -> Fault {
        Fault::Path(e)
    }
}

impl From<TreeFault> for Fault {
    ghost from_gives = { λ e r. r ≡ Tree e };

    fn from(e: TreeFault) -> Fault {
        Fault::Tree(e)
    }
}

impl From<IndexFault> for Fault {
    ghost from_gives = { λ e r. r ≡ Index e };

    fn from(e: IndexFault) -> Fault {
        Fault::Index(e)
    }
}

/// Why a call that needs memory gave no answer: a refusal, or want of memory, which is none.
#[derive(Clone, Copy, PartialEq, Eq, Debug, Error)]
#[error_bound(R: fmt::Display)]
pub enum Failure<R> {
    #[error("out of memory")]
    Memory(AllocError),
    #[error(transparent)]
    Refused(R),
}

impl<R> From<AllocError> for Failure<R> {
    ghost from_gives = { λ e r. r ≡ Memory e };

    fn from(e: AllocError) -> Failure<R> {
        Failure::Memory(e)
    }
}

impl<T: Drop, R> From<AllocFailed<T>> for Failure<R> {
    ghost from_gives = { λ _ r. r ≡ Memory alloc_error };

    fn from(e: AllocFailed<T>) -> Failure<R> {
        Failure::Memory(AllocError::from(e))
    }
}

impl From<TextFault> for Failure<TextFault> {
    ghost from_gives = { λ e r. r ≡ Refused e };

    fn from(e: TextFault) -> Failure<TextFault> {
        Failure::Refused(e)
    }
}

impl From<TreeFault> for Failure<TreeFault> {
    ghost from_gives = { λ e r. r ≡ Refused e };

    fn from(e: TreeFault) -> Failure<TreeFault> {
        Failure::Refused(e)
    }
}

impl From<TreeFault> for Failure<Fault> {
    ghost from_gives = { λ e r. r ≡ Refused (Tree e) };

    fn from(e: TreeFault) -> Failure<Fault> {
        Failure::Refused(Fault::Tree(e))
    }
}

impl From<IndexFault> for Failure<Fault> {
    ghost from_gives = { λ e r. r ≡ Refused (Index e) };

    fn from(e: IndexFault) -> Failure<Fault> {
        Failure::Refused(Fault::Index(e))
    }
}

impl fmt::Display for Layer {
    ghost output = { λ layer. Some (layer_text layer) };

    fn fmt<W: fmt::Write>(&self, f: &mut fmt::Formatter<W>) -> fmt::Result {
        f.write_str(match self {
            Layer::Text => "text",
            Layer::Path => "path",
            Layer::Tree => "tree",
            Layer::Index => "index",
        })
    }
}

/// The layer, the number and the place, with blanks between them.
impl fmt::Display for FaultCode {
    ghost output = { λ code. Some (code_text code) };

    fn fmt<W: fmt::Write>(&self, f: &mut fmt::Formatter<W>) -> fmt::Result {
        let layer = self.layer;
        let number = self.number;
        let place = self.place;
        write!(f, "{layer} {number} {place}")
    }
}
