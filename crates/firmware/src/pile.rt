// The parts of a file, and the piles of its models.
ghost use Rattle.std.specs.Prelude.{◌≡◌, IfOk, vec_items};
ghost use Rattle.std.proofs.Common.{rules};
ghost use Rattle.firmware.specs.Piles.{top_of, with_top, parts_of};

use hir_def::lawful_eq::LawfulEq;
use std::alloc::{AllocError, Global};

/// A part of a file: the base, or what stands below the statement of the model with that index in `Firmware::models`.
#[derive(Clone, Copy, PartialEq, Eq, PartialOrd, Ord, Debug)]
pub enum Part {
    Base,
    Model(usize),
}

impl LawfulEq for Part {
    ghost eq_is_identity = { Prim.search rules };
}

/// The models of a pile by their indexes in `Firmware::models`, the lowest first. The last one is the model whose pile it is.
#[derive(Clone, Copy, PartialEq, Eq, Debug)]
pub enum Pile {
    One(usize),
    Two(usize, usize),
    Three(usize, usize, usize),
}

impl Pile {
    /// The model whose pile it is, which is the highest.
    pub fn top(self) -> usize
        ensures { result ≡ top_of self }
    {
        match self {
            Pile::One(top) => top,
            Pile::Two(_, top) => top,
            Pile::Three(_, _, top) => top,
        }
    }

    /// The pile with a model above its top; none over a pile of three.
    pub fn with_top(self, model: usize) -> Option<Pile>
        ensures { result ≡ with_top self model }
    {
        match self {
            Pile::One(first) => Some(Pile::Two(first, model)),
            Pile::Two(first, second) => Some(Pile::Three(first, second, model)),
            Pile::Three(_, _, _) => None,
        }
    }

    /// The parts of the file that the top's index has: the base, and then the models from the lowest.
    pub fn parts(self, alloc: Global) -> Result<Vec<Part>, AllocError>
        ensures { IfOk result (λ v. vec_items v ≡ parts_of self) }
    {
        match self {
            Pile::One(a) => Vec::from_slice(alloc, &[Part::Base, Part::Model(a)]),
            Pile::Two(a, b) => Vec::from_slice(
                alloc,
                &[Part::Base, Part::Model(a), Part::Model(b)],
            ),
            Pile::Three(a, b, c) => Vec::from_slice(
                alloc,
                &[Part::Base, Part::Model(a), Part::Model(b), Part::Model(c)],
            ),
        }
    }
}
