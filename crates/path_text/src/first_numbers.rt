// The numbers of a path's first names, at most as many as a path may have.
ghost use Rattle.std.specs.Prelude.{◌≡◌, ◌++◌, ◌∷◌, [], take};

use crate::mod_path::MOST_NAMES;
use hir_def::Name;
use std::marker::Model;

/// Numbers in their order, of which the first 64 are kept. Contracts see them as a list.
#[derive(Drop)]
pub(crate) struct FirstNumbers {
    numbers: [Name; MOST_NAMES],
    len: usize,
}

impl Model for FirstNumbers {
    ghost use Rattle.std.specs.Prelude.{◌≡◌, List, ◌≤◌, take, length};
    ghost use Rattle.hir_def.specs.declared.Name.{Name};

    ghost Value = { List Name };

    ghost view = { λ n. take n.len n.numbers };

    ghost invariant = { λ n. (n.len ≤ 64) × (length n.numbers ≡ 64) };
}

impl FirstNumbers {
    pub(crate) fn new() -> FirstNumbers
        ensures { result ≡ [] }
    {
        FirstNumbers {
            numbers: [Name(0); MOST_NAMES],
            len: 0,
        }
    }

    pub(crate) fn push(&mut self, number: Name)
        ensures { self.new ≡ take 64 (self.old ++ number ∷ []) }
    {
        if self.len < MOST_NAMES {
            self.numbers[self.len] = number;
            self.len += 1;
        }
    }

    pub(crate) fn as_slice(&self) -> &[Name]
        ensures { result.now ≡ self.now }
    {
        &self.numbers[..self.len]
    }
}
