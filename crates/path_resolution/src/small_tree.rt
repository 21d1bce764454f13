// The small tree of the definitions' examples.
ghost use Rattle.std.specs.Prelude.{◌≡◌};
ghost use Rattle.path_resolution.specs.SmallTree.{Cases};

const CASES: u32 = 10;

/// How many examples there are: ten paths in a small tree, each with the answer that the definitions give.
pub fn case_count() -> u32
    ensures count { result ≡ 10 }
    ensures cases { Cases }
{
    CASES
}
