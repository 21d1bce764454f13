// The laws in the small tree of the resolver's examples, which keeps the laws of an index: their premises can hold.
ghost use Rattle.std.specs.Prelude.{◌≡◌};
ghost use Rattle.runs.specs.SmallTree.{Lawful, Chains, Hides, Reorders};

const CHAINS: u32 = 6;

/// How many examples the chain law decides: the `crate` paths that pass modules only.
pub fn chain_count() -> u32
    ensures count { result ≡ 6 }
    ensures lawful { Lawful }
    ensures chains { Chains }
    ensures hides { Hides }
    ensures reorders { Reorders }
{
    CHAINS
}
