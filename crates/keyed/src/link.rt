// The chains of rows whose keys fall into one bucket: which bucket that is, and the one walk along a chain that there is.
ghost use Rattle.std.specs.Prelude.{◌≡◌, ◌<◌, ◌↔◌, length, take, position, IsSome};
ghost use Rattle.keyed.specs.Chains.{IsSound, bucket_of};
ghost use Rattle.keyed.specs.Entries.{find};
ghost use Rattle.keyed.specs.Hashes.{key_hash};

use crate::row::Row;
use std::hash::{BuildHasher, Hash};

// By a multiplication in place of a division.
#[inline(always)]
#[tactic(auto, using(crate::proofs::Buckets::bucket_of_lt), unfolding(crate::specs::Hashes::key_hash, crate::specs::Chains::bucket_of))]
pub(crate) fn bucket_of<K: Copy + Hash, S: BuildHasher>(
    hash_builder: &S,
    key: K,
    buckets: usize,
) -> usize
    requires { 0 < buckets }
    ensures inside { result < buckets }
    ensures value { result ≡ bucket_of (key_hash S.BuildHasher S.Hasher.Hasher hash_builder.now K.hash_input key) buckets }
{
    let hash = hash_builder.hash_one(key);
    (hash as u128 * buckets as u128 >> u64::BITS) as usize
}

/// The row of the key, among those that are used.
#[inline(always)]
#[tactic(auto, using(crate::proofs::Walks::walk, crate::proofs::Finds::find_tells))]
pub(crate) fn row_of<K: Copy + Hash, V: Copy, S: BuildHasher>(
    rows: &[Row<K, V>],
    links: &[u32],
    heads: &[u32],
    used: usize,
    hash_builder: &S,
    key: K,
) -> Option<usize>
    requires { IsSound (key_hash S.BuildHasher S.Hasher.Hasher hash_builder.now K.hash_input) K.eq rows.now links.now heads.now used }
    ensures index { result ≡ position (λ e. K.eq e.key key) (take used rows.now) }
    ensures there { IsSome result ↔ IsSome (find K.eq (take used rows.now) key) }
{
    if used == 0 {
        return None;
    }
    let mut at = heads[bucket_of(hash_builder, key, heads.len())];
    while at > 0 {
        let index = at as usize - 1;
        if rows[index].key == key {
            return Some(index);
        }
        at = links[index];
    }
    None
}
