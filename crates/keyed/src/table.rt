// A table from keys to values over rows that the caller lends.
ghost use Rattle.std.specs.Prelude.{◌≡◌, ◌==◌, ◌<◌, false, ◌++◌, ◌∷◌, ◌↔◌, [], length, take, drop, position, slice_get, is_some, if◌then◌else◌, IsErr, IsTrue, IsNone, IsSome, IfOk, OnOk, OnErr};
ghost use Rattle.std.specs.Option.{option_map};
ghost use Rattle.keyed.specs.Entries.{row, find, put, Overwrites, most_rows, next_is_present};

use crate::link::{bucket_of, row_of};
use crate::row::{Row, Rows, RowsMut};
use std::alloc::{AllocError, Allocator, Global};
use std::hash::BuildHasher;
use std::marker::Model;

// Most buckets are empty then, and a search for a key that is not there mostly ends at a head and reads no row.
const BUCKETS_PER_ROW: usize = 4;

/// No row is free for a new key.
#[derive(Clone, Copy, Debug, PartialEq, Eq)]
pub struct Full;

/// Why a new key was not taken in.
#[derive(Clone, Copy, Debug, PartialEq, Eq)]
pub enum NotTaken {
    /// The key is there already.
    Present,
    /// No row is free.
    Full,
}

/// A table in rows that the caller lends: a row for each key, found by the key's hash. Rows are used in their order, one after
/// the other. Contracts see the rows that are used, and the free ones as they stand.
#[derive(Drop)]
pub struct Table<R: Rows, S: BuildHasher, A: Allocator = Global> {
    rows: R,
    // Of each row the row before in the same bucket, as one more than its number, or 0.
    links: Vec<u32, A>,
    // Of each bucket its last row, as one more than its number, or 0.
    heads: Vec<u32, A>,
    used: usize,
    hash_builder: S,
}

impl<R: Rows, S: BuildHasher, A: Allocator> Model for Table<R, S, A> {
    ghost use Rattle.keyed.specs.Entries.{Contents};
    ghost use Rattle.keyed.specs.Rows.{contents_of};
    ghost use Rattle.keyed.specs.Hashes.{key_hash};
    ghost use Rattle.keyed.specs.Chains.{IsSound};

    ghost Value = { Contents R.Key R.Value };

    ghost view = { λ t. contents_of (R.rows t.rows) t.used };

    ghost invariant = { λ t. IsSound (key_hash S.BuildHasher S.Hasher.Hasher t.hash_builder R.Key.hash_input) R.Key.eq (R.rows t.rows) t.links.items t.heads.items t.used };
}

impl<R: Rows, S: BuildHasher + Drop, A: Allocator + Copy> Table<R, S, A> {
    /// An empty table over the rows, which stay as they are. Rows past the first 2^32 - 1 are left alone. `hash_builder` makes
    /// the hasher of each key, and no answer depends on it. Fails where memory for the chains is wanting.
    #[tactic(auto, unfolding(crate::specs::Entries::most_rows))]
    pub fn new(alloc: A, hash_builder: S, rows: R) -> Result<Self, AllocError>
        ensures empty { IfOk result (λ t. t.entries ≡ []) }
        ensures free { IfOk result (λ t. t.free ≡ take most_rows (R.rows rows)) }
    {
        // A link tells a row as one more than its number.
        let rows = rows.truncated(u32::MAX as usize);
        let count = rows.as_slice().len();
        let links = vec![in alloc; 0; count]?;
        let heads = vec![in alloc; 0; count * BUCKETS_PER_ROW]?;
        Ok(Table {
            rows,
            links,
            heads,
            used: 0,
            hash_builder,
        })
    }
}

impl<R: Rows, S: BuildHasher, A: Allocator> Table<R, S, A> {
    /// How many keys the table has.
    pub fn len(&self) -> usize
        ensures { result ≡ length self.now.entries }
    {
        self.used
    }

    /// Whether the table has no key.
    pub fn is_empty(&self) -> bool
        ensures { result ≡ (length self.now.entries == 0) }
    {
        self.len() == 0
    }

    /// How many more keys the table can take in.
    pub fn room(&self) -> usize
        ensures { result ≡ length self.now.free }
    {
        self.rows.as_slice().len() - self.used
    }

    #[inline(always)]
    fn position(&self, key: R::Key) -> Option<usize>
        ensures index { result ≡ position (λ e. R.Key.eq e.key key) self.now.entries }
        ensures there { IsSome result ↔ IsSome (find R.Key.eq self.now.entries key) }
    {
        let rows = self.rows.as_slice();
        let links = self.links.as_slice();
        let heads = self.heads.as_slice();
        row_of(rows, links, heads, self.used, &self.hash_builder, key)
    }

    /// The value under the key, if the key is there.
    #[inline(always)]
    pub fn get(&self, key: R::Key) -> Option<R::Value>
        ensures { result ≡ find R.Key.eq self.now.entries key }
    {
        self.get_ref(key).copied()
    }

    // Inlined, so that the value is read where it is wanted.
    /// The value under the key as it lies in its row, if the key is there.
    #[inline(always)]
    #[tactic(auto, using(crate::proofs::Finds::find_tells))]
    pub fn get_ref(&self, key: R::Key) -> Option<&R::Value>
        ensures { option_map (λ v. v.now) result ≡ find R.Key.eq self.now.entries key }
    {
        let index = self.position(key)?;
        Some(&self.rows.as_slice()[index].value)
    }

    /// The next row to be taken in.
    pub fn next(&self) -> Option<Row<R::Key, R::Value>>
        ensures { result ≡ slice_get self.now.free 0 }
    {
        self.rows.as_slice().get(self.used).copied()
    }

    /// Takes in the next row as it stands. One whose key is there already is refused.
    #[tactic(auto, using(crate::proofs::Finds::none_first))]
    pub fn adopt(&mut self) -> Result<(), NotTaken>
        ensures present { (result ≡ Err NotTaken.Present) ↔ IsTrue (next_is_present R.Key.eq self.old.entries self.old.free) }
        ensures full { (result ≡ Err NotTaken.Full) ↔ (self.old.free ≡ []) }

        ensures entries { OnOk result (self.new.entries ≡ self.old.entries ++ take 1 self.old.free) }
        ensures free { OnOk result (self.new.free ≡ drop 1 self.old.free) }

        ensures err { OnErr result (self.new ≡ self.old) }
    {
        match self.next() {
            None => Err(NotTaken::Full),
            Some(row) if self.get(row.key).is_some() => Err(NotTaken::Present),
            Some(_) => {
                self.link_next();
                Ok(())
            }
        }
    }

    // Takes in the next row, whose key is not there, as the head of the key's bucket.
    fn link_next(&mut self)
        requires some { 0 < length self.old.free }
        requires new { next_is_present R.Key.eq self.old.entries self.old.free ≡ false }
        ensures entries { self.new.entries ≡ self.old.entries ++ take 1 self.old.free }
        ensures free { self.new.free ≡ drop 1 self.old.free }
    {
        let used = self.used;
        let key = self.rows.as_slice()[used].key;
        let bucket = bucket_of(&self.hash_builder, key, self.heads.len());
        self.links[used] = self.heads[bucket];
        self.heads[bucket] = used as u32 + 1;
        self.used = used + 1;
    }

    /// Takes every key out. All rows are free again, and stay as they are.
    pub fn clear(&mut self)
        ensures empty { self.new.entries ≡ [] }
        ensures free { self.new.free ≡ self.old.entries ++ self.old.free }
    {
        self.heads.as_mut_slice().fill(0);
        self.used = 0;
    }
}

impl<R: RowsMut, S: BuildHasher, A: Allocator> Table<R, S, A> {
    // Puts a key that is not there in the next free row.
    #[tactic(auto, using(crate::proofs::Growth::row_written))]
    fn append(&mut self, key: R::Key, value: R::Value) -> Result<(), Full>
        requires { IsNone (find R.Key.eq self.old.entries key) }
        ensures full { IsErr result ↔ (self.old.free ≡ []) }
        ensures entries { OnOk result (self.new.entries ≡ self.old.entries ++ row key value ∷ []) }
        ensures found { OnOk result (Overwrites R.Key.eq self.old.entries self.new.entries key value) }
        ensures free { OnOk result (self.new.free ≡ drop 1 self.old.free) }
        ensures err { OnErr result (self.new ≡ self.old) }
    {
        if self.room() == 0 {
            return Err(Full);
        }
        self.rows.write(self.used, Row { key, value });
        self.link_next();
        Ok(())
    }

    /// Puts the value under the key, in the row of the key if it has one, and answers the value that was there before.
    #[tactic(auto, using(crate::proofs::Growth::row_written, crate::proofs::Finds::find_tells))]
    pub fn insert(&mut self, key: R::Key, value: R::Value) -> Result<Option<R::Value>, Full>
        ensures before { IfOk result (λ before. before ≡ find R.Key.eq self.old.entries key) }
        ensures full { IsErr result ↔ (IsNone (find R.Key.eq self.old.entries key) × (self.old.free ≡ [])) }

        ensures entries { OnOk result (self.new.entries ≡ put R.Key.eq self.old.entries key value) }
        ensures found { OnOk result (Overwrites R.Key.eq self.old.entries self.new.entries key value) }
        ensures free { IfOk result (λ before. self.new.free ≡ (if is_some before then self.old.free else drop 1 self.old.free)) }

        ensures err { OnErr result (self.new ≡ self.old) }
    {
        if let Some(index) = self.position(key) {
            let Row {
                key: kept,
                value: before,
            } = self.rows.as_slice()[index];
            self.rows.write(index, Row { key: kept, value });
            return Ok(Some(before));
        }
        self.append(key, value)?;
        Ok(None)
    }

    /// Puts the value under a new key. A key that is there already is refused, and keeps its value.
    pub fn insert_new(&mut self, key: R::Key, value: R::Value) -> Result<(), NotTaken>
        ensures present { (result ≡ Err NotTaken.Present) ↔ IsSome (find R.Key.eq self.old.entries key) }
        ensures full { (result ≡ Err NotTaken.Full) ↔ (IsNone (find R.Key.eq self.old.entries key) × (self.old.free ≡ [])) }

        ensures entries { OnOk result (self.new.entries ≡ self.old.entries ++ row key value ∷ []) }
        ensures found { OnOk result (Overwrites R.Key.eq self.old.entries self.new.entries key value) }
        ensures free { OnOk result (self.new.free ≡ drop 1 self.old.free) }

        ensures err { OnErr result (self.new ≡ self.old) }
    {
        if self.get(key).is_some() {
            return Err(NotTaken::Present);
        }
        self.append(key, value).map_err(|_| NotTaken::Full)
    }
}
