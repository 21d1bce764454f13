// The words of a world's lines: numbers, maps, call styles, visibilities, and bytes in hex.
ghost use Rattle.std.specs.Prelude.{◌≡◌, ◌<◌, ◌==◌, IfOk, map};
ghost use Rattle.std.specs.List.{slice_split};
ghost use Rattle.std.specs.Option.{option_map};
ghost use Rattle.world_commands.specs.Words.{ReadAs, Cuts, IsOptional, IsMap, IsVisibility, has, is_styles, styles_of, bytes_of};

use entries::visibility::{Visibility, VisibilityExplicitness};
use hex::FromHexError;
use hir_def::{BlockId, CrateId, ModuleId};
use item_scope::index_data::{CallStyles, DefMapId};
use source_text::number::number;
use std::alloc::{AllocError, Global};

/// The parts of a text between such characters, which are ASCII.
pub(crate) fn parts(alloc: Global, text: &str, by: char) -> Result<Vec<&str>, AllocError>
    requires { by < 128 }
    ensures { IfOk result (λ v. map (λ x. x.now) v.items ≡ slice_split (λ b. b == by) text.now) }
{
    text.split(by).collect(alloc)
}

/// What comes before the first such character, which is ASCII, and what comes after it.
pub(crate) fn cut(text: &str, by: char) -> Option<(&str, &str)>
    requires { by < 128 }
    ensures { Cuts by text.now result }
{
    text.split_once(by)
}

/// A number, or `-` for none.
pub fn optional(word: &str) -> Option<Option<u32>>
    ensures { ReadAs IsOptional word.now result }
{
    if word == "-" {
        return Some(None);
    }
    Some(Some(number(word)?))
}

/// `cN` or `bN`.
pub fn map(word: &str) -> Option<DefMapId>
    ensures { ReadAs IsMap word.now result }
{
    if let Some(block) = word.strip_prefix("b") {
        return Some(DefMapId::Block(BlockId(number(block)?)));
    }
    Some(DefMapId::Crate(CrateId(number(word.strip_prefix("c")?)?)))
}

// Whether there are letters, and all are `f`, `a` or `d`.
fn is_styles(letters: &[u8]) -> bool
    ensures { result ≡ is_styles letters.now }
{
    !letters.is_empty() && letters.iter().all(|b| matches!(*b, b'f' | b'a' | b'd'))
}

fn has(letters: &[u8], letter: u8) -> bool
    ensures { result ≡ has letter letters.now }
{
    letters.contains(&letter)
}

/// Letters of `f`, `a` and `d`, one at least, or `-` for none.
#[tactic(auto, using(crate::proofs::Styles::letters))]
pub fn styles(word: &str) -> Option<CallStyles>
    ensures { result ≡ styles_of word.now }
{
    if word == "-" {
        return Some(CallStyles {
            fn_like: false,
            attr: false,
            derive: false,
        });
    }
    let letters = word.as_bytes();
    if !is_styles(letters) {
        return None;
    }
    Some(CallStyles {
        fn_like: has(letters, b'f'),
        attr: has(letters, b'a'),
        derive: has(letters, b'd'),
    })
}

/// `pub`, `crate:N`, `in:N:e` or `in:N:i`.
pub fn visibility(word: &str) -> Option<Visibility>
    ensures { ReadAs IsVisibility word.now result }
{
    if word == "pub" {
        return Some(Visibility::Public);
    }
    if let Some(krate) = word.strip_prefix("crate:") {
        return Some(Visibility::PubCrate(CrateId(number(krate)?)));
    }
    let inside = word.strip_prefix("in:")?;
    if let Some(module) = inside.strip_suffix(":e") {
        let module = ModuleId(number(module)?);
        return Some(Visibility::Module(module, VisibilityExplicitness::Explicit));
    }
    let module = ModuleId(number(inside.strip_suffix(":i")?)?);
    Some(Visibility::Module(module, VisibilityExplicitness::Implicit))
}

/// The bytes that pairs of hexadecimal digits write, one at least, or `-` for no bytes. Fails where memory is wanting.
pub fn bytes(alloc: Global, word: &str) -> Result<Option<Vec<u8>>, AllocError>
    ensures { IfOk result (λ o. option_map (λ v. v.items) o ≡ bytes_of word.now) }
{
    if word == "-" {
        return Ok(Some(Vec::new(alloc)));
    }
    if word.is_empty() {
        return Ok(None);
    }
    match hex::decode(alloc, word) {
        Ok(bytes) => Ok(Some(bytes)),
        Err(FromHexError::OutOfMemory) => Err(AllocError),
        Err(_) => Ok(None),
    }
}
