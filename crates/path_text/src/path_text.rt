// The language of path text: which texts are paths or names, and where a text that is no path is refused.
ghost use Rattle.std.specs.Prelude.{◌≡◌, Ok, Decides, MatchResult};
ghost use Rattle.hir_def.specs.Faults.{text_place};
ghost use Rattle.path_text.specs.Grammar.{IsName, IsPath};
ghost use Rattle.path_text.specs.Places.{RefusedAt};
ghost use Rattle.path_text.specs.Texts.{stop_of, unless_stopped};

use crate::language::Before;
use crate::segment::{Segments, WordKind, word_kind, word_len};
use hir_def::fault::TextFault;

/// Whether the text is a path; if not, it is refused at the first byte that cannot go on.
pub fn check_path_text(text: &[u8]) -> Result<(), TextFault>
    ensures value { result ≡ unless_stopped (stop_of text.now) (Ok tt) }
    ensures exact { MatchResult result (λ _. IsPath text.now) (λ f. RefusedAt IsPath text.now (text_place f)) }
{
    let mut before = Before::Nothing;
    for segment in Segments::new(text) {
        if let Some(place) = before.halt(&segment) {
            return Err(TextFault::BadText(place));
        }
        before = Before::after(word_kind(segment.text));
    }
    Ok(())
}

/// Whether a path can have the text as a name: an identifier other than `crate`, `self` and `super`.
pub fn is_name(text: &[u8]) -> bool
    ensures { Decides result (IsName text.now) }
{
    word_len(text) == text.len() && matches!(word_kind(text), WordKind::Name)
}
