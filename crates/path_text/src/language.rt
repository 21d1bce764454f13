// The language of path text: which words can follow one another.
ghost use Rattle.std.specs.Prelude.{◌≡◌, ◌+◌, ◌^◌, ◌<◌};
ghost use Rattle.path_text.specs.Language.{stands, after, barred, halt};
ghost use Rattle.path_text.specs.Left.{piece_of};

use crate::segment::{Next, Segment, WordKind, word_kind};

/// What stands before a word: nothing, `self` and `super` alone, or what only names can follow.
#[derive(Clone, Copy)]
pub(crate) enum Before {
    Nothing,
    Supers,
    Names,
}

fn can_stand(before: Before, word: WordKind) -> bool
    ensures { result ≡ stands before word }
{
    match (before, word) {
        (_, WordKind::Bare | WordKind::Digits) => false,
        (_, WordKind::Name) => true,
        (Before::Nothing, _) => true,
        (Before::Supers, WordKind::Super) => true,
        _ => false,
    }
}

// Where a word that cannot stand at `at` is refused: a lone `_` could have gone on to a name.
fn barred_at(word: WordKind, at: usize) -> usize
    requires { at + 1 < 2 ^ 64 }
    ensures { result ≡ barred word at }
{
    match word {
        WordKind::Bare => at + 1,
        _ => at,
    }
}

impl Before {
    /// What stands before the word after this one.
    pub(crate) fn after(word: WordKind) -> Before
        ensures { result ≡ after word }
    {
        match word {
            WordKind::Own | WordKind::Super => Before::Supers,
            _ => Before::Names,
        }
    }

    /// The place at which a segment that stands here ends what can be a path, if it does.
    pub(crate) fn halt(self, segment: &Segment) -> Option<usize>
        ensures { result ≡ halt self (piece_of segment.now) }
    {
        let word = word_kind(segment.text);
        if !can_stand(self, word) {
            return Some(barred_at(word, segment.place));
        }
        match (segment.next, word) {
            (Next::Byte(place), _) => Some(place),
            // A text does not end before a word.
            (Next::End, WordKind::Empty) => Some(segment.place),
            _ => None,
        }
    }
}
