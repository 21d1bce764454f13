// The words of a line, with one blank between them.
ghost use Rattle.std.specs.Prelude.{◌≡◌, ◌≢◌, ◌∷◌, [], length, MatchOption};
ghost use Rattle.world_commands.specs.Words.{parts_of};

// What comes before the first blank, and what comes after it.
fn cut(text: &str) -> Option<(&str, &str)>
    ensures { MatchOption result (parts_of 32 text.now ≡ text.now ∷ []) (λ p. parts_of 32 text.now ≡ p.0.now ∷ parts_of 32 p.1.now) }
{
    text.split_once(' ')
}

/// The words of a line that has two.
pub(crate) fn two(text: &str) -> Option<(&str, &str)>
    ensures { MatchOption result (length (parts_of 32 text.now) ≢ 2) (λ w. parts_of 32 text.now ≡ w.0.now ∷ w.1.now ∷ []) }
{
    let (first, second) = cut(text)?;
    match cut(second) {
        Some(_) => None,
        None => Some((first, second)),
    }
}

/// The words of a line that has three.
pub(crate) fn three(text: &str) -> Option<(&str, &str, &str)>
    ensures { MatchOption result (length (parts_of 32 text.now) ≢ 3) (λ w. parts_of 32 text.now ≡ w.0.now ∷ w.1.now ∷ w.2.now ∷ []) }
{
    let (first, rest) = cut(text)?;
    let (second, third) = two(rest)?;
    Some((first, second, third))
}

/// The words of a line that has four.
pub(crate) fn four(text: &str) -> Option<(&str, &str, &str, &str)>
    ensures { MatchOption result (length (parts_of 32 text.now) ≢ 4) (λ w. parts_of 32 text.now ≡ w.0.now ∷ w.1.now ∷ w.2.now ∷ w.3.now ∷ []) }
{
    let (first, rest) = cut(text)?;
    let (second, third, fourth) = three(rest)?;
    Some((first, second, third, fourth))
}
