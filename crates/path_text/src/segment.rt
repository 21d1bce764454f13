// The words of a text one after the other, each with its place and with what follows it.
ghost use Rattle.std.specs.Prelude.{◌≡◌, ℕ, ◌<◌, ◌≤◌, ◌^◌, ◌+◌, true, false, length, slice_index};
ghost use Rattle.path_text.specs.Bytes.{letter, inner};
ghost use Rattle.path_text.specs.Segments.{left_len, word_of, next_at, segments, segments_from};

/// What follows a word.
#[derive(Clone, Copy)]
pub(crate) enum Next {
    /// `::`, and one more word.
    Word,
    /// The end of the text.
    End,
    /// Another byte, or one colon alone. The place is the first byte that makes it so, or the length of the text.
    Byte(usize),
}

/// A word of a text: the bytes up to the first that no word has, and there may be none.
#[derive(Clone, Copy)]
pub(crate) struct Segment<'a> {
    pub(crate) text: &'a [u8],
    /// Its first byte.
    pub(crate) place: usize,
    pub(crate) next: Next,
    pub(crate) ghost fits: { place < 2 ^ 63 },
}

/// What a word is to a path.
#[derive(Clone, Copy)]
pub(crate) enum WordKind {
    /// No byte, as before a leading `::`.
    Empty,
    Crate,
    Own,
    Super,
    /// A lone `_`, which is no word.
    Bare,
    Name,
    /// A digit begins it.
    Digits,
}

fn is_letter(b: u8) -> bool
    ensures { result ≡ letter b }
{
    matches!(b as char, 'a'..='z' | 'A'..='Z' | '_')
}

fn is_inner(b: u8) -> bool
    ensures { result ≡ inner b }
{
    is_letter(b) || matches!(b as char, '0'..='9')
}

pub(crate) fn word_kind(word: &[u8]) -> WordKind
    ensures { result ≡ word_of word.now }
{
    match word {
        b"" => WordKind::Empty,
        b"crate" => WordKind::Crate,
        b"self" => WordKind::Own,
        b"super" => WordKind::Super,
        b"_" => WordKind::Bare,
        [first, ..] if is_letter(*first) => WordKind::Name,
        _ => WordKind::Digits,
    }
}

/// The words of a text that are still to come.
#[derive(Drop)]
pub(crate) struct Segments<'a> {
    // None after the last word.
    rest: Option<&'a [u8]>,
    // Of the first byte of the rest.
    place: usize,
    ghost fits: { place + left_len rest < 2 ^ 63 },
}

/// The length of the word at the front.
pub(crate) fn word_len(text: &[u8]) -> usize
    ensures within { result ≤ length text.now }
    ensures word { (k : ℕ) → k < result → inner (slice_index text.now k) ≡ true }
    ensures ended { result < length text.now → inner (slice_index text.now result) ≡ false }
{
    text.iter()
        .position(|b| !is_inner(*b))
        .unwrap_or(text.len())
}

// What follows a word that ends at `place`, by the text after it.
fn next_at(place: usize, after: &[u8]) -> Next
    requires { place + 1 < 2 ^ 64 }
    ensures { result ≡ next_at place after.now }
{
    match after {
        [] => Next::End,
        [b':', b':', ..] => Next::Word,
        [b':', ..] => Next::Byte(place + 1),
        _ => Next::Byte(place),
    }
}

impl<'a> Segments<'a> {
    pub(crate) fn new(text: &'a [u8]) -> Segments<'a>
        ensures { segments_from result.rest result.place ≡ segments 0 text.now }
    {
        Segments {
            rest: Some(text),
            place: 0,
        }
    }
}

impl<'a> Iterator for Segments<'a> {
    ghost use Rattle.std.specs.Iterator.{YieldsFirstBy, item_count};
    ghost use Rattle.path_text.specs.Left.{piece_of, segments_left};

    type Item = Segment<'a>;

    ghost next_gives = { YieldsFirstBy piece_of segments_left };

    ghost remaining = { item_count segments_left };

    fn next(&mut self) -> Option<Segment<'a>> {
        let rest = self.rest?;
        let place = self.place;
        let (text, after) = rest.split_at(word_len(rest));
        let end = place + text.len();
        self.rest = after.strip_prefix(b"::");
        if self.rest.is_some() {
            self.place = end + 2;
        }
        Some(Segment {
            text,
            place,
            next: next_at(end, after),
        })
    }
}
