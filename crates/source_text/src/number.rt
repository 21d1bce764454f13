// Numbers as they are written plainly.
ghost use Rattle.std.specs.Prelude.{◌≡◌};
ghost use Rattle.source_text.specs.Numbers.{is_plain, Plain};

// Whether a text has no sign and no leading zero. What else it has is tested by whoever reads it.
fn is_plain(text: &[u8]) -> bool
    ensures { result ≡ is_plain text.now }
{
    !text.is_empty() && text[0] != b'+' && (text[0] != b'0' || text.len() == 1)
}

/// The number below 2^32 that a text of decimal digits writes, without a sign and without a leading zero.
#[tactic(auto, using(crate::proofs::Numbers::not_plain, crate::proofs::Numbers::plain))]
pub fn number(text: &str) -> Option<u32>
    ensures { Plain text.now result }
{
    if !is_plain(text.as_bytes()) {
        return None;
    }
    text.parse::<u32>().ok()
}
