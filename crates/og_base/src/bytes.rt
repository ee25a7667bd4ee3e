//! Bytes round a separator.
ghost use Rattle.std.specs.Prelude.{◌≡◌, ◌==◌, IfSome, IfNone};
ghost use Rattle.std.specs.List.{position_from};
ghost use Rattle.og_base.specs.Bytes.{Lacks, IsCutAt};

/// The bytes before and after the first such byte, or none where the text lacks it.
pub fn cut_at(text: &[u8], byte: u8) -> Option<(&[u8], &[u8])>
    ensures cut { IfSome result (λ parts. IsCutAt byte text.now parts.0.now parts.1.now) }
    ensures lacking { IfNone result (Lacks byte text.now) }
{
    let place = place_of(text, byte)?;
    let (before, rest) = text.split_at(place);
    let (_, after) = rest.split_at(1);
    Some((before, after))
}

// The place of the first such byte.
fn place_of(text: &[u8], byte: u8) -> Option<usize>
    ensures { result ≡ position_from (λ b. b == byte) 0 text.now }
{
    text.iter().position(|b| *b == byte)
}
