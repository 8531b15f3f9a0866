// Parts of a slice, for every place that a caller may name.
ghost use Rattle.std.specs.Prelude.{◌≡◌, drop};
ghost use Rattle.rules.specs.Lines.{between, starts_with};

// The bytes from `from` up to `end`; none where the slice does not have them all.
pub fn between<'a>(s: &'a [u8], from: usize, end: usize) -> &'a [u8]
    ensures { result.now ≡ between from end s.now }
{
    s.get(from..end).unwrap_or(&[])
}

// The bytes from `from` on.
pub fn rest<'a>(s: &'a [u8], from: usize) -> &'a [u8]
    ensures { result.now ≡ drop from s.now }
{
    s.get(from..).unwrap_or(&[])
}

// Whether the text begins with those bytes.
#[tactic(auto, using(crate::proofs::Parts::starts_as))]
pub fn starts_with(text: &[u8], s: &[u8]) -> bool
    ensures { result ≡ starts_with s.now text.now }
{
    text.starts_with(s)
}
