// Counting of what has to fit.
ghost use Rattle.std.specs.Prelude.{◌≡◌, min, length};
ghost use Rattle.text.specs.Counts.{IsPrefixLen};

// So many bytes of a text, or all that it has. It takes the text and not its length so that `&text[..n]` of the answer needs no proof.
pub fn at_most(n: usize, text: &[u8]) -> usize
    ensures in_bounds { IsPrefixLen result text.now }
    ensures value { result ≡ min n (length text.now) }
{
    n.min(text.len())
}
