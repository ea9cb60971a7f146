// Where something stands in a text.
ghost use Rattle.std.specs.Prelude.{◌≡◌, ◌==◌, ◌||◌, ◌≤◌, length};
ghost use Rattle.text.specs.Counts.{IsPrefixLen};

pub fn blank(b: u8) -> bool {
    matches!(b, b' ' | b'\t' | b'\r')
}

// The end of a line.
pub fn feed(b: u8) -> bool
    ensures { result ≡ (b == 10) }
{
    b == b'\n'
}

// The start of a comment.
pub fn comment(b: u8) -> bool
    ensures { result ≡ (b == 35 || b == 59) }
{
    matches!(b, b'#' | b';')
}

// The end of a word.
pub fn gap(b: u8) -> bool
    ensures { result ≡ (b == 32 || b == 10) }
{
    matches!(b, b' ' | b'\n')
}

// What is looked for: a line feed, the start of a comment, a space or line feed.
#[derive(Clone, Copy)]
pub enum What {
    Feed,
    Comment,
    Gap,
}

// Where it stands first from a place on, or the text's length.
pub fn find(text: &[u8], from: usize, what: What) -> usize
    requires { from ≤ length text.now }
    ensures { (from ≤ result) × IsPrefixLen result text.now }
{
    match what {
        What::Feed => find_by(text, from, feed),
        What::Comment => find_by(text, from, comment),
        What::Gap => find_by(text, from, gap),
    }
}

// Where the first byte stands, from a place on, of which `what` holds, or the text's length.
pub fn find_by<F: Fn(u8) -> bool>(text: &[u8], from: usize, what: F) -> usize
    requires within { from ≤ length text.now }
    requires callable { F.IsAlwaysCallable what }
    ensures { (from ≤ result) × IsPrefixLen result text.now }
{
    match text[from..].iter().position(|&b| what(b)) {
        Some(n) => from + n,
        None => text.len(),
    }
}
