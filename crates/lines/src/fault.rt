// Why nothing is written.
ghost use Rattle.std.specs.Prelude.{◌<◌, length};

use terms::End;

// Why a text is no word, or has no line.
#[derive(Clone, Copy)]
pub enum Why {
    NoNumber,
    Refused(End),
}

// A text at fault, and the number of its line.
#[derive(Clone, Copy)]
pub struct Place<'a> {
    pub line: u32,
    pub text: &'a [u8],
    pub why: Why,
    ghost short: { length text.now < 65536 },
}

#[derive(Clone, Copy)]
pub enum Fault<'a> {
    Unread,
    Long,
    At(Place<'a>),
}

impl<'a> Fault<'a> {
    pub fn at(line: u32, text: &'a [u8], why: Why) -> Fault<'a>
        requires { length text.now < 65536 }
    {
        Fault::At(Place { line, text, why })
    }
}
