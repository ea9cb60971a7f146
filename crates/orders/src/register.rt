// Which register a text is, as in lines of names: `$a3`, and not `$a03` or `$A3`.
use crate::Kind;
use text::number::number;

#[derive(Clone, Copy)]
pub(crate) enum Register {
    Word(Kind, usize),
    Vector(usize),
}

// A register's number, of which there are so many: one digit, or two of which the first is not 0.
fn numbered(digits: &[u8], count: u32) -> Option<usize> {
    match digits {
        [_] | [b'1'..=b'9', _] => {
            let n = number(digits)?;
            (n < count).then_some(n as usize)
        }
        _ => None,
    }
}

fn word(kind: Kind, digits: &[u8], count: u32) -> Option<Register> {
    let n = numbered(digits, count)?;
    Some(Register::Word(kind, n))
}

pub(crate) fn register_of(text: &[u8]) -> Option<Register> {
    match text {
        [b'$', b'a', digits @ ..] => word(Kind::A, digits, 32),
        [b'$', b'r', digits @ ..] => word(Kind::R, digits, 32),
        [b'$', b'c', digits @ ..] => word(Kind::C, digits, 4),
        [b'$', b'v', b'c', digits @ ..] => word(Kind::Vc, digits, 4),
        [b'$', b'v', digits @ ..] => numbered(digits, 32).map(Register::Vector),
        _ => None,
    }
}
