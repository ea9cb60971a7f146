// Which of two bytes a component takes.
ghost use Rattle.std.specs.Prelude.{◌≡◌, if◌then◌else◌};

// A value in place of an `if` whose arms meet.
pub fn either(t: bool, a: u8, b: u8) -> u8
    ensures { result ≡ (if t then a else b) }
{
    if t { a } else { b }
}
