// What a place's number stands for: docs/PLACES.md has the numbers.
ghost use Rattle.std.specs.Prelude.{◌≡◌, ◌+◌, ◌/◌, ◌%◌, ◌==◌, ◌<◌, Some, IfSome, cond};
ghost use Rattle.orders.specs.declared.Kind.TheVariants.{A};
ghost use Rattle.terms.specs.declared.Half.TheVariants.{Low, High};
ghost use Rattle.shown.specs.declared.places.Place.TheVariants as P;

use orders::Kind;
use terms::Half;

// Half of a register; of $r, which has no halves, the low one stands for the whole. A vector. A byte of the store, by its index.
#[derive(Clone, Copy)]
pub enum Place {
    Half(Kind, usize, Half),
    Vector(usize),
    Byte(usize),
}

// The half n of a kind's registers.
fn half(kind: Kind, n: usize) -> Place
    ensures { result ≡ P.Half kind (n / 2) (cond (n % 2 == 0) Low High) }
{
    let half = if n % 2 == 0 { Half::Low } else { Half::High };
    Place::Half(kind, n / 2, half)
}

// The place of a number, if it is one.
pub fn place_of(number: u32) -> Option<Place>
    ensures a { number < 64 → result ≡ Some (P.Half A (number / 2) (cond (number % 2 == 0) Low High)) }
{
    let n = number as usize;
    match n {
        0..=63 => Some(half(Kind::A, n)),
        64..=95 => Some(Place::Half(Kind::R, n - 64, Half::Low)),
        96..=127 => Some(Place::Vector(n - 96)),
        128..=135 => Some(half(Kind::C, n - 128)),
        136..=143 => Some(half(Kind::Vc, n - 136)),
        _ => byte_of(number).map(Place::Byte),
    }
}

// The index of a byte of the store, if the number's place is one: 144 to 8335.
pub fn byte_of(number: u32) -> Option<usize>
    ensures { IfSome result (λ i. (i < 8192) × (number ≡ i + 144)) }
{
    let index = (number as usize).checked_sub(144)?;
    if index < 8192 { Some(index) } else { None }
}

pub fn in_store(number: u32) -> bool {
    byte_of(number).is_some()
}

#[cfg(test)]
mod tests {
    use super::*;

    // Both ends of each row of docs/PLACES.md.
    #[test]
    fn numbers_stand_for_places(rt: HostRuntime) {
        assert!(rt; matches!(place_of(0), Some(Place::Half(Kind::A, 0, Half::Low))));
        assert!(rt; matches!(place_of(63), Some(Place::Half(Kind::A, 31, Half::High))));
        assert!(rt; matches!(place_of(64), Some(Place::Half(Kind::R, 0, _))));
        assert!(rt; matches!(place_of(95), Some(Place::Half(Kind::R, 31, _))));
        assert!(rt; matches!(place_of(96), Some(Place::Vector(0))));
        assert!(rt; matches!(place_of(127), Some(Place::Vector(31))));
        assert!(rt; matches!(place_of(128), Some(Place::Half(Kind::C, 0, Half::Low))));
        assert!(rt; matches!(place_of(135), Some(Place::Half(Kind::C, 3, Half::High))));
        assert!(rt; matches!(place_of(136), Some(Place::Half(Kind::Vc, 0, Half::Low))));
        assert!(rt; matches!(place_of(143), Some(Place::Half(Kind::Vc, 3, Half::High))));
        assert!(rt; matches!(place_of(144), Some(Place::Byte(0))));
        assert!(rt; matches!(place_of(8335), Some(Place::Byte(8191))));
        assert!(rt; place_of(8336).is_none());
    }
}
