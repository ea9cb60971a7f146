// A function of two components over sixteen of them: the compiler makes vector code of it.
ghost use Rattle.std.specs.Prelude.{◌≡◌, ℕ, get_or};
ghost use Rattle.lanes.specs.Lanes.{listed};
ghost use Rattle.loops.specs.Inner.Gives.{Gives};

use std::array;

pub fn each<F: Fn(u8, u8) -> u8>(f: F, a: [u8; 16], b: [u8; 16]) -> [u8; 16]
    requires { F.IsAlwaysCallable f }
    ensures { (h : ℕ → ℕ → ℕ) → Gives F.Fn f h → result ≡ listed 16 (λ i. h (get_or a i 0) (get_or b i 0)) }
{
    array::from_fn(|i| f(a[i], b[i]))
}
