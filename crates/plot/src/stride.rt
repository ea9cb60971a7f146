// A stride code, and what the library says of it.
ghost use Rattle.std.specs.Prelude.{◌≤◌, ◌<◌};

use terms::Way;

#[derive(Clone, Copy)]
pub struct Stride {
    pub code: usize,
    ghost known: { code < 4 },
}

impl Stride {
    // How many bytes the addresses of a vertical access lie apart, and how many columns a picture of the store has.
    #[tactic(auto, unfolding(banks::specs::Line::step_of, banks::specs::Line::stride_of))]
    pub fn bytes(self) -> usize
        ensures { (16 ≤ result) × (result ≤ 128) }
    {
        banks::step(Way::Vertical, self.code)
    }

    #[tactic(auto, using(banks::proofs::OneToOne::bank_lt))]
    pub fn bank(self, address: usize) -> usize
        requires { address < 8192 }
        ensures { result < 16 }
    {
        banks::bank(self.code, address)
    }
}
