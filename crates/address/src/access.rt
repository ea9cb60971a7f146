// The ways of an access: how each moves its bytes between the data store and a register.
#![tactic(auto)]

ghost use Rattle.std.specs.Prelude.{◌≡◌, ◌<◌, List, [], ℕ};
ghost use Rattle.terms.specs.declared.Way.{Way};
ghost use Rattle.terms.specs.declared.Way.TheVariants.{Horizontal, Vertical, Scalar};
ghost use Rattle.address.specs.Inner.Effect.{fetched, kept, into_r, into_v, out_of};

use terms::Way;

// How an access of a way moves its bytes: a type for each way, since a value would be tested at every step.
pub trait Access {
    // The piece of the register that is loaded or stored: `$v` or `$r`.
    type Registers;

    ghost WAY: { Way };

    // The piece as the instruction's `$r` and its `$v`, of which it lends one.
    ghost as_r: { Self.Registers → List ℕ };

    ghost as_v: { Self.Registers → List ℕ };

    const WAY: Way;

    fn load(n: usize, code: usize, x: usize, ds: &[u8; 8192], registers: &mut Self::Registers)
        requires { (n < 32) × (code < 4) }
        ensures r { as_r registers.new ≡ into_r WAY n (fetched WAY code x ds.now) (as_r registers.old) }
        ensures v { as_v registers.new ≡ into_v WAY n (fetched WAY code x ds.now) (as_v registers.old) };

    fn store(n: usize, code: usize, x: usize, ds: &mut [u8; 8192], registers: &Self::Registers)
        requires { (n < 32) × (code < 4) }
        ensures { ds.new ≡ kept WAY code x (out_of WAY n (as_r registers.now) (as_v registers.now)) ds.old };
}

pub struct Row;

impl Access for Row {
    type Registers = [u8; 512];

    ghost WAY = { Horizontal };

    ghost as_r = { λ v. [] };

    ghost as_v = { λ v. v };

    const WAY: Way = Way::Horizontal;

    // To be part of the loop, though each has two callers.
    #[inline(always)]
    fn load(n: usize, code: usize, x: usize, ds: &[u8; 8192], v: &mut [u8; 512]) {
        pieces::set_vreg(v, n, store::load_row(ds, code, x));
    }

    #[inline(always)]
    fn store(n: usize, code: usize, x: usize, ds: &mut [u8; 8192], v: &[u8; 512]) {
        store::store_row(ds, code, x, pieces::vreg(v, n));
    }
}

pub struct Column;

impl Access for Column {
    type Registers = [u8; 512];

    ghost WAY = { Vertical };

    ghost as_r = { λ v. [] };

    ghost as_v = { λ v. v };

    const WAY: Way = Way::Vertical;

    #[tactic(auto, using(crate::proofs::Columns::pasted))]
    fn load(n: usize, code: usize, x: usize, ds: &[u8; 8192], v: &mut [u8; 512]) {
        store::load_column(ds, code, x, &mut v[16 * n..16 * n + 16]);
    }

    #[tactic(auto, using(pieces::proofs::Chunks::get_chunk), unfolding(pieces::specs::Inner::Regs::vreg_of))]
    fn store(n: usize, code: usize, x: usize, ds: &mut [u8; 8192], v: &[u8; 512]) {
        store::store_column(ds, code, x, &v.as_chunks::<16>().0[n]);
    }
}

pub struct Word;

impl Access for Word {
    type Registers = [u32; 32];

    ghost WAY = { Scalar };

    ghost as_r = { λ r. r };

    ghost as_v = { λ r. [] };

    const WAY: Way = Way::Scalar;

    fn load(n: usize, code: usize, x: usize, ds: &[u8; 8192], r: &mut [u32; 32]) {
        r[n] = store::load_word(ds, code, x);
    }

    fn store(n: usize, code: usize, x: usize, ds: &mut [u8; 8192], r: &[u32; 32]) {
        store::store_word(ds, code, x, r[n]);
    }
}
