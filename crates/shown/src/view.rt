// The six pieces, looked at: slices of any lengths, since where they do not reach a 0 or nothing stands.
ghost use Rattle.std.specs.Prelude.{◌≡◌, ◌*◌, ◌+◌, ◌<◌, ◌≤◌, ◌⊎◌, [], get_or, length};
ghost use Rattle.pieces.specs.Inner.Regs.{vreg_of};
ghost use Rattle.orders.specs.declared.Kind.TheVariants.{A, R, C, Vc};

use crate::registers::sixteen;
use orders::Kind;

#[derive(Clone, Copy)]
pub struct View<'a> {
    pub ds: &'a [u8],
    pub a: &'a [u32],
    pub r: &'a [u32],
    pub c: &'a [u32],
    pub vc: &'a [u32],
    pub v: &'a [u8],
}

impl<'a> View<'a> {
    // The registers of a kind.
    pub fn words(self, kind: Kind) -> &'a [u32]
        ensures a { kind ≡ A → result.now ≡ self.entry.a.now }
        ensures r { kind ≡ R → result.now ≡ self.entry.r.now }
        ensures c { kind ≡ C → result.now ≡ self.entry.c.now }
        ensures vc { kind ≡ Vc → result.now ≡ self.entry.vc.now }
    {
        match kind {
            Kind::A => self.a,
            Kind::R => self.r,
            Kind::C => self.c,
            Kind::Vc => self.vc,
        }
    }

    // What the register n of a kind holds, 0 where there is none.
    pub fn word(self, kind: Kind, n: usize) -> u32
        ensures a { kind ≡ A → result ≡ get_or self.entry.a.now n 0 }
        ensures r { kind ≡ R → result ≡ get_or self.entry.r.now n 0 }
        ensures c { kind ≡ C → result ≡ get_or self.entry.c.now n 0 }
        ensures vc { kind ≡ Vc → result ≡ get_or self.entry.vc.now n 0 }
    {
        self.words(kind).get(n).copied().unwrap_or(0)
    }

    // The sixteen bytes that the register n of $v holds, none where there are not so many.
    #[tactic(auto, unfolding(pieces::specs::Inner::Regs::vreg_of))]
    pub fn vector(self, n: usize) -> &'a [u8]
        ensures there { n < 32 → 16 * n + 16 ≤ length self.entry.v.now → result.now ≡ vreg_of self.entry.v.now n }
        ensures none { (32 ≤ n) ⊎ (length self.entry.v.now < 16 * n + 16) → result.now ≡ [] }
    {
        if n > 31 {
            return &[];
        }
        sixteen(self.v, 16 * n)
    }

    // The byte at an index of the store, 0 where there is none.
    pub fn byte(self, index: usize) -> u8
        ensures { result ≡ get_or self.entry.ds.now index 0 }
    {
        self.ds.get(index).copied().unwrap_or(0)
    }
}
