// A state of the two units: what the steps of a run read and write.
ghost use Rattle.std.specs.Prelude.{◌≡◌, ◌<◌, ◌≤◌, get_or, replicate, set};
ghost use Rattle.pieces.specs.Inner.Regs.{vreg_of, with_vreg};
ghost use Rattle.orders.specs.declared.Kind.TheVariants.{A, R, C, Vc};

use crate::view::View;
use orders::Kind;

// The data store, and the registers $a, $r, $c, $vc and $v.
#[derive(Drop)]
pub struct State {
    pub ds: [u8; 8192],
    pub a: [u32; 32],
    pub r: [u32; 32],
    pub c: [u32; 4],
    pub vc: [u32; 4],
    pub v: [u8; 512],
}

fn put(words: &mut [u32], n: usize, value: u32)
    ensures { words.new ≡ set words.old n value }
{
    if n < words.len() {
        words[n] = value;
    }
}

impl State {
    pub fn zeros() -> State
        ensures store { result.ds ≡ replicate 8192 0 }
        ensures a { result.a ≡ replicate 32 0 }
        ensures r { result.r ≡ replicate 32 0 }
        ensures c { result.c ≡ replicate 4 0 }
        ensures vc { result.vc ≡ replicate 4 0 }
        ensures v { result.v ≡ replicate 512 0 }
    {
        State {
            ds: [0; 8192],
            a: [0; 32],
            r: [0; 32],
            c: [0; 4],
            vc: [0; 4],
            v: [0; 512],
        }
    }

    // The six pieces, looked at.
    pub fn view(&self) -> View<'_>
        ensures store { result.ds.now ≡ self.now.ds }
        ensures a { result.a.now ≡ self.now.a }
        ensures r { result.r.now ≡ self.now.r }
        ensures c { result.c.now ≡ self.now.c }
        ensures vc { result.vc.now ≡ self.now.vc }
        ensures v { result.v.now ≡ self.now.v }
    {
        View {
            ds: &self.ds,
            a: &self.a,
            r: &self.r,
            c: &self.c,
            vc: &self.vc,
            v: &self.v,
        }
    }

    // The registers of a kind.
    pub fn words(&self, kind: Kind) -> &[u32]
        ensures a { kind ≡ A → result.now ≡ self.now.a }
        ensures r { kind ≡ R → result.now ≡ self.now.r }
        ensures c { kind ≡ C → result.now ≡ self.now.c }
        ensures vc { kind ≡ Vc → result.now ≡ self.now.vc }
    {
        self.view().words(kind)
    }

    // What the register n of a kind holds, 0 where there is none.
    pub fn word(&self, kind: Kind, n: usize) -> u32
        ensures a { kind ≡ A → result ≡ get_or self.now.a n 0 }
        ensures r { kind ≡ R → result ≡ get_or self.now.r n 0 }
        ensures c { kind ≡ C → result ≡ get_or self.now.c n 0 }
        ensures vc { kind ≡ Vc → result ≡ get_or self.now.vc n 0 }
    {
        self.view().word(kind, n)
    }

    // The register n of a kind holds this value, if there is one.
    pub fn set_word(&mut self, kind: Kind, n: usize, value: u32)
        ensures a { kind ≡ A → self.new ≡ record { ds = self.old.ds; a = set self.old.a n value; r = self.old.r; c = self.old.c; vc = self.old.vc; v = self.old.v } }
        ensures r { kind ≡ R → self.new ≡ record { ds = self.old.ds; a = self.old.a; r = set self.old.r n value; c = self.old.c; vc = self.old.vc; v = self.old.v } }
        ensures c { kind ≡ C → self.new ≡ record { ds = self.old.ds; a = self.old.a; r = self.old.r; c = set self.old.c n value; vc = self.old.vc; v = self.old.v } }
        ensures vc { kind ≡ Vc → self.new ≡ record { ds = self.old.ds; a = self.old.a; r = self.old.r; c = self.old.c; vc = set self.old.vc n value; v = self.old.v } }
    {
        match kind {
            Kind::A => put(&mut self.a, n, value),
            Kind::R => put(&mut self.r, n, value),
            Kind::C => put(&mut self.c, n, value),
            Kind::Vc => put(&mut self.vc, n, value),
        }
    }

    // What the register n of $v holds, zeros where there is none.
    pub fn vector(&self, n: usize) -> [u8; 16]
        ensures there { n < 32 → result ≡ vreg_of self.now.v n }
        ensures none { 32 ≤ n → result ≡ replicate 16 0 }
    {
        if n < 32 {
            pieces::vreg(&self.v, n)
        } else {
            [0; 16]
        }
    }

    // The register n of $v holds these bytes, if there is one.
    pub fn set_vector(&mut self, n: usize, bytes: [u8; 16])
        ensures there { n < 32 → self.new ≡ record { ds = self.old.ds; a = self.old.a; r = self.old.r; c = self.old.c; vc = self.old.vc; v = with_vreg self.old.v n bytes } }
        ensures none { 32 ≤ n → self.new ≡ self.old }
    {
        if n < 32 {
            pieces::set_vreg(&mut self.v, n, bytes);
        }
    }

    // The byte at an index of the store, 0 where there is none.
    pub fn byte(&self, index: usize) -> u8
        ensures { result ≡ get_or self.now.ds index 0 }
    {
        self.view().byte(index)
    }
}
