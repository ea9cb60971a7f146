// The table: for each opcode its name, packed, and its operands: their numbers in base 32, the first operand's lowest, 0 where there is none.
ghost use Rattle.std.specs.Prelude.{◌≡◌, ◌/◌, ◌%◌, ◌<◌, ◌≤◌, eqb, MatchOption};
ghost use Rattle.names.specs.Inner.Code.{name_code, form_code, head_code, NoneNamed};

// The name of an opcode, 0 where it has none. No Option: each arm would be a Some, and all callers but one know that there is a name, or take 0 as it is.
pub fn name_of(op: u32) -> u64
    requires { op < 256 }
    ensures { result ≡ name_code op }
{
    match op {
        0x88 => 0x1766d696e2073, // vmin s
        0x89 => 0x1766d61782073, // vmax s
        0x8a => 0x1766162732073, // vabs s
        0x8b => 0x1766e65672073, // vneg s
        0x8c => 0x1766164642073, // vadd s
        0x8d => 0x1767375622073, // vsub s
        0x8e => 0x176736172, // vsar
        0x8f => 0x176636d706164, // vcmpad
        0x94 => 0x1766269746f70, // vbitop
        0x98 => 0x1766d696e2075, // vmin u
        0x99 => 0x1766d61782075, // vmax u
        0x9a => 0x1766162732075, // vabs u
        0x9b => 0x17673777a, // vswz
        0x9c => 0x1766164642075, // vadd u
        0x9d => 0x1767375622075, // vsub u
        0x9e => 0x176736872, // vshr
        0x9f => 0x17661646439, // vadd9
        0xa4 => 0x176636c6970, // vclip
        0xa5 => 0x1766d696e616273, // vminabs
        0xa8 => 0x1766d696e2073, // vmin s
        0xa9 => 0x1766d61782073, // vmax s
        0xaa => 0x176616e64, // vand
        0xab => 0x176786f72, // vxor
        0xac => 0x1766164642073, // vadd s
        0xad => 0x1766d6f76, // vmov
        0xae => 0x176736172, // vsar
        0xaf => 0x1766f72, // vor
        0xb8 => 0x1766d696e2075, // vmin u
        0xb9 => 0x1766d61782075, // vmax u
        0xba => 0x16d6f76, // mov
        0xbb => 0x16d6f76, // mov
        0xbc => 0x1766164642075, // vadd u
        0xbd => 0x1767375622075, // vsub u
        0xbe => 0x176736872, // vshr
        0xbf => 0x1766e6f70, // vnop
        0xc0 => 0x16c64617668, // ldavh
        0xc1 => 0x16c64617676, // ldavv
        0xc2 => 0x16c646173, // ldas
        0xc4 => 0x17374617668, // stavh
        0xc5 => 0x17374617676, // stavv
        0xc6 => 0x173746173, // stas
        0xca => 0x161616464, // aadd
        0xcb => 0x1616464, // add
        0xcc => 0x17365746c6f, // setlo
        0xcd => 0x17365746869, // sethi
        0xd0 => 0x16c64617668, // ldavh
        0xd1 => 0x16c64617676, // ldavv
        0xd2 => 0x16c646173, // ldas
        0xd3 => 0x16269746f70, // bitop
        0xd4 => 0x17374617668, // stavh
        0xd5 => 0x17374617676, // stavv
        0xd6 => 0x173746173, // stas
        0xd8 => 0x16c647668, // ldvh
        0xd9 => 0x16c647676, // ldvv
        0xda => 0x16c6473, // lds
        0xdc => 0x173747668, // stvh
        0xdd => 0x173747676, // stvv
        0xde => 0x1737473, // sts
        0xdf => 0x1616e6f70, // anop
        _ => 0,
    }
}

// The operands of an opcode, 0 where it has none. Numbers, and no enum, are what its contract promises (form_code), and what other crates read in it.
pub fn form_of(op: u32) -> u32
    requires { op < 256 }
    ensures { result ≡ form_code op }
{
    match op {
        0x88 => 0x41ccb, // [$vc[VCDST]] $v[DST] $v[SRC1] $v[SRC2]
        0x89 => 0x41ccb, // [$vc[VCDST]] $v[DST] $v[SRC1] $v[SRC2]
        0x8a => 0x1ccb, // [$vc[VCDST]] $v[DST] $v[SRC1]
        0x8b => 0x1ccb, // [$vc[VCDST]] $v[DST] $v[SRC1]
        0x8c => 0x41ccb, // [$vc[VCDST]] $v[DST] $v[SRC1] $v[SRC2]
        0x8d => 0x41ccb, // [$vc[VCDST]] $v[DST] $v[SRC1] $v[SRC2]
        0x8e => 0x41ccb, // [$vc[VCDST]] $v[DST] $v[SRC1] $v[SRC2]
        0x8f => 0x41d72, // CMPOP [$vc[VCDST]] $v[SRC1] $v[SRC2]
        0x94 => 0x839971, // BITOP [$vc[VCDST]] $v[DST] $v[SRC1] $v[SRC2]
        0x98 => 0x41ccb, // [$vc[VCDST]] $v[DST] $v[SRC1] $v[SRC2]
        0x99 => 0x41ccb, // [$vc[VCDST]] $v[DST] $v[SRC1] $v[SRC2]
        0x9a => 0x1ccb, // [$vc[VCDST]] $v[DST] $v[SRC1]
        0x9b => 0x941cd3, // SWZLOHI $v[DST] $v[SRC1] $v[SRC2] $v[SRC3]
        0x9c => 0x41ccb, // [$vc[VCDST]] $v[DST] $v[SRC1] $v[SRC2]
        0x9d => 0x41ccb, // [$vc[VCDST]] $v[DST] $v[SRC1] $v[SRC2]
        0x9e => 0x41ccb, // [$vc[VCDST]] $v[DST] $v[SRC1] $v[SRC2]
        0x9f => 0x941ccb, // [$vc[VCDST]] $v[DST] $v[SRC1] $v[SRC2] $v[SRC3]
        0xa4 => 0x941ccb, // [$vc[VCDST]] $v[DST] $v[SRC1] $v[SRC2] $v[SRC3]
        0xa5 => 0x41ccb, // [$vc[VCDST]] $v[DST] $v[SRC1] $v[SRC2]
        0xa8 => 0x69ccb, // [$vc[VCDST]] $v[DST] $v[SRC1] BIMM
        0xa9 => 0x69ccb, // [$vc[VCDST]] $v[DST] $v[SRC1] BIMM
        0xaa => 0x69ccb, // [$vc[VCDST]] $v[DST] $v[SRC1] BIMM
        0xab => 0x69ccb, // [$vc[VCDST]] $v[DST] $v[SRC1] BIMM
        0xac => 0x69ccb, // [$vc[VCDST]] $v[DST] $v[SRC1] BIMM
        0xad => 0x34cb, // [$vc[VCDST]] $v[DST] BIMM
        0xae => 0x69ccb, // [$vc[VCDST]] $v[DST] $v[SRC1] BIMM
        0xaf => 0x69ccb, // [$vc[VCDST]] $v[DST] $v[SRC1] BIMM
        0xb8 => 0x69ccb, // [$vc[VCDST]] $v[DST] $v[SRC1] BIMM
        0xb9 => 0x69ccb, // [$vc[VCDST]] $v[DST] $v[SRC1] BIMM
        0xba => 0x1ccb, // [$vc[VCDST]] $v[DST] $v[SRC1]
        0xbb => 0x186, // $v[DST] $vc
        0xbc => 0x69ccb, // [$vc[VCDST]] $v[DST] $v[SRC1] BIMM
        0xbd => 0x69ccb, // [$vc[VCDST]] $v[DST] $v[SRC1] BIMM
        0xbe => 0x69ccb, // [$vc[VCDST]] $v[DST] $v[SRC1] BIMM
        0xc0 => 0x18946, // $v[DST] [$c[CDST]] $a[SRC1] $a[SRC2]
        0xc1 => 0x18946, // $v[DST] [$c[CDST]] $a[SRC1] $a[SRC2]
        0xc2 => 0x18944, // $r[DST] [$c[CDST]] $a[SRC1] $a[SRC2]
        0xc4 => 0x18547, // $v[SRC1] [$c[CDST]] $a[DST] $a[SRC2]
        0xc5 => 0x18547, // $v[SRC1] [$c[CDST]] $a[DST] $a[SRC2]
        0xc6 => 0x18545, // $r[SRC1] [$c[CDST]] $a[DST] $a[SRC2]
        0xca => 0xc2a, // [$c[CDST]] $a[DST] $a[SRC2]
        0xcb => 0x1882a, // [$c[CDST]] $a[DST] $a[SRC1] $a[SRC2]
        0xcc => 0x201, // $a[DST] IMM16
        0xcd => 0x201, // $a[DST] IMM16
        0xd0 => 0x78946, // $v[DST] [$c[CDST]] $a[SRC1] IMM
        0xd1 => 0x78946, // $v[DST] [$c[CDST]] $a[SRC1] IMM
        0xd2 => 0x78944, // $r[DST] [$c[CDST]] $a[SRC1] IMM
        0xd3 => 0x310551, // BITOP [$c[CDST]] $a[DST] $a[SRC1] $a[SRC2]
        0xd4 => 0x78547, // $v[SRC1] [$c[CDST]] $a[DST] IMM
        0xd5 => 0x78547, // $v[SRC1] [$c[CDST]] $a[DST] IMM
        0xd6 => 0x78545, // $r[SRC1] [$c[CDST]] $a[DST] IMM
        0xd8 => 0x70946, // $v[DST] [$c[CDST]] $a[SRC1] UIMM
        0xd9 => 0x70946, // $v[DST] [$c[CDST]] $a[SRC1] UIMM
        0xda => 0x70944, // $r[DST] [$c[CDST]] $a[SRC1] UIMM
        0xdc => 0x70547, // $v[SRC1] [$c[CDST]] $a[DST] UIMM
        0xdd => 0x70547, // $v[SRC1] [$c[CDST]] $a[DST] UIMM
        0xde => 0x70545, // $r[SRC1] [$c[CDST]] $a[DST] UIMM
        _ => 0,
    }
}

// The name up to a space in it.
pub fn head_of(op: u32) -> u64
    requires { op < 256 }
    ensures { result ≡ head_code op }
{
    let n = name_of(op);
    if spaced(n) {
        return n / 65536;
    }
    n
}

// Whether a packed name has a space before its last byte: ` s` or ` u` ends it then.
pub fn spaced(n: u64) -> bool
    ensures { result ≡ eqb (n / 256 % 256) 32 }
{
    n / 256 % 256 == 32
}

// The first opcode of a name.
pub fn first_named(h: u64) -> Option<u32>
    ensures { MatchOption result (NoneNamed h 224) (λ op. (128 ≤ op) × (op < 224) × NoneNamed h op × (head_code op ≡ h)) }
{
    for op in 128..224 {
        if head_of(op) == h {
            return Some(op);
        }
    }
    None
}
