// The instruction word, cut into fields, and the decision by its opcode: an instruction or a refusal.
#![tactic(auto)]

ghost use Rattle.std.specs.Prelude.{◌≡◌, ◌<◌};
ghost use Rattle.words.specs.Fields.{imm_of, fields_of};
ghost use Rattle.words.specs.Table.{decode_of};
ghost use Rattle.words.specs.Inner.Meant.{by_byte, moving, meant_d, sided_by, masked_by};

use terms::Refusal;

// What an address is moved on by after the access.
#[derive(Clone, Copy)]
pub enum Increment {
    Register(u32),
    Immediate(i32),
}

// The operands of a load or store that then moves its address on: the word that they are cut from, and the increment.
#[derive(Clone, Copy)]
pub struct AccessAdd {
    pub bits: u32,
    pub inc: Increment,
}

// The instructions, by the chapter's names, each with its word, and what it has from the side inputs: the register of SRC2S, the side mask
// word. What each means is in specs/Inner/Meant.antt. All are 32-bit words at the same places, so that the compiler keeps them in registers.
#[derive(Clone, Copy)]
pub enum Insn {
    VminS(u32),
    VmaxS(u32),
    VabsS(u32),
    VnegS(u32),
    VaddS(u32),
    VsubS(u32),
    Vsar(u32),
    Vcmpad(u32, u32),
    Vbitop(u32),
    VminU(u32),
    VmaxU(u32),
    VabsU(u32),
    Vswz(u32),
    VaddU(u32),
    VsubU(u32),
    Vshr(u32),
    Vadd9(u32),
    Vclip(u32),
    Vminabs(u32),
    Vand(u32),
    Vxor(u32),
    Vmov(u32),
    Vor(u32),
    Mov(u32),
    MovVc(u32),
    Nop,
    Ldavh(AccessAdd),
    Ldavv(AccessAdd),
    Ldas(AccessAdd),
    Stavh(AccessAdd),
    Stavv(AccessAdd),
    Stas(AccessAdd),
    Aadd(u32, u32),
    Add(u32, u32),
    Setlo(u32),
    Sethi(u32),
    Bitop(u32),
    Ldvh(u32),
    Ldvv(u32),
    Lds(u32),
    Stvh(u32),
    Stvv(u32),
    Sts(u32),
}

// Every field of a word, whichever of them its opcode uses.
#[derive(Clone, Copy)]
pub struct Fields {
    pub op: u8,
    pub dst: usize,
    pub src1: usize,
    pub src2: usize,
    pub src3: usize,
    pub flags: usize,
    pub bitop: u8,
    pub cmpop: u8,
    pub byte: u8,
    pub half: u16,
    pub uimm: u16,
    pub imm: i32,
    pub hi: bool,
}

// IMM: bits 3 to 13, signed.
fn imm_of(word: u32) -> i32
    ensures { result ≡ imm_of word }
{
    signed::sext(word / 8, 10)
}

pub fn cut(word: u32) -> Fields
    ensures { (result ≡ fields_of word) × (result.dst < 32) × (result.src1 < 32) × (result.src2 < 32) × (result.src3 < 32) }
{
    let imm = imm_of(word);
    Fields {
        op: (word / 16777216 % 256) as u8,
        dst: (word / 524288 % 32) as usize,
        src1: (word / 16384 % 32) as usize,
        src2: (word / 512 % 32) as usize,
        src3: (word / 16 % 32) as usize,
        flags: (word % 8) as usize,
        bitop: (word / 8 % 16) as u8,
        cmpop: (word / 524288 % 16) as u8,
        byte: (word / 8 % 256) as u8,
        half: (word % 65536) as u16,
        uimm: (word / 8 % 2048) as u16,
        imm,
        hi: word / 8 % 2 == 1,
    }
}

fn op_of(word: u32) -> u8
    ensures { result ≡ (fields_of word).op }
{
    (word / 16777216 % 256) as u8
}

// An instruction that uses SRC2S: refused where the side index is above 31.
fn side_checked(side: u32, i: Insn) -> Result<Insn, Refusal>
    ensures { meant_d result ≡ sided_by side i }
{
    if side < 32 {
        Ok(i)
    } else {
        Err(Refusal::SideIndex)
    }
}

// vcmpad: refused where the side mask word has a bit above bit 16.
fn mask_checked(mask: u32, i: Insn) -> Result<Insn, Refusal>
    ensures { meant_d result ≡ masked_by mask i }
{
    if mask < 131072 {
        Ok(i)
    } else {
        Err(Refusal::SideMask)
    }
}

// Whether source 2 is BIMM, of an instruction that has both forms: the chapter's `opcode & 0x20`.
pub fn by_byte(word: u32) -> bool
    ensures { result ≡ by_byte (fields_of word).op }
{
    word / 536870912 % 2 == 1
}

fn by_register(word: u32, side: u32) -> AccessAdd
    ensures { result ≡ moving word (Increment.Register side) }
{
    let inc = Increment::Register(side);
    AccessAdd { bits: word, inc }
}

fn by_immediate(word: u32) -> AccessAdd
    ensures { result ≡ moving word (Increment.Immediate (fields_of word).imm) }
{
    let inc = Increment::Immediate(imm_of(word));
    AccessAdd { bits: word, inc }
}

// One decision over the opcode number.
pub fn decode(word: u32, side: u32, mask: u32) -> Result<Insn, Refusal>
    ensures { meant_d result ≡ decode_of word side mask }
{
    let op = op_of(word);
    match op {
        0x88 => Ok(Insn::VminS(word)),
        0x89 => Ok(Insn::VmaxS(word)),
        0x8a => Ok(Insn::VabsS(word)),
        0x8b => Ok(Insn::VnegS(word)),
        0x8c => Ok(Insn::VaddS(word)),
        0x8d => Ok(Insn::VsubS(word)),
        0x8e => Ok(Insn::Vsar(word)),
        0x8f => mask_checked(mask, Insn::Vcmpad(word, mask)),
        0x94 => Ok(Insn::Vbitop(word)),
        0x98 => Ok(Insn::VminU(word)),
        0x99 => Ok(Insn::VmaxU(word)),
        0x9a => Ok(Insn::VabsU(word)),
        0x9b => Ok(Insn::Vswz(word)),
        0x9c => Ok(Insn::VaddU(word)),
        0x9d => Ok(Insn::VsubU(word)),
        0x9e => Ok(Insn::Vshr(word)),
        0x9f => Ok(Insn::Vadd9(word)),
        0xa4 => Ok(Insn::Vclip(word)),
        0xa5 => Ok(Insn::Vminabs(word)),
        0xa8 => Ok(Insn::VminS(word)),
        0xa9 => Ok(Insn::VmaxS(word)),
        0xaa => Ok(Insn::Vand(word)),
        0xab => Ok(Insn::Vxor(word)),
        0xac => Ok(Insn::VaddS(word)),
        0xad => Ok(Insn::Vmov(word)),
        0xae => Ok(Insn::Vsar(word)),
        0xaf => Ok(Insn::Vor(word)),
        0xb8 => Ok(Insn::VminU(word)),
        0xb9 => Ok(Insn::VmaxU(word)),
        0xba => Ok(Insn::Mov(word)),
        0xbb => Ok(Insn::MovVc(word)),
        0xbc => Ok(Insn::VaddU(word)),
        0xbd => Ok(Insn::VsubU(word)),
        0xbe => Ok(Insn::Vshr(word)),
        0xbf => Ok(Insn::Nop),
        0xc0 => side_checked(side, Insn::Ldavh(by_register(word, side))),
        0xc1 => side_checked(side, Insn::Ldavv(by_register(word, side))),
        0xc2 => side_checked(side, Insn::Ldas(by_register(word, side))),
        0xc4 => side_checked(side, Insn::Stavh(by_register(word, side))),
        0xc5 => side_checked(side, Insn::Stavv(by_register(word, side))),
        0xc6 => side_checked(side, Insn::Stas(by_register(word, side))),
        0xca => side_checked(side, Insn::Aadd(word, side)),
        0xcb => side_checked(side, Insn::Add(word, side)),
        0xcc => Ok(Insn::Setlo(word)),
        0xcd => Ok(Insn::Sethi(word)),
        0xd0 => Ok(Insn::Ldavh(by_immediate(word))),
        0xd1 => Ok(Insn::Ldavv(by_immediate(word))),
        0xd2 => Ok(Insn::Ldas(by_immediate(word))),
        0xd3 => Ok(Insn::Bitop(word)),
        0xd4 => Ok(Insn::Stavh(by_immediate(word))),
        0xd5 => Ok(Insn::Stavv(by_immediate(word))),
        0xd6 => Ok(Insn::Stas(by_immediate(word))),
        0xd8 => Ok(Insn::Ldvh(word)),
        0xd9 => Ok(Insn::Ldvv(word)),
        0xda => Ok(Insn::Lds(word)),
        0xdc => Ok(Insn::Stvh(word)),
        0xdd => Ok(Insn::Stvv(word)),
        0xde => Ok(Insn::Sts(word)),
        0xdf => Ok(Insn::Nop),
        0x80..=0x87
        | 0x90..=0x93
        | 0x95..=0x97
        | 0xa0..=0xa3
        | 0xa6..=0xa7
        | 0xb0..=0xb7
        | 0xc3
        | 0xc7..=0xc9
        | 0xce..=0xcf
        | 0xd7
        | 0xdb => { Err(Refusal::Undocumented) }
        _ => Err(Refusal::Foreign),
    }
}
