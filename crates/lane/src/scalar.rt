// The byte that an arithmetic operation makes of one component, without its flags, and whether it was clipped (1 of a signed form, 255 of an unsigned one),
// in forms that the compiler turns into vector code.
ghost use Rattle.std.specs.Prelude.{◌≡◌, ◌+◌, ◌/◌, true, false, if◌then◌else◌, nat_eq};
ghost use Rattle.lane.specs.declared.Calc.TheVariants.{Min, Max, Abs, Neg, Add, Sub};
ghost use Rattle.lane.specs.Lane.{arith_lane};

pub fn vmin_s(x: u8, y: u8) -> u8
    ensures { result ≡ (arith_lane Min true x y).byte }
{
    x.cast_signed().min(y.cast_signed()).cast_unsigned()
}

pub fn vmax_s(x: u8, y: u8) -> u8
    ensures { result ≡ (arith_lane Max true x y).byte }
{
    x.cast_signed().max(y.cast_signed()).cast_unsigned()
}

// `saturating_add` of signed bytes becomes nine vector instructions, and this sum, clipped, one.
pub fn vadd_s(x: u8, y: u8) -> u8
    ensures { result ≡ (arith_lane Add true x y).byte }
{
    signed::low8(signed::clip(
        -0x80,
        0x7f,
        signed::sext(x as u32, 7) + signed::sext(y as u32, 7),
    ))
}

// 1 where the true sum lay outside the range: the sum's bit 7 is then neither addend's. Bits, and no comparison, so that the compiler adds them up as they are.
pub fn vadd_s_clipped(x: u8, y: u8) -> u8
    ensures { result ≡ (if (arith_lane Add true x y).clipped then 1 else 0) }
{
    let t = x.wrapping_add(y);
    ((x ^ t) & (y ^ t)) / 128
}

pub fn vsub_s(x: u8, y: u8) -> u8
    ensures { result ≡ (arith_lane Sub true x y).byte }
{
    signed::low8(signed::clip(
        -0x80,
        0x7f,
        signed::sext(x as u32, 7) - signed::sext(y as u32, 7),
    ))
}

// The signs differ, and the difference has not the first one's.
pub fn vsub_s_clipped(x: u8, y: u8) -> u8
    ensures { result ≡ (if (arith_lane Sub true x y).clipped then 1 else 0) }
{
    let t = x.wrapping_sub(y);
    ((x ^ y) & (x ^ t)) / 128
}

pub fn vneg_s(x: u8) -> u8
    ensures { result ≡ (arith_lane Neg true x 0).byte }
{
    signed::low8(signed::clip(-0x80, 0x7f, -signed::sext(x as u32, 7)))
}

pub fn vabs_s(x: u8) -> u8
    ensures { result ≡ (arith_lane Abs true x 0).byte }
{
    x.cast_signed().unsigned_abs().min(127)
}

// 1 for 128, which is -128: the lowest bit that is set in it is bit 7. Of all signed bytes it alone has a negation, or a magnitude, outside the range.
pub fn least(x: u8) -> u8
    ensures { result ≡ (if nat_eq x 128 then 1 else 0) }
{
    (x & x.wrapping_neg()) / 128
}

pub fn vmin_u(x: u8, y: u8) -> u8
    ensures { result ≡ (arith_lane Min false x y).byte }
{
    x.min(y)
}

pub fn vmax_u(x: u8, y: u8) -> u8
    ensures { result ≡ (arith_lane Max false x y).byte }
{
    x.max(y)
}

pub fn vadd_u(x: u8, y: u8) -> u8
    ensures { result ≡ (arith_lane Add false x y).byte }
{
    x.saturating_add(y)
}

// Bit 8 of a sum of two bytes, from bit 7 of both and of the sum's low byte.
fn carry(x: u8, y: u8) -> u8
    ensures { result ≡ (x + y) / 256 }
{
    let t = x.wrapping_add(y);
    ((x & y) | ((x | y) & (t ^ 255))) / 128
}

pub fn vadd_u_clipped(x: u8, y: u8) -> u8
    ensures { result ≡ (if (arith_lane Add false x y).sign then 255 else 0) }
{
    carry(x, y).wrapping_neg()
}

pub fn vsub_u(x: u8, y: u8) -> u8
    ensures { result ≡ (arith_lane Sub false x y).byte }
{
    x.saturating_sub(y)
}

// y is above x where y and 255 - x make a carry.
pub fn vsub_u_clipped(x: u8, y: u8) -> u8
    ensures { result ≡ (if (arith_lane Sub false x y).sign then 255 else 0) }
{
    carry(y, !x).wrapping_neg()
}
