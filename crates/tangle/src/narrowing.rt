// Numbers of 32 bits as the 16 or 8 bits that the calls take. One that does not fit becomes 0, which is no side, no n
// and no hold letter either: the call refuses it as the wide number is to be refused.
ghost use Rattle.tangle.specs.Narrowed.{Narrowed};

// x, or 0 where it does not fit 16 bits.
pub fn in_16_bits(x: u32) -> u16
    ensures { Narrowed 65536 x result }
{
    u16::try_from(x).unwrap_or(0)
}

// x, or 0 where it does not fit 8 bits.
pub fn in_8_bits(x: u32) -> u8
    ensures { Narrowed 256 x result }
{
    u8::try_from(x).unwrap_or(0)
}
