ghost use Rattle.std.specs.Prelude.{◌≡◌, ◌<◌, ◌^◌, [], ◌∷◌, length};
ghost use Rattle.hv_bytes.specs.Spelling.{two_bytes, four_bytes, eight_bytes, text_spelling, IsText};
ghost use Rattle.hv_bytes.specs.Writing.{HasRoom, Appends};

use hv_base::Text;

#[inline]
pub fn put_byte(out: &mut Vec<u8>, byte: u8)
    requires { HasRoom out.old (byte ∷ []) }
    ensures { Appends out.old out.new (byte ∷ []) }
{
    out.push_reserved(byte);
}

#[inline]
pub fn put_bytes(out: &mut Vec<u8>, bytes: &[u8])
    requires { HasRoom out.old bytes.now }
    ensures { Appends out.old out.new bytes.now }
{
    out.extend_from_slice(bytes).unwrap();
}

#[inline]
#[tactic(auto, unfolding(crate::specs::Spelling::two_bytes))]
pub fn put_u16(out: &mut Vec<u8>, n: u16)
    requires { HasRoom out.old (two_bytes n) }
    ensures appended { Appends out.old out.new (two_bytes n) }
    ensures fits { n < 2 ^ 16 }
{
    put_bytes(out, &n.to_be_bytes());
}

#[inline]
#[tactic(auto, unfolding(crate::specs::Spelling::four_bytes))]
pub fn put_u32(out: &mut Vec<u8>, n: u32)
    requires { HasRoom out.old (four_bytes n) }
    ensures appended { Appends out.old out.new (four_bytes n) }
    ensures fits { n < 2 ^ 32 }
{
    put_bytes(out, &n.to_be_bytes());
}

#[inline]
#[tactic(auto, unfolding(crate::specs::Spelling::eight_bytes))]
pub fn put_u64(out: &mut Vec<u8>, n: u64)
    requires { HasRoom out.old (eight_bytes n) }
    ensures appended { Appends out.old out.new (eight_bytes n) }
    ensures fits { n < 2 ^ 64 }
{
    put_bytes(out, &n.to_be_bytes());
}

#[inline]
#[tactic(auto, using(crate::proofs::Room::fields), unfolding(crate::specs::Spelling::text_spelling))]
pub fn put_text(out: &mut Vec<u8>, text: &Text)
    requires room { HasRoom out.old (text_spelling text.now) }
    requires short { length text.now < 2 ^ 32 }
    ensures appended { Appends out.old out.new (text_spelling text.now) }
    ensures fits { IsText text.now }
{
    put_u32(out, text.len() as u32);
    put_bytes(out, text.bytes());
}

/// How many bytes spell the text.
#[inline]
#[tactic(auto, using(crate::proofs::Room::fields))]
pub fn text_length(text: &Text) -> usize
    requires { length text.now < 2 ^ 32 }
    ensures { result ≡ length (text_spelling text.now) }
{
    4 + text.len()
}
