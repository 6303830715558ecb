// A text that is written, and the digits of a number, decimal or at base 256.
#![tactic(auto)]

mod text;

ghost use Rattle.std.specs.Prelude.{◌≡◌, ◌≤◌, length, take, drop};
ghost use Rattle.tokens.specs.Names.{low_bytes, strip};
ghost use Rattle.tokens.specs.Numbers.{decimal};

pub use text::Text;

// The decimal digits of v at the end of out, whose other places stay; answers where they begin.
pub fn digits(out: &mut [u8; 20], v: u64) -> usize
    requires { length out.old ≡ 20 }
    ensures { (result ≤ 20) × (length out.new ≡ 20) × (drop result out.new ≡ decimal v) × (take result out.new ≡ take result out.old) }
{
    out[19] = b'0' + (v % 10) as u8;
    let mut i = 19;
    let mut w = v / 10;
    while w != 0 {
        i -= 1;
        out[i] = b'0' + (w % 10) as u8;
        w = w / 10;
    }
    i
}

// The bytes of v at the end of out, the highest first and no zero before it, and the other places stay; answers where they begin.
pub fn spread(out: &mut [u8; 8], v: u64) -> usize
    requires { length out.old ≡ 8 }
    ensures { (result ≤ 8) × (length out.new ≡ 8) × (drop result out.new ≡ strip (low_bytes 8 v)) × (take result out.new ≡ take result out.old) }
{
    let mut i = 8;
    let mut w = v;
    while w != 0 {
        i -= 1;
        out[i] = (w % 256) as u8;
        w = w / 256;
    }
    i
}
