// Numbers and names, put into a text that is written; one that is not such as reading gives is refused.
ghost use Rattle.std.specs.Prelude.{◌≡◌, leb};
ghost use Rattle.tokens.specs.Bytes.{word_byte, all};
ghost use Rattle.tokens.specs.Names.{name_given, name_bytes};
ghost use Rattle.tokens.specs.Numbers.{decimal};
ghost use Rattle.writer.specs.Outputs.{add_c, halves_given};

use tokens::Name;

// Enough for any statement.
pub const CAPACITY: usize = 2560;

// The text of a statement.
pub type Text = pieces::Text<CAPACITY>;

// A number up to a limit, in decimal.
pub fn number(t: &mut Text, v: u64, limit: u64)
    ensures { t.new ≡ add_c (decimal v) (leb v limit) t.old }
{
    if limit < v {
        t.refuse();
    } else {
        t.number(v);
    }
}

// Whether each byte is a word byte.
fn all_words(d: &[u8]) -> bool
    ensures { result ≡ all word_byte d.now }
{
    d.iter().all(|x| lexer::bytes::is_word(*x))
}

// Whether the bytes of h, and those of l after them, are the halves of a packed name.
fn halves(h: &[u8], l: &[u8]) -> bool
    ensures { result ≡ halves_given h.now l.now }
{
    let [first, rest @ ..] = h else {
        return false;
    };
    let full = (h.len() == 8) | (l.len() == 0);
    let shaped = lexer::name::shaped(*first, rest.len() + l.len());
    full & (shaped & (all_words(rest) & all_words(l)))
}

// A name, if it is such as reading gives: its first eight bytes, and those after them.
pub fn name(t: &mut Text, n: Name)
    ensures { t.new ≡ add_c (name_bytes n) (name_given n) t.old }
{
    let mut h = [0u8; 8];
    let mut l = [0u8; 8];
    let a = pieces::spread(&mut h, n.hi);
    let b = pieces::spread(&mut l, n.lo);
    if halves(&h[a..], &l[b..]) {
        t.put(&h[a..]);
        if b < 8 {
            t.put(&l[b..]);
        }
    } else {
        t.refuse();
    }
}
