// The names that `mov` bound, by value: a table of 128 entries, each unbound or with a name and its value.
#![tactic(auto)]

ghost use Rattle.std.specs.Prelude.{◌≡◌, ◌≤◌, ◌<◌, IfSome};
ghost use Rattle.bindings.specs.Table.{empty, home_of, stops, entry_of, found, bind_answer, after_bind};

use reasons::Reason;
use tokens::Name;

// A number that `mov` bound, of 32 or of 64 bits.
#[derive(Clone, Copy, Debug, PartialEq, Eq)]
pub enum Value {
    B32(u32),
    B64(u64),
}

// A name and what it is bound to.
#[derive(Clone, Copy)]
pub struct Binding {
    pub name: Name,
    pub value: Value,
}

#[derive(Clone, Copy)]
pub struct Bindings {
    pub entries: [Option<Binding>; 128],
}

// Where the search for a name starts.
fn home(name: Name) -> usize
    ensures { (result ≡ home_of name) × (result ≤ 240) }
{
    let hi = name.hi % 121;
    let lo = name.lo % 121;
    (hi + lo) as usize
}

// An entry ends the search for a name: it is unbound, or it has the name.
fn is_stop(entry: Option<Binding>, name: Name) -> bool
    ensures { result ≡ stops entry name }
{
    match entry {
        Some(binding) => binding.name == name,
        None => true,
    }
}

impl Bindings {
    // No name is bound.
    pub fn new() -> Bindings
        ensures { result ≡ empty }
    {
        Bindings {
            entries: [None; 128],
        }
    }

    // The entry of a name, bound or the first for it that is unbound; none where all are bound to other names.
    fn entry(&self, name: Name) -> Option<usize>
        ensures { (result ≡ entry_of self.now name) × IfSome result (λ at. at < 128) }
    {
        let start = home(name);
        for i in 0..128 {
            let at = (start + i * 11) % 128;
            if is_stop(self.entries[at], name) {
                return Some(at);
            }
        }
        None
    }

    // What a name is bound to.
    pub fn find(&self, name: Name) -> Option<Value>
        ensures { result ≡ found self.now name }
    {
        let at = self.entry(name)?;
        self.entries[at].map(|binding| binding.value)
    }

    // Binds a name, anew or again. Where all entries are bound to other names the table stays as it is.
    pub fn bind(&mut self, name: Name, value: Value) -> Result<(), Reason>
        ensures answer { result ≡ bind_answer self.old name }
        ensures table { self.new ≡ after_bind self.old name value }
    {
        let Some(at) = self.entry(name) else {
            return Err(Reason::Values);
        };
        self.entries[at] = Some(Binding { name, value });
        Ok(())
    }
}
