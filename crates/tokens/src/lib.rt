// Tokens of a statement: names, numbers and the cursor that reads them. Types alone; what they mean stands in specs/.
#![tactic(auto)]

// A name, packed: its first eight bytes, and the rest, each as the digits of a number at base 256.
#[derive(Clone, Copy, PartialEq, Eq)]
pub struct Name {
    pub hi: u64,
    pub lo: u64,
}

// Where reading goes on; or, not ok, the first token at which no form can go on. `over`: a number or an expression was out of range, the
// first such at `far`.
#[derive(Clone, Copy)]
pub struct Cursor {
    pub at: usize,
    pub ok: bool,
    pub over: bool,
    pub far: usize,
}

// What a token is that is a number: its value, if it is at most 2^64-1, and how many bytes it took.
#[derive(Clone, Copy)]
pub struct Numeral {
    pub value: Option<u64>,
    pub used: usize,
}

// What was read, and where reading goes on.
#[derive(Clone, Copy)]
pub struct Read<T> {
    pub value: T,
    pub next: Cursor,
}
