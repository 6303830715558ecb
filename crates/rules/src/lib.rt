// The rules of a sheet: what each reason means, what an accepted line does, and the whole answer. Types alone; the meaning stands in specs/.
#![tactic(auto)]

// The answer for a sheet: the reason (0 passed), the line, the byte in the line, counted from 1, the columns held there, and the most held so far.
#[derive(Clone, Copy)]
pub struct Answer {
    pub reason: u32,
    pub line: usize,
    pub column: usize,
    pub held: u32,
    pub peak: u32,
}
