// foot: reads a sheet from standard input and prints its report. It prints nothing where reading failed.
#![tactic(auto)]

ghost use Rattle.std.specs.Prelude.{◌+◌, ◌-◌, ◌≤◌, ◌≡◌, length, take, IfOk};
ghost use Rattle.lines.specs.Sheet.{most_bytes};
ghost use Rattle.report.specs.Report.{report_room};
ghost use Rattle.foot.specs.Input.{taken_of, Over, shown_of};

use std::io;
use std::io::{Read, Stdin};

// A byte more than a sheet has: enough to know one that is too large.
const ENOUGH: usize = lines::BYTES + 1;

// How reading stands after so many bytes: more are to be read, all came, or a read failed.
#[derive(Clone, Copy)]
pub enum Input {
    More(usize),
    All(usize),
    Failed,
}

// What an answer of `read` makes of the bytes that came before it.
fn taken(before: usize, got: io::Result<usize>) -> Input
    requires before { before ≤ most_bytes + 1 }
    requires got { IfOk got (λ k. k ≤ most_bytes + 1 - before) }
    ensures { result ≡ taken_of before got }
{
    let Ok(more) = got else {
        return Input::Failed;
    };
    let length = before + more;
    if (more == 0) | (lines::BYTES < length) {
        return Input::All(length);
    }
    Input::More(length)
}

// Reads until no more is to be read.
fn read_sheet(mut stdin: Stdin, sheet: &mut [u8]) -> Input
    requires { length sheet.old ≡ most_bytes + 1 }
    ensures { Over (length sheet.new) result }
{
    let mut length = 0;
    loop {
        let got = stdin.read(&mut sheet[length..]);
        match taken(length, got) {
            Input::More(n) => length = n,
            input => return input,
        }
    }
}

// Puts what is printed into the room, and gives its length.
fn output(input: Input, sheet: &[u8], room: &mut [u8]) -> usize
    requires { Over (length sheet.now) input × (report_room ≤ length room.old) }
    ensures value { result ≡ length (shown_of input sheet.now) }
    ensures room_after { take result room.new ≡ shown_of input sheet.now }
{
    match input {
        Input::More(_) => 0,
        Input::All(n) => {
            let p = printed::print(&sheet[..n], room);
            p.length
        }
        Input::Failed => 0,
    }
}

fn main(rt: HostRuntime) {
    let mut sheet = [0u8; ENOUGH];
    let mut room = [0u8; report::ROOM];
    let input = read_sheet(rt.stdin(), &mut sheet);
    let length = output(input, &sheet, &mut room);
    let _ = rt.write_all(&room[..length]);
}
