//! The cases of a test program's input, each after its length in four bytes, low first.
#![tactic(auto)]

ghost use Rattle.std.specs.Prelude.{◌≡◌, ◌↔◌, false, ◌+◌, ◌≤◌, IsTrue, All, length, take, drop};
ghost use Rattle.cases.specs.Cases.{size_at, whole_at, next_at, case_place, case_of, case_count, left_over, Placed};

use std::io::Read;

/// What a test's output holds before a call.
pub const BLANK: u8 = 0xEE;

fn size_at(input: &[u8], at: usize) -> usize
    requires { at + 4 ≤ length input.now }
    ensures { result ≡ size_at input.now at }
{
    u32::from_le_bytes([input[at], input[at + 1], input[at + 2], input[at + 3]]) as usize
}

// Whether a whole case stands at a place.
fn whole_at(input: &[u8], at: usize) -> bool
    requires { at ≤ length input.now }
    ensures { result ≡ whole_at input.now at }
{
    let room = input.len() - at;
    4 <= room && size_at(input, at) <= room - 4
}

/// The whole cases of an input from a place on, each with its number. It ends at the first that is not whole.
#[derive(Drop)]
pub struct Cases<'a> {
    /// All of the input.
    pub input: &'a [u8],
    /// The place of the next case's length.
    pub at: usize,
    /// The number of the next case, counted from 0.
    pub number: usize,
    ghost placed: { Placed input.now at number },
}

impl<'a> Cases<'a> {
    /// All cases of an input.
    #[tactic(auto, using(crate::proofs::Counting::placed_first))]
    pub fn new(input: &'a [u8]) -> Cases<'a>
        ensures start { (result.at ≡ 0) × (result.number ≡ 0) }
        ensures input { result.input.now ≡ input.now }
    {
        Cases {
            input,
            at: 0,
            number: 0,
        }
    }
}

impl<'a> Iterator for Cases<'a> {
    ghost use Rattle.std.specs.Prelude.{◌-◌, length};
    ghost use Rattle.std.specs.Iterator.{at_most};
    ghost use Rattle.cases.specs.Next.{GivesCase};

    type Item = (usize, &'a [u8]);

    ghost next_gives = { GivesCase };

    ghost remaining = { λ cases. at_most (length cases.input.now - cases.at) };

    fn next(&mut self) -> Option<(usize, &'a [u8])> {
        let Cases { input, at, number } = *self;
        if !whole_at(input, at) {
            return None;
        }
        let from = at + 4;
        let next = from + size_at(input, at);
        *self = Cases {
            input,
            at: next,
            number: number + 1,
        };
        Some((number, &input[from..next]))
    }
}

// The place after the case at a place: the input's end where none is whole.
fn next_at(input: &[u8], at: usize) -> usize
    requires { at ≤ length input.now }
    ensures { (result ≡ next_at input.now at) × (result ≤ length input.now) }
{
    if whole_at(input, at) {
        at + 4 + size_at(input, at)
    } else {
        input.len()
    }
}

/// The bytes of a case, counted from 0, as a part of the input itself: what is there of it where it is not whole, and none after that.
#[tactic(auto, using(crate::proofs::Counting::first_place, crate::proofs::Counting::next_place, crate::proofs::Counting::case_between))]
pub fn case_of(input: &[u8], number: usize) -> &[u8]
    ensures { result.now ≡ case_of input.now number }
{
    let mut at = 0;
    for _ in 0..number {
        at = next_at(input, at);
    }
    input.get(at + 4..next_at(input, at)).unwrap_or(&[])
}

/// What an input holds: how many whole cases, and how many bytes are left over after them.
#[derive(Clone, Copy, Debug, PartialEq, Eq)]
pub struct Counted {
    pub count: usize,
    pub left: usize,
}

/// Counts the cases of an input.
#[tactic(auto, using(crate::proofs::Counting::placed_last, crate::proofs::Counting::left_last, crate::proofs::Counting::none_last))]
pub fn held(input: &[u8]) -> Counted
    ensures count_value { (result.count ≡ case_count input.now) × (result.left ≡ left_over input.now) }
    ensures all { whole_at input.now (case_place input.now result.count 0) ≡ false }
{
    let mut cases = Cases::new(input);
    while cases.next().is_some() {}
    Counted {
        count: cases.number,
        left: input.len() - cases.at,
    }
}

/// Reads until the space is full, a read moves no byte or a read fails, and answers how many bytes were put at the space's start.
pub fn read_full<R: Read>(reader: &mut R, space: &mut [u8]) -> usize
    ensures { (result ≤ length space.new) × (result ≡ length (take result space.new)) }
{
    let mut done = 0;
    while done < space.len() {
        let count = reader.read(&mut space[done..]).unwrap_or(0);
        if count == 0 {
            break;
        }
        done += count;
    }
    done
}

/// Whether an output is still blank from a place on.
pub fn is_blank(out: &[u8], from: usize) -> bool
    ensures { IsTrue result ↔ All (λ byte. byte ≡ 0xEE) (drop from out.now) }
{
    let rest = out.get(from..).unwrap_or(&[]);
    rest.iter().all(|&byte| byte == BLANK)
}

// Whether standard input goes on.
fn goes_on(rt: &impl Input) -> bool {
    read_full(&mut rt.reader(), &mut [0; 4_096]) != 0
}

// Prints a complaint of a number of bytes, after the program's name.
fn complain(rt: &impl Print, program: &[u8], count: usize, text: &str) {
    let _ = rt.write_all(program);
    let _ = println!(rt; ": {count} {text}");
}

/// Prints how many cases an input holds, and complains of what is left over: bytes after the last whole case, and bytes that were not read.
/// It hands back what it printed of the input.
pub fn print_end(rt: &(impl Print + Input), program: &[u8], input: &[u8]) -> Counted
    ensures { (result.count ≡ case_count input.now) × (result.left ≡ left_over input.now) }
{
    let held = held(input);
    // What is printed is held to the file stdout, which also shows a write that failed.
    let _ = println!(rt; "{} cases", held.count);
    if 0 < held.left {
        complain(
            rt,
            program,
            held.left,
            "bytes are left over after the last case",
        );
    }
    if goes_on(rt) {
        complain(
            rt,
            program,
            input.len(),
            "bytes were read, and the input goes on",
        );
    }
    held
}
