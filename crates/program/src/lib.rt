//! The programs: each reads a script from standard input, and prints its listing or the discovery answer of the drive that it leaves. No contract
//! can say which bytes the outside hands over or takes, so what is decided of them stands in functions of its own, which are equations.
#![tactic(auto)]

ghost use Rattle.std.specs.Prelude.{◌≡◌, ◌≤◌, false, eqb, length, take, IfOk, IfErr};
ghost use Rattle.discovery_answer.specs.Write.{discovery_bytes};
ghost use Rattle.report.specs.Listing.{listing, most_listed};
ghost use Rattle.program.specs.Input.{most_read, is_failure, moved, length_in, discovery_after, AreFirst, Tells, Prints, EndsSo};

use std::io;
use std::io::Read;

/// One byte more than a script may have: so many bytes of an input show whether it is too long.
pub const MOST_INPUT: usize = script::MOST_BYTES + 1;

/// What a program came to: how many bytes were read, and how many were handed to standard output.
#[derive(Clone, Copy, Debug, PartialEq, Eq)]
pub struct Ended {
    pub read: usize,
    pub written: usize,
}

/// The input could not be read: a read failed after so many bytes. Nothing is printed.
#[derive(Clone, Copy, Debug, PartialEq, Eq)]
pub struct Unread {
    pub read: usize,
}

// What was read, and whether a read moved no byte.
// stays: (1) only by the flag the contract of `read_all` says that it never stops before (one_read_only, first_short_read_ends)
#[derive(Clone, Copy)]
struct BytesRead {
    length: usize,
    ended: bool,
}

// How many bytes one read moved, by what `read` answered.
fn outcome(got: io::Result<usize>, space: &[u8]) -> io::Result<usize>
    ensures length_value { IfOk result (λ n. n ≡ moved got (length space.now)) }
    ensures failed_value { is_failure result ≡ is_failure got }
    ensures length_in_bounds { IfOk result (λ n. n ≤ length space.now) }
{
    got.map(|count| count.min(space.len()))
}

// Reads once. The input has ended exactly where the read moves no byte.
fn read_some<R: Read>(reader: &mut R, space: &mut [u8]) -> io::Result<BytesRead>
    ensures length_in_bounds { IfOk result (λ input. input.length ≤ length space.new) }
    ensures ended_value { IfOk result (λ input. input.ended ≡ eqb input.length 0) }
{
    let got = reader.read(space);
    let length = outcome(got, space)?;
    Ok(BytesRead {
        length,
        ended: length == 0,
    })
}

// Reads until a read moves no byte or the space is full, and never stops before.
fn read_all<R: Read>(reader: &mut R, space: &mut [u8]) -> Result<BytesRead, Unread>
    ensures prefix_len { IfOk result (λ input. AreFirst input.length space.new) }
    ensures length_value { IfOk result (λ input. input.ended ≡ false → input.length ≡ length space.new) }
    ensures unread { IfErr result (λ unread. AreFirst unread.read space.new) }
{
    let mut at = 0;
    while at < space.len() {
        let Ok(input) = read_some(reader, &mut space[at..]) else {
            return Err(Unread { read: at });
        };
        if input.ended {
            return Ok(BytesRead {
                length: at,
                ..input
            });
        }
        at += input.length;
    }
    Ok(BytesRead {
        length: at,
        ended: false,
    })
}

// How many bytes were read, or that a read failed, of which it complains on standard error. Where that fails too, nobody is left to be told.
fn told(rt: &impl Eprint, read: Result<BytesRead, Unread>, program: &str) -> Result<usize, Unread>
    ensures { result ≡ length_in read }
{
    if read.is_err() {
        let _ = eprintln!(rt; "{program}: standard input cannot be read");
    }
    Ok(read?.length)
}

// Reads the input, and complains where it cannot be read.
fn read_input<R: Read>(
    rt: &impl Eprint,
    reader: &mut R,
    space: &mut [u8],
    program: &str,
) -> Result<usize, Unread>
    ensures read { IfOk result (λ read. AreFirst read space.new) }
    ensures unread { IfErr result (λ unread. AreFirst unread.read space.new) }
{
    let read = read_all(reader, space);
    told(rt, read, program)
}

// Hands a text to standard output, complains where that fails, and answers how many bytes were handed over.
fn print(rt: &(impl Print + Eprint), text: &[u8], program: &str) -> usize
    ensures { result ≡ length text.now }
{
    if rt.write_all(text).is_err() {
        let _ = eprintln!(rt; "{program}: standard output cannot be written");
    }
    text.len()
}

// Space for an input.
fn blank_input() -> [u8; MOST_INPUT]
    ensures { most_read ≡ length result }
{
    [0; MOST_INPUT]
}

// ---- the listing

// A page for every listing.
fn blank_page() -> [u8; report::MOST]
    ensures { most_listed ≡ length result }
{
    [0; report::MOST]
}

// Writes the listing of an input on a page, and answers how long it is. Where the input is longer than was read, its first bytes are enough.
fn list(input: &[u8], page: &mut [u8]) -> usize
    requires { most_listed ≤ length page.old }
    ensures { Tells listing input.now (take result page.new) }
{
    report::list(input, page).unwrap_or(0)
}

// Prints the listing of an input, and answers how many bytes it has.
fn print_listing(rt: &(impl Print + Eprint), input: &[u8]) -> usize
    ensures { Prints listing input.now result }
{
    let mut page = blank_page();
    let length = list(input, &mut page);
    print(rt, report::first(&page, length), "listing")
}

/// Reads a script and prints its listing. Where the input cannot be read it prints none, and complains.
// stays: (4) one function over the printing would be no shorter than these lines, which `discover` has too
pub fn run_on<R: Read>(rt: &(impl Print + Eprint), reader: &mut R) -> Result<Ended, Unread>
    ensures { EndsSo listing result }
{
    let mut space = blank_input();
    let read = read_input(rt, reader, &mut space, "listing")?;
    let written = print_listing(rt, &space[..read]);
    Ok(Ended { read, written })
}

/// The same of standard input.
pub fn run(rt: &(impl Print + Eprint + Input)) -> Result<Ended, Unread>
    ensures { EndsSo listing result }
{
    run_on(rt, &mut rt.reader())
}

// ---- the discovery answer

// Writes the discovery answer of the drive that an input leaves on a page, and answers how long it is; 0 where the script is bad, and says where.
fn discover_on(rt: &impl Eprint, input: &[u8], page: &mut [u8]) -> usize
    requires { discovery_bytes ≤ length page.old }
    ensures { Tells discovery_after input.now (take result page.new) }
{
    match run::left(input) {
        Ok(drive) => discovery_answer::write(&drive, page).unwrap_or(0),
        Err(bad) => {
            let _ = eprintln!(rt; "discovery: bad script at {}", bad.place);
            0
        }
    }
}

// Prints the discovery answer, and answers how many bytes it has.
fn print_discovery(rt: &(impl Print + Eprint), input: &[u8]) -> usize
    ensures { Prints discovery_after input.now result }
{
    let mut page = [0; discovery_answer::BYTES];
    let length = discover_on(rt, input, &mut page);
    print(rt, report::first(&page, length), "discovery")
}

/// Reads a script from standard input and prints the discovery answer of the drive that it leaves. Where the script is bad or the input cannot be
/// read it prints none, and complains.
pub fn discover(rt: &(impl Print + Eprint + Input)) -> Result<Ended, Unread>
    ensures { EndsSo discovery_after result }
{
    let mut space = blank_input();
    let read = read_input(rt, &mut rt.reader(), &mut space, "discovery")?;
    let written = print_discovery(rt, &space[..read]);
    Ok(Ended { read, written })
}
