// Runs the scripts of standard input, each after its length in four bytes, low first, and prints for each a line with its number and then its
// listing as document 01 has it, amended by the requests that have landed. Each is also read to its header and the flat form of its events, and written
// again. At the end, how many came out again byte by byte, how many were refused as bad and how many came out otherwise; and how many there were. 1,000
// scripts, well formed and damaged, 94 at the limits of the format, and one of the most events.
#![tactic(auto)]

use cases::Cases;
use script::ScriptError;

// More than the input has.
const SPACE: usize = 1_048_576;

// Enough numbers for the flat form of every script, and more bytes than one has (`never-short` in script_reader).
const FIELDS: usize = 218_443;

fn blank() -> [u8; SPACE] {
    [0; SPACE]
}

fn blank_fields() -> [u64; FIELDS] {
    [0; FIELDS]
}

// How a script came out that was read and written again.
#[derive(Clone, Copy)]
enum Again {
    Same,
    Bad,
    Other,
}

// How many scripts came out again the same, were refused as bad, and came out otherwise.
#[derive(Clone, Copy)]
struct Tally {
    same: usize,
    bad: usize,
    other: usize,
}

// What is printed is held to the file stdout, which also shows a write that failed.
fn case(rt: &impl Print, number: usize, script: &[u8]) {
    let mut page = [0; report::MOST];
    let length = report::list(script, &mut page).unwrap_or(0);
    let _ = println!(rt; "# {number}");
    let _ = rt.write_all(report::first(&page, length));
}

// Reads a script, and writes it again where it is accepted.
fn rewrite(script: &[u8], fields: &mut [u64], tokens: &mut [u8], out: &mut [u8]) -> Again {
    let read = match script_reader::read(script, fields, tokens) {
        Ok(read) => read,
        Err(ScriptError::Bad { .. }) => return Again::Bad,
        Err(ScriptError::ShortBuffer) => return Again::Other,
    };
    let numbers = report::first(fields, read.fields);
    let bytes = report::first(tokens, read.tokens);
    match script_writer::write(read.header, numbers, bytes, out) {
        Ok(count) if report::first(out, count) == script => Again::Same,
        _ => Again::Other,
    }
}

fn all_cases(
    rt: &impl Print,
    input: &[u8],
    fields: &mut [u64],
    tokens: &mut [u8],
    out: &mut [u8],
) -> Tally {
    let mut tally = Tally {
        same: 0,
        bad: 0,
        other: 0,
    };
    for (number, script) in Cases::new(input) {
        case(rt, number, script);
        match rewrite(script, fields, tokens, out) {
            Again::Same => tally.same += 1,
            Again::Bad => tally.bad += 1,
            Again::Other => tally.other += 1,
        }
    }
    tally
}

// Runs every case of the input, and says how many there were and what is left over.
fn run(rt: &(impl Print + Input), input: &[u8]) {
    let mut fields = blank_fields();
    let mut tokens = [0; script::MOST_BYTES];
    let mut out = [0; script::MOST_BYTES];
    let Tally { same, bad, other } = all_cases(rt, input, &mut fields, &mut tokens, &mut out);
    let _ = println!(rt;
        "{same} scripts came out again the same, {bad} were refused with 10, {other} came out otherwise"
    );
    cases::print_end(rt, b"vectors", input);
}

fn main(rt: HostRuntime) {
    let mut space = blank();
    let n = cases::read_full(&mut rt.reader(), &mut space);
    run(&rt, &space[..n]);
}
