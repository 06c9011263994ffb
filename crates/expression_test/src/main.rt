// Reads strings of bytes from standard input, each after its length in four bytes, low first, and prints a line for each: its number, its
// length and the token reader's answer. Where that is 0 there follow the elements, their value under three sets of conditions (1 for TRUE, 0 for
// FALSE, - for malformed), their values on two sets of sensors of which 0 to 17, and then more than there can be, are said to be there, what the
// writer answers and whether it writes the same bytes and keeps the rest of its output, and its answer to an output one byte short.
//
// Then it prints a line for each of some calls of the writer with a list of numbers: the list's length, the output's, the answer, the
// bytes written, whether the rest was kept, and those bytes.
#![tactic(auto)]

ghost use Rattle.std.specs.Prelude.{◌<◌, ◌≤◌};

use cases::{BLANK, Cases};
use evaluator::Evaluation;
use expression::{Expression, Part};
use sensor::Sensor;

// How much of an output there is.
const ROOM: usize = 400;

const AND: u64 = token_writer::OPERATORS;

const OR: u64 = token_writer::OPERATORS + 1;

const NOT: u64 = token_writer::OPERATORS + 2;

// One above the last operator.
const NONE: u64 = token_writer::OPERATORS + 3;

// TRUE, FALSE or malformed.
fn word(value: Evaluation) -> &'static str {
    match value {
        Evaluation::True => "1",
        Evaluation::False => "0",
        Evaluation::Malformed => "-",
    }
}

// What is printed is held to the file stdout, which also shows a write that failed.
fn print_part(rt: &impl Print, part: Part) {
    let _ = match part {
        Part::Reference(row) => print!(rt; " {row}"),
        Part::Operator(0) => print!(rt; " AND"),
        Part::Operator(1) => print!(rt; " OR"),
        Part::Operator(2) => print!(rt; " NOT"),
        Part::Operator(code) => print!(rt; " op {code}"),
    };
}

fn print_elements(rt: &impl Print, expression: &Expression) {
    let _ = print!(rt; " {}:", expression.count);
    for element in expression.as_slice() {
        print_part(rt, element.part);
    }
}

// The values where all conditions are FALSE, all TRUE, and those of the even rows TRUE.
fn print_values(rt: &impl Print, expression: &Expression) {
    let even = [
        true, false, true, false, true, false, true, false, true, false, true, false, true, false,
        true, false,
    ];
    let _ = print!(rt; ";");
    for conditions in [[false; 16], [true; 16], even] {
        let _ = print!(rt; " {}", word(evaluator::value(expression, &conditions)));
    }
}

fn sensor(condition: bool) -> Sensor {
    Sensor {
        condition,
        ..Sensor::fresh()
    }
}

// Sixteen sensors, those of the odd rows TRUE and the others as said.
fn odd_and(even: bool) -> [Sensor; 16] {
    let e = sensor(even);
    let o = sensor(true);
    [e, o, e, o, e, o, e, o, e, o, e, o, e, o, e, o]
}

// The values on sixteen sensors, by how many of them are there.
fn print_by_count(rt: &impl Print, expression: &Expression, all: &[Sensor; 16]) {
    let _ = print!(rt; " ");
    for present in 0..18 {
        let _ = print!(rt; "{}", word(limit::value(expression, all, present)));
    }
    let _ = print!(rt; "{}", word(limit::value(expression, all, usize::MAX)));
}

fn print_counted(rt: &impl Print, expression: &Expression) {
    let _ = print!(rt; ";");
    print_by_count(rt, expression, &odd_and(true));
    print_by_count(rt, expression, &odd_and(false));
}

// Whether an output is blank from a place on.
fn kept(out: &[u8], from: usize) -> &'static str {
    if cases::is_blank(out, from) {
        "kept"
    } else {
        "changed"
    }
}

// Writes the expression into an output with room, and prints the bytes needed and whether they are those that were read.
fn print_written(rt: &impl Print, expression: &Expression, bytes: &[u8]) -> usize {
    let mut out = [BLANK; ROOM];
    let written = token_writer::write_expression(expression, &mut out);
    let count = written.unwrap_or(0);
    let same = out.get(..count) == Some(bytes);
    let again = if same { "same" } else { "differ" };
    let _ = print!(rt;
        "; {} {count} {again} {}",
        answer::number(written),
        kept(&out, count)
    );
    count
}

// Writes the expression into an output one byte short of what it needs.
fn print_short(rt: &impl Print, expression: &Expression, needed: usize) {
    let mut out = [BLANK; ROOM];
    if needed == 0 || ROOM < needed {
        return;
    }
    let written = token_writer::write_expression(expression, &mut out[..needed - 1]);
    let _ = print!(rt; "; {} {}", answer::number(written), kept(&out, 0));
}

fn case(rt: &impl Print, number: usize, bytes: &[u8]) {
    let read = token_reader::read(bytes);
    let _ = print!(rt; "{number} {} {}", bytes.len(), answer::number(read));
    if let Ok(expression) = read {
        print_elements(rt, &expression);
        print_values(rt, &expression);
        print_counted(rt, &expression);
        let needed = print_written(rt, &expression, bytes);
        print_short(rt, &expression, needed);
    }
    let _ = println!(rt);
}

// Runs every case of the input, and says how many there were and what is left over.
fn run(rt: &(impl Print + Input), input: &[u8]) {
    for (number, bytes) in Cases::new(input) {
        // The lines count from 1.
        case(rt, number.saturating_add(1), bytes);
    }
    cases::print_end(rt, b"expression_test", input);
}

// Writes a list of numbers into an output of so many bytes.
fn list(rt: &impl Print, codes: &[u64], room: usize)
    requires { room ≤ 400 }
{
    let mut out = [BLANK; ROOM];
    let written = token_writer::write(codes, &mut out[..room]);
    let count = written.unwrap_or(0);
    let _ = print!(rt;
        "list {} {room}: {} {count} {}",
        codes.len(),
        answer::number(written),
        kept(&out, count)
    );
    if 0 < count {
        let _ = print!(rt; " ");
    }
    for byte in out.iter().take(count) {
        let _ = print!(rt; "{byte:02x}");
    }
    let _ = println!(rt);
}

// No elements, and an expression of seven.
fn short_lists(rt: &impl Print) {
    let row = [2, 1, AND, 3, OR, 0, AND];
    for room in [2, 1, 0, 3] {
        list(rt, &[], room);
    }
    for room in [74, 73, 75, 0] {
        list(rt, &row, room);
    }
    list(rt, &[2], 14);
    list(rt, &[2], 13);
}

// One element.
fn singles(rt: &impl Print) {
    list(rt, &[4_294_967_295], 14);
    list(rt, &[AND], 10);
    list(rt, &[OR], 10);
    list(rt, &[NOT], 10);
    list(rt, &[NOT], 9);
    list(rt, &[NONE], 10);
    list(rt, &[NONE], 0);
    list(rt, &[18_446_744_073_709_551_615], 400);
    list(rt, &[305_419_896], 400);
}

// The first of forty operators.
fn long_lists(rt: &impl Print) {
    let codes = [NOT; 40];
    list(rt, &codes[..31], 400);
    list(rt, &codes[..32], 258);
    list(rt, &codes[..32], 257);
    list(rt, &codes[..33], 400);
    list(rt, &codes, 400);
    list(rt, &codes, 0);
}

// The same with another number at a place.
fn list_with(rt: &impl Print, at: usize, code: u64, count: usize, room: usize)
    requires { (at < 40) × (count ≤ 40) × (room ≤ 400) }
{
    let mut codes = [NOT; 40];
    codes[at] = code;
    list(rt, &codes[..count], room);
}

// A number that is no element, at the list's start, past place 32 and about it.
fn lists_with_none(rt: &impl Print) {
    list_with(rt, 0, NONE, 40, 400);
    list_with(rt, 0, NONE, 1, 400);
    list_with(rt, 39, NONE, 40, 400);
    list_with(rt, 39, NONE, 39, 400);
    list_with(rt, 32, NONE, 33, 400);
    list_with(rt, 31, NONE, 32, 400);
    list_with(rt, 31, NONE, 31, 400);
    list_with(rt, 39, 18_446_744_073_709_551_615, 40, 0);
}

fn main(rt: HostRuntime) {
    let mut input = [0; 65_536];
    let n = cases::read_full(&mut rt.reader(), &mut input);
    run(&rt, &input[..n]);
    short_lists(&rt);
    singles(&rt);
    long_lists(&rt);
    lists_with_none(&rt);
}
