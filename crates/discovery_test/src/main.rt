//! Reads strings of bytes from standard input, each after its length in four bytes, low first, and prints a line for each: its number from 0,
//! the answer of the reader of discovery answers, whether each of the two features is there, and the flags.
//!
//! Then it prints a line for each of some drives that no script leaves: the number of bands, one row and its columns, and of the answer that is
//! written the number of bytes and the flags.
//!
//! What is printed is held to the file stdout, which also shows a write that failed.
#![tactic(auto)]

use band::Row;
use cases::Cases;
use drive::{Drive, Header};

// Reads one string of bytes. Where it is refused, nothing is shown.
fn case(rt: &impl Print, number: usize, bytes: &[u8]) {
    let _ = match discovery_answer::read(bytes) {
        Ok(shown) => {
            println!(rt;
                "{number} 0 {} {} {}",
                u8::from(shown.locking),
                u8::from(shown.ranges),
                shown.flags
            )
        }
        Err(refusal) => println!(rt; "{number} {} 0 0 0", refusal.number()),
    };
}

// Runs every case of the input, and says how many there were and what is left over.
fn run(rt: &(impl Print + Input), input: &[u8]) {
    for (number, bytes) in Cases::new(input) {
        case(rt, number, bytes);
    }
    cases::print_end(rt, b"discovery_test", input);
}

// A fresh row but for its lock columns: for reads and for writes whether it is enabled, and whether it is locked.
fn row_with(enabled: [bool; 2], locked: [bool; 2]) -> Row {
    Row {
        read_lock_enabled: enabled[0],
        write_lock_enabled: enabled[1],
        read_locked: locked[0],
        write_locked: locked[1],
        ..Row::fresh()
    }
}

// A fresh drive of so many bands with one other row.
fn drive_with(bands: u64, at: usize, row: Row) -> Drive {
    let mut drive = Drive::fresh(Header {
        capacity: 1_000,
        bands,
        sensors: 0,
    })
    .drive;
    if at < 16 {
        drive.rows[at] = row;
    }
    drive
}

// Writes the answer of a drive, and reads it.
fn drive_case(rt: &impl Print, bands: u64, at: usize, enabled: [bool; 2], locked: [bool; 2]) {
    let _ = print!(rt; "drive {bands} {at}");
    for column in [enabled[0], enabled[1], locked[0], locked[1]] {
        let _ = print!(rt; " {}", u8::from(column));
    }
    let mut out = [0xEE; 96];
    let count = discovery_answer::write(
        &drive_with(bands, at, row_with(enabled, locked)),
        &mut out,
    ).unwrap_or(0);
    let shown = discovery_answer::read(&out).unwrap_or_default();
    let _ = println!(rt; ": {count} {}", shown.flags);
}

fn drive_cases(rt: &impl Print) {
    drive_case(rt, 2, 1, [true, false], [true, false]);
    drive_case(rt, 2, 1, [false, true], [false, true]);
    drive_case(rt, 2, 0, [true, false], [true, false]);
    drive_case(rt, 2, 1, [false, false], [true, true]);
    drive_case(rt, 2, 1, [true, true], [false, false]);
    drive_case(rt, 2, 1, [true, false], [false, true]);
    drive_case(rt, 2, 1, [false, true], [true, false]);
    drive_case(rt, 2, 2, [true, true], [true, true]);
    drive_case(rt, 16, 15, [false, true], [false, true]);
    drive_case(rt, 15, 15, [false, true], [false, true]);
    drive_case(rt, 1, 0, [true, true], [true, true]);
}

fn main(rt: HostRuntime) {
    let mut input = [0; 65_536];
    let n = cases::read_full(&mut rt.reader(), &mut input);
    run(&rt, &input[..n]);
    drive_cases(&rt);
}
