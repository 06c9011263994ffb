// Runs the scripts of standard input, each after its length in four bytes, low first, by the drive's own events: each event by value, on the
// drive that the last one left. Prints for each a line with its number and then the listing of document 01. Then calls that no script makes.
#![tactic(auto)]

use band::Row;
use band_columns::BandColumns;
use cases::Cases;
use drive::{Drive, Event, Header};
use expression::Expression;
use geometry::Span;
use reader::Reader;
use sensor::Sensor;
use sensor_set::SensorColumns;

const MOST: u64 = 18_446_744_073_709_551_615;

// NOT of row 99, which is TRUE on every drive.
const ALWAYS: [u8; 22] =
    *b"\xF0\xF2\xA4\x00\x00\x0C\x0E\xA4\x00\x00\x00\x63\xF3\xF2\xA4\x00\x00\x04\x0E\x02\xF3\xF1";

// Row 1, and NOT of row 1.
const SECOND: [u8; 14] = *b"\xF0\xF2\xA4\x00\x00\x0C\x0E\xA4\x00\x00\x00\x01\xF3\xF1";

const NOT_SECOND: [u8; 22] =
    *b"\xF0\xF2\xA4\x00\x00\x0C\x0E\xA4\x00\x00\x00\x01\xF3\xF2\xA4\x00\x00\x04\x0E\x02\xF3\xF1";

// AND alone, which runs short.
const AND_ALONE: [u8; 10] = *b"\xF0\xF2\xA4\x00\x00\x04\x0E\x00\xF3\xF1";

// What is printed is held to the file stdout, which also shows a write that failed.

fn print_band(rt: &impl Print, number: usize, row: &Row, conditions: &[bool; 16]) {
    let value = u8::from(row.value(conditions).is_true());
    let _ = println!(rt;
        "b {number} {} {} {value}",
        u8::from(row.read_locked),
        u8::from(row.write_locked)
    );
}

fn print_sensor(rt: &impl Print, number: usize, s: &Sensor) {
    let _ = println!(rt;
        "s {number} {} {} {} {}",
        u8::from(s.level),
        s.phase.number(),
        u8::from(s.condition),
        s.timer
    );
}

// The bands and the sensors, as the listing has them.
fn print_drive(rt: &impl Print, drive: &Drive) {
    let conditions = drive.conditions();
    for (number, row) in drive.rows.iter().enumerate().take(drive.band_count) {
        print_band(rt, number, row, &conditions);
    }
    for (number, sensor) in drive.sensors.iter().enumerate().take(drive.sensor_count) {
        print_sensor(rt, number, sensor);
    }
}

// Runs an event, and prints its line.
fn run_event(rt: &impl Print, drive: &mut Drive, index: usize, event: Event<'_>) {
    let answer = events::apply(drive, event);
    let _ = println!(rt;
        "e {index} {} {}",
        answer::number(answer),
        answer.unwrap_or(0)
    );
}

// Each event has two bytes at least, so that no script has as many as bytes.
fn run_script(rt: &impl Print, reader: Reader<'_>, drive: &mut Drive) {
    let mut rest = reader;
    for index in 0..rest.script.len() {
        let Some(event) = event_reader::event(&mut rest) else {
            return;
        };
        run_event(rt, drive, index, event);
    }
}

fn case(rt: &impl Print, number: usize, script: &[u8]) {
    let _ = println!(rt; "run {number}");
    let mut reader = Reader::new(script, 0);
    let Some(header) = script::header(&mut reader) else {
        return;
    };
    let mut drive = Drive::fresh(header).drive;
    run_script(rt, reader, &mut drive);
    print_drive(rt, &drive);
}

// Runs every case of the input, and says how many there were and what is left over.
fn run(rt: &(impl Print + Input), input: &[u8]) {
    for (number, script) in Cases::new(input) {
        case(rt, number, script);
    }
    cases::print_end(rt, b"drive_test", input);
}

// The same value in each column, also in those that the mask does not name.
fn band_columns(mask: u64, value: u64) -> BandColumns {
    BandColumns {
        mask,
        read_lock_enabled: value,
        write_lock_enabled: value,
        read_locked: value,
        write_locked: value,
        lock_on_reset: value,
    }
}

fn sensor_columns(mask: u64, value: u64) -> SensorColumns {
    SensorColumns {
        mask,
        enabled: value,
        on_threshold: value,
        on_fraction: value,
        on_timeout: value,
        off_threshold: value,
        off_fraction: value,
        off_timeout: value,
    }
}

fn set_band<'a>(band: u64, mask: u64, value: u64, tokens: &'a [u8]) -> Event<'a> {
    Event::BandSet {
        band,
        columns: band_columns(mask, value),
        tokens,
    }
}

fn set_sensor<'a>(sensor: u64, mask: u64, value: u64) -> Event<'a> {
    Event::SensorSet {
        sensor,
        columns: sensor_columns(mask, value),
    }
}

// A read of so many blocks.
fn transfer<'a>(start: u64, length: u64) -> Event<'a> {
    Event::Transfer {
        direction: 0,
        range: Span { start, length },
    }
}

fn fresh(bands: u64, sensors: u64) -> Drive {
    Drive::fresh(Header {
        capacity: 1_000,
        bands,
        sensors,
    })
    .drive
}

// Unknown mask bits, on a row that is there and on one that is not, and values that the mask does not name. Then more than 1,024 token bytes,
// named or not; then as many as there may be.
fn outside_a_script(rt: &impl Print) {
    let _ = println!(rt; "outside");
    let more = [0xF0; 1_025];
    let most = [0xF0; 1_024];
    let events = [
        set_band(0, 64, 0, b""),
        set_band(0, MOST, 1, b"\xF0\xF1"),
        set_band(1, 64, 0, b""),
        set_sensor(0, 128, 1),
        set_sensor(1, 128, 1),
        set_sensor(0, 0, MOST),
        set_band(0, 0, MOST, b"\xF0"),
        set_band(0, 33, 1, &more),
        set_band(0, 1, 1, &more),
        set_band(0, 0, 0, &more),
        set_band(1, 32, 0, &more),
        set_band(0, 37, 1, &most),
        set_band(0, 8, 1, &most),
    ];
    let mut drive = fresh(1, 1);
    for (index, event) in events.into_iter().enumerate() {
        run_event(rt, &mut drive, index, event);
    }
    print_drive(rt, &drive);
}

// A header's answer, and the capacity and the counts of its drive.
fn header(rt: &impl Print, capacity: u64, bands: u64, sensors: u64) {
    let fresh = Drive::fresh(Header {
        capacity,
        bands,
        sensors,
    });
    let drive = fresh.drive;
    let _ = println!(rt;
        "h {} {} {} {}",
        answer::number(fresh.answer),
        drive.capacity,
        drive.band_count,
        drive.sensor_count
    );
}

fn headers(rt: &impl Print) {
    header(rt, 1, 1, 0);
    header(rt, 281_474_976_710_656, 16, 16);
    header(rt, 0, 1, 0);
    header(rt, 281_474_976_710_657, 16, 16);
    header(rt, 1_000, 0, 16);
    header(rt, 1_000, 17, 16);
    header(rt, 1_000, 16, 17);
    header(rt, MOST, MOST, MOST);
}

// The drive of a header out of range.
fn least_drive(rt: &impl Print) {
    let events = [
        Event::Reading {
            sensor: 0,
            value: 0,
        },
        Event::Geometry {
            band: 1,
            span: Span::none(),
        },
        set_band(0, 36, 1, &ALWAYS),
        transfer(0, 1),
        transfer(1, 0),
        transfer(0, 2),
    ];
    let mut drive = fresh(17, 2);
    for (index, event) in events.into_iter().enumerate() {
        run_event(rt, &mut drive, index, event);
    }
    print_drive(rt, &drive);
}

// A drive that no script leaves: the read side of its band is enabled under AND alone.
fn malformed_row() -> Drive {
    let mut drive = fresh(1, 0);
    drive.rows[0] = Row {
        read_lock_enabled: true,
        expression: Expression {
            count: 1,
            ..Expression::empty()
        },
        ..drive.rows[0]
    };
    drive
}

// Such a row is not under a TRUE expression: a transfer and an unlock are done. A Set is judged by the expression that it names, and by no other.
fn stored_malformed(rt: &impl Print) {
    let _ = println!(rt; "malformed");
    let events = [
        transfer(0, 1),
        set_band(0, 4, 0, b""),
        set_band(0, 2, 1, &AND_ALONE),
        set_band(0, 32, 0, &AND_ALONE),
        set_band(1, 32, 0, &AND_ALONE),
        set_band(0, 48, 16, &AND_ALONE),
        set_band(0, 36, 1, &ALWAYS),
        set_band(0, 36, 0, &AND_ALONE),
        set_band(0, 4, 0, &AND_ALONE),
        set_band(0, 36, 0, b"\xF0\xF1"),
    ];
    let mut drive = malformed_row();
    for (index, event) in events.into_iter().enumerate() {
        if index == 6 {
            print_drive(rt, &drive);
        }
        run_event(rt, &mut drive, index, event);
    }
    print_drive(rt, &drive);
}

// A drive of one band whose read side is enabled and has an expression, and of sixteen sensors that are all TRUE. Nothing has settled.
fn guarded(tokens: &[u8]) -> Drive {
    let mut drive = fresh(1, 16);
    let _ = events::set_band(&mut drive, 0, band_columns(32, 0), tokens);
    let sensor = Sensor {
        condition: true,
        ..Sensor::fresh()
    };
    drive.sensors = [sensor; 16];
    drive.rows[0].read_lock_enabled = true;
    drive
}

// The drive with so many sensors there: after a transfer of nothing, what an unlock is answered, ReadLocked and the value.
fn count_sensors(rt: &impl Print, guarded: Drive, count: usize) {
    let mut drive = Drive {
        sensor_count: count,
        ..guarded
    };
    let _ = events::transfer(&mut drive, 0, Span::none());
    let answer = events::set_band(&mut drive, 0, band_columns(4, 0), b"");
    let row = drive.rows[0];
    let value = row.value(&drive.conditions());
    let _ = println!(rt;
        "n {count} {} {} {}",
        answer::number(answer),
        u8::from(row.read_locked),
        u8::from(value.is_true())
    );
}

// 0 to 17 sensors, and as many as can be said.
fn counts(rt: &impl Print, drive: Drive) {
    for count in 0..18 {
        count_sensors(rt, drive, count);
    }
    count_sensors(rt, drive, usize::MAX);
}

// A drive of one band whose read side is enabled.
fn enabled() -> Drive {
    let mut drive = fresh(1, 0);
    let _ = events::set_band(&mut drive, 0, band_columns(1, 1), b"");
    drive
}

// What a reset of each type is answered, and ReadLocked after it; also of one that there is not.
fn all_resets(rt: &impl Print, drive: Drive) {
    for reset_type in 0..5 {
        let mut after = drive;
        let answer = events::reset(&mut after, reset_type);
        let row = after.rows[0];
        let _ = print!(rt; " {} {}", answer::number(answer), u8::from(row.read_locked));
    }
    let _ = println!(rt);
}

// A Set of LockOnReset: what it is answered, and then the resets.
fn take_set(rt: &impl Print, mut drive: Drive, value: u64) {
    let answer = events::set_band(&mut drive, 0, band_columns(16, value), b"");
    let _ = print!(rt; "k {value} {}", answer::number(answer));
    all_resets(rt, drive);
}

// 0 to 17, and as many as can be said.
fn take_sets(rt: &impl Print, drive: Drive) {
    for value in 0..18 {
        take_set(rt, drive, value);
    }
    take_set(rt, drive, MOST);
}

// The resets on a drive that no script leaves, whose LockOnReset is above the greatest set.
fn hold_set(rt: &impl Print, mut drive: Drive, value: u64) {
    drive.rows[0].lock_on_reset = value;
    let _ = print!(rt; "l {value}");
    all_resets(rt, drive);
}

fn main(rt: HostRuntime) {
    let mut input = [0; 8_192];
    let n = cases::read_full(&mut rt.reader(), &mut input);
    run(&rt, &input[..n]);
    outside_a_script(&rt);
    headers(&rt);
    least_drive(&rt);
    stored_malformed(&rt);
    counts(&rt, guarded(&SECOND));
    counts(&rt, guarded(&NOT_SECOND));
    take_sets(&rt, enabled());
    hold_set(&rt, enabled(), 16);
    hold_set(&rt, enabled(), 40);
    hold_set(&rt, enabled(), MOST);
}
