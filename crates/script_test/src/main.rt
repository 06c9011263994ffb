// Tries the script writer and the script reader: a line for each thing tried, with the answer, and whether what was lent was kept but for what is
// handed over. Where the writer answers 0 there follow how many bytes the script has, those bytes where they are few, and whether the reader hands back
// the same header, fields and tokens. The reader's answer has its place after it, and where it is 0 there follow the header, the fields and the
// tokens.
#![tactic(auto)]

ghost use Rattle.std.specs.Prelude.{◌≤◌, ◌<◌, ◌≡◌, length};

use cases::BLANK;
use drive::Header;
use script_reader::FlatScript;

// What a slice of numbers holds before a call.
const BLANK_FIELD: u64 = 0xEEEE;

// More bytes and more fields than are written where not said otherwise.
const ROOM: usize = 1_200;

const FIELD_ROOM: usize = 64;

// A script of more bytes is not printed.
const SHOWN: usize = 100;

const MOST: u64 = 18_446_744_073_709_551_615;

// The greatest capacity.
const GREATEST: u64 = 281_474_976_710_656;

// Document 01's script, its flat form, and its expression.
const WORKED: [u8; 52] =
    *b"\xE8\x07\x02\x01\x04\x00\x1B\x01\x05\x03\x05\x05\x01\x21\x01\x0E\xF0\xF2\xA4\x00\x00\x0C\x0E\xA4\x00\x00\x00\x00\xF3\xF1\x06\x01\x64\x32\x01\x00\x88\x27\x02\x05\x07\x00\x63\x02\x07\x01\x63\x02\x05\x01\x04\x00";

const WORKED_FIELDS: [u64; 45] = [
    4, 0, 27, 1, 5, 0, 3, 5, 0, 0, 5, 1, 33, 1, 0, 0, 0, 0, 14, 6, 1, 100, 50, 1, 0, 5000, 2, 5, 7,
    0, 99, 2, 7, 1, 99, 2, 5, 1, 4, 0, 0, 0, 0, 0, 0,
];

const WORKED_TOKENS: [u8; 14] = *b"\xF0\xF2\xA4\x00\x00\x0C\x0E\xA4\x00\x00\x00\x00\xF3\xF1";

const USUAL: Header = Header {
    capacity: 1_000,
    bands: 2,
    sensors: 1,
};

// What is printed is held to the file stdout, which also shows a write that failed.
fn print_bytes(rt: &impl Print, bytes: &[u8]) {
    for byte in bytes {
        let _ = print!(rt; "{byte:02x}");
    }
}

fn print_fields(rt: &impl Print, fields: &[u64]) {
    for field in fields {
        let _ = print!(rt; " {field}");
    }
}

fn blanks() -> [u8; ROOM]
    ensures { 1200 ≡ length result }
{
    [BLANK; ROOM]
}

fn blank_fields() -> [u64; FIELD_ROOM]
    ensures { 64 ≡ length result }
{
    [BLANK_FIELD; FIELD_ROOM]
}

fn kept_if(kept: bool) -> &'static str {
    if kept { "kept" } else { "changed" }
}

// Whether an output is blank from a place on.
fn kept(out: &[u8], from: usize) -> &'static str {
    kept_if(cases::is_blank(out, from))
}

fn kept_fields(out: &[u64], from: usize) -> &'static str {
    let rest = out.get(from..).unwrap_or(&[]);
    kept_if(rest.iter().all(|&field| field == BLANK_FIELD))
}

// The first items of an output; all of it where it has no more.
fn first<T>(out: &[T], count: usize) -> &[T] {
    out.get(..count).unwrap_or(out)
}

// Whether the reader hands back a script's header, fields and tokens.
fn reads_back(script: &[u8], header: Header, fields: &[u64], tokens: &[u8]) -> bool {
    let mut numbers = blank_fields();
    let mut bytes = blanks();
    let Ok(read) = script_reader::read(script, &mut numbers, &mut bytes) else {
        return false;
    };
    read.header == header
        && first(&numbers, read.fields) == fields
        && first(&bytes, read.tokens) == tokens
}

fn print_script(rt: &impl Print, script: &[u8]) {
    let _ = print!(rt; " {}", script.len());
    if script.len() <= SHOWN {
        let _ = print!(rt; " ");
        print_bytes(rt, script);
    }
}

fn same(again: bool) -> &'static str {
    if again { "same" } else { "other" }
}

// Writes a script into an output with room, after its title was printed.
fn write_headed(rt: &impl Print, header: Header, fields: &[u64], tokens: &[u8]) {
    let mut out = blanks();
    let written = script_writer::write(header, fields, tokens, &mut out);
    let _ = print!(rt; ": {}", answer::number(written));
    if let Ok(count) = written {
        let script = first(&out, count);
        print_script(rt, script);
        let _ = print!(rt; " {}", same(reads_back(script, header, fields, tokens)));
    }
    let _ = println!(rt; " {}", kept(&out, written.unwrap_or(0)));
}

// Writes events under the usual header.
fn write(rt: &impl Print, title: &str, fields: &[u64], tokens: &[u8]) {
    let _ = print!(rt; "{title}");
    write_headed(rt, USUAL, fields, tokens);
}

// Writes a header with no events.
fn try_header(rt: &impl Print, capacity: u64, bands: u64, sensors: u64) {
    let _ = print!(rt; "header {capacity} {bands} {sensors}");
    let header = Header {
        capacity,
        bands,
        sensors,
    };
    write_headed(rt, header, &[], b"");
}

fn headers(rt: &impl Print) {
    for capacity in [0, 1, GREATEST, GREATEST + 1, MOST] {
        try_header(rt, capacity, 2, 1);
    }
    for bands in [0, 1, 16, 17, MOST] {
        try_header(rt, 1_000, bands, 1);
    }
    for sensors in [0, 16, 17, MOST] {
        try_header(rt, 1_000, 2, sensors);
    }
}

fn worked(rt: &impl Print) {
    write(rt, "document 01's script", &WORKED_FIELDS, &WORKED_TOKENS);
}

// Readings of sensor 0.
fn readings(rt: &impl Print) {
    for value in [0, 127, 128, 16_383, 16_384, MOST / 2, MOST / 2 + 1, MOST] {
        let _ = print!(rt; "reading {value}");
        write_headed(rt, USUAL, &[1, 0, value], b"");
    }
}

fn kinds(rt: &impl Print) {
    write(rt, "kind 0", &[0], b"");
    write(rt, "kind 0 with three numbers", &[0, 0, 0], b"");
}

fn later_kinds(rt: &impl Print) {
    write(rt, "kind 8", &[8], b"");
    write(rt, "kind 8 with four numbers", &[8, 0, 0, 0], b"");
    write(rt, "the greatest kind", &[MOST, 0, 0, 0], b"");
    write(rt, "kind 257", &[257, 0, 0], b"");
}

// Each kind with the greatest numbers.
fn greatest(rt: &impl Print) {
    write(rt, "greatest reading", &[1, MOST, MOST], b"");
    write(rt, "greatest elapse", &[2, MOST], b"");
    write(rt, "greatest reset", &[3, MOST], b"");
    write(rt, "greatest geometry", &[6, MOST, MOST, MOST], b"");
    write(rt, "greatest transfer", &[7, MOST, MOST, MOST], b"");
}

fn greatest_sets(rt: &impl Print) {
    let row = [4, MOST, 127, MOST, MOST, MOST, MOST, MOST, MOST, MOST];
    write(rt, "greatest sensor Set", &row, b"");
    let row = [5, MOST, 63, MOST, MOST, MOST, MOST, MOST, 2];
    write(rt, "greatest band Set", &row, b"\xF0\xF1");
}

// A Set of sensor 0 with the same value in each column.
fn sensor_mask(rt: &impl Print, mask: u64, value: u64) {
    let _ = print!(rt; "sensor Set, mask {mask}, all {value}");
    let v = value;
    write_headed(rt, USUAL, &[4, 0, mask, v, v, v, v, v, v, v], b"");
}

// A Set of band 0 with the same value in each column, and an empty expression.
fn band_mask(rt: &impl Print, mask: u64, value: u64) {
    let _ = print!(rt; "band Set, mask {mask}, all {value}");
    let v = value;
    write_headed(rt, USUAL, &[5, 0, mask, v, v, v, v, v, 0], b"");
}

fn masks(rt: &impl Print) {
    for mask in [0, 127, 128] {
        sensor_mask(rt, mask, 0);
        sensor_mask(rt, mask, 1);
    }
    sensor_mask(rt, 255, 1);
    sensor_mask(rt, MOST, 1);
    band_mask(rt, 0, 0);
    band_mask(rt, 0, 1);
    band_mask(rt, 31, 1);
    for mask in [63, 64] {
        band_mask(rt, mask, 0);
        band_mask(rt, mask, 1);
    }
    band_mask(rt, 127, 1);
    band_mask(rt, MOST, 1);
}

// A Set of sensor 0 in which one value is other than 0.
fn sensor_value(rt: &impl Print, mask: u64, at: usize, value: u64)
    requires { at < 10 }
{
    let _ = print!(rt; "sensor Set, mask {mask}, number {at} is {value}");
    let mut row = [4, 0, mask, 0, 0, 0, 0, 0, 0, 0];
    row[at] = value;
    write_headed(rt, USUAL, &row, b"");
}

// Each column with a mask that names all others.
fn sensor_values(rt: &impl Print) {
    for value in [1, 0] {
        for at in 3..10 {
            sensor_value(rt, 127 ^ 1 << (at - 3), at, value);
        }
    }
}

// Each column with a mask that names it alone.
fn sensor_columns(rt: &impl Print) {
    for at in 3..10 {
        sensor_value(rt, 1 << (at - 3), at, 1);
    }
}

// A Set of band 0 in which one value is other than 0, with an empty expression.
fn band_value(rt: &impl Print, mask: u64, at: usize, value: u64)
    requires { at < 9 }
{
    let _ = print!(rt; "band Set, mask {mask}, number {at} is {value}");
    let mut row = [5, 0, mask, 0, 0, 0, 0, 0, 0];
    row[at] = value;
    write_headed(rt, USUAL, &row, b"");
}

// Each column with a mask that names all others, and with one that names it alone.
fn band_values(rt: &impl Print) {
    for value in [1, 0] {
        for at in 3..8 {
            band_value(rt, 63 ^ 1 << (at - 3), at, value);
        }
    }
    for at in 3..8 {
        band_value(rt, 1 << (at - 3), at, 1);
    }
    band_value(rt, 32, 8, 0);
}

// A Set of band 0 whose expression has so many bytes.
fn expression(rt: &impl Print, title: &str, mask: u64, count: u64, tokens: &[u8]) {
    write(rt, title, &[5, 0, mask, 0, 0, 0, 0, 0, count], tokens);
}

fn expressions(rt: &impl Print) {
    expression(rt, "two expression bytes", 32, 2, b"\xF0\xF1");
    expression(rt, "no expression byte, named", 32, 0, b"");
    expression(rt, "no expression byte, not named", 0, 0, b"");
}

fn expressions_not_named(rt: &impl Print) {
    expression(rt, "two expression bytes, not named", 0, 2, b"\xF0\xF1");
    expression(
        rt,
        "two expression bytes, all else named",
        31,
        2,
        b"\xF0\xF1",
    );
}

// As many bytes as there may be, and more.
fn long_expressions(rt: &impl Print) {
    let most = [0xF0; 1_024];
    let more = [0xF0; 1_025];
    expression(rt, "1,024 expression bytes", 32, 1_024, &most);
    expression(rt, "1,024 expression bytes, not named", 31, 1_024, &most);
    expression(rt, "1,025 expression bytes", 32, 1_025, &more);
}

fn miscounted_expressions(rt: &impl Print) {
    let most = [0xF0; 1_024];
    let more = [0xF0; 1_025];
    expression(
        rt,
        "1,025 expression bytes said, 1,024 given",
        32,
        1_025,
        &most,
    );
    expression(
        rt,
        "1,024 expression bytes said, 1,025 given",
        32,
        1_024,
        &more,
    );
    expression(
        rt,
        "the greatest count of expression bytes",
        32,
        MOST,
        &more,
    );
    expression(rt, "the greatest count, not named", 0, MOST, b"");
}

// What the drive refuses when the script runs, and a script holds: values, rows, types and expressions.
fn refused_values(rt: &impl Print) {
    write(rt, "boolean 2", &[5, 0, 1, 2, 0, 0, 0, 0, 0], b"");
    write(rt, "enabled 2", &[4, 0, 1, 2, 0, 0, 0, 0, 0, 0], b"");
    write(
        rt,
        "fraction 1,000",
        &[4, 0, 4, 0, 0, 1000, 0, 0, 0, 0],
        b"",
    );
    write(rt, "LockOnReset 16", &[5, 0, 16, 0, 0, 0, 0, 16, 0], b"");
}

fn refused_rows(rt: &impl Print) {
    write(rt, "band 99", &[5, 99, 1, 1, 0, 0, 0, 0, 0], b"");
    write(rt, "sensor 99", &[1, 99, 0], b"");
    write(rt, "elapse of 2^32", &[2, 4_294_967_296], b"");
}

fn refused_types(rt: &impl Print) {
    write(rt, "reset of type 4", &[3, 4], b"");
    write(rt, "geometry of band 0", &[6, 0, 0, 1], b"");
    write(rt, "geometry past the end", &[6, 1, 1_001, 1], b"");
    write(rt, "transfer in direction 2", &[7, 2, 0, 1], b"");
}

fn refused_expressions(rt: &impl Print) {
    expression(rt, "broken tokens", 32, 3, b"\xF1\xF0\xF0");
    expression(
        rt,
        "AND alone",
        32,
        10,
        b"\xF0\xF2\xA4\x00\x00\x04\x0E\x00\xF3\xF1",
    );
}

// Writes fields that are cut at each place, from none of them to all.
fn cut(rt: &impl Print, title: &str, fields: &[u64], tokens: &[u8]) {
    let _ = print!(rt; "{title}, cut:");
    for count in 0..=fields.len() {
        let mut out = blanks();
        let written = script_writer::write(USUAL, &fields[..count], tokens, &mut out);
        let _ = print!(rt; " {}", answer::number(written));
    }
    let _ = println!(rt);
}

fn cuts(rt: &impl Print) {
    cut(rt, "reading", &[1, 0, 5], b"");
    cut(rt, "elapse", &[2, 5], b"");
    cut(rt, "reset", &[3, 0], b"");
}

fn cut_sensor_sets(rt: &impl Print) {
    cut(rt, "sensor Set", &[4, 0, 27, 1, 5, 0, 3, 5, 0, 0], b"");
    cut(
        rt,
        "sensor Set of nothing",
        &[4, 0, 0, 0, 0, 0, 0, 0, 0, 0],
        b"",
    );
}

fn cut_band_sets(rt: &impl Print) {
    cut(rt, "band Set", &[5, 0, 33, 1, 0, 0, 0, 0, 2], b"\xF0\xF1");
    cut(rt, "band Set of nothing", &[5, 0, 0, 0, 0, 0, 0, 0, 0], b"");
}

fn cut_spans(rt: &impl Print) {
    cut(rt, "geometry", &[6, 1, 100, 50], b"");
    cut(rt, "transfer", &[7, 0, 99, 2], b"");
}

fn cut_lists(rt: &impl Print) {
    cut(rt, "elapse and reading", &[2, 5, 1, 0, 5], b"");
    cut(rt, "document 01's script", &WORKED_FIELDS, &WORKED_TOKENS);
}

fn no_events(rt: &impl Print) {
    write(rt, "no event", &[], b"");
    write(rt, "no event, a token byte", &[], b"\xF0");
}

fn left_over_after_an_event(rt: &impl Print) {
    write(rt, "elapse", &[2, 5], b"");
    write(rt, "elapse, a number left over", &[2, 5, 0], b"");
    write(
        rt,
        "elapse, the start of another left over",
        &[2, 5, 2],
        b"",
    );
    write(rt, "elapse, a token byte left over", &[2, 5], b"\x00");
}

fn left_over_tokens(rt: &impl Print) {
    let row = [5, 0, 32, 0, 0, 0, 0, 0, 2];
    write(rt, "two token bytes said and given", &row, b"\xF0\xF1");
    write(rt, "a token byte left over", &row, b"\xF0\xF1\xF1");
    write(rt, "a token byte too few", &row, b"\xF0");
    write(rt, "no token byte", &row, b"");
}

fn two_sets(rt: &impl Print) {
    let rows = [5, 0, 32, 0, 0, 0, 0, 0, 2, 5, 1, 32, 0, 0, 0, 0, 0, 1];
    write(rt, "two Sets, three token bytes", &rows, b"\xF0\xF1\xF2");
    write(rt, "two Sets, two token bytes", &rows, b"\xF0\xF1");
    write(rt, "two Sets, four token bytes", &rows, b"\xF0\xF1\xF2\xF3");
}

fn one_bad_event(rt: &impl Print) {
    let rows = [5, 0, 32, 0, 0, 0, 0, 0, 2, 1, 0, 5, 8];
    write(rt, "a good event, and one that is not", &rows, b"\xF0\xF1");
}

// Writes into an output of so many bytes.
fn write_within(rt: &impl Print, title: &str, fields: &[u64], tokens: &[u8], room: usize)
    requires { room ≤ 1200 }
{
    let mut out = blanks();
    let written = script_writer::write(USUAL, fields, tokens, &mut out[..room]);
    let count = written.unwrap_or(0);
    let _ = println!(rt;
        "{title}, output of {room}: {} {count} {}",
        answer::number(written),
        kept(&out, count)
    );
}

fn outputs(rt: &impl Print) {
    write_within(
        rt,
        "document 01's script",
        &WORKED_FIELDS,
        &WORKED_TOKENS,
        0,
    );
    write_within(
        rt,
        "document 01's script",
        &WORKED_FIELDS,
        &WORKED_TOKENS,
        51,
    );
    write_within(
        rt,
        "document 01's script",
        &WORKED_FIELDS,
        &WORKED_TOKENS,
        52,
    );
    write_within(
        rt,
        "document 01's script",
        &WORKED_FIELDS,
        &WORKED_TOKENS,
        53,
    );
}

fn outputs_of_a_header(rt: &impl Print) {
    write_within(rt, "no event", &[], b"", 0);
    write_within(rt, "no event", &[], b"", 3);
    write_within(rt, "no event", &[], b"", 4);
}

fn wrong_and_short(rt: &impl Print) {
    write_within(rt, "kind 8", &[8, 0, 0, 0], b"", 0);
    write_within(rt, "a number left over", &[2, 5, 2], b"", 3);
    write_within(rt, "a token byte left over", &[2, 5], b"\x00", 5);
    write_within(
        rt,
        "a value not named",
        &[4, 0, 0, 1, 0, 0, 0, 0, 0, 0],
        b"",
        4,
    );
}

// Numbers that are all 2 are elapses of two ticks, each of two bytes: with the header's four, 65,536 bytes.
const LONG_FIELDS: usize = 65_532;

const LONGEST: usize = 65_536;

// One byte more than a script has.
const LONG_ROOM: usize = 65_537;

fn elapses() -> [u64; LONG_FIELDS]
    ensures { 65532 ≡ length result }
{
    [2; LONG_FIELDS]
}

fn long_blanks() -> [u8; LONG_ROOM]
    ensures { 65537 ≡ length result }
{
    [BLANK; LONG_ROOM]
}

// The bytes of the longest script.
fn longest() -> [u8; LONGEST] {
    let mut bytes = [2; LONGEST];
    bytes[0] = 0xE8;
    bytes[1] = 7;
    bytes[3] = 1;
    bytes
}

// Whether an output begins with the longest script.
fn is_longest(out: &[u8]) -> bool {
    let bytes = longest();
    first(out, LONGEST) == bytes.as_slice()
}

// Writes many events into an output of so many bytes.
fn write_long(rt: &impl Print, title: &str, fields: &[u64], room: usize)
    requires { room ≤ 65537 }
{
    let mut out = long_blanks();
    let written = script_writer::write(USUAL, fields, b"", &mut out[..room]);
    let count = written.unwrap_or(0);
    let _ = print!(rt;
        "{title}, output of {room}: {} {count}",
        answer::number(written)
    );
    if written.is_ok() {
        let _ = print!(rt; " {}", same(is_longest(&out)));
    }
    let _ = println!(rt; " {}", kept(&out, count));
}

fn long_scripts(rt: &impl Print) {
    let mut fields = elapses();
    write_long(rt, "65,536 bytes", &fields, 65_537);
    write_long(rt, "65,536 bytes", &fields, 65_536);
    write_long(rt, "65,536 bytes", &fields, 65_535);
    fields[65_531] = 128;
    write_long(rt, "65,537 bytes", &fields, 65_537);
    write_long(rt, "65,537 bytes", &fields, 65_536);
    write_long(rt, "65,537 bytes", &fields, 0);
}

fn print_read(rt: &impl Print, read: FlatScript, fields: &[u64], tokens: &[u8]) {
    let header = read.header;
    let _ = print!(rt;
        "; header {} {} {}; fields {}:",
        header.capacity, header.bands, header.sensors, read.fields
    );
    print_fields(rt, first(fields, read.fields));
    let _ = print!(rt; "; tokens {}: ", read.tokens);
    print_bytes(rt, first(tokens, read.tokens));
}

// Reads a script into so many numbers and bytes.
fn read_within(rt: &impl Print, title: &str, script: &[u8], width: usize, room: usize)
    requires { (width ≤ 64) × (room ≤ 1200) }
{
    let mut fields = blank_fields();
    let mut tokens = blanks();
    match script_reader::read(script, &mut fields[..width], &mut tokens[..room]) {
        Ok(read) => {
            let _ = print!(rt;
                "read {title}: 0 0 {} {}",
                kept_fields(&fields, read.fields),
                kept(&tokens, read.tokens)
            );
            print_read(rt, read, &fields, &tokens);
        }
        Err(error) => {
            let _ = print!(rt;
                "read {title}: {} {} {} {}",
                error.number(),
                error.place(),
                kept_fields(&fields, 0),
                kept(&tokens, 0)
            );
        }
    }
    let _ = println!(rt);
}

fn read(rt: &impl Print, title: &str, script: &[u8]) {
    read_within(rt, title, script, 64, 1_200);
}

fn good_scripts(rt: &impl Print) {
    read(rt, "document 01's script", &WORKED);
    read(rt, "no event", b"\xE8\x07\x02\x01");
}

fn good_sensor_sets(rt: &impl Print) {
    read(rt, "sensor Set of nothing", b"\xE8\x07\x02\x01\x04\x00\x00");
    read(
        rt,
        "sensor Set of all",
        b"\xE8\x07\x02\x01\x04\x00\x7F\x01\x02\x03\x04\x05\x06\x07",
    );
    read(
        rt,
        "sensor Set of every second column",
        b"\xE8\x07\x02\x01\x04\x00\x2A\x02\x04\x06",
    );
    read(
        rt,
        "sensor Set of the last column",
        b"\xE8\x07\x02\x01\x04\x00\x40\x07",
    );
}

fn good_band_sets(rt: &impl Print) {
    read(rt, "band Set of nothing", b"\xE8\x07\x02\x01\x05\x01\x00");
    read(
        rt,
        "band Set of all",
        b"\xE8\x07\x02\x01\x05\x01\x3F\x01\x02\x03\x04\x05\x02\xF0\xF1",
    );
    read(
        rt,
        "band Set of LockOnReset",
        b"\xE8\x07\x02\x01\x05\x01\x10\x07",
    );
    read(
        rt,
        "band Set of no expression byte",
        b"\xE8\x07\x02\x01\x05\x01\x20\x00",
    );
}

fn other_good_scripts(rt: &impl Print) {
    read(
        rt,
        "broken tokens",
        b"\xE8\x07\x02\x01\x05\x01\x20\x03\xF1\xF0\xF0",
    );
    read(
        rt,
        "the greatest reading",
        b"\xE8\x07\x02\x01\x01\x00\xFF\xFF\xFF\xFF\xFF\xFF\xFF\xFF\xFF\x01",
    );
    read(
        rt,
        "two Sets",
        b"\xE8\x07\x02\x01\x05\x00\x20\x02\xF0\xF1\x05\x01\x20\x01\xF2",
    );
}

fn bad_headers(rt: &impl Print) {
    read(rt, "no byte", b"");
    read(rt, "a cut header", b"\xE8\x07\x02");
    read(rt, "a cut capacity", b"\xE8");
    read(rt, "capacity 0", b"\x00\x02\x01");
    read(rt, "capacity 2^48", b"\x80\x80\x80\x80\x80\x80\x40\x02\x01");
    read(
        rt,
        "capacity 2^48 + 1",
        b"\x81\x80\x80\x80\x80\x80\x40\x02\x01",
    );
}

fn bad_counts(rt: &impl Print) {
    read(rt, "bands 0", b"\xE8\x07\x00\x01");
    read(rt, "bands 17", b"\xE8\x07\x11\x01");
    read(rt, "sensors 16", b"\xE8\x07\x02\x10");
    read(rt, "sensors 17", b"\xE8\x07\x02\x11");
    read(
        rt,
        "a bad header before a bad event",
        b"\xE8\x07\x02\x11\x08",
    );
}

fn bad_kinds(rt: &impl Print) {
    read(rt, "kind 0", b"\xE8\x07\x02\x01\x00");
    read(rt, "kind 8", b"\xE8\x07\x02\x01\x08\x00\x00\x00");
    read(
        rt,
        "kind 8 after an elapse",
        b"\xE8\x07\x02\x01\x02\x05\x08\x00\x00\x00",
    );
}

fn bad_numbers(rt: &impl Print) {
    read(rt, "a cut reading", b"\xE8\x07\x02\x01\x02\x05\x01\x00");
    read(rt, "a cut number", b"\xE8\x07\x02\x01\x02\x05\x02\x80");
    read(
        rt,
        "a number not in shortest form",
        b"\xE8\x07\x02\x01\x02\x05\x02\x85\x00",
    );
    read(
        rt,
        "a number of 2^64",
        b"\xE8\x07\x02\x01\x02\x80\x80\x80\x80\x80\x80\x80\x80\x80\x02",
    );
}

fn bad_sets(rt: &impl Print) {
    read(rt, "sensor mask 128", b"\xE8\x07\x02\x01\x04\x00\x80\x01");
    read(rt, "band mask 64", b"\xE8\x07\x02\x01\x05\x00\x40");
    read(
        rt,
        "1,025 expression bytes",
        b"\xE8\x07\x02\x01\x05\x00\x20\x81\x08",
    );
    read(
        rt,
        "cut expression bytes",
        b"\xE8\x07\x02\x01\x05\x00\x20\x02\xF0",
    );
    read(
        rt,
        "kind 8 after document 01's first Set",
        b"\xE8\x07\x02\x01\x04\x00\x1B\x01\x05\x03\x05\x08",
    );
}

fn overlong(rt: &impl Print) {
    let long = [2; LONG_ROOM];
    read(rt, "65,537 bytes", &long);
}

fn short_slices(rt: &impl Print) {
    read_within(rt, "document 01's script into 45 and 14", &WORKED, 45, 14);
    read_within(rt, "document 01's script into 44 and 14", &WORKED, 44, 14);
    read_within(rt, "document 01's script into 45 and 13", &WORKED, 45, 13);
    read_within(rt, "document 01's script into 44 and 13", &WORKED, 44, 13);
}

fn other_slices(rt: &impl Print) {
    read_within(rt, "document 01's script into none", &WORKED, 0, 0);
    read_within(rt, "document 01's script into 46 and 15", &WORKED, 46, 15);
    read_within(rt, "no event into none", b"\xE8\x07\x02\x01", 0, 0);
}

fn slices_for_an_elapse(rt: &impl Print) {
    read_within(
        rt,
        "an elapse into 2 and 0",
        b"\xE8\x07\x02\x01\x02\x05",
        2,
        0,
    );
    read_within(
        rt,
        "an elapse into 1 and 0",
        b"\xE8\x07\x02\x01\x02\x05",
        1,
        0,
    );
}

fn bad_and_short(rt: &impl Print) {
    read_within(rt, "a bad header into none", b"\xE8\x07\x02\x11", 0, 0);
    read_within(
        rt,
        "kind 8 after an elapse into none",
        b"\xE8\x07\x02\x01\x02\x05\x08",
        0,
        0,
    );
    read_within(
        rt,
        "kind 8 after an elapse into 2 and 0",
        b"\xE8\x07\x02\x01\x02\x05\x08",
        2,
        0,
    );
}

// The writer, by header and by event.
fn write_single_events(rt: &impl Print) {
    worked(rt);
    headers(rt);
    readings(rt);
    kinds(rt);
    later_kinds(rt);
    greatest(rt);
    greatest_sets(rt);
    masks(rt);
    sensor_values(rt);
    sensor_columns(rt);
    band_values(rt);
    expressions(rt);
    expressions_not_named(rt);
    long_expressions(rt);
    miscounted_expressions(rt);
    refused_values(rt);
    refused_rows(rt);
    refused_types(rt);
    refused_expressions(rt);
}

// The writer, by how much is given and how long the output is.
fn write_by_length(rt: &impl Print) {
    cuts(rt);
    cut_sensor_sets(rt);
    cut_band_sets(rt);
    cut_spans(rt);
    cut_lists(rt);
    no_events(rt);
    left_over_after_an_event(rt);
    left_over_tokens(rt);
    two_sets(rt);
    one_bad_event(rt);
    outputs(rt);
    outputs_of_a_header(rt);
    wrong_and_short(rt);
    long_scripts(rt);
}

fn read_scripts(rt: &impl Print) {
    good_scripts(rt);
    good_sensor_sets(rt);
    good_band_sets(rt);
    other_good_scripts(rt);
    bad_headers(rt);
    bad_counts(rt);
    bad_kinds(rt);
    bad_numbers(rt);
    bad_sets(rt);
    overlong(rt);
    short_slices(rt);
    other_slices(rt);
    slices_for_an_elapse(rt);
    bad_and_short(rt);
}

fn main(rt: HostRuntime) {
    write_single_events(&rt);
    write_by_length(&rt);
    read_scripts(&rt);
}
