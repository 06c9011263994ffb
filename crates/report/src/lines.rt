//! Lines written from an output's start: each function tells how many bytes it wrote, and wants room for them, which the listing shows before it
//! calls.
ghost use Rattle.std.specs.Prelude.{◌≡◌, ◌≤◌, ◌∷◌, length};
ghost use Rattle.base.specs.Lists.{one_if};
ghost use Rattle.band.specs.Rows.{value_in};
ghost use Rattle.report.specs.Lines.{
  decimal,
  line,
  event_line,
  event_lines,
  band_line,
  band_lines,
  sensor_line,
  sensor_lines,
  drive_lines,
};
ghost use Rattle.report.specs.Parts.{Puts, Room};

use band::Row;
use drive::Drive;
use itoa::Buffer;
use sensor::Sensor;

#[tactic(auto, using(crate::proofs::Putting::number_put, crate::proofs::Putting::digit_room))]
/// Writes a number. Most numbers of a listing have one digit, which is written straight.
fn put_number(out: &mut [u8], n: u64) -> usize
    requires { Room (decimal n) out.old }
    ensures { Puts (decimal n) out.old result out.new }
{
    if n < 10 {
        out[0] = b'0' + n as u8;
        return 1;
    }
    let mut buffer = Buffer::new();
    let digits = buffer.format(n).as_bytes();
    out[..digits.len()].copy_from_slice(digits);
    digits.len()
}

#[tactic(auto, using(crate::proofs::Putting::puts_one, crate::proofs::Putting::next_bound))]
/// Writes a number after a space.
fn put_field(out: &mut [u8], n: u64) -> usize
    requires { Room (32 ∷ decimal n) out.old }
    ensures { Puts (32 ∷ decimal n) out.old result out.new }
{
    out[0] = b' ';
    1 + put_number(&mut out[1..], n)
}

#[tactic(auto, using(crate::proofs::Putting::letter_room, crate::proofs::Putting::line_begin, crate::proofs::Putting::field_bound, crate::proofs::Putting::line_again))]
/// Writes a line: its letter, each number after a space, and a line feed.
pub fn put_line(out: &mut [u8], letter: u8, numbers: &[u64]) -> usize
    requires { Room (line letter numbers.now) out.old }
    ensures { Puts (line letter numbers.now) out.old result out.new }
{
    out[0] = letter;
    let mut at = 1;
    for &n in numbers {
        at += put_field(&mut out[at..], n);
    }
    out[at] = b'\n';
    at + 1
}

fn put_event(out: &mut [u8], index: usize, answer: u8, stops: u8) -> usize
    requires { Room (event_line index answer stops) out.old }
    ensures { Puts (event_line index answer stops) out.old result out.new }
{
    put_line(
        out,
        b'e',
        &[index as u64, u64::from(answer), u64::from(stops)],
    )
}

#[tactic(auto, using(crate::proofs::Putting::lines_bound, crate::proofs::Putting::lines_room))]
/// Writes a line for each of so many events.
pub fn put_events(out: &mut [u8], answers: &[u8], stops: &[u8], count: usize) -> usize
    requires { (Room (event_lines answers.now stops.now count) out.old) × (count ≤ length answers.now) × (count ≤ length stops.now) }
    ensures { Puts (event_lines answers.now stops.now count) out.old result out.new }
{
    let mut at = 0;
    // stays: (4) each turn reads one place of both buffers, whose first `count` bytes are meant
    for index in 0..count {
        at += put_event(&mut out[at..], index, answers[index], stops[index]);
    }
    at
}

fn put_band(out: &mut [u8], number: usize, row: &Row, conditions: &[bool; 16]) -> usize
    requires { Room (band_line number row.now (value_in conditions.now row.now)) out.old }
    ensures { Puts (band_line number row.now (value_in conditions.now row.now)) out.old result out.new }
{
    let value = row.value(conditions);
    put_line(
        out,
        b'b',
        &[
            number as u64,
            u64::from(row.read_locked),
            u64::from(row.write_locked),
            u64::from(value.is_true()),
        ],
    )
}

#[tactic(auto, using(crate::proofs::Putting::lines_bound))]
fn put_bands(out: &mut [u8], rows: &[Row; 16], conditions: &[bool; 16], count: usize) -> usize
    requires { (Room (band_lines conditions.now rows.now count) out.old) × (count ≤ 16) }
    ensures { Puts (band_lines conditions.now rows.now count) out.old result out.new }
{
    let mut at = 0;
    for (number, row) in rows[..count].iter().enumerate() {
        at += put_band(&mut out[at..], number, row, conditions);
    }
    at
}

fn put_sensor(out: &mut [u8], number: usize, sensor: &Sensor) -> usize
    requires { Room (sensor_line number sensor.now) out.old }
    ensures { Puts (sensor_line number sensor.now) out.old result out.new }
{
    put_line(
        out,
        b's',
        &[
            number as u64,
            u64::from(sensor.level),
            u64::from(sensor.phase.number()),
            u64::from(sensor.condition),
            u64::from(sensor.timer),
        ],
    )
}

#[tactic(auto, using(crate::proofs::Putting::lines_bound))]
fn put_sensors(out: &mut [u8], sensors: &[Sensor; 16], count: usize) -> usize
    requires { (Room (sensor_lines sensors.now count) out.old) × (count ≤ 16) }
    ensures { Puts (sensor_lines sensors.now count) out.old result out.new }
{
    let mut at = 0;
    for (number, sensor) in sensors[..count].iter().enumerate() {
        at += put_sensor(&mut out[at..], number, sensor);
    }
    at
}

#[tactic(auto, using(crate::proofs::Putting::first_room, crate::proofs::Putting::next_bound, crate::proofs::Putting::next_room, crate::proofs::Putting::next_put))]
/// Writes the lines of the bands and of the sensors that a drive counts.
pub fn put_drive(out: &mut [u8], drive: &Drive) -> usize
    requires { (Room (drive_lines drive.now.band_count drive.now.sensor_count drive.now) out.old) × (drive.now.band_count ≤ 16) × (drive.now.sensor_count ≤ 16) }
    ensures { Puts (drive_lines drive.now.band_count drive.now.sensor_count drive.now) out.old result out.new }
{
    let at = put_bands(out, &drive.rows, &drive.conditions(), drive.band_count);
    at + put_sensors(&mut out[at..], &drive.sensors, drive.sensor_count)
}
