//! One event of a script: its kind and its fields, read one after the other.
#![tactic(auto)]

ghost use Rattle.std.specs.Prelude.{◌≡◌};
ghost use Rattle.reader.specs.Places.{number_in};
ghost use Rattle.event_reader.specs.Fields.{column_at, first_columns_at, expression_at, reading_at, elapse_at, reset_at, sensor_set_at, band_set_at, geometry_at, transfer_at, event_at, Reads};
ghost use Rattle.event_reader.specs.Parts.{five_in, part_in, part_of, brief_in, brief};

use band_columns::BandColumns;
use drive::Event;
use geometry::Span;
use reader::Reader;
use sensor_set::SensorColumns;

/// The column of a bit, where the mask names it; else 0, which takes no bytes.
fn column(reader: &mut Reader<'_>, mask: u64, bit: u64) -> Option<u64>
    ensures script { reader.new.script ≡ reader.old.script }
    ensures column { number_in result reader.new.at ≡ column_at reader.old.script.now reader.old.at mask bit }
{
    if base::names(mask, bit) {
        return reader.number();
    }
    Some(0)
}

/// The columns of bits 1 to 16, by rising bit, with which the values of either Set begin.
#[tactic(auto, unfolding(crate::specs::Fields::first_columns_at))]
fn first_columns(reader: &mut Reader<'_>, mask: u64) -> Option<[u64; 5]>
    ensures script { reader.new.script ≡ reader.old.script }
    ensures columns { five_in result reader.new.at ≡ first_columns_at reader.old.script.now reader.old.at mask }
{
    let first = column(reader, mask, 1)?;
    let second = column(reader, mask, 2)?;
    let third = column(reader, mask, 4)?;
    let fourth = column(reader, mask, 8)?;
    let fifth = column(reader, mask, 16)?;
    Some([first, second, third, fourth, fifth])
}

#[tactic(auto, unfolding(crate::specs::Fields::reading_at))]
fn reading<'a>(reader: &mut Reader<'a>) -> Option<Event<'a>>
    ensures script { reader.new.script ≡ reader.old.script }
    ensures event { brief_in result reader.new.at ≡ brief (reading_at reader.old.script.now reader.old.at) }
{
    let sensor = reader.number()?;
    let value = reader.number()?;
    Some(Event::Reading { sensor, value })
}

#[tactic(auto, unfolding(crate::specs::Fields::elapse_at))]
fn elapse<'a>(reader: &mut Reader<'a>) -> Option<Event<'a>>
    ensures script { reader.new.script ≡ reader.old.script }
    ensures event { brief_in result reader.new.at ≡ brief (elapse_at reader.old.script.now reader.old.at) }
{
    let ticks = reader.number()?;
    Some(Event::Elapse { ticks })
}

#[tactic(auto, unfolding(crate::specs::Fields::reset_at))]
fn reset<'a>(reader: &mut Reader<'a>) -> Option<Event<'a>>
    ensures script { reader.new.script ≡ reader.old.script }
    ensures event { brief_in result reader.new.at ≡ brief (reset_at reader.old.script.now reader.old.at) }
{
    let reset_type = reader.number()?;
    Some(Event::Reset { reset_type })
}

#[tactic(auto, unfolding(crate::specs::Fields::sensor_set_at))]
fn sensor_set<'a>(reader: &mut Reader<'a>) -> Option<Event<'a>>
    ensures script { reader.new.script ≡ reader.old.script }
    ensures event { brief_in result reader.new.at ≡ brief (sensor_set_at reader.old.script.now reader.old.at) }
{
    let sensor = reader.number()?;
    let mask = reader.number()?;
    if SensorColumns::MASKS <= mask {
        return None;
    }
    let [
        enabled,
        on_threshold,
        on_fraction,
        on_timeout,
        off_threshold,
    ] = first_columns(reader, mask)?;
    let off_fraction = column(reader, mask, 32)?;
    let off_timeout = column(reader, mask, 64)?;
    let columns = SensorColumns {
        mask,
        enabled,
        on_threshold,
        on_fraction,
        on_timeout,
        off_threshold,
        off_fraction,
        off_timeout,
    };
    Some(Event::SensorSet { sensor, columns })
}

/// An expression's bytes, at most 1,024, where the mask names it; else no bytes.
fn expression<'a>(reader: &mut Reader<'a>, mask: u64) -> Option<&'a [u8]>
    ensures script { reader.new.script ≡ reader.old.script }
    ensures bytes { part_in result reader.new.at ≡ part_of reader.old.script.now (expression_at reader.old.script.now reader.old.at mask) }
{
    if base::names(mask, 32) {
        let size = reader.number()?;
        let most = token_reader::MOST_BYTES as u64;
        if most < size {
            return None;
        }
        return reader.part(size as usize);
    }
    Some(&[])
}

#[tactic(auto, unfolding(crate::specs::Fields::band_set_at))]
fn band_set<'a>(reader: &mut Reader<'a>) -> Option<Event<'a>>
    ensures script { reader.new.script ≡ reader.old.script }
    ensures event { brief_in result reader.new.at ≡ brief (band_set_at reader.old.script.now reader.old.at) }
{
    let band = reader.number()?;
    let mask = reader.number()?;
    if BandColumns::MASKS <= mask {
        return None;
    }
    let [
        read_lock_enabled,
        write_lock_enabled,
        read_locked,
        write_locked,
        lock_on_reset,
    ] = first_columns(reader, mask)?;
    let tokens = expression(reader, mask)?;
    let columns = BandColumns {
        mask,
        read_lock_enabled,
        write_lock_enabled,
        read_locked,
        write_locked,
        lock_on_reset,
    };
    Some(Event::BandSet {
        band,
        columns,
        tokens,
    })
}

#[tactic(auto, unfolding(crate::specs::Fields::geometry_at))]
fn geometry<'a>(reader: &mut Reader<'a>) -> Option<Event<'a>>
    ensures script { reader.new.script ≡ reader.old.script }
    ensures event { brief_in result reader.new.at ≡ brief (geometry_at reader.old.script.now reader.old.at) }
{
    let band = reader.number()?;
    let start = reader.number()?;
    let length = reader.number()?;
    Some(Event::Geometry {
        band,
        span: Span { start, length },
    })
}

#[tactic(auto, unfolding(crate::specs::Fields::transfer_at))]
fn transfer<'a>(reader: &mut Reader<'a>) -> Option<Event<'a>>
    ensures script { reader.new.script ≡ reader.old.script }
    ensures event { brief_in result reader.new.at ≡ brief (transfer_at reader.old.script.now reader.old.at) }
{
    let direction = reader.number()?;
    let start = reader.number()?;
    let length = reader.number()?;
    Some(Event::Transfer {
        direction,
        range: Span { start, length },
    })
}

/// The fields of an event, by its kind.
#[tactic(auto, unfolding(crate::specs::Fields::event_at))]
fn fields<'a>(reader: &mut Reader<'a>) -> Option<Event<'a>>
    ensures script { reader.new.script ≡ reader.old.script }
    ensures event { brief_in result reader.new.at ≡ brief (event_at reader.old.script.now reader.old.at) }
{
    // stays: (4) a script's kinds are these numbers, and each stands once, beside what reads it
    match reader.number()? {
        1 => reading(reader),
        2 => elapse(reader),
        3 => reset(reader),
        4 => sensor_set(reader),
        5 => band_set(reader),
        6 => geometry(reader),
        7 => transfer(reader),
        _ => None,
    }
}

/// The event at the reader's place, an expression's bytes as a part of the script itself; the reader moves on to the end of it. `None`
/// where none reads there, and the reader stays as it was.
pub fn event<'a>(reader: &mut Reader<'a>) -> Option<Event<'a>>
    ensures script { reader.new.script ≡ reader.old.script }
    ensures event { Reads reader.old.script.now (event_at reader.old.script.now reader.old.at) reader.old.at result reader.new.at }
{
    let at = reader.at;
    let event = fields(reader);
    if event.is_none() {
        reader.at = at;
    }
    event
}
