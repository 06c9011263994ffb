//! The drive: its state, the fresh one, settling, and the events as a script hands them over.
#![tactic(auto)]

ghost use Rattle.std.specs.Prelude.{◌≡◌, ◌<◌, true, false, IfOk, IfErr};
ghost use Rattle.base.specs.Rows.{is_row};
ghost use Rattle.expression.specs.Elements.{most_elements};
ghost use Rattle.drive.specs.State.{
  with_rows,
  with_spans,
  with_sensors,
  conditions_of,
  settle_of,
  header_fits,
  fresh_drive,
  Freshens,
};

use answer::Refusal;
use band::Row;
use band_columns::BandColumns;
use expression::Expression;
use geometry::Span;
use sensor::Sensor;
use sensor_set::SensorColumns;

/// What a script says of its drive before its events: any numbers, in range or not.
#[derive(Clone, Copy, Debug, PartialEq, Eq)]
pub struct Header {
    /// how many blocks the drive has
    pub capacity: u64,
    /// how many bands it has, band 0 among them
    pub bands: u64,
    /// how many sensors it has
    pub sensors: u64,
}

/// A drive's state: sixteen rows, spans and sensors, whatever the header counts. The first `band_count` and `sensor_count` of them are in use.
#[derive(Clone, Copy)]
pub struct Drive {
    /// how many blocks the drive has
    pub capacity: u64,
    /// how many bands are in use
    pub band_count: usize,
    /// how many sensors are in use
    pub sensor_count: usize,
    /// the bands' rows
    pub rows: [Row; 16],
    /// where the bands lie
    pub spans: [Span; 16],
    /// the sensors
    pub sensors: [Sensor; 16],
}

/// What the fresh call hands back.
// stays: (1) a refused header hands a drive back too, which a `Result` would not (`refused_header_keeps_a_sensor` says which)
#[derive(Clone, Copy)]
pub struct Fresh {
    /// 2 where the header is out of range
    pub answer: Result<(), Refusal>,
    /// the fresh drive of the header, or of one block, one band and no sensors
    pub drive: Drive,
}

/// An event with all its fields, any numbers.
#[derive(Clone, Copy)]
pub enum Event<'a> {
    /// a sensor's reading, in thousandths
    Reading {
        sensor: u64,
        value: u64,
    },
    /// time that passes
    Elapse {
        ticks: u64,
    },
    /// a reset of a type: 0 power cycle, 1 hardware, 2 hot plug, 3 programmatic
    Reset {
        reset_type: u64,
    },
    /// a Set of a sensor's columns
    SensorSet {
        sensor: u64,
        columns: SensorColumns,
    },
    /// a Set of a band's columns, with the bytes of its expression, which a Set that names none leaves unread
    BandSet {
        band: u64,
        columns: BandColumns,
        tokens: &'a [u8],
    },
    /// a band's new place
    Geometry {
        band: u64,
        span: Span,
    },
    /// a read (direction 0) or write (1) of a range of blocks
    Transfer {
        direction: u64,
        range: Span,
    },
}

impl Header {
    /// Whether a drive of this header is one that the rules allow.
    #[tactic(auto, unfolding(crate::specs::State::header_fits))]
    pub fn fits(self) -> bool
        ensures { result ≡ header_fits self.capacity self.bands self.sensors }
    {
        (1..=Drive::CAPACITY).contains(&self.capacity)
            && (1..=Drive::BANDS).contains(&self.bands)
            && self.sensors <= Drive::SENSORS
    }
}

impl Drive {
    /// The most bands, band 0 among them.
    pub const BANDS: u64 = 16;

    /// The most sensors.
    pub const SENSORS: u64 = 16;

    /// The most elements of a row's expression.
    pub const ELEMENTS: usize = Expression::ELEMENTS;

    /// The greatest capacity, 2^48 blocks.
    pub const CAPACITY: u64 = 281_474_976_710_656;

    /// How many elements a row's expression has room for.
    pub fn element_room() -> usize
        ensures { result ≡ most_elements }
    {
        Drive::ELEMENTS
    }

    /// The drive of a header with nothing stored.
    #[tactic(auto, unfolding(crate::specs::State::fresh_drive))]
    fn blank(header: Header) -> Drive
        ensures { result ≡ fresh_drive header.capacity header.bands header.sensors }
    {
        Drive {
            capacity: header.capacity,
            band_count: header.bands as usize,
            sensor_count: header.sensors as usize,
            rows: [Row::fresh(); 16],
            spans: [Span::none(); 16],
            sensors: [Sensor::fresh(); 16],
        }
    }

    /// The fresh drive of a header; answer 2 and one of capacity 1, one band and no sensors where the header is out of range.
    pub fn fresh(header: Header) -> Fresh
        ensures { Freshens header.capacity header.bands header.sensors result }
    {
        if header.fits() {
            return Fresh {
                answer: Ok(()),
                drive: Drive::blank(header),
            };
        }
        Fresh {
            answer: Err(Refusal::OutOfRange),
            drive: Drive::blank(Header {
                capacity: 1,
                bands: 1,
                sensors: 0,
            }),
        }
    }

    /// The same drive with other rows.
    // stays: (1) the edits rows_not_stored, spans_not_stored and sensors_not_stored name these three
    pub fn with_rows(self, rows: [Row; 16]) -> Drive
        ensures { result ≡ with_rows rows self }
    {
        Drive { rows, ..self }
    }

    /// The same drive with other spans.
    pub fn with_spans(self, spans: [Span; 16]) -> Drive
        ensures { result ≡ with_spans spans self }
    {
        Drive { spans, ..self }
    }

    /// The same drive with other sensors.
    pub fn with_sensors(self, sensors: [Sensor; 16]) -> Drive
        ensures { result ≡ with_sensors sensors self }
    {
        Drive { sensors, ..self }
    }

    /// The sixteen conditions, FALSE at and above the count.
    #[tactic(auto, unfolding(crate::specs::State::conditions_of))]
    pub fn conditions(&self) -> [bool; 16]
        ensures { result ≡ conditions_of self.now }
    {
        sensors::conditions(&self.sensors, self.sensor_count)
    }

    /// Settles the bands: a side that is enabled, under a TRUE expression, becomes locked. Only a lockable row can change.
    pub fn settle(&mut self)
        ensures { self.new ≡ settle_of self.old }
    {
        let conditions = self.conditions();
        for row in &mut self.rows {
            row.settle(&conditions);
        }
    }
}

/// The place of row `i` where the header counts `count` rows. Errors: `NoRow` where the row is not there.
pub fn place_of(count: usize, i: u64) -> Result<usize, Refusal>
    ensures ok { IfOk result (λ at. (is_row count i ≡ true) × (at ≡ i) × (at < 16)) }
    ensures none { IfErr result (λ r. (is_row count i ≡ false) × (r ≡ Refusal.NoRow)) }
{
    if 16 <= i || count as u64 <= i {
        return Err(Refusal::NoRow);
    }
    Ok(i as usize)
}
