//! The Level 0 discovery answer of the TCG's core specification, with the features of a locking drive: written of a drive, and read.
#![tactic(auto)]

ghost use Rattle.std.specs.Prelude.{◌≡◌, ◌*◌, ◌≤◌, List, [], ◌∷◌, ◌++◌, length, take};
ghost use Rattle.base.specs.Lists.{any};
ghost use Rattle.output.specs.Filling.{told_in, filled_by};
ghost use Rattle.discovery_answer.specs.Format.{
  Descriptor,
  in_two_bytes,
  header_bytes,
  answer_bytes,
  feature_version,
  feature_length,
  locking_feature,
  ranges_feature,
};
ghost use Rattle.discovery_answer.specs.Write.{closed, flags_of, discovery_of};
ghost use Rattle.discovery_answer.specs.Read.{descriptor_in, width_in, descriptors_in, features_of, is_feature, end_in, Shows};
ghost use Rattle.discovery_answer.specs.Answers.{ReadsBack};
ghost use Rattle.discovery_answer.specs.Parts.{shown_after, walked};

use answer::Refusal;
use band::{Row, Side};
use drive::Drive;

// The bytes of the header, and of its length field.
const HEADER: usize = 48;

const LENGTH_FIELD: usize = 4;

// The bytes of a descriptor before its content.
const DESCRIPTOR_HEAD: usize = 4;

/// The bytes of the answer that is written.
pub const BYTES: usize = 80;

const REVISION: u8 = 1;

// The two features: their codes, and the version, as the high half of its byte, and length that both have.
const LOCKING: u16 = 0x0002;

const RANGES: u16 = 0x0401;

const VERSION: u8 = 1;

const CONTENT: u8 = 12;

// Flags of the Locking feature that are written.
const LOCKING_SUPPORTED: u8 = 1;

const LOCKED: u8 = 4;

const MEDIA_ENCRYPTION: u8 = 8;

// The six flags that the Locking feature has lie below this.
const FLAGS: u8 = 64;

/// What is shown of an answer: whether each of the two features is there, and the flags of the Locking feature.
#[derive(Clone, Copy, Debug, Default, PartialEq, Eq)]
pub struct Features {
    pub locking: bool,
    pub ranges: bool,
    pub flags: u8,
}

// ---- the writer

// Whether some of the first rows has a side enabled and locked.
fn some_closed(rows: &[Row; 16], count: usize) -> bool
    ensures { result ≡ any closed (take count rows.now) }
{
    rows[..count.min(16)]
        .iter()
        .any(|row| row.closed(Side::Read) || row.closed(Side::Write))
}

#[tactic(auto, unfolding(crate::specs::Write::flags_of, crate::specs::Write::some_closed))]
fn flags_of(drive: &Drive) -> u8
    ensures { result ≡ flags_of drive.now }
{
    let locked = if some_closed(&drive.rows, drive.band_count) {
        LOCKED
    } else {
        0
    };
    LOCKING_SUPPORTED + MEDIA_ENCRYPTION + locked
}

// A feature's descriptor before its content.
fn head_of(code: u16) -> [u8; DESCRIPTOR_HEAD]
    ensures { result ≡ in_two_bytes code ++ feature_version * 16 ∷ feature_length ∷ [] }
{
    let [high, low] = code.to_be_bytes();
    [high, low, VERSION * 16, CONTENT]
}

#[tactic(auto, unfolding(crate::specs::Format::answer_bytes, crate::specs::Format::feature_bytes))]
// The answer's bytes, but for the flags always the same.
fn bytes_of(flags: u8) -> [u8; BYTES]
    ensures { result ≡ answer_bytes (locking_feature flags ∷ ranges_feature ∷ []) }
{
    let mut bytes = [0; BYTES];
    bytes[3] = (BYTES - LENGTH_FIELD) as u8;
    bytes[7] = REVISION;
    bytes[48..52].copy_from_slice(&head_of(LOCKING));
    bytes[52] = flags;
    bytes[64..68].copy_from_slice(&head_of(RANGES));
    bytes
}

#[tactic(auto, using(crate::proofs::Writing::filled_so))]
/// Writes the discovery answer of a drive from the output's start, and tells how many bytes it has. An output that is too short is left as it was.
pub fn write(drive: &Drive, out: &mut [u8]) -> Result<usize, Refusal>
    ensures out_after { told_in result out.new ≡ filled_by (discovery_of drive.now) out.old }
    ensures back { ReadsBack drive.now result out.new }
{
    output::fill(&bytes_of(flags_of(drive)), out)
}

// ---- the reader

// The bytes of the descriptor that begins the bytes.
fn width_in(bytes: &[u8]) -> usize
    ensures { result ≡ width_in bytes.now }
{
    DESCRIPTOR_HEAD + usize::from(bytes.get(3).copied().unwrap_or(0))
}

// Whether the descriptor that begins the bytes is of a feature.
fn is_feature(bytes: &[u8], code: u16) -> bool
    requires { width_in bytes.now ≤ length bytes.now }
    ensures { result ≡ is_feature code (descriptor_in bytes.now) }
{
    u16::from_be_bytes([bytes[0], bytes[1]]) == code
        && bytes[2] / 16 == VERSION
        && bytes[3] == CONTENT
}

impl Features {
    #[tactic(auto, using(crate::proofs::Walking::noting))]
    // What is shown after one descriptor more, the one that begins the bytes.
    fn noting(self, bytes: &[u8]) -> Features
        requires { width_in bytes.now ≤ length bytes.now }
        ensures { (fs : List Descriptor) → shown_after result fs ≡ shown_after self (descriptor_in bytes.now ∷ fs) }
    {
        if is_feature(bytes, LOCKING) {
            if self.locking {
                return self;
            }
            return Features {
                locking: true,
                flags: bytes[4] % FLAGS,
                ..self
            };
        }
        if is_feature(bytes, RANGES) {
            return Features {
                ranges: true,
                ..self
            };
        }
        self
    }
}

#[tactic(auto, using(crate::proofs::Walking::walking))]
// What the descriptors of the bytes show, up to the last byte.
fn features_in(bytes: &[u8]) -> Result<Features, Refusal>
    ensures { result ≡ walked (features_of []) (descriptors_in bytes.now) }
{
    let mut features = Features::default();
    let mut rest = bytes;
    while !rest.is_empty() {
        let width = width_in(rest);
        if rest.len() < width {
            return Err(Refusal::ShortAnswer);
        }
        features = features.noting(rest);
        rest = &rest[width..];
    }
    Ok(features)
}

// The end that the length field states.
fn end_in(bytes: &[u8]) -> usize
    requires { header_bytes ≤ length bytes.now }
    ensures { result ≡ end_in bytes.now }
{
    LENGTH_FIELD + u32::from_be_bytes([bytes[0], bytes[1], bytes[2], bytes[3]]) as usize
}

#[tactic(auto, using(crate::proofs::Reading::reading))]
/// Reads a discovery answer, which may be another drive's: what it shows. Bytes after its end are not looked at. A short answer is refused:
/// where its header, a descriptor or the end that it states lies past what is there, or that end inside the header.
pub fn read(bytes: &[u8]) -> Result<Features, Refusal>
    ensures { Shows bytes.now result }
{
    if bytes.len() < HEADER {
        return Err(Refusal::ShortAnswer);
    }
    let end = end_in(bytes);
    if bytes.len() < end || end < HEADER {
        return Err(Refusal::ShortAnswer);
    }
    features_in(&bytes[HEADER..end])
}
