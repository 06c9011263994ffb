//! A script, and the place in it that is read next.
#![tactic(auto)]

ghost use Rattle.std.specs.Prelude.{◌≡◌, ◌+◌, ◌↔◌, ◌≤◌, length, option_map, IfSome, IfNone, IsTrue};
ghost use Rattle.numbers.specs.Groups.{number_at};
ghost use Rattle.reader.specs.Places.{number_in, part_at};

/// A script, and the place in it that is read next. What does not read leaves the place as it was.
#[derive(Clone, Copy)]
pub struct Reader<'a> {
    pub script: &'a [u8],
    pub at: usize,
}

impl<'a> Reader<'a> {
    /// A reader at a place of a script.
    pub fn new(script: &'a [u8], at: usize) -> Reader<'a>
        ensures { (result.script ≡ script.entry) × (result.at ≡ at) }
    {
        Reader { script, at }
    }

    /// The number at the place, which moves on to the end of it; `None` where none stands there, and the place stays.
    pub fn number(&mut self) -> Option<u64>
        ensures script { self.new.script ≡ self.old.script }
        ensures number { number_in result self.new.at ≡ number_at self.old.script.now self.old.at }
        ensures stays { IfNone result (self.new.at ≡ self.old.at) }
    {
        let (value, next) = numbers::number_at(self.script, self.at)?;
        self.at = next;
        Some(value)
    }

    /// So many bytes at the place, as a part of the script itself; the place moves on to the end of them. `None` where they would not
    /// lie in the script, and the place stays.
    pub fn part(&mut self, count: usize) -> Option<&'a [u8]>
        ensures script { self.new.script ≡ self.old.script }
        ensures bytes { option_map (λ p. p.now) result ≡ part_at self.old.script.now self.old.at count }
        ensures moves { IfSome result (λ p. self.new.at ≡ self.old.at + count) }
        ensures stays { IfNone result (self.new.at ≡ self.old.at) }
    {
        let script = self.script;
        let from = self.at;
        if script.len() < from {
            return None;
        }
        if script.len() - from < count {
            return None;
        }
        self.at = from + count;
        Some(&script[from..from + count])
    }

    /// Whether the whole script has been read.
    pub fn is_at_end(&self) -> bool
        ensures { IsTrue result ↔ (length self.now.script.now ≤ self.now.at) }
    {
        self.script.len() <= self.at
    }
}
