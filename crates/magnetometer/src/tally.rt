// What a series of upsets did to a record.
ghost use Rattle.std.specs.Prelude.{◌≡◌, ◌+◌, min, max, if◌then◌else◌};

/// How many upsets changed a record, and how far the length of its field vector was read wrongly.
/// Each count stays at its greatest value once it is there.
#[derive(Clone, Copy, Debug)]
pub struct Tally {
    /// How many upsets there were.
    pub upsets: u32,
    /// How many of them changed the record.
    pub changes: u32,
    /// The least length of the field vector that was read, in nanotesla.
    pub least: u32,
    /// The greatest length that was read, in nanotesla.
    pub most: u32,
}

impl Tally {
    /// No upset yet; the field has the given length.
    pub fn new(length: u32) -> Tally
        ensures upsets { result.upsets ≡ 0 }
        ensures changes { result.changes ≡ 0 }
        ensures least { result.least ≡ length }
        ensures most { result.most ≡ length }
    {
        Tally {
            upsets: 0,
            changes: 0,
            least: length,
            most: length,
        }
    }

    /// Counts one upset more, whether it changed the record, and the length of the field read after
    /// it.
    pub fn note(&mut self, changed: bool, length: u32)
        ensures upsets { self.new.upsets ≡ min (self.old.upsets + 1) 4294967295 }
        ensures changes { self.new.changes
            ≡ (if changed then min (self.old.changes + 1) 4294967295 else self.old.changes) }
        ensures least { self.new.least ≡ min self.old.least length }
        ensures most { self.new.most ≡ max self.old.most length }
    {
        self.upsets = self.upsets.saturating_add(1);
        if changed {
            self.changes = self.changes.saturating_add(1);
        }
        self.least = self.least.min(length);
        self.most = self.most.max(length);
    }
}
