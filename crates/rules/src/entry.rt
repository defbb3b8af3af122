// Table entries: storage objects, type controls and refinements.
ghost use Rattle.rules.specs.Operators.{has_parts};
ghost use Rattle.rules.specs.State.{kind_of, level_of, takes};
ghost use Rattle.std.specs.Prelude.{◌≡◌, Some};

use crate::kind::Kind;

/// A storage object: a run of block bytes with `slots` slots of four bytes below `base` and `bytes`
/// data bytes from it on.
#[derive(Clone, Copy, Debug, PartialEq, Eq)]
pub struct Storage {
    /// The address of its first data byte.
    pub base: u16,
    /// How many data bytes it has.
    pub bytes: u16,
    /// How many slots it has.
    pub slots: u16,
    /// Its type.
    pub kind: Kind,
    /// The level at which it was made, 0 for one that was placed.
    pub level: u8,
}

/// A type control: its holder may make objects of a type, or add rights to descriptors of that
/// type.
#[derive(Clone, Copy, Debug, PartialEq, Eq)]
pub struct TypeControl {
    /// The controlled type.
    pub kind: Kind,
    /// The rights that it adds, as the sum of their numbers.
    pub rights: u8,
}

/// A refinement: a part of a storage object, a run of its data bytes and a run of its slots.
#[derive(Clone, Copy, Debug, PartialEq, Eq)]
pub struct Refinement {
    /// The table of the storage object.
    pub table: u16,
    /// Its index there.
    pub index: u16,
    /// The first data byte shown.
    pub byte: u16,
    /// How many data bytes are shown.
    pub bytes: u16,
    /// The first slot shown.
    pub slot: u16,
    /// How many slots are shown.
    pub slots: u16,
    /// The level at which the refinement was made.
    pub level: u8,
}

/// An entry of a table.
#[derive(Clone, Copy, Debug, PartialEq, Eq)]
pub enum Entry {
    /// A storage object.
    Object(Storage),
    /// A type control.
    Control(TypeControl),
    /// A refinement.
    Refined(Refinement),
}

impl Entry {
    /// The type of an entry.
    #[inline(always)]
    pub fn kind(&self) -> Kind
        ensures { result ≡ kind_of self.now }
    {
        match self {
            Entry::Object(o) => o.kind,
            Entry::Control(_) => Kind::CONTROL,
            Entry::Refined(_) => Kind::GENERIC,
        }
    }

    /// The level at which an entry was made.
    #[inline(always)]
    pub fn level(&self) -> u8
        ensures { result ≡ level_of self.now }
    {
        match self {
            Entry::Object(o) => o.level,
            Entry::Control(_) => 0,
            Entry::Refined(r) => r.level,
        }
    }

    /// How many bytes of its block an entry takes.
    #[inline(always)]
    pub fn takes(&self) -> u32
        ensures { result ≡ takes self.now }
    {
        match self {
            Entry::Object(o) => 4 * o.slots as u32 + o.bytes as u32,
            Entry::Control(_) | Entry::Refined(_) => 0,
        }
    }

    /// Whether a refinement can show parts of it: a type control has none.
    #[inline(always)]
    pub fn has_parts(&self) -> bool
        ensures { result ≡ has_parts (Some self.now) }
    {
        !matches!(self, Entry::Control(_))
    }
}
