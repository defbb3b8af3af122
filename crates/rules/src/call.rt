// The calls of a store with their numbers, and what they answer. The bytes of a call stand beside
// it: what `Fill` and `Write` write, and the buffer that `Read` fills.

/// A load call: it comes before sealing.
#[derive(Clone, Copy, Debug, PartialEq, Eq)]
pub enum Load {
    /// Makes a storage object of level 0 in `table` (0 to 8), of `size` data bytes (0 to 2,048),
    /// `slots` slots (0 to 512) and the type `kind` (0, or 16 to 255).
    Place {
        table: u32,
        size: u32,
        slots: u32,
        kind: u32,
    },
    /// Makes a type control in `table` (0 to 8): it controls the type `kind` (16 to 255) and adds
    /// `rights` (0 to 63).
    Control {
        table: u32,
        kind: u32,
        rights: u32,
    },
    /// Loads the task `number` (1 to 8): makes its first context, of `slots` slots (4 to 64).
    Task {
        number: u32,
        slots: u32,
    },
    /// Writes a descriptor over a slot of the storage object `index` of `table`. It names the entry
    /// `named_index` of `named_table`, with `rights` (0 to 63).
    Grant {
        table: u32,
        index: u32,
        slot: u32,
        named_table: u32,
        named_index: u32,
        rights: u32,
    },
    /// Writes the bytes beside the call into the storage object `index` of `table`, from its data
    /// byte `offset` on.
    Fill {
        table: u32,
        index: u32,
        offset: u32,
    },
    /// Ends loading.
    Seal,
}

/// An operator: a task calls it after sealing. Numbers of 16 bits are selectors.
#[derive(Clone, Copy, Debug, PartialEq, Eq)]
pub enum Operator {
    /// Stores the descriptor of the source in the destination.
    Copy {
        source: u16,
        destination: u16,
    },
    /// Makes the destination null.
    Null {
        destination: u16,
    },
    /// Stores the descriptor of the source with those of its rights that are in `mask` (0 to 63).
    Restrict {
        source: u16,
        destination: u16,
        mask: u32,
    },
    /// Stores the descriptor of the source with the rights that a type control of its type adds.
    Amplify {
        control: u16,
        source: u16,
        destination: u16,
    },
    /// Makes a generic storage object of `size` data bytes (0 to 2,048) and `slots` slots (0 to
    /// 512), named in the destination.
    Create {
        destination: u16,
        size: u32,
        slots: u32,
    },
    /// Makes a storage object of the type that a type control controls.
    Typed {
        control: u16,
        destination: u16,
        size: u32,
        slots: u32,
    },
    /// Makes a refinement, named in the destination: of what the source shows, `bytes` data bytes
    /// from `byte` on and `slots` slots from `slot` on.
    Refine {
        source: u16,
        destination: u16,
        byte: u32,
        bytes: u32,
        slot: u32,
        slots: u32,
    },
    /// Fills the buffer beside the call with data bytes of the source from `offset` on.
    Read {
        source: u16,
        offset: u32,
    },
    /// Writes the bytes beside the call into the source from its data byte `offset` on.
    Write {
        source: u16,
        offset: u32,
    },
    /// Tells which entry the source names, and its rights. The slot may be null.
    See {
        source: u16,
    },
    /// Tells what the source shows.
    Look {
        source: u16,
    },
    /// Opens a context of `slots` slots (4 to 64) at the next level, with the argument, possibly
    /// null, in its slot 0.
    Call {
        argument: u16,
        slots: u32,
    },
    /// Ends the current level, with the result, possibly null, in slot 0 of the calling context.
    Return {
        res: u16,
    },
}

/// A call of a store. Each takes any numbers, and refuses those that the rules refuse.
#[derive(Clone, Copy, Debug, PartialEq, Eq)]
pub enum Call {
    /// A load call.
    Load(Load),
    /// An operator, called by a task (1 to 8).
    Operator { task: u32, operator: Operator },
}

/// What a call answers that is not refused.
#[derive(Clone, Copy, Debug, PartialEq, Eq)]
pub enum Answer {
    /// It is done.
    Done,
    /// `Place`, `Control` and `Task`: the index of what was made.
    Index(u32),
    /// `Read`: the buffer has been filled.
    Filled,
    /// `See`: the slot is null.
    Absent,
    /// `See`: the entry `index` of `table`, and the rights of its descriptor.
    Seen {
        table: u16,
        index: u16,
        rights: u8,
    },
    /// `Look`: the type and the level of an entry, and how many data bytes and slots it shows.
    Looked {
        kind: u8,
        bytes: u16,
        slots: u16,
        level: u8,
    },
}
