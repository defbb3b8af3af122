// Sets of tasks.
ghost use Rattle.std.specs.Prelude.{◌≡◌, ◌↔◌, true};
ghost use Rattle.sharing.specs.Sides.{is_in, side_of};

/// A set of tasks.
#[derive(Clone, Copy, Debug, PartialEq, Eq)]
pub enum Side {
    /// One task alone.
    Only(u32),
    /// All tasks but one.
    Others(u32),
}

impl Side {
    /// Whether a task is in the set.
    pub fn has(self, task: u32) -> bool
        ensures value { result ≡ is_in self task }
        ensures set { (result ≡ true) ↔ side_of self task }
    {
        match self {
            Side::Only(one) => task == one,
            Side::Others(one) => task != one,
        }
    }
}
