// Selectors: which slot an operand names.
ghost use Rattle.std.specs.Prelude.{◌≡◌, ◌+◌, ◌*◌, ◌<◌, ◌≤◌};

/// The selector of a slot of the current context.
pub const fn slot(number: u16) -> u16
    requires { number < 16384 }
    ensures { result ≡ 4 * number }
{
    slot_of(0, number)
}

/// The selector of a slot of what an environment shows: of what the descriptor in slot 1, 2 or 3 of
/// the current context names.
pub const fn slot_of(environment: u16, number: u16) -> u16
    requires environment { environment ≤ 3 }
    requires number { number < 16384 }
    ensures { result ≡ 4 * number + environment }
{
    4 * number + environment
}
