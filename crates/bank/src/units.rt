// The units of memory under a bank: which of them it uses, and where a run lies among them.
ghost use Rattle.std.specs.Prelude.{◌≡◌, ◌-◌, min};
ghost use Rattle.bank.specs.Units.{used};

const MOST: usize = 65536;

// How many units a bank uses of those lent to it.
#[inline(always)]
pub(crate) fn count(lent: usize) -> usize
    ensures { result ≡ min lent 65536 }
{
    lent.min(MOST)
}

// The units of those lent that a bank uses.
#[inline(always)]
pub(crate) fn used<T>(lent: &[T]) -> &[T]
    ensures { result.now ≡ used lent.now }
{
    &lent[..count(lent.len())]
}

// Where a run begins inside a bank, at its address or at the end, and how many bytes lie inside.
#[inline(always)]
pub(crate) fn clip(size: usize, address: u32, wanted: usize) -> (usize, usize)
    ensures from { result.0 ≡ min address size }
    ensures inside { result.1 ≡ min wanted (size - min address size) }
{
    let from = (address as usize).min(size);
    (from, wanted.min(size - from))
}
