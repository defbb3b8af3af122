// Lists of a bounded length that are `Copy`, since their spare places are blank.
ghost use Rattle.std.specs.Prelude.{◌≡◌, ◌-◌, ◌<◌, ◌≤◌, List, [], ◌∷◌, ◌++◌, length, reverse, take, OnSome};
ghost use Rattle.std.specs.List.{slice_get};

use std::fmt;
use std::marker::Model;

/// An item of a padded list, with the one that stands in a place that holds none.
pub trait Item: Copy {
    ghost blank: { Self };

    /// What stands in a place that holds no item.
    fn blank() -> Self
        ensures { result ≡ blank };

    // A copy of an item is the item.
    ghost infallible: { (x : Self) → Self.is_infallible x };

    ghost clones: { (x y : Self) → Self.is_clone x y → y ≡ x };
}

/// A list of at most `N` items, which lie in the value itself, and which is `Copy`.
//
// They are the first `count` of an array. The places past the end are blank, so that two lists of
// the same items are the same value, and a list can be copied.
#[derive(Clone, Copy)]
pub struct PaddedList<T: Item, const N: usize> {
    items: [T; N],
    count: usize,
}

impl<T: Item, const N: usize> Model for PaddedList<T, N> {
    ghost use Rattle.std.specs.Prelude.{◌≡◌, ◌-◌, ◌≤◌, ◌++◌, List, drop, length, replicate, take};
    ghost use Rattle.std.specs.Coded.{coded_list};
    ghost use Rattle.std.proofs.Common.{arith, ap, sym, ◌∙◌, take-append-drop, length-take-le};

    ghost Value = { List T };

    ghost coded = { coded_list T.code };

    ghost view = { λ l. take l.count l.items };

    ghost invariant = { λ l. (l.count ≤ N) × (length l.items ≡ N)
        × (drop l.count l.items ≡ replicate (N - l.count) T.blank) };

    ghost inverse = { λ d. record {
      items = d ++ replicate (N - length d) T.blank;
      count = length d;
    } };

    ghost inverse_ok = { λ l h i.
        let size : length (take l.count l.items) ≡ l.count =
        length-take-le l.count l.items (omega (arith, h.0, h.1)) in
        record {
          items = (ap (λ n. take l.count l.items ++ replicate (N - n) T.blank) size
              ∙ ap (λ xs. take l.count l.items ++ xs) (sym h.2)
              ∙ take-append-drop l.count l.items) i;
          count = size i;
        } };
}

impl<T: Item, const N: usize> PaddedList<T, N> {
    /// An empty list.
    pub fn new() -> PaddedList<T, N>
        ensures { result ≡ [] }
    {
        PaddedList {
            items: [T::blank(); N],
            count: 0,
        }
    }

    /// How many items it has.
    #[inline(always)]
    pub fn len(&self) -> usize
        ensures value { result ≡ length self.now }
        ensures within { result ≤ N }
    {
        self.count // of the items, not of the places
    }

    /// The item of an index, if there is one.
    #[inline(always)]
    pub fn get(&self, index: usize) -> Option<T>
        ensures value { result ≡ slice_get self.now index }
        ensures within { OnSome result (index < N) }
    {
        self.items[..self.count].get(index).copied()
    }

    /// The item that stands so many places before the last one, if there is one.
    #[inline(always)]
    pub fn from_end(&self, places: usize) -> Option<T>
        ensures { result ≡ slice_get (reverse self.now) places }
    {
        self.items[..self.count].iter().rev().nth(places).copied()
    }

    /// Adds an item behind the others, for which there must be a place.
    #[inline(always)]
    pub fn push(&mut self, item: T)
        requires { length self.old < N }
        ensures { self.new ≡ self.old ++ item ∷ [] }
    {
        self.items[self.count] = item;
        self.count += 1;
    }

    /// Drops the last item, if there is one.
    #[inline(always)]
    pub fn pop(&mut self)
        ensures { self.new ≡ take (length self.old - 1) self.old }
    {
        if self.count > 0 {
            self.count -= 1;
            self.items[self.count] = T::blank();
        }
    }

    /// Keeps the first items, so many.
    #[inline(always)]
    pub fn truncate(&mut self, count: usize)
        ensures { self.new ≡ take count self.old }
    {
        let kept = self.count.min(count);
        let places = &mut self.items[..];
        places[kept..self.count].fill(T::blank());
        self.count = kept;
    }
}

// The items, and not what stands in the places past the end.
impl<T: Item + fmt::Debug, const N: usize> fmt::Debug for PaddedList<T, N> {
    fn fmt<W: fmt::Write>(&self, f: &mut fmt::Formatter<W>) -> fmt::Result {
        f.debug_list().slice(&self.items[..self.count]).finish()
    }
}
