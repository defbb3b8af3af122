// Lists of a bounded length, of items of any type that is `Copy`.
ghost use Rattle.std.specs.Prelude.{◌≡◌, ◌<◌, ◌≤◌, List, [], ◌∷◌, ◌++◌, length, reverse, take, OnSome};
ghost use Rattle.std.specs.List.{slice_get};

use std::fmt;
use std::marker::Model;

/// A list of at most `N` items, which lie in the value itself. Its items are of any type that is
/// `Copy`; it is not `Copy` itself, which a `PaddedList` is.
//
// They are the first `count` of an array. The items past the end are whatever was there, so that
// cutting the list costs nothing.
#[derive(Drop)]
pub struct BoundedList<T: Copy, const N: usize> {
    items: [T; N],
    count: usize,
}

impl<T: Copy, const N: usize> Model for BoundedList<T, N> {
    ghost use Rattle.std.specs.Prelude.{◌≡◌, ◌≤◌, List, length, take};
    ghost use Rattle.std.specs.Coded.{coded_list};

    ghost Value = { List T };

    ghost coded = { coded_list T.code };

    ghost view = { λ l. take l.count l.items };

    ghost invariant = { λ l. (l.count ≤ N) × (length l.items ≡ N) };
}

impl<T: Copy, const N: usize> BoundedList<T, N> {
    /// An empty list, whose places hold the given item.
    pub fn new(blank: T) -> BoundedList<T, N>
        ensures { result ≡ [] }
    {
        BoundedList {
            items: [blank; N],
            count: 0,
        }
    }

    /// How many items it has.
    #[inline(always)]
    pub fn len(&self) -> usize
        ensures value { result ≡ length self.now }
        ensures within { result ≤ N }
    {
        self.count // of the items, not of the places
    }

    /// The item of an index, if there is one.
    #[inline(always)]
    pub fn get(&self, index: usize) -> Option<T>
        ensures value { result ≡ slice_get self.now index }
        ensures within { OnSome result (index < N) }
    {
        self.items[..self.count].get(index).copied()
    }

    /// The item that stands so many places before the last one, if there is one.
    #[inline(always)]
    pub fn from_end(&self, places: usize) -> Option<T>
        ensures { result ≡ slice_get (reverse self.now) places }
    {
        self.items[..self.count].iter().rev().nth(places).copied()
    }

    /// Adds an item behind the others, for which there must be a place.
    #[inline(always)]
    pub fn push(&mut self, item: T)
        requires { length self.old < N }
        ensures { self.new ≡ self.old ++ item ∷ [] }
    {
        self.items[self.count] = item;
        self.count += 1;
    }

    /// Keeps the first items, so many.
    #[inline(always)]
    pub fn truncate(&mut self, count: usize)
        ensures { self.new ≡ take count self.old }
    {
        self.count = self.count.min(count);
    }
}

// The items, and not what stands in the places past the end.
impl<T: Copy + fmt::Debug, const N: usize> fmt::Debug for BoundedList<T, N> {
    fn fmt<W: fmt::Write>(&self, f: &mut fmt::Formatter<W>) -> fmt::Result {
        f.debug_list().slice(&self.items[..self.count]).finish()
    }
}

#[cfg(test)]
mod tests {
    use super::BoundedList;
    use std::test::Fail;

    #[test]
    fn a_list_of_letters_is_filled_and_cut(rt: HostRuntime) -> Result<(), Fail> {
        let mut letters: BoundedList<char, 3> = BoundedList::new('-');
        assert_eq!(rt; letters.len(), 0);
        assert_eq!(rt; letters.get(0), None);
        letters.push('a');
        letters.push('b');
        letters.push('c');
        assert_eq!(rt; letters.len(), 3);
        assert_eq!(rt; letters.get(1), Some('b'));
        assert_eq!(rt; letters.from_end(0), Some('c'));
        letters.truncate(1);
        assert_eq!(rt; letters.get(1), None);
        assert_eq!(rt; letters.from_end(0), Some('a'));
        let text = format!(in rt.alloc(); "{letters:?}")?;
        assert_eq!(rt; text.as_str(), "['a']");
        Ok(())
    }
}
