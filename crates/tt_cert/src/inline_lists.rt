//! A few values that lie in the value itself, and are copied whole.

ghost use Rattle.std.specs.Prelude.{◌≡◌, ◌<◌, ◌≤◌, [], ◌∷◌, ◌++◌, length};

use std::fmt;
use std::marker::Model;

/// At most `N` values, at the front of an array.
#[derive(Drop)]
pub(crate) struct InlineList<T, const N: usize> {
    array: [T; N],
    count: usize,
}

impl<T, const N: usize> Model for InlineList<T, N> {
    ghost use Rattle.std.specs.Prelude.{◌≡◌, ◌≤◌, List, length, take};
    ghost use Rattle.std.specs.Coded.{coded_list};

    ghost Value = { List T };

    ghost coded = { coded_list T.code };

    ghost view = { λ list. take list.count list.array };

    ghost invariant = { λ list. (list.count ≤ N) × (length list.array ≡ N) };
}

impl<T, const N: usize> InlineList<T, N> {
    /// How many there are.
    pub(crate) fn len(&self) -> usize
        ensures { result ≡ length self.now }
    {
        self.count
    }

    /// The values, in order.
    pub(crate) fn as_slice(&self) -> &[T]
        ensures value { result.now ≡ self.now }
        ensures few { length result.now ≤ N }
    {
        &self.array[..self.count]
    }
}

impl<T: Copy, const N: usize> InlineList<T, N> {
    /// Puts one more behind the others.
    pub(crate) fn push(&mut self, item: T)
        requires { length self.old < N }
        ensures { self.new ≡ self.old ++ item ∷ [] }
    {
        let count = self.count;
        self.array[count] = item;
        self.count = count + 1;
    }

    /// The same values.
    pub(crate) fn copied(&self) -> InlineList<T, N>
        ensures { result ≡ self.now }
    {
        InlineList {
            array: self.array,
            count: self.count,
        }
    }
}

impl<T: Copy + Default, const N: usize> InlineList<T, N> {
    /// No values yet.
    pub(crate) fn new() -> InlineList<T, N>
        ensures { result ≡ [] }
    {
        InlineList {
            array: [T::default(); N],
            count: 0,
        }
    }

    /// These values.
    pub(crate) fn of(items: &[T]) -> InlineList<T, N>
        requires { length items.now ≤ N }
        ensures { result ≡ items.now }
    {
        let mut list = InlineList::new();
        for item in items {
            list.push(*item);
        }
        list
    }
}

impl<T: fmt::Debug, const N: usize> fmt::Debug for InlineList<T, N> {
    fn fmt<W: fmt::Write>(&self, f: &mut fmt::Formatter<W>) -> fmt::Result {
        f.debug_list().entries(self.as_slice()).finish()
    }
}
