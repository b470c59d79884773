ghost use Rattle.std.specs.Prelude.{◌≡◌, ◌<◌, ◌≤◌, [], length, take, insert};

use arrayvec::ArrayVec;
use std::marker::Model;

/// A list of at most `N` items over an `ArrayVec`, which contracts see as the list of its items.
///
/// It never takes memory.
#[derive(Drop)]
pub struct Few<T, const N: usize> {
    items: ArrayVec<T, N>,
}

/// One place for each of at most eight things: a code place for each spanning variable, or a
/// variable for each dimension of a table.
pub type Place = Few<u32, 8>;

impl<T, const N: usize> Model for Few<T, N> {
    ghost use Rattle.std.specs.Prelude.{List};
    ghost use Rattle.std.specs.Coded.{coded_list};

    ghost Value = { List T };

    ghost coded = { coded_list T.code };

    ghost view = { λ s. s.items.items };
}

impl<T, const N: usize> Few<T, N> {
    /// The list of an array's items.
    pub fn new(items: ArrayVec<T, N>) -> Few<T, N>
        ensures { result ≡ items.items }
    {
        Few { items }
    }

    /// The items, lent.
    pub fn as_slice(&self) -> &[T]
        ensures { result.now ≡ self.now }
    {
        self.items.as_slice()
    }

    /// How many items there are.
    pub fn len(&self) -> usize
        ensures len { result ≡ length self.now }
        ensures fits { result ≤ N }
    {
        self.items.len()
    }

    /// The array of the items.
    pub fn into_array(self) -> ArrayVec<T, N>
        ensures { result.items ≡ self }
    {
        self.items
    }
}

impl<T: Default + Drop, const N: usize> Few<T, N> {
    /// An empty list.
    pub fn empty() -> Few<T, N>
        ensures { result ≡ [] }
    {
        Few {
            items: ArrayVec::new(),
        }
    }

    /// Drops all items from `length` on.
    pub fn truncate(&mut self, length: usize)
        ensures { self.new ≡ take length self.old }
    {
        self.items.truncate(length);
    }

    /// Puts an item before the one that stands at `at`, or at the end where so many items stand there. There is
    /// room for one more.
    pub fn insert(&mut self, at: usize, item: T)
        requires place { at ≤ length self.old }
        requires room { length self.old < N }
        ensures { self.new ≡ insert self.old at item }
    {
        self.items.insert(at, item);
    }
}

impl<T: Copy + Default + Drop, const N: usize> Few<T, N> {
    /// A list of these items, of which there are at most `N`. They are copied.
    pub fn of(items: &[T]) -> Few<T, N>
        requires { length items.now ≤ N }
        ensures { result ≡ items.now }
    {
        let mut few = ArrayVec::new();
        for item in items {
            few.push(*item);
        }
        Few { items: few }
    }

    /// A list of the same items.
    pub fn copy(&self) -> Few<T, N>
        ensures { result ≡ self.now }
    {
        Few::of(self.items.as_slice())
    }
}
