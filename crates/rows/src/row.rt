// A row: up to `N` items one after the other, with the room for the others behind them.
ghost use Rattle.std.specs.Prelude.{⊤, ◌≡◌, ◌<◌, ◌≤◌, [], ◌∷◌, ◌++◌, length, take, slice_get, slice_set};

use std::alloc::AllocError;
use std::marker::Model;
use std::ops::DerefSlice;

// An array and a count, and no `Vec`, which would allocate, nor the kit's `ArrayVec`, which is not `Copy`.
pub struct Row<T: Copy, const N: usize> {
    cells: [T; N],
    count: usize,
}

impl<T: Copy, const N: usize> Model for Row<T, N> {
    ghost use Rattle.std.specs.Prelude.{◌≡◌, ◌≤◌, ◌++◌, length, take, drop};
    ghost use Rattle.std.proofs.Common.{arith, take-append-drop, length-take-le, ap, ◌∙◌};
    ghost use Rattle.rows.specs.Rows.{Row as Items, row_code};
    ghost use Rattle.rows.specs.declared.row.Row.TheInside.{Inside};

    ghost Value = { Items T };

    ghost coded = { row_code T.code };

    ghost view = { λ r. record { items = take r.count r.cells; spare = drop r.count r.cells } };

    ghost invariant = { λ r. (r.count ≤ N) × (length r.cells ≡ N) };

    ghost inverse = { λ r. record { cells = r.items ++ r.spare; count = length r.items } };

    ghost inverse_ok = { λ r h.
        ap (λ cells. record { cells = cells; count = length (take r.count r.cells) }) (take-append-drop r.count r.cells)
        ∙ ap (λ n. record { cells = r.cells; count = n }) (length-take-le r.count r.cells (omega (arith, h.0, h.1))) };
}

// By hand: what a derived `clone` gives is told item by item, and that it is the same row was not proved of it.
impl<T: Copy, const N: usize> Clone for Row<T, N> {
    ghost is_clone = { λ r s. s ≡ r };

    ghost is_infallible = { λ _. ⊤ };

    fn clone(&self) -> Result<Row<T, N>, AllocError> {
        Ok(*self)
    }
}

impl<T: Copy, const N: usize> Copy for Row<T, N> {}

// A row is read as a slice: `len`, an index and `iter` are those of its items.
impl<T: Copy, const N: usize> DerefSlice for Row<T, N> {
    type Elem = T;

    ghost deref_gives = { λ r xs. (xs ≡ r.items) × (length xs ≤ N) };

    fn deref(&self) -> &[T] {
        self.as_slice()
    }
}

impl<T: Copy, const N: usize> Row<T, N> {
    // A row without items, whose unused room holds `blank`.
    pub fn new(blank: T) -> Row<T, N>
        ensures { result.items ≡ [] }
    {
        Row {
            cells: [blank; N],
            count: 0,
        }
    }

    // The items.
    pub fn as_slice(&self) -> &[T]
        ensures value { result.now ≡ self.now.items }
        ensures fits { length result.now ≤ N }
    {
        &self.cells[..self.count]
    }

    // How many items there are.
    pub fn len(&self) -> usize
        ensures value { result ≡ length self.now.items }
        ensures fits { result ≤ N }
    {
        self.as_slice().len()
    }

    // The item at a place, if there is one, as a copy.
    pub fn item(&self, place: usize) -> Option<T>
        ensures value { result ≡ slice_get self.now.items place }
        ensures fits { length self.now.items ≤ N }
    {
        self.as_slice().get(place).copied()
    }

    // One item more, where there is room.
    pub fn push(&mut self, item: T)
        ensures room { length self.old.items < N → self.new.items ≡ self.old.items ++ item ∷ [] }
        ensures full { N ≤ length self.old.items → self.new.items ≡ self.old.items }
    {
        if self.count < N {
            self.cells[self.count] = item;
            self.count += 1;
        }
    }

    // Another item at a place, where there is one.
    pub fn set(&mut self, place: usize, item: T)
        ensures { self.new.items ≡ slice_set self.old.items place item }
    {
        if place < self.count {
            self.cells[place] = item;
        }
    }

    // Keeps the first items, so many at most.
    pub fn truncate(&mut self, most: usize)
        ensures { self.new.items ≡ take most self.old.items }
    {
        self.count = self.count.min(most);
    }

    // Holds the items of a list in place of its own, as many as there is room for.
    pub fn copy_from(&mut self, items: &[T])
        ensures first { self.new.items ≡ take N items.now }
        ensures all { length items.now ≤ N → self.new.items ≡ items.now }
    {
        let fits = items.len().min(N);
        self.cells[..fits].copy_from_slice(&items[..fits]);
        self.count = fits;
    }
}
