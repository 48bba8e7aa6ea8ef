// Up to N values in place.
ghost use Rattle.std.specs.Prelude.{◌≡◌, ◌+◌, ◌==◌, ◌<◌, ◌≤◌, ⊤, [], ◌∷◌, ◌++◌, length};

use std::alloc::AllocError;

// Up to `N` values, in the order in which they came. The places behind them hold values that say nothing.
pub struct Bounded<T, const N: usize> {
    places: [T; N],
    len: usize,
    ghost few: { len ≤ N },
    ghost whole: { length places ≡ N },
}

impl<T: Copy, const N: usize> Clone for Bounded<T, N> {
    ghost is_clone = { λ x y. y ≡ x };

    ghost is_infallible = { λ _. ⊤ };

    fn clone(&self) -> Result<Self, AllocError> {
        Ok(*self)
    }
}

impl<T: Copy, const N: usize> Copy for Bounded<T, N> {}

impl<T: Copy, const N: usize> Bounded<T, N> {
    ghost use Rattle.bounded.specs.Items.{items};

    // No value yet; `blank` fills the places.
    pub fn new(blank: T) -> Self
        ensures { items result ≡ [] }
    {
        Bounded {
            places: [blank; N],
            len: 0,
        }
    }

    pub fn len(&self) -> usize
        ensures value { result ≡ length (items self.now) }
        ensures few { result ≤ N }
    {
        self.as_slice().len()
    }

    pub fn is_full(&self) -> bool
        ensures { result ≡ (length (items self.now) == N) }
    {
        self.len == N
    }

    pub fn as_slice(&self) -> &[T]
        ensures value { result.now ≡ items self.now }
        ensures few { length result.now ≤ N }
    {
        &self.places[..self.len]
    }

    // Appends a value, where there is room.
    pub fn push(&mut self, value: T)
        requires { length (items self.old) < N }
        ensures { items self.new ≡ items self.old ++ value ∷ [] }
    {
        self.places[self.len] = value;
        self.len += 1;
    }

    // Appends some values, where there is room for all.
    pub fn extend(&mut self, values: &[T])
        requires { length (items self.old) + length values.now ≤ N }
        ensures { items self.new ≡ items self.old ++ values.now }
    {
        let end = self.len + values.len();
        let places = &mut self.places[..];
        places[self.len..end].copy_from_slice(values);
        self.len = end;
    }
}
