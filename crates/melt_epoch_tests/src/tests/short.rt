//! Short lists, for which no memory can lack.

/// How many items a list has at most. What is pushed further is left out.
const MOST: usize = 32;

/// A list of a few items.
#[derive(Clone, Copy)]
pub struct Short<T> {
    items: [T; MOST],
    count: usize,
}

impl<T: Copy> Short<T> {
    /// A list without items. The places of those to come have this one until then.
    pub fn new(blank: T) -> Short<T> {
        Short {
            items: [blank; MOST],
            count: 0,
        }
    }

    /// Adds an item.
    pub fn push(&mut self, item: T) {
        if let Some(place) = self.items.get_mut(self.count) {
            *place = item;
            self.count = self.count.saturating_add(1);
        }
    }

    /// Adds items.
    pub fn extend(&mut self, items: &[T]) {
        for item in items {
            self.push(*item);
        }
    }

    /// The items.
    pub fn as_slice(&self) -> &[T] {
        self.items.get(..self.count).unwrap_or(&[])
    }
}

/// The items of each of eight lists.
pub fn slices<T: Copy>(lists: &[Short<T>; 8]) -> [&[T]; 8] {
    let [a, b, c, d, e, f, g, h] = lists;
    [
        a.as_slice(),
        b.as_slice(),
        c.as_slice(),
        d.as_slice(),
        e.as_slice(),
        f.as_slice(),
        g.as_slice(),
        h.as_slice(),
    ]
}
