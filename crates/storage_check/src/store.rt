// One kind of item that is lent, and beside each item what should stand there.
use std::alloc::{AllocError, Global};
use std::ops::Range;

// What should stand at a place.
#[derive(Clone, Copy)]
struct Kept<T> {
    // what the last call left
    last: T,
    // what stood there first, for as long as no accepted call has touched it
    first: Option<T>,
}

// What stood at a place before the last call, and what stands there now.
#[derive(Clone, Copy)]
pub struct Change<T> {
    pub before: T,
    pub after: T,
}

// How many were compared, and how many of them were not the same.
#[derive(Clone, Copy, Default)]
pub struct Counted {
    pub all: u64,
    pub changed: u64,
}

impl Counted {
    // Items against what the last call left there: how many there are is told at once, so that a turn only compares.
    fn compare_all<T: Copy + PartialEq>(&mut self, items: &[T], kept: &[Kept<T>]) {
        let places = items.iter().zip(kept);
        let changed = places.filter(|(item, kept)| **item != kept.last).count();
        self.all = self.all.saturating_add(items.len() as u64);
        self.changed = self.changed.saturating_add(changed as u64);
    }

    fn compare<T: PartialEq>(&mut self, now: &T, then: &T) {
        self.all = self.all.saturating_add(1);
        if now != then {
            self.changed = self.changed.saturating_add(1);
        }
    }
}

#[derive(Drop)]
pub struct Store<T> {
    items: Vec<T>,
    // how many of them are lent; the others are compared too
    lent: usize,
    // beside the items, since a book is lent a row of items alone
    kept: Vec<Kept<T>>,
}

impl<T: Copy + PartialEq> Store<T> {
    pub fn new(heap: Global, items: Vec<T>) -> Result<Store<T>, AllocError> {
        let kept = items
            .iter()
            .map(|item| Kept {
                last: *item,
                first: Some(*item),
            })
            .collect(heap)?;
        let lent = items.len();
        Ok(Store { items, lent, kept })
    }

    pub fn lend(&mut self, lent: u16) {
        self.lent = usize::from(lent);
    }

    pub fn lent(&self) -> &[T] {
        let end = self.lent.min(self.items.len());
        &self.items[..end]
    }

    // The same to be written: what a call is lent to read it cannot write.
    pub fn lent_mut(&mut self) -> &mut [T] {
        let end = self.lent.min(self.items.len());
        &mut self.items[..end]
    }

    // None past the memory.
    pub fn at(&self, i: usize) -> Option<Change<T>> {
        let kept = self.kept.get(i)?;
        let item = self.items.get(i)?;
        Some(Change {
            before: kept.last,
            after: *item,
        })
    }

    // How many items are this one, before the last call and now.
    pub fn count(&self, item: T) -> Change<usize> {
        Change {
            before: self.kept.iter().filter(|kept| kept.last == item).count(),
            after: self.items.iter().filter(|now| **now == item).count(),
        }
    }

    // The items outside the touched places, against what the last call left: those before them and those behind, so that no item
    // is asked whether it is touched.
    pub fn others(&self, touched: &Range<usize>) -> Counted {
        let all = self.items.len().min(self.kept.len());
        let first = touched.start.min(all);
        let end = touched.end.clamp(first, all);
        let mut counted = Counted::default();
        counted.compare_all(&self.items[..first], &self.kept[..first]);
        counted.compare_all(&self.items[end..all], &self.kept[end..all]);
        counted
    }

    // The items that no accepted call touched, against what stood there first.
    pub fn untouched(&self) -> Counted {
        let mut counted = Counted::default();
        for (item, kept) in self.items.iter().zip(self.kept.iter()) {
            if let Some(first) = kept.first {
                counted.compare(item, &first);
            }
        }
        counted
    }

    // Takes over the touched places.
    pub fn follow(&mut self, touched: &Range<usize>) {
        let places = self.items.iter().zip(self.kept.iter_mut());
        for (item, kept) in places.skip(touched.start).take(touched.len()) {
            *kept = Kept {
                last: *item,
                first: None,
            };
        }
    }
}
