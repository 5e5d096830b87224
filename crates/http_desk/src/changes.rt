//! What changed in the map, for those who wait for it.

use crate::CHANGES;
use std::alloc::{AllocError, Global};
use tickets::Place;

/// A change: the place behind which it stands, and its key.
#[derive(Drop)]
pub(crate) struct Change {
    pub(crate) tag: Place,
    pub(crate) key: Vec<u8>,
}

/// The last changes of the map.
pub(crate) struct Changes {
    alloc: Global,
    // The place behind which they begin.
    first: Option<Place>,
    /// The place of the last change.
    pub(crate) last: Option<Place>,
    log: Vec<Change>,
}

impl Drop for Changes {
    fn drop(self) {
        let Changes {
            alloc: _,
            first: _,
            last: _,
            log: _,
        } = self;
    }
}

impl Changes {
    pub(crate) fn new(alloc: Global) -> Changes {
        Changes {
            alloc,
            first: None,
            last: None,
            log: Vec::new(alloc),
        }
    }

    /// All may have changed.
    pub(crate) fn begin(&mut self, tag: Place) {
        self.log.clear();
        self.last = Some(tag);
        self.first = self.last;
    }

    /// A key changed.
    pub(crate) fn note(&mut self, tag: Place, key: &[u8]) -> Result<(), AllocError> {
        let key = Vec::from_slice(self.alloc, key)?;
        if self.log.len() >= CHANGES {
            let oldest = self.log.remove(0);
            self.first = Some(oldest.tag);
        }
        let change = Change { tag, key };
        let last = change.tag;
        self.log.push(change)?;
        self.last = Some(last);
        Ok(())
    }

    /// What changed behind a place, the oldest first; `None` if that is not known, or not any more.
    pub(crate) fn since(&self, after: Option<&Place>) -> Option<&[Change]> {
        let tag = after?;
        let log = self.log.as_slice();
        if self.first.as_ref() == Some(tag) {
            return Some(log);
        }
        for (i, change) in log.iter().enumerate() {
            if change.tag == *tag {
                return log.get(i.saturating_add(1)..);
            }
        }
        None
    }
}
