// Which places call which procedures.

use call_graph::ProcId;
use std::alloc::{AllocError, Global};

/// An address of a procedure where another procedure is called.
#[derive(Clone, Copy, PartialEq, Eq)]
pub struct CallPlace {
    pub callee: ProcId,
    pub caller: ProcId,
    pub address: u16,
}

/// The places that call procedures, each once: by callee, then by caller, then by address.
#[derive(Drop)]
pub struct CallPlaces {
    places: Vec<CallPlace>,
}

impl CallPlaces {
    pub(crate) fn new(alloc: Global) -> CallPlaces {
        CallPlaces {
            places: Vec::new(alloc),
        }
    }

    pub(crate) fn add(&mut self, place: CallPlace) -> Result<(), AllocError> {
        self.places.push(place)?;
        Ok(())
    }

    /// Sorts the places and leaves each once.
    pub(crate) fn finish(&mut self) -> Result<(), AllocError> {
        self.places
            .sort_by_key(|place| (place.callee, place.caller, place.address))?;
        self.places.dedup();
        Ok(())
    }

    /// The places that call a procedure.
    pub fn of(&self, callee: ProcId) -> &[CallPlace] {
        let places = self.places.as_slice();
        let start = places.partition_point(|place| place.callee < callee);
        let behind = &places[start..];
        let count = behind.partition_point(|place| place.callee <= callee);
        &behind[..count]
    }
}
