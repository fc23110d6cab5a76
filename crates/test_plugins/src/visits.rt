//! A register of a host.

use liquid_runtime::Fresh;

/// A number of visits, as a register of the host's own.
#[derive(Drop)]
pub struct Visits {
    pub count: u8,
}

impl Fresh for Visits {
    type Shape = Visits;

    ghost shape = { λ visits. visits };

    ghost fresh = { record { count = 0 } };

    fn fresh() -> Visits {
        Visits { count: 0 }
    }
}
