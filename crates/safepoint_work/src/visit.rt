//! What a bulk operation does with each biased object of its class that a lock record names.

/// What is done with such an object.
#[derive(Clone, Copy)]
pub enum Visit {
    /// Its mark gets this epoch, below 4, so that its bias stays valid.
    Renew { epoch: u8 },
    /// Its bias is revoked, and no new one allowed.
    Revoke,
}
