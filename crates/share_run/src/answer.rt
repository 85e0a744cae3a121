use crate::status::ShareStatus;
use shared_edit::Closed;

/// How a share ended, and what was closed. Its engine is to be ended by `Engine::end`.
pub struct Share {
    pub status: ShareStatus,
    pub closed: Option<Closed>,
}
