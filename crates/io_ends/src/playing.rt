//! Why serving the requests of a stream ended.

use crate::serving::ServeFault;

/// Why serving a stream ended. After an answer, `Broken` is checked first, then `Unframed`, then `Limit`.
#[derive(Clone, Copy, Debug, PartialEq, Eq)]
pub enum PlayEnd {
    /// The input ended before any byte of a request.
    End,
    /// The last request can't be split into head and body, so it isn't known where the next one begins.
    Unframed,
    /// The last answer has the status 500. Its request's change may still be found at the next start.
    Broken,
    /// 1,000,000 requests were answered.
    Limit,
    /// The last request has no whole answer, for this reason.
    Fault(ServeFault),
}
