//! Why a message was not put into the queue.
use thiserror::Error;

/// Why a message was not put into the queue.
#[derive(Clone, Copy, Debug, PartialEq, Eq, Error)]
pub enum PushFault {
    /// As many messages wait as may, `limit`, or the bytes of those that wait and of this one pass
    /// 4,194,304.
    #[error("the queue is full: {limit} messages or 4194304 bytes may wait")]
    Full { limit: u32 },
    #[error("out of memory")]
    Memory,
}
