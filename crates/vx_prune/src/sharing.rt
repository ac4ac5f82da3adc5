//! What threads may send and share.
use crate::FileStatsLayoutReader;

fn takes_shared<T: Send + Sync>(_value: &T) {}

/// Each part of such a reader, the kept answers among them, may be sent and shared between threads.
pub fn may_be_shared(reader: &FileStatsLayoutReader) {
    takes_shared(&reader.child);
    takes_shared(&reader.stats);
    takes_shared(&reader.kept);
}
