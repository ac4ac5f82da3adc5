//! What threads may send and share.
use crate::{FileStatistics, FooterDeserializer, Postscript};

fn takes_shared<T: Send + Sync>(_value: &T) {}

/// Values of these types may be sent and shared between threads.
pub fn may_be_shared(
    statistics: &FileStatistics,
    postscript: &Postscript,
    deserializer: &FooterDeserializer,
) {
    takes_shared(statistics);
    takes_shared(postscript);
    takes_shared(deserializer);
}
