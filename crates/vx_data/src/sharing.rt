//! What threads may send and share.
use crate::{DType, FieldPath, Layout, LayoutContext, StatsSet, VortexSession};

fn takes_shared<T: Send + Sync>(_value: &T) {}

/// Values of these types may be sent and shared between threads.
pub fn may_be_shared(
    dtype: &DType,
    layout: &Layout,
    stats: &StatsSet,
    path: &FieldPath,
    session: &VortexSession,
    context: &LayoutContext,
) {
    takes_shared(dtype);
    takes_shared(layout);
    takes_shared(stats);
    takes_shared(path);
    takes_shared(session);
    takes_shared(context);
}
