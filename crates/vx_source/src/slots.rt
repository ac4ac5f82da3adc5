//! Changes of one request or one read.
ghost use Rattle.std.specs.Prelude.{◌≡◌, ◌+◌, ◌-◌, ◌<◌, ◌≤◌, ◌++◌, ◌∷◌, [], Some, slice_get, vec_len, vec_capacity, IfSome, IfNone};
ghost use Rattle.vx_source.specs.Kept.{update, ended, one_more, one_less, marked};

use crate::request::{Newest, Request, SharedRead};
use vx_base::ByteBuffer;

/// Ends a request.
pub fn end_request(requests: &mut Vec<Request>, n: usize)
    ensures { requests.new.items ≡ update ended requests.old.items n }
{
    if n >= requests.len() {
        return;
    }
    requests[n].end();
}

/// A read has one request more.
pub fn add_user(reads: &mut Vec<SharedRead>, r: usize)
    ensures items { reads.new.items ≡ update one_more reads.old.items r }
    ensures len { vec_len reads.new ≡ vec_len reads.old }
    ensures capacity { vec_capacity reads.new ≡ vec_capacity reads.old }
{
    if r >= reads.len() {
        return;
    }
    reads[r].add_user();
}

/// A read has one request less. With the last one its bytes go.
pub fn remove_user(reads: &mut Vec<SharedRead>, r: usize)
    ensures { reads.new.items ≡ update one_less reads.old.items r }
{
    if r >= reads.len() {
        return;
    }
    reads[r].remove_user();
}

/// The last request of a read leaves with the read's bytes, if they are there.
pub fn take_bytes(reads: &mut Vec<SharedRead>, r: usize) -> Option<ByteBuffer>
    requires { (x : SharedRead) → slice_get reads.old.items r ≡ Some x → x.users ≤ 1 }
    ensures bytes { (x : SharedRead) → slice_get reads.old.items r ≡ Some x → result ≡ x.bytes }
    ensures taken { IfSome result (λ _. reads.new.items ≡ update one_less reads.old.items r) }
    ensures kept { IfNone result (reads.new.items ≡ reads.old.items) }
{
    if r >= reads.len() {
        return None;
    }
    reads[r].take_bytes()
}

/// A read was polled.
pub fn mark_polled(reads: &mut Vec<SharedRead>, r: usize)
    ensures { reads.new.items ≡ update marked reads.old.items r }
{
    if r >= reads.len() {
        return;
    }
    reads[r].mark_polled();
}

/// The newest read of a segment is another one.
pub fn put_newest(newest: &mut Vec<Newest>, s: usize, r: u64)
    requires { r < u64.MAX }
    ensures { newest.new.items ≡ update (λ _. Some r) newest.old.items s }
{
    if s >= newest.len() {
        return;
    }
    newest[s] = Newest::of(r);
}
