//! The digits of numbers, put into cells behind the bytes at their front.
//!
//! Where those bytes end is handed on from digit to digit, since it would be read and written again for each if it stood
//! beside the cells.
ghost use Rattle.std.specs.Prelude.{◌≡◌, ◌+◌, ◌<◌, ◌≤◌, ◌∷◌, [], decimal};
ghost use Rattle.vx_text.specs.Digits.{pair_text, four_text, Puts};

use crate::room::ROOM;

/// The digits of the numbers below 100, two for each.
static PAIRS: [u8; 200] =
    *b"00010203040506070809101112131415161718192021222324252627282930313233343536373839404142434445464748495051525354555657585960616263646566676869707172737475767778798081828384858687888990919293949596979899";

/// Puts a byte.
#[inline(always)]
pub(crate) fn put_one(byte: u8, cells: &mut [u8; ROOM], end: usize) -> usize
    requires { end < 32768 }
    ensures puts { Puts (byte ∷ []) end cells.old result cells.new }
    ensures end { result ≡ end + 1 }
{
    cells[end] = byte;
    end + 1
}

/// Puts two digits.
#[inline(always)]
fn put_pair(pair: u64, cells: &mut [u8; ROOM], end: usize) -> usize
    requires small { pair < 100 }
    requires room { end + 2 ≤ 32768 }
    ensures puts { Puts (pair_text pair) end cells.old result cells.new }
    ensures end { result ≡ end + 2 }
{
    let at = pair as usize * 2;
    let behind = put_one(PAIRS[at], cells, end);
    put_one(PAIRS[at + 1], cells, behind)
}

/// Puts four digits.
#[inline(always)]
fn put_four(number: u64, cells: &mut [u8; ROOM], end: usize) -> usize
    requires small { number < 10000 }
    requires room { end + 4 ≤ 32768 }
    ensures puts { Puts (four_text number) end cells.old result cells.new }
    ensures end { result ≡ end + 4 }
{
    let behind = put_pair(number / 100, cells, end);
    put_pair(number % 100, cells, behind)
}

/// Puts a number of one or two digits.
#[inline(always)]
fn put_tiny(number: u64, cells: &mut [u8; ROOM], end: usize) -> usize
    requires small { number < 100 }
    requires room { end + 2 ≤ 32768 }
    ensures puts { Puts (decimal number) end cells.old result cells.new }
    ensures end { result ≤ end + 2 }
{
    if number < 10 {
        return put_one(b'0' + number as u8, cells, end);
    }
    put_pair(number, cells, end)
}

/// Puts a number of at most four digits.
#[inline(always)]
fn put_short(number: u64, cells: &mut [u8; ROOM], end: usize) -> usize
    requires small { number < 10000 }
    requires room { end + 4 ≤ 32768 }
    ensures puts { Puts (decimal number) end cells.old result cells.new }
    ensures end { result ≤ end + 4 }
{
    if number < 100 {
        return put_tiny(number, cells, end);
    }
    let behind = put_tiny(number / 100, cells, end);
    put_pair(number % 100, cells, behind)
}

/// Puts a number of at most eight digits.
#[inline(always)]
fn put_middle(number: u64, cells: &mut [u8; ROOM], end: usize) -> usize
    requires small { number < 100000000 }
    requires room { end + 8 ≤ 32768 }
    ensures puts { Puts (decimal number) end cells.old result cells.new }
    ensures end { result ≤ end + 8 }
{
    if number < 10_000 {
        return put_short(number, cells, end);
    }
    let behind = put_short(number / 10_000, cells, end);
    put_four(number % 10_000, cells, behind)
}

/// Puts a number of at most twelve digits.
fn put_long(number: u64, cells: &mut [u8; ROOM], end: usize) -> usize
    requires small { number < 1000000000000 }
    requires room { end + 12 ≤ 32768 }
    ensures puts { Puts (decimal number) end cells.old result cells.new }
    ensures end { result ≤ end + 12 }
{
    if number < 100_000_000 {
        return put_middle(number, cells, end);
    }
    let behind = put_middle(number / 10_000, cells, end);
    put_four(number % 10_000, cells, behind)
}

/// Puts a number of more than eight digits.
fn put_wide(number: u64, cells: &mut [u8; ROOM], end: usize) -> usize
    requires wide { 100000000 ≤ number }
    requires room { end + 20 ≤ 32768 }
    ensures puts { Puts (decimal number) end cells.old result cells.new }
    ensures end { result ≤ end + 20 }
{
    let behind = put_long(number / 100_000_000, cells, end);
    let behind = put_four(number / 10_000 % 10_000, cells, behind);
    put_four(number % 10_000, cells, behind)
}

/// Puts the digits of a number. Most are short.
#[inline(always)]
pub(crate) fn put_digits(number: u64, cells: &mut [u8; ROOM], end: usize) -> usize
    requires room { end + 20 ≤ 32768 }
    ensures puts { Puts (decimal number) end cells.old result cells.new }
    ensures end { result ≤ end + 20 }
{
    if number < 100_000_000 {
        return put_middle(number, cells, end);
    }
    put_wide(number, cells, end)
}
