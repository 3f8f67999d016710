//! How bytes move within a slice.
ghost use Rattle.std.specs.Prelude.{◌≡◌, ◌+◌, ◌-◌, ◌≤◌, ◌<◌, length, take, drop};
ghost use Rattle.raw_region.specs.Bytes.{put, slid, cleared, rotated, switched};

/// The most bytes that wait aside while longer runs move past them, and how many are few.
const ROOM: usize = 256;

const FEW: usize = 64;

/// How many bytes move at once as long as there are so many, and then half of them.
const WIDE: usize = 32;

const HALF: usize = 16;

/// What stood in the `len` bytes at `from` stands at `to` too. The sizes of a few nodes are moved at once, whichever way.
#[inline(always)]
pub fn slide(bytes: &mut [u8], from: usize, to: usize, len: usize)
    requires source { from + len ≤ length bytes.old }
    requires target { to + len ≤ length bytes.old }
    ensures { bytes.new ≡ slid bytes.old from to len }
{
    if len < 8 || len > 128 {
        slide_long(bytes, from, to, len);
    } else if len <= 16 {
        slide_ends::<8>(bytes, from, to, len);
    } else if len <= 32 {
        slide_ends::<16>(bytes, from, to, len);
    } else if len <= 64 {
        slide_ends::<32>(bytes, from, to, len);
    } else {
        slide_ends::<64>(bytes, from, to, len);
    }
}

/// Moves the first and the last `N` of the bytes, which are all. Both are taken before one is written.
#[inline(always)]
fn slide_ends<const N: usize>(bytes: &mut [u8], from: usize, to: usize, len: usize)
    requires first { N ≤ len }
    requires last { len ≤ N + N }
    requires source { from + len ≤ length bytes.old }
    requires target { to + len ≤ length bytes.old }
    ensures { bytes.new ≡ slid bytes.old from to len }
{
    let back = len - N;
    let first: [u8; N] = load(bytes, from);
    let last: [u8; N] = load(bytes, from + back);
    store(bytes, to, first);
    store(bytes, to + back, last);
}

/// The same for any number of bytes, run by run in the order in which none is lost.
#[inline(never)]
fn slide_long(bytes: &mut [u8], from: usize, to: usize, len: usize)
    requires source { from + len ≤ length bytes.old }
    requires target { to + len ≤ length bytes.old }
    ensures { bytes.new ≡ slid bytes.old from to len }
{
    if len == 0 {
        return;
    }
    if to <= from {
        let done = slide_down::<WIDE>(bytes, from, to, len);
        let half = slide_down::<HALF>(bytes, from + done, to + done, len - done);
        let done = done + half;
        let more = slide_down::<8>(bytes, from + done, to + done, len - done);
        let done = done + more;
        slide_down::<1>(bytes, from + done, to + done, len - done);
    } else {
        let left = slide_up::<WIDE>(bytes, from, to, len);
        let left = slide_up::<HALF>(bytes, from, to, left);
        let left = slide_up::<8>(bytes, from, to, left);
        slide_up::<1>(bytes, from, to, left);
    }
}

/// Moves `N` bytes at once from the first on, and says how many have moved.
fn slide_down<const N: usize>(bytes: &mut [u8], from: usize, to: usize, len: usize) -> usize
    requires some { 0 < N }
    requires down { to ≤ from }
    requires inside { from + len ≤ length bytes.old }
    ensures moved { bytes.new ≡ slid bytes.old from to result }
    ensures within { result ≤ len }
    ensures most { len < result + N }
{
    let mut done = 0;
    while N <= len - done {
        let run: [u8; N] = load(bytes, from + done);
        store(bytes, to + done, run);
        done += N;
    }
    done
}

/// Moves `N` bytes at once from the last on, and says how many have not moved.
fn slide_up<const N: usize>(bytes: &mut [u8], from: usize, to: usize, len: usize) -> usize
    requires some { 0 < N }
    requires up { from ≤ to }
    requires inside { to + len ≤ length bytes.old }
    ensures moved { bytes.new ≡ slid bytes.old (from + result) (to + result) (len - result) }
    ensures within { result ≤ len }
    ensures most { result < N }
{
    let mut left = len;
    while N <= left {
        left -= N;
        let run: [u8; N] = load(bytes, from + left);
        store(bytes, to + left, run);
    }
    left
}

/// The `N` bytes from `at` on.
#[inline(always)]
pub fn read<const N: usize>(bytes: &[u8], at: usize) -> [u8; N]
    requires { at + N ≤ length bytes.now }
    ensures { result ≡ take N (drop at bytes.now) }
{
    let mut run = [0; N];
    run.copy_from_slice(&bytes[at..at + N]);
    run
}

/// The same, one by one: where `N` is known they are moved at once, and nothing asks whether the list is part of the bytes.
#[inline(always)]
fn load<const N: usize>(bytes: &[u8], at: usize) -> [u8; N]
    requires { at + N ≤ length bytes.now }
    ensures { result ≡ take N (drop at bytes.now) }
{
    let mut run = [0; N];
    for i in 0..N {
        run[i] = bytes[at + i];
    }
    run
}

/// These `N` bytes in place of those from `at` on.
#[inline(always)]
fn store<const N: usize>(bytes: &mut [u8], at: usize, run: [u8; N])
    requires { at + N ≤ length bytes.old }
    ensures { bytes.new ≡ put bytes.old at run.entry }
{
    for i in 0..N {
        bytes[at + i] = run[i];
    }
}

pub fn write(bytes: &mut [u8], at: usize, run: &[u8])
    requires { at + length run.now ≤ length bytes.old }
    ensures { bytes.new ≡ put bytes.old at run.now }
{
    bytes[at..at + run.len()].copy_from_slice(run);
}

/// The bytes from `mid` to `end`, and then those from `start` to `mid`.
pub fn rotate(bytes: &mut [u8], start: usize, mid: usize, end: usize)
    requires low { start ≤ mid }
    requires high { mid ≤ end }
    requires inside { end ≤ length bytes.old }
    ensures { bytes.new ≡ rotated bytes.old start mid end }
{
    if mid - start <= end - mid {
        rotate_front(bytes, start, mid, end);
    } else {
        rotate_back(bytes, start, mid, end);
    }
}

/// The same, best where the first part is the shorter one. It is moved in registers where it has the size of a few nodes.
#[inline(always)]
fn rotate_front(bytes: &mut [u8], start: usize, mid: usize, end: usize)
    requires low { start ≤ mid }
    requires high { mid ≤ end }
    requires inside { end ≤ length bytes.old }
    ensures { bytes.new ≡ rotated bytes.old start mid end }
{
    let front = mid - start;
    if front == 16 {
        turn_down::<16>(bytes, start, mid, end);
    } else if front == 24 {
        turn_down::<24>(bytes, start, mid, end);
    } else if front == 40 {
        turn_down::<40>(bytes, start, mid, end);
    } else if front == 8 {
        turn_down::<8>(bytes, start, mid, end);
    } else {
        rotate_long(bytes, start, mid, end);
    }
}

/// The same, best where the second part is the shorter one.
#[inline(always)]
fn rotate_back(bytes: &mut [u8], start: usize, mid: usize, end: usize)
    requires low { start ≤ mid }
    requires high { mid ≤ end }
    requires inside { end ≤ length bytes.old }
    ensures { bytes.new ≡ rotated bytes.old start mid end }
{
    let back = end - mid;
    if back == 16 {
        turn_up::<16>(bytes, start, mid, end);
    } else if back == 24 {
        turn_up::<24>(bytes, start, mid, end);
    } else if back == 40 {
        turn_up::<40>(bytes, start, mid, end);
    } else if back == 8 {
        turn_up::<8>(bytes, start, mid, end);
    } else {
        rotate_long(bytes, start, mid, end);
    }
}

/// The same for parts of any length: the shorter one waits in a room where it is short.
#[inline(never)]
fn rotate_long(bytes: &mut [u8], start: usize, mid: usize, end: usize)
    requires low { start ≤ mid }
    requires high { mid ≤ end }
    requires inside { end ≤ length bytes.old }
    ensures { bytes.new ≡ rotated bytes.old start mid end }
{
    let (front, back) = (mid - start, end - mid);
    if front <= back && front <= FEW {
        rotate_down::<FEW>(bytes, start, mid, end);
    } else if back <= FEW {
        rotate_up::<FEW>(bytes, start, mid, end);
    } else if front <= ROOM {
        rotate_down::<ROOM>(bytes, start, mid, end);
    } else if back <= ROOM {
        rotate_up::<ROOM>(bytes, start, mid, end);
    } else {
        bytes[start..end].rotate_left(front);
    }
}

/// The bytes from `mid` to `end` move down over the `N` before them, which come behind them.
fn turn_down<const N: usize>(bytes: &mut [u8], start: usize, mid: usize, end: usize)
    requires run { mid ≡ start + N }
    requires high { mid ≤ end }
    requires inside { end ≤ length bytes.old }
    ensures { bytes.new ≡ rotated bytes.old start mid end }
{
    let run: [u8; N] = read(bytes, start);
    slide(bytes, mid, start, end - mid);
    write(bytes, end - N, &run);
}

/// The bytes from `start` to `mid` move up over the `N` behind them, which come before them.
fn turn_up<const N: usize>(bytes: &mut [u8], start: usize, mid: usize, end: usize)
    requires low { start ≤ mid }
    requires run { end ≡ mid + N }
    requires inside { end ≤ length bytes.old }
    ensures { bytes.new ≡ rotated bytes.old start mid end }
{
    let run: [u8; N] = read(bytes, mid);
    slide(bytes, start, start + N, mid - start);
    write(bytes, start, &run);
}

/// The bytes from `mid` to `end` move down, while those before them wait in a room of `N` bytes.
fn rotate_down<const N: usize>(bytes: &mut [u8], start: usize, mid: usize, end: usize)
    requires low { start ≤ mid }
    requires high { mid ≤ end }
    requires inside { end ≤ length bytes.old }
    requires short { mid - start ≤ N }
    requires small { N ≤ 256 }
    ensures { bytes.new ≡ rotated bytes.old start mid end }
{
    let len = mid - start;
    let mut room = [0; N];
    room[..len].copy_from_slice(&bytes[start..mid]);
    slide(bytes, mid, start, end - mid);
    write(bytes, end - len, &room[..len]);
}

/// The bytes from `start` to `mid` move up, while those behind them wait in a room of `N` bytes.
fn rotate_up<const N: usize>(bytes: &mut [u8], start: usize, mid: usize, end: usize)
    requires low { start ≤ mid }
    requires high { mid ≤ end }
    requires inside { end ≤ length bytes.old }
    requires short { end - mid ≤ N }
    requires small { N ≤ 256 }
    ensures { bytes.new ≡ rotated bytes.old start mid end }
{
    let len = end - mid;
    let mut room = [0; N];
    room[..len].copy_from_slice(&bytes[mid..end]);
    slide(bytes, start, start + len, mid - start);
    write(bytes, start, &room[..len]);
}

/// The `len` bytes at `low` and those at `high` change places.
pub fn exchange(bytes: &mut [u8], low: usize, high: usize, len: usize)
    requires apart { low + len ≤ high }
    requires inside { high + len ≤ length bytes.old }
    ensures { bytes.new ≡ switched bytes.old low high len }
{
    let (front, back) = bytes.split_at_mut(high);
    front[low..low + len].swap_with_slice(&mut back[..len]);
}

/// Zeros from `from` to before `to`. Up to 64 of them are written without a call.
pub fn clear(bytes: &mut [u8], from: usize, to: usize)
    requires order { from ≤ to }
    requires inside { to ≤ length bytes.old }
    ensures { bytes.new ≡ cleared bytes.old from to }
{
    let len = to - from;
    if len < 8 || len > FEW {
        bytes[from..to].fill(0);
    } else if len <= 16 {
        clear_ends::<8>(bytes, from, to);
    } else if len <= 32 {
        clear_ends::<16>(bytes, from, to);
    } else {
        clear_ends::<32>(bytes, from, to);
    }
}

/// Zeros in the first and the last `N` bytes from `from` to before `to`, which are all.
fn clear_ends<const N: usize>(bytes: &mut [u8], from: usize, to: usize)
    requires first { from + N ≤ to }
    requires last { to ≤ from + N + N }
    requires inside { to ≤ length bytes.old }
    ensures { bytes.new ≡ cleared bytes.old from to }
{
    let zeros = [0; N];
    write(bytes, from, &zeros);
    write(bytes, to - N, &zeros);
}
