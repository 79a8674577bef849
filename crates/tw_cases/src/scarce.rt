//! Cases of sessions that are short of memory: a hoard takes all addresses except a few.

use crate::sessions::code_of;
use crate::streams::{Room, put_reply};
use std::alloc::AllocError;
use std::sync::Wait;
use std::sync::atomic::{AtomicU64, Ordering};
use std::thread;
use std::thread::Threads;
use std::time::{Clock, Duration};
use tw_case_lines::{Complaint, Hoard, Text};

/// Runs a session of a case, which writes into a buffer without allocating.
fn written<H: AllocGlobal + Threads + Wait + Clock + Sync>(
    rt: &H,
    words: &[String],
    mut input: &[u8],
) -> (u8, Room) {
    let mut room = Room::new();
    let code = code_of(rt, words, &mut input, &mut room);
    (code, room)
}

/// How many threads allocate side by side before all addresses are taken: one for each of a session, and one for the thread of the cases.
const ARENAS: u64 = 4;

/// How often a thread looks whether the others have allocated. It waits for a millisecond after each look.
const MOST_LOOKS: u64 = 10_000;

/// Allocates, and waits until each of the threads has.
fn hold_arena<H: AllocGlobal + Wait>(rt: &H, met: &AtomicU64) {
    let piece: Result<Vec<u8>, AllocError> = Vec::with_capacity(rt.alloc(), 64);
    met.fetch_add(1, Ordering::SeqCst);
    let nobody = AtomicU64::new(0);
    for _ in 0..MOST_LOOKS {
        if met.load(Ordering::SeqCst) >= ARENAS {
            break;
        }
        nobody.park_timeout(rt, 0, Duration::from_millis(1));
    }
    drop(piece);
}

/// Lets `malloc` make an arena for each thread of a session. While all addresses are held it can't make one, and a thread without an arena can't
/// allocate, however much is free in another's.
fn make_arenas<H: AllocGlobal + Threads + Wait + Sync>(rt: &H) {
    let met = AtomicU64::new(0);
    let met = &met;
    thread::scope(thread::scope_env(), rt, |scope| {
        for _ in 0..ARENAS {
            let _ = scope.spawn(move || hold_arena(rt, met));
        }
    });
}

/// The result of a session that is run with more and more memory.
#[derive(Drop)]
enum Scarce {
    /// It was out of memory so often, and then as with enough memory.
    Reached(u64),
    /// It was out of memory each time.
    NeverEnough,
    /// It once returned this status, and wrote this.
    Other(u8, Room),
}

/// Up to this size, the memory for a session is increased by `STEP` bytes, and doubled from then on.
const SMALL: usize = 131_072;

/// Each size takes all addresses anew, which costs a millisecond. `rt ci` ends a program after 60 seconds.
const STEP: usize = 256;

/// How many sizes there are, up to 512 MiB: 513 to `SMALL`, and 12 doubled ones.
const SIZES: usize = 525;

/// Returns the size of memory with which a session is run after this one.
fn next_size(bytes: usize) -> usize {
    if bytes < SMALL {
        bytes.wrapping_add(STEP)
    } else {
        bytes.saturating_mul(2)
    }
}

/// Runs a session with more and more memory, until it returns this status and this text, or anything else than that it is out of memory.
fn refused_before<H: AllocGlobal + Threads + Wait + Clock + Sync>(
    rt: &H,
    hoard: &mut Hoard,
    words: &[String],
    input: &[u8],
    (code, whole): (u8, &[u8]),
) -> Result<Scarce, Complaint> {
    let mut bytes = 0;
    for refused in 0..SIZES {
        hoard.leave(rt.alloc(), bytes)?;
        let (came, room) = written(rt, words, input);
        hoard.relieve();
        if came == code && room.written() == whole {
            return Ok(Scarce::Reached(refused as u64));
        }
        if came != 5 || room.written() != "memory\n".as_bytes() {
            return Ok(Scarce::Other(came, room));
        }
        bytes = next_size(bytes);
    }
    Ok(Scarce::NeverEnough)
}

/// Adds the result of a session with less memory.
fn put_scarce(text: &mut Text, scarce: &Scarce) {
    match scarce {
        Scarce::Reached(0) => text.put("memory is never refused"),
        Scarce::Reached(_) => text.put("or 5 memory"),
        Scarce::NeverEnough => text.put("or 5 memory, whatever memory it has"),
        Scarce::Other(code, room) => {
            text.put("or ");
            put_reply(text, *code, room.written());
        }
    }
}

/// Returns the output of a session with enough memory; and its output with less, which is to be that it is out of memory.
pub fn scarce_text<H: AllocGlobal + Threads + Wait + Clock + Sync>(
    rt: &H,
    words: &[String],
    input: &[u8],
) -> Result<String, Complaint> {
    make_arenas(rt);
    let (code, room) = written(rt, words, input);
    let mut hoard = Hoard::new(rt.alloc())?;
    let scarce = refused_before(rt, &mut hoard, words, input, (code, room.written()));
    drop(hoard);
    let mut text = Text::new(rt.alloc());
    put_reply(&mut text, code, room.written());
    put_scarce(&mut text, &scarce?);
    text.into_line()
}
