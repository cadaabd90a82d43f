//! Worked rows of heaps: bytes that are written out by hand from the layout.
use lc_heap::{allocate, check, format, free};

// A heap of 64 bytes with one free block.
const EMPTY: [u8; 64] = [
    b'H', b'E', b'A', b'P', 1, 0, 0, 0, // the head of the heap
    48, 0, 0, 0, 0, 0, 0, 0, // a free block with a room of 48 bytes
    0, 0, 0, 0, 0, 0, 0, 0, 0, 0, 0, 0, 0, 0, 0, 0, //
    0, 0, 0, 0, 0, 0, 0, 0, 0, 0, 0, 0, 0, 0, 0, 0, //
    0, 0, 0, 0, 0, 0, 0, 0, 0, 0, 0, 0, 0, 0, 0, 0,
];

// The same with a block of 5 bytes, `hello`.
const HELLO: [u8; 64] = [
    b'H', b'E', b'A', b'P', 1, 0, 0, 0, //
    8, 0, 0, 0, 6, 0, 0, 0, // a block with a room of 8 bytes, of which 5 were asked for
    b'h', b'e', b'l', b'l', b'o', 0, 0, 0, //
    32, 0, 0, 0, 0, 0, 0, 0, // what is left: a free block with a room of 32 bytes
    0, 0, 0, 0, 0, 0, 0, 0, //
    0, 0, 0, 0, 0, 0, 0, 0, 0, 0, 0, 0, 0, 0, 0, 0, //
    0, 0, 0, 0, 0, 0, 0, 0,
];

// Writes bytes from a place on.
fn write(bytes: &mut [u8], place: u32, new: &[u8]) {
    for (byte, new) in bytes.iter_mut().skip(place as usize).zip(new) {
        *byte = *new;
    }
}

#[test]
fn a_heap_is_formatted_and_a_block_allocated(rt: HostRuntime) {
    let mut bytes = [0; 64];
    if let Some(front) = format(64) {
        write(&mut bytes, 0, &front);
    }
    assert!(rt; bytes == EMPTY);
    if let Ok(given) = allocate(&bytes, 5) {
        write(&mut bytes, given.head.place, &given.head.head);
        if let Some(rest) = given.rest {
            write(&mut bytes, rest.place, &rest.head);
        }
        write(&mut bytes, given.offset, b"hello");
    }
    assert!(rt; bytes == HELLO);
}

#[test]
fn a_block_is_freed_and_a_fault_found(rt: HostRuntime) {
    let mut bytes = HELLO;
    if let Ok(change) = free(&bytes, 16) {
        write(&mut bytes, change.place, &change.head);
    }
    assert!(rt; bytes[8..16] == [8, 0, 0, 0, 0, 0, 0, 0]);
    // a length beyond the room is a fault, at the place of the head
    let mut broken = HELLO;
    broken[12] = 10;
    assert!(rt; check(&broken) == Err(8));
}
