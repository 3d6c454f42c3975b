//! Requests and replies as they are written: by the trial itself, and not by the server's own writers. Numbers of calls
//! and flags, as clients know them.

use std::alloc::{AllocError, Global};

pub(crate) const HELLO: u8 = 0x01;

pub(crate) const MSGGET: u8 = 0x0a;

pub(crate) const MSGSND: u8 = 0x0b;

/// IPC_CREAT with the mode 0600.
pub(crate) const MAKE: u32 = 0x380;

/// The user and the group of every client.
pub(crate) const USER: u32 = 1000;

pub(crate) const GROUP: u32 = 100;

/// A part of a frame: a number, or bytes.
#[derive(Clone, Copy)]
pub(crate) enum Field {
    Byte(u8),
    Short(u16),
    Word(u32),
    Long(u64),
    Bytes(&'static [u8]),
    /// A text of so many bytes.
    Text(u32),
}

use Field::{Byte, Bytes, Long, Short, Text, Word};

/// The frame of a request.
pub(crate) fn request(
    alloc: Global,
    serial: u32,
    opcode: u8,
    fields: &[Field],
) -> Result<Vec<u8>, AllocError> {
    frame(alloc, serial, Byte(opcode), fields)
}

/// The frame of a reply that has no body, to a call that is done.
pub(crate) fn reply(alloc: Global, serial: u32) -> Result<Vec<u8>, AllocError> {
    frame(alloc, serial, Short(0), &[])
}

fn frame(alloc: Global, serial: u32, kind: Field, fields: &[Field]) -> Result<Vec<u8>, AllocError> {
    let mut bytes = Vec::new(alloc);
    push_all(&mut bytes, &[Word(0), Word(serial), kind])?;
    push_all(&mut bytes, fields)?;
    let length = u32::try_from(bytes.len().saturating_sub(4)).unwrap_or(u32::MAX);
    if let Some(front) = bytes.first_chunk_mut::<4>() {
        *front = length.to_be_bytes();
    }
    Ok(bytes)
}

fn push_all(bytes: &mut Vec<u8>, fields: &[Field]) -> Result<(), AllocError> {
    for field in fields {
        push(bytes, *field)?;
    }
    Ok(())
}

/// Appends a field.
fn push(bytes: &mut Vec<u8>, field: Field) -> Result<(), AllocError> {
    match field {
        Byte(value) => bytes.extend_from_slice(&[value]),
        Short(value) => bytes.extend_from_slice(&value.to_be_bytes()),
        Word(value) => bytes.extend_from_slice(&value.to_be_bytes()),
        Long(value) => bytes.extend_from_slice(&value.to_be_bytes()),
        Bytes(these) => bytes.extend_from_slice(these),
        Text(length) => bytes.resize(bytes.len().saturating_add(length as usize), b'x'),
    }
}
