//! Digits that spell the bytes of a line.

ghost use Rattle.std.specs.Prelude.{◌≡◌, option_map, IsSome, IfOk};
ghost use Rattle.std.specs.Char.{is_ascii_hexdigit};
ghost use Rattle.std.specs.List.{list_all};
ghost use Rattle.ipc_script.specs.Line.{bytes_of_hex};

use hex::FromHexError;
use std::alloc::{AllocError, Global};

/// Digits of at least one byte: two for each, of either case, the high one first.
#[derive(Clone, Copy)]
pub struct Hex<'a> {
    digits: &'a [u8],
    ghost well_formed: { IsSome (bytes_of_hex digits.now) },
}

impl<'a> Hex<'a> {
    ghost use Rattle.ipc_script.specs.Relations.Lines.{hex_bytes};

    /// The digits, if they spell at least one byte.
    pub fn new(digits: &'a [u8]) -> Option<Self>
        ensures { option_map hex_bytes result ≡ bytes_of_hex digits.now }
    {
        if digits.is_empty() || digits.len() % 2 == 1 || !are_digits(digits) {
            return None;
        }
        Some(Hex { digits })
    }

    /// The bytes that the digits spell.
    pub fn decode(&self, alloc: Global) -> Result<Vec<u8>, AllocError>
        ensures { IfOk result (λ bytes. bytes.items ≡ hex_bytes self.now) }
    {
        match hex::decode(alloc, self.digits) {
            Ok(bytes) => Ok(bytes),
            Err(fault) => match fault {
                FromHexError::OutOfMemory => Err(AllocError),
                _ => unreachable!(),
            },
        }
    }
}

/// Whether each byte is a hexadecimal digit, of either case.
fn are_digits(text: &[u8]) -> bool
    ensures { result ≡ list_all is_ascii_hexdigit text.now }
{
    text.iter().all(|byte| byte.is_ascii_hexdigit())
}
