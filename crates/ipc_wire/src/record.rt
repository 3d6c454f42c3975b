//! Records: numbers of fixed sizes side by side, as the body of a reply or the fields of a request. None takes memory.

ghost use Rattle.std.specs.Prelude.{◌≡◌, ◌≤◌, ◌+◌, ◌++◌, length, vec_len, vec_capacity};
ghost use Rattle.ipc_base.specs.Numbers.{field_bytes, record_bytes};

use ipc_base::{Field, Put};
use std::marker::Model;

/// Adds these fields to the body of a reply, in a buffer that has room for them.
pub fn push_fields(body: &mut Vec<u8>, fields: &[Field])
    requires { vec_len body.old + length (record_bytes fields.now) ≤ vec_capacity body.old }
    ensures bytes { body.new.items ≡ body.old.items ++ record_bytes fields.now }
    ensures room { vec_capacity body.old ≤ vec_capacity body.new }
{
    for field in fields {
        push_field(body, *field);
    }
}

fn push_field(body: &mut Vec<u8>, field: Field)
    requires { vec_len body.old + length (field_bytes field) ≤ vec_capacity body.old }
    ensures bytes { body.new.items ≡ body.old.items ++ field_bytes field }
    ensures room { vec_capacity body.old ≤ vec_capacity body.new }
{
    body.extend_from_slice(field.to_bytes().as_slice()).unwrap();
}

/// The most bytes of a request's fields.
const RECORD: usize = 68;

/// The fields of a request. A contract sees them as their bytes.
#[derive(Drop)]
pub struct Record {
    bytes: [u8; RECORD],
    len: usize,
}

impl Model for Record {
    ghost use Rattle.std.specs.Prelude.{◌≤◌, ℕ, List, take};

    ghost Value = { List ℕ };

    ghost view = { λ r. take r.len r.bytes };

    ghost invariant = { λ r. r.len ≤ 68 };
}

impl Record {
    /// These fields, side by side.
    pub(crate) fn new(fields: &[Field]) -> Record
        requires { length (record_bytes fields.now) ≤ 68 }
        ensures { result ≡ record_bytes fields.now }
    {
        let mut bytes = [0; RECORD];
        let mut put = Put::new(0);
        for field in fields {
            put.field(&mut bytes, *field);
        }
        Record {
            bytes,
            len: put.at(),
        }
    }

    /// The bytes.
    pub fn as_slice(&self) -> &[u8]
        ensures { result.now ≡ self.now }
    {
        &self.bytes[..self.len]
    }
}
