// A record: a grant in 16 bytes (document 01, "The grants file").
ghost use Rattle.std.specs.Prelude.{◌≡◌, ◌+◌, ◌≤◌, length};
ghost use Rattle.std.proofs.lemmas.List.Edits.{sets};
ghost use Rattle.grants_file.specs.Bytes.{bytes_at};
ghost use Rattle.grants_file.specs.Layout.{record_bytes};
ghost use Rattle.grants_file.specs.Record.{encode_record, decode_record};

use crate::bytes::{be16_at, put_be16};
use crate::layout::{
    DOOR_FROM_PLACE, DOOR_TO_PLACE, KIND_PLACE, QUARTER_FROM_PLACE, QUARTER_TO_PLACE, RANK_PLACE,
    STAFF_FROM_PLACE, STAFF_TO_PLACE,
};
use model::{Box, Grant, Kind};

// As in pool/src/cell, from bytes: one function for both would take the reading of a value as a closure, which is no plainer.
fn bounds_at(bytes: &[u8], at: usize) -> Box
    requires { at + record_bytes ≤ length bytes.now }
    ensures { result ≡ (decode_record (bytes_at bytes.now at record_bytes)).bounds }
{
    Box {
        staff_from: be16_at(bytes, at + STAFF_FROM_PLACE),
        staff_to: be16_at(bytes, at + STAFF_TO_PLACE),
        door_from: be16_at(bytes, at + DOOR_FROM_PLACE),
        door_to: be16_at(bytes, at + DOOR_TO_PLACE),
        quarter_from: be16_at(bytes, at + QUARTER_FROM_PLACE),
        quarter_to: be16_at(bytes, at + QUARTER_TO_PLACE),
    }
}

// The grant in the record at a place.
#[tactic(auto, using(crate::proofs::RecordSteps::decode_at))]
pub fn decode_record(bytes: &[u8], at: usize) -> Grant
    requires { at + record_bytes ≤ length bytes.now }
    ensures { result ≡ decode_record (bytes_at bytes.now at record_bytes) }
{
    Grant {
        number: be16_at(bytes, at),
        rank: bytes[at + RANK_PLACE],
        kind: Kind::of(bytes[at + KIND_PLACE]),
        bounds: bounds_at(bytes, at),
    }
}

// Stores a grant's record at a place.
#[tactic(auto, using(crate::proofs::WriteBlockSteps::record_stored))]
pub fn encode_record(bytes: &mut [u8], at: usize, g: Grant)
    requires { at + record_bytes ≤ length bytes.old }
    ensures { bytes.new ≡ sets bytes.old at (encode_record g) }
{
    let b = g.bounds;
    put_be16(bytes, at, g.number);
    bytes[at + RANK_PLACE] = g.rank;
    bytes[at + KIND_PLACE] = u8::from(g.kind);
    put_be16(bytes, at + STAFF_FROM_PLACE, b.staff_from);
    put_be16(bytes, at + STAFF_TO_PLACE, b.staff_to);
    put_be16(bytes, at + DOOR_FROM_PLACE, b.door_from);
    put_be16(bytes, at + DOOR_TO_PLACE, b.door_to);
    put_be16(bytes, at + QUARTER_FROM_PLACE, b.quarter_from);
    put_be16(bytes, at + QUARTER_TO_PLACE, b.quarter_to);
}
