// The C interface (include/lg.h): each call is the entry point of its name, and returns its answer packed into one word (packing/specs/Pack).
// Each is safe on any memory of the lengths that it is given. A refusal leaves everything as it was. The static library c_api_c exports them.
#![tactic(auto)]

ghost use Rattle.std.specs.Prelude.{◌≡◌};
ghost use Rattle.model.specs.declared.Choice.TheVariants.{Touching, Holding};
ghost use Rattle.model.specs.Call.{request};
ghost use Rattle.calls.specs.Calls.{start_call, grant_call, revoke_call, list_call, decide_call, count_call};
ghost use Rattle.block_read.specs.BlockRead.{block_call};
ghost use Rattle.calls.specs.FileCalls.{write_call, load_call, match_call};
ghost use Rattle.openings.specs.Compare.{compare_call};
ghost use Rattle.packing.specs.Pack.{pack, pack_pair, pack_length, pack_three};
ghost use Rattle.packing.specs.Decision.{PacksOut};
ghost use Rattle.c_api.specs.Contract.{PacksPool, PacksLent, pack_part, box_of};

use block_read::part::block_part;
use block_read::verdict::block_verdict;
use file_calls::load::load;
use file_calls::matching::match_file;
use grants_file::layout::{BLOCK_BYTES, RECORDS_PLACE};
use index::grant::grant;
use index::revoke::revoke;
use index::start::start;
use model::{Box, Choice};
use openings::compare::compare_openings;
use packing::{
    B_VALUES, pack_compared, pack_counted, pack_decision, pack_listed, pack_matched, pack_outcome,
    pack_written, word,
};
use queries::count::count;
use queries::decide::decide;

// The box of six arguments.
fn box_of(
    staff_from: u16,
    staff_to: u16,
    door_from: u16,
    door_to: u16,
    quarter_from: u16,
    quarter_to: u16,
) -> Box
    ensures { result ≡ box_of staff_from staff_to door_from door_to quarter_from quarter_to }
{
    Box {
        staff_from,
        staff_to,
        door_from,
        door_to,
        quarter_from,
        quarter_to,
    }
}

// Refuses 1.
pub fn lg_start(pool: &mut [u16]) -> u64
    ensures { PacksPool result pool.new (start_call pool.old) }
{
    pack_outcome(start(pool))
}

// Refuses 1, 3, 4, 2, 16, 9, 5 and 6, in this order.
pub fn lg_grant(
    pool: &mut [u16],
    number: u16,
    rank: u8,
    kind: u8,
    staff_from: u16,
    staff_to: u16,
    door_from: u16,
    door_to: u16,
    quarter_from: u16,
    quarter_to: u16,
) -> u64
    ensures { PacksPool result pool.new
        (grant_call pool.old (request number rank kind (box_of staff_from staff_to door_from door_to quarter_from quarter_to))) }
{
    let bounds = box_of(
        staff_from,
        staff_to,
        door_from,
        door_to,
        quarter_from,
        quarter_to,
    );
    pack_outcome(grant(pool, number, rank, kind, bounds))
}

// Refuses 1, 3, 9 and 7, in this order.
pub fn lg_revoke(pool: &mut [u16], number: u16) -> u64
    ensures { PacksPool result pool.new (revoke_call pool.old number) }
{
    pack_outcome(revoke(pool, number))
}

// Lists the grants that touch the box. Refuses 1, 2, 9 and 8, in this order. Elements past the numbers stay.
pub fn lg_list(
    pool: &[u16],
    staff_from: u16,
    staff_to: u16,
    door_from: u16,
    door_to: u16,
    quarter_from: u16,
    quarter_to: u16,
    list: &mut [u16],
) -> u64
    ensures { PacksLent pack result list.new
        (list_call pool.now (box_of staff_from staff_to door_from door_to quarter_from quarter_to) Touching list.old) }
{
    let bounds = box_of(
        staff_from,
        staff_to,
        door_from,
        door_to,
        quarter_from,
        quarter_to,
    );
    pack_listed(queries::list::list(pool, bounds, Choice::Touching, list))
}

// Lists the grants that hold the box, in C a function of its own. Refuses 1, 2, 9 and 8, in this order. Elements past the numbers stay.
pub fn lg_list_holding(
    pool: &[u16],
    staff_from: u16,
    staff_to: u16,
    door_from: u16,
    door_to: u16,
    quarter_from: u16,
    quarter_to: u16,
    list: &mut [u16],
) -> u64
    ensures { PacksLent pack result list.new
        (list_call pool.now (box_of staff_from staff_to door_from door_to quarter_from quarter_to) Holding list.old) }
{
    let bounds = box_of(
        staff_from,
        staff_to,
        door_from,
        door_to,
        quarter_from,
        quarter_to,
    );
    pack_listed(queries::list::list(pool, bounds, Choice::Holding, list))
}

// Refuses 1 and 9, in this order. `out` stays as it was unless the answer is opens or barred.
pub fn lg_decide(pool: &[u16], staff: u16, door: u16, quarter: u16, out: &mut [u16; 10]) -> u64
    ensures { PacksOut result out.new out.old (decide_call pool.now staff door quarter).answer }
{
    pack_decision(decide(pool, staff, door, quarter), out)
}

// Refuses 1 and 9, in this order.
pub fn lg_count(pool: &[u16]) -> u64
    ensures { result ≡ pack_pair (count_call pool.now).answer }
{
    pack_counted(count(pool))
}

// Refuses 1, 2, 9 and 14, in this order. Bytes past the file stay.
pub fn lg_write(pool: &[u16], door_from: u16, door_to: u16, bytes: &mut [u8]) -> u64
    ensures { PacksLent pack_length result bytes.new
        (write_call pool.now (record { from = door_from; to = door_to }) bytes.old) }
{
    pack_written(file_calls::write::write(pool, door_from, door_to, bytes))
}

// Refuses 1, the file's faults (10, then per block rising 12, 11, 13) and 6, in this order.
pub fn lg_load(pool: &mut [u16], file: &[u8]) -> u64
    ensures { PacksPool result pool.new (load_call pool.old file.now) }
{
    pack_outcome(load(pool, file))
}

// Refuses 1, the file's faults (as lg_load) and 9, in this order.
pub fn lg_match(pool: &[u16], file: &[u8]) -> u64
    ensures { result ≡ pack (match_call pool.now file.now).answer }
{
    pack_matched(match_file(pool, file))
}

// The verdict on one block: refuses 10, 12 and 11, in this order.
pub fn lg_block(file: &[u8], block: u64) -> u64
    ensures { result ≡ pack (block_call file.now block).answer }
{
    pack_outcome(block_verdict(file, block))
}

// The part of the file that an accepted block's records occupy; refuses nothing.
pub fn lg_block_part(file: &[u8], block: u64) -> u64
    ensures { result ≡ pack_part file.now block }
{
    let part = block_part(file, block);
    if part.is_empty() {
        return word(0, 0, 0);
    }
    // A block number past what `b` holds is in no file; its remainder keeps the product in range.
    let start = BLOCK_BYTES as u64 * (block % B_VALUES) + RECORDS_PLACE as u64;
    word(0, part.len() as u64, start)
}

// Refuses 24, tested on both records, and then 25.
pub fn lg_compare_openings(door_record: &[u8], panel_record: &[u8]) -> u64
    ensures { result ≡ pack_three (compare_call door_record.now panel_record.now).answer }
{
    pack_compared(compare_openings(door_record, panel_record))
}
