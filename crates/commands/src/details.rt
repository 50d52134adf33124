// What is known of a refusal beside its number and its place.
ghost use Rattle.std.specs.Prelude.{◌≡◌};
ghost use Rattle.calls.specs.Lent.{work, capacity};
ghost use Rattle.lacks.specs.Lacking.{missing_in_job};
ghost use Rattle.commands.specs.Results.{fault_of, empty_at, alone_of, lack_of};

use expression::refusal::Refusal;
use faults::{line_start, listing_fault, sheet_fault};
use lacks::missing_in_job;
use memory::layout::{DESK_WORDS, TABLE_WORDS};
use sentences::Detail;
use text::reading::byte_at;

const LF: u8 = b'\n';

// For 1 and 3, what is wrong with the line.
pub fn fault_of(why: Refusal, list: &[u8], values: &[u8]) -> Detail
    ensures { result ≡ fault_of list.now values.now why }
{
    let number = why.number();
    if number == 1 {
        return Detail::Fault(listing_fault(list, why.place()));
    }
    if number == 3 {
        return Detail::Fault(sheet_fault(values, why.place()));
    }
    Detail::Plain
}

// Whether a refused line is empty, so that a sheet may begin after it.
fn is_empty(why: Refusal, list: &[u8]) -> bool
    ensures { result ≡ empty_at list.now why }
{
    if why.number() != 1 {
        return false;
    }
    let at = line_start(list, why.place());
    byte_at(list, at) == LF
}

// Where a listing stands alone: an empty line in it begins a sheet that is not taken.
pub fn fault_alone(why: Refusal, list: &[u8]) -> Detail
    ensures { result ≡ alone_of list.now why }
{
    if is_empty(why, list) {
        return Detail::Sheet;
    }
    fault_of(why, list, b"")
}

// For 10 besides, what the sheet does not bind.
pub fn lack_of(
    why: Refusal,
    list: &[u8],
    values: &[u8],
    store: &mut [[u64; 4]],
    desk: &mut [u64; DESK_WORDS],
    table: &mut [u64; TABLE_WORDS],
) -> Detail
    ensures { result ≡ lack_of (missing_in_job (capacity (work store.old desk.old table.old)) list.now values.now) list.now values.now why }
{
    if why.number() == 10 {
        return Detail::Missing(missing_in_job(list, values, store, desk, table));
    }
    fault_of(why, list, values)
}
