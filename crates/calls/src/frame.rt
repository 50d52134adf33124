// What all calls share: reading the texts of a job, writing a result, and clearing the work memory.
ghost use Rattle.std.specs.Prelude.{◌≡◌, ◌≤◌, length};
ghost use Rattle.memory.specs.Layout.{table_words};
ghost use Rattle.store.specs.Held.{lent};
ghost use Rattle.calls.specs.Lent.{work, zeroed};
ghost use Rattle.calls.specs.Frame.{ReadsJob, WritesAnswer};

use super::Job;
use expression::refusal::Refusal;
use listing::read_listing;
use memory::layout::DESK_WORDS;
use sheet::read_sheet;
use store::desk::{Refused, refusal_of};
use writing::{write_listing, write_origins};

// A listing into the store, then a sheet into the table.
pub fn read_job(
    list: &[u8],
    values: &[u8],
    store: &mut [[u64; 4]],
    desk: &mut [u64; DESK_WORDS],
    table: &mut [u64],
) -> Result<Job, Refusal>
    requires { table_words ≤ length table.old }
    ensures { ReadsJob list.now values.now result (lent store.old desk.old) (lent store.new desk.new) table.new }
{
    let listed = read_listing(list, false, store, desk, table)?;
    let counts = read_sheet(values, table)?;
    Ok(Job {
        root: listed.root,
        counts,
    })
}

// The listing of what was built, with origins if `traced`: 2, then 13, else its bytes at the start of the output. A refusal is passed on.
pub fn write_answer(
    traced: bool,
    store: &mut [[u64; 4]],
    desk: &[u64; DESK_WORDS],
    table: &mut [u64],
    out: &mut [u8],
    built: Result<usize, Refused>,
) -> Result<usize, Refusal>
    requires { table_words ≤ length table.old }
    ensures { WritesAnswer traced (lent store.old desk.now) built result out.old out.new }
{
    let Ok(root) = built else {
        return Err(refusal_of(desk));
    };
    if traced {
        return write_origins(store, root, table, out);
    }
    write_listing(store, root, table, out)
}

// "Every return leaves the work memory zero."
pub fn clear_work(store: &mut [[u64; 4]], desk: &mut [u64; DESK_WORDS], table: &mut [u64])
    ensures { work store.new desk.new table.new ≡ zeroed (work store.old desk.old table.old) }
{
    store.fill([0; 4]);
    *desk = [0; DESK_WORDS];
    table.fill(0);
}
