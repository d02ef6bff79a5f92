// Listing: "The listing fills a lent table of rows, one per handle number".
#![tactic(auto)]

ghost use Rattle.std.specs.Prelude.{map, ◌≡◌, ◌<◌};
ghost use Rattle.adapter.specs.Adapter.{state_of};
ghost use Rattle.listing.specs.Rows.{Lists};
ghost use Rattle.rules.specs.Deliver.{handle_numbers};
ghost use Rattle.rules.specs.Listing.{row_of};

use adapter::Adapter;
use constants::EINVAL;
use handle::Row;
use rows::closed_row;

// The errno, and the rows as they are left.
#[repr(C)]
#[derive(Clone, Copy)]
pub struct Listed {
    pub errno: u32,
    pub rows: [Row; 8],
}

// The row of handle i.
fn row_at(adapter: Adapter, i: usize) -> Row
    requires { i < 8 }
    ensures { result ≡ row_of (state_of adapter) i }
{
    adapter.row(i as u8)
}

// "Under 8 rows: EINVAL; rows past 8 stay." The errno is given back, 0 for success; a refusal leaves the rows as they were.
pub fn listing(adapter: Adapter, rows: &mut [Row]) -> u32
    ensures { Lists (state_of adapter) rows.old result rows.new }
{
    if rows.len() < 8 {
        return EINVAL;
    }
    for i in 0..8 {
        rows[i] = row_at(adapter, i);
    }
    0
}

// The listing of exactly eight rows, for a program that lends none: it is never refused.
pub fn listed_rows(adapter: Adapter) -> Listed
    ensures { (result.errno ≡ 0) × (result.rows ≡ map (row_of (state_of adapter)) handle_numbers) }
{
    let lent = [closed_row(0); 8];
    let mut rows = lent;
    let errno = listing(adapter, &mut rows);
    Listed { errno, rows }
}
