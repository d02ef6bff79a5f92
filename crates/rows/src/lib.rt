// The row of a handle in the listing, and the lookup of a noted address. Both change nothing.
#![tactic(auto)]

ghost use Rattle.std.specs.Prelude.{false, ◌≢◌, ◌≡◌};
ghost use Rattle.parts.specs.Parts.{state_of, errno_of, outcome_of};
ghost use Rattle.rows.specs.Noted.{noted_of, refused_lookup};
ghost use Rattle.rules.specs.Call.{Answer};
ghost use Rattle.rules.specs.Listing.{row_of};
ghost use Rattle.rules.specs.Lookup.{do_lookup, lookup_refusal};

use constants::Errno;
use handle::Row;
use parts::Parts;

// The errno of the lookup, 0 for success, and the noted address.
#[repr(C)]
#[derive(Clone, Copy)]
pub struct Noted {
    pub errno: u32,
    pub address: u16,
}

// "a closed row is 0 but for its number"
pub fn closed_row(handle: u8) -> Row
    ensures { result ≡ record { number = handle; is_open = false; mode = 0; entries = 0; owed = 0; lost = 0 } }
{
    Row {
        number: handle,
        is_open: false,
        mode: 0,
        entries: 0,
        owed: 0,
        lost: 0,
    }
}

// The row of a handle number; that of a number over 7 is a closed one.
pub fn row_of(parts: Parts, handle: u8) -> Row
    ensures { result ≡ row_of (state_of parts) handle }
{
    if !parts.is_open(handle) {
        return closed_row(handle);
    }
    let shown = parts.handle_at(handle);
    let entries = parts.count(handle) as u32;
    let owed = traffic::owed(parts.queue, parts.wire, parts.waits, handle).room as u32;
    Row {
        number: handle,
        is_open: true,
        mode: shown.mode,
        entries,
        owed,
        lost: shown.lost,
    }
}

// "The lookup of a noted address takes 0 to 14, else EINVAL"
#[tactic(auto, unfolding(rules::specs::Call::check))]
fn check(address: u8) -> Result<(), Errno>
    ensures { errno_of result ≡ lookup_refusal address }
{
    if 14 < address {
        return Err(Errno::EINVAL);
    }
    Ok(())
}

// The physical address that is noted for a logical one, or the refusal.
fn lookup(parts: &Parts, address: u8) -> Result<u16, Errno>
    ensures { outcome_of Answer.address (state_of parts.now) result ≡ do_lookup (state_of parts.now) address }
{
    check(address)?;
    Ok(parts.noted[address as usize])
}

// The same as C takes it.
pub fn noted_address(parts: Parts, address: u8) -> Noted
    ensures result_value { noted_of (state_of parts) result ≡ do_lookup (state_of parts) address }
    ensures value { result.errno ≢ 0 → result ≡ refused_lookup result.errno }
{
    match lookup(&parts, address) {
        Ok(noted) => Noted {
            errno: 0,
            address: noted,
        },
        Err(errno) => Noted {
            errno: u32::from(errno),
            address: 0,
        },
    }
}
