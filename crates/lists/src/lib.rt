// Export lists: refusals 2 to 10 over any bytes.
#![tactic(auto)]

pub mod record; // record.rt: the exports of a checked list

ghost use Rattle.std.specs.Prelude.{◌≡◌, ◌+◌, ◌*◌, ◌≤◌, ◌<◌, length};
ghost use Rattle.wire.specs.Bytes.{part, holds};
ghost use Rattle.format.specs.Exports.{both_counts};
ghost use Rattle.format.specs.Refusals.{earliest, header_rows, string_rows, dll_rows, field_rows, record_rows, rows_from, rest_rows, check_list};
ghost use Rattle.format.specs.Shaped.{Shaped};
ghost use Rattle.lists.specs.Held.{is_clean};

use format::{Reason, Refusal};

// The sizes of the list's header and of a record, and the limits.
pub const HEADER_SIZE: usize = 28;

pub const RECORD_SIZE: usize = 44;

pub const MAX_COUNT: u32 = 4096;

const MAX_STRING: u32 = 4095;

const MAX_DLL: u32 = 255;

const ALL_FLAGS: u16 = 15;

// Where the fields of the header stand.
pub const FIRST_COUNT: usize = 0;

pub const NATIVE_COUNT: usize = 4;

const RECORDS_AT: usize = 8;

pub const NAMES_AT: usize = 12;

const NAMES_LENGTH: usize = 16;

pub const DLL_FIELD: usize = 20;

// Where the flags stand in a record, and how many strings precede them.
const FLAGS_AT: usize = 42;

const STRINGS: usize = 5;

// Whether a byte stands among the n bytes at a place.
fn held_in(b: &[u8], from: usize, n: usize, c: u8) -> bool
    requires { from + n ≤ length b.now }
    ensures { result ≡ holds c (part b.now from n) }
{
    wire::holds(wire::part(b, from, n), c)
}

// One string's checks 5 to 8. Its offset and length stand at `at`. Where the names are clean, no string holds NUL.
fn check_string(
    b: &[u8],
    place: u32,
    at: usize,
    limit: u32,
    required: bool,
    clean: bool,
) -> Result<(), Refusal>
    requires shaped { Shaped b.now }
    requires at_in_bounds { at + 8 ≤ length b.now }
    requires clean_value { clean ≡ is_clean b.now }
    ensures { result ≡ earliest (string_rows b.now place at limit required) }
{
    let names = wire::u32_at(b, NAMES_AT) as usize;
    let total = wire::u32_at(b, NAMES_LENGTH) as usize;
    let offset = wire::u32_at(b, at) as usize;
    let len = wire::u32_at(b, at + 4) as usize;
    if total < offset + len {
        return Err(Reason::OutsideNames.at(place));
    }
    if len == 0 {
        if offset == 0 {
            if required {
                return Err(Reason::EmptyString.at(place));
            }
            return Ok(());
        }
        return Err(Reason::EmptyString.at(place));
    }
    if (limit as usize) < len {
        return Err(Reason::TooLong.at(place));
    }
    if clean {
        return Ok(());
    }
    if held_in(b, names + offset, len, 0) {
        return Err(Reason::HasNul.at(place));
    }
    Ok(())
}

// Checks 5 to 8 of one of a record's five strings; only the name is required.
fn check_field(b: &[u8], k: u32, f: usize, clean: bool) -> Result<(), Refusal>
    requires shaped { Shaped b.now }
    requires k_bound { (k < both_counts b.now) × (f < 5) }
    requires clean_value { clean ≡ is_clean b.now }
    ensures { result ≡ earliest (field_rows b.now k f) }
{
    check_string(
        b,
        k,
        HEADER_SIZE + RECORD_SIZE * (k as usize) + 8 * f,
        MAX_STRING,
        f == 0,
        clean,
    )
}

// Checks 5 to 8 of a record's strings, in field order.
fn check_fields(b: &[u8], k: u32, clean: bool) -> Result<(), Refusal>
    requires shaped { Shaped b.now }
    requires k_bound { k < both_counts b.now }
    requires clean_value { clean ≡ is_clean b.now }
    ensures { result ≡ earliest (rows_from (field_rows b.now k) 0 5) }
{
    for f in 0..STRINGS {
        check_field(b, k, f, clean)?;
    }
    Ok(())
}

// Check 9 of a record, then those of its strings.
fn check_record(b: &[u8], k: u32, clean: bool) -> Result<(), Refusal>
    requires shaped { Shaped b.now }
    requires k_bound { k < both_counts b.now }
    requires clean_value { clean ≡ is_clean b.now }
    ensures { result ≡ earliest (record_rows b.now k) }
{
    if ALL_FLAGS < wire::u16_at(b, HEADER_SIZE + RECORD_SIZE * (k as usize) + FLAGS_AT) {
        return Err(Reason::UnknownFlag.at(k));
    }
    check_fields(b, k, clean)
}

// The checks of every record, in order.
fn check_records(b: &[u8], count: u32, clean: bool) -> Result<(), Refusal>
    requires shaped { Shaped b.now }
    requires count_value { count ≡ both_counts b.now }
    requires clean_value { clean ≡ is_clean b.now }
    ensures { result ≡ earliest (rows_from (record_rows b.now) 0 count) }
{
    for k in 0..count {
        check_record(b, k, clean)?;
    }
    Ok(())
}

// Checks 2 to 4.
fn check_header(b: &[u8]) -> Result<(), Refusal>
    ensures { result ≡ earliest (header_rows b.now) }
{
    if b.len() < HEADER_SIZE {
        return Err(Reason::TooShort.at(0));
    }
    let first = wire::u32_at(b, FIRST_COUNT);
    let native = wire::u32_at(b, NATIVE_COUNT);
    if MAX_COUNT < first {
        return Err(Reason::TooMany.at(0));
    }
    if MAX_COUNT < native {
        return Err(Reason::TooMany.at(0));
    }
    let names = wire::u32_at(b, NAMES_AT) as usize;
    let total = wire::u32_at(b, NAMES_LENGTH) as usize;
    if (wire::u32_at(b, RECORDS_AT) as usize) != HEADER_SIZE {
        return Err(Reason::WrongLayout.at(0));
    }
    if names != HEADER_SIZE + RECORD_SIZE * ((first + native) as usize) {
        return Err(Reason::WrongLayout.at(0));
    }
    if b.len() != names + total {
        return Err(Reason::WrongLayout.at(0));
    }
    Ok(())
}

// Checks 5 to 8 and 10 of the DLL name.
fn check_dll(b: &[u8], clean: bool) -> Result<(), Refusal>
    requires shaped { Shaped b.now }
    requires clean_value { clean ≡ is_clean b.now }
    ensures { result ≡ earliest (dll_rows b.now) }
{
    check_string(b, 0, DLL_FIELD, MAX_DLL, true, clean)?;
    let from = (wire::u32_at(b, NAMES_AT) as usize) + (wire::u32_at(b, DLL_FIELD) as usize);
    let n = wire::u32_at(b, DLL_FIELD + 4) as usize;
    if names::dll::barred(wire::part(b, from, n)) {
        return Err(Reason::BarredDll.at(0));
    }
    Ok(())
}

// Whether the names hold no NUL, so that no string does.
fn is_clean(b: &[u8]) -> bool
    requires { Shaped b.now }
    ensures { result ≡ is_clean b.now }
{
    let names = wire::u32_at(b, NAMES_AT) as usize;
    let total = wire::u32_at(b, NAMES_LENGTH) as usize;
    !held_in(b, names, total, 0)
}

// Refusals 5 to 10 of a list whose header is right.
fn check_rest(b: &[u8]) -> Result<(), Refusal>
    requires { Shaped b.now }
    ensures { result ≡ earliest (rest_rows b.now) }
{
    let clean = is_clean(b);
    check_dll(b, clean)?;
    check_records(
        b,
        wire::u32_at(b, FIRST_COUNT) + wire::u32_at(b, NATIVE_COUNT),
        clean,
    )
}

// Refusals 2 to 10 of any bytes.
pub fn check_list(b: &[u8]) -> Result<(), Refusal>
    ensures { result ≡ check_list b.now }
{
    check_header(b)?;
    check_rest(b)
}
