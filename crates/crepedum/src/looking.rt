// The lookup, for programs in other languages: an answer is a number, and fields that the caller lends.
ghost use Rattle.std.specs.Prelude.{◌≤◌, ◌≡◌, ◌++◌, length, drop};
ghost use Rattle.format.specs.Answers.{ends, where_number, looked_values};
ghost use Rattle.crepedum.specs.Reading.{Short};
ghost use Rattle.crepedum.specs.Looking.{looked_count, looked, looked_answer, looked_after, ShortLooked};

use crate::reading::{TOO_FEW, put_all};
use crate::reason_word;
use format::{Looked, Reason, Span};

// How many fields an answer has at most.
const FIELDS: usize = 2;

// A set of so many bytes has places that no field holds.
const TOO_LONG: usize = 4294967296;

// Puts a name's start and length into the first two fields; those after them stay.
fn put_name(fields: &mut [u32], name: Span)
    requires looked_count_in_bounds { looked_count ≤ length fields.old }
    requires short { Short name }
    ensures { fields.new ≡ ends name ++ drop looked_count fields.old }
{
    let values = [name.start as u32, name.length as u32];
    put_all(fields, &values)
}

// Puts an answer's values into the fields, and returns its number. Fields that it has no value for stay as they were.
fn put_looked(fields: &mut [u32], looked: Looked) -> u64
    requires looked_count_in_bounds { looked_count ≤ length fields.old }
    requires short_looked { ShortLooked looked }
    ensures { (result ≡ where_number looked) × (fields.new ≡ looked_values looked ++ drop (length (looked_values looked)) fields.old) }
{
    match looked {
        Looked::NotFound => {
            return 0;
        }
        Looked::Nowhere => {
            return 1;
        }
        Looked::Ordinal(ordinal) => {
            let values = [ordinal as u32];
            put_all(fields, &values);
            return 2;
        }
        Looked::Name(name) => {
            put_name(fields, name);
            return 3;
        }
    }
}

// Where a symbol leads in list 1 or 2 of a member set: 0 not found, 1 nowhere, 2 by the ordinal in the first field, 3 by the
// name whose start in the set and length are in the first two fields; or a refusal's number times 2^32. A set of 2^32 bytes
// or more is refused as what is not a member set.
#[unsafe(no_mangle)]
pub extern "C" fn crepedum_lookup(set: &[u8], list: u32, symbol: &[u8], fields: &mut [u32]) -> u64
    ensures { (result ≡ looked_answer (looked set.now list symbol.now) fields.old) × (fields.new ≡ looked_after (looked set.now list symbol.now) fields.old) }
{
    if fields.len() < FIELDS {
        return reason_word(TOO_FEW);
    }
    if TOO_LONG <= set.len() {
        return reason_word(Reason::NotASet);
    }
    match lookup::lookup(set, list, symbol) {
        Ok(looked) => put_looked(fields, looked),
        Err(refusal) => reason_word(refusal.reason),
    }
}
