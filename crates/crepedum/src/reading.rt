// The reader, for programs in other languages: an answer is a number, and fields that the caller lends.
ghost use Rattle.std.specs.Prelude.{◌+◌, ◌≤◌, ◌<◌, ◌≡◌, ◌∷◌, ◌++◌, length, drop};
ghost use Rattle.format.specs.Answers.{bit, ends, layout_number, read_values};
ghost use Rattle.format.specs.Reader.{read_fields};
ghost use Rattle.crepedum.specs.Reading.{field_count, read_answer, fields_after, Short, Shorts};

use crate::reason_word;
use format::{Read, Reason, Span};

// How many fields an answer has.
const FIELDS: usize = 11;

// A refusal's number stands above 32 bits.
pub const NUMBER: u64 = 4294967296;

// The refusal of fewer fields.
pub const TOO_FEW: Reason = Reason::NoRoom;

// What is more than a field holds.
const TOO_MUCH: usize = 4294967296;

// The name of a layout that has fewer.
const NO_NAME: Span = Span {
    start: 0,
    length: 0,
};

// A flag as a number.
fn bit(flag: bool) -> u32
    ensures { result ≡ bit flag }
{
    u32::from(flag)
}

// A length as a field. The test is never false; without it, two halves of a span would be loaded as one, which waits for both
// to be stored.
fn narrow(length: usize) -> u32
    requires { length < 4294967296 }
    ensures { result ≡ length }
{
    if length < TOO_MUCH {
        return length as u32;
    }
    0
}

// Puts all values into the first fields; those after them stay.
pub fn put_all(fields: &mut [u32], values: &[u32])
    requires { length values.now ≤ length fields.old }
    ensures { fields.new ≡ values.now ++ drop (length values.now) fields.old }
{
    fields[..values.len()].copy_from_slice(values);
}

// Puts the values of an answer into the first fields; those after them stay.
fn put_values(
    fields: &mut [u32],
    machine: u16,
    ordinal: u16,
    name_type: u16,
    import_type: u16,
    compat: bool,
    first: Span,
    second: Span,
    third: Span,
)
    requires field_count_in_bounds { field_count ≤ length fields.old }
    requires short { Short first × Short second × Short third }
    ensures { fields.new ≡ (machine ∷ ordinal ∷ name_type ∷ import_type ∷ bit compat ∷ (ends first ++ ends second ++ ends third)) ++ drop field_count fields.old }
{
    let values = [
        machine as u32,
        ordinal as u32,
        name_type as u32,
        import_type as u32,
        bit(compat),
        first.start as u32,
        narrow(first.length),
        second.start as u32,
        narrow(second.length),
        third.start as u32,
        narrow(third.length),
    ];
    put_all(fields, &values)
}

// Puts an answer's values into the fields, and returns its number.
fn put_read(fields: &mut [u32], read: Read) -> u64
    requires field_count_in_bounds { field_count ≤ length fields.old }
    requires shorts { Shorts read }
    ensures { (result ≡ layout_number read) × (fields.new ≡ read_values read ++ drop (length (read_values read)) fields.old) }
{
    match read {
        Read::Descriptor {
            machine,
            compat,
            dll,
            stem,
        } => {
            put_values(fields, machine, 0, 0, 0, compat, dll, stem, NO_NAME);
            return 1;
        }
        Read::NullDescriptor {
            machine,
            compat,
            stem,
        } => {
            put_values(fields, machine, 0, 0, 0, compat, stem, NO_NAME, NO_NAME);
            return 2;
        }
        Read::NullThunk { machine, stem } => {
            put_values(fields, machine, 0, 0, 0, false, stem, NO_NAME, NO_NAME);
            return 3;
        }
        Read::ShortImport {
            machine,
            ordinal,
            name_type,
            import_type,
            symbol,
            dll,
            export,
        } => {
            put_values(
                fields,
                machine,
                ordinal,
                name_type,
                import_type,
                false,
                symbol,
                dll,
                export,
            );
            return 4;
        }
        Read::WeakExternal {
            machine,
            target,
            alias,
        } => {
            put_values(fields, machine, 0, 0, 0, false, target, alias, NO_NAME);
            return 5;
        }
    }
}

// Reads a member: 1 descriptor, 2 null descriptor, 3 null thunk, 4 short import, 5 weak external, and its values in the first
// 11 fields; or a refusal's number times 2^32, and no field is changed.
#[unsafe(no_mangle)]
pub extern "C" fn crepedum_read(member: &[u8], fields: &mut [u32]) -> u64
    ensures { (result ≡ read_answer (read_fields member.now) fields.old) × (fields.new ≡ fields_after (read_fields member.now) fields.old) }
{
    if fields.len() < FIELDS {
        return reason_word(TOO_FEW);
    }
    match reader::read(member) {
        Ok(read) => put_read(fields, read),
        Err(refusal) => reason_word(refusal.reason),
    }
}
