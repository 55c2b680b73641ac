//! The bytes of updates and of journal records. Each value in its ranges has one spelling.
//!
//! - Promises: for any bytes `decode` answers the update that begins them, or the first field that
//!   is wrong, or that they are too few. `decode_record` answers the record that has these bytes,
//!   the whole of them, or that none has. Either may run out of memory instead.
//! - Doesn't say: whether a record follows those before it.
//! - A caller writes `let (update, len) = decode(alloc, &bytes)?;`. What follows is
//!   `&bytes[len..]`.
//! - A change of a field begins in `specs/Spelling.antt` (its bytes), `specs/Ranges.antt` (its
//!   range) and `specs/Fields.antt` (how it is read), and one of a record in `specs/Records.antt`.
#![tactic(auto)]

mod body;
mod entries;
mod fault;
mod field;
mod finality;
mod head;
mod in_range;
mod item;
mod laws;
mod number;
mod outer;
mod record;
mod room;
mod spelled;
mod spelled_record;
mod spelling;
mod update;
mod value;

pub use body::{encode_admit, encode_head, encode_record, encode_turn};
pub use fault::{CodecFault, RecordFault};
pub use finality::{answer_is_final, fault_comes_at_once, fault_is_first, front_is_short};
pub use in_range::is_in_range;
pub use laws::{
    bytes_are_numbers, one_record, one_spelling, record_is_decoded, record_is_short,
    spelled_is_decoded, spelling_is_short,
};
pub use record::{JournalRecord, decode_record};
pub use room::MAX_SPELLING;
pub use update::{decode, encode};
