//! Laws of the spellings of updates and of records. Each public function is a law and has nothing to do.
ghost use Rattle.std.specs.Prelude.{◌≡◌, ◌≤◌, ◌++◌, ℕ, List, Ok, Some, length};
ghost use Rattle.wf_codec.specs.Spelling.{spelling_of};
ghost use Rattle.wf_codec.specs.Ranges.{IsUpdate};
ghost use Rattle.wf_codec.specs.Fields.{decoded};
ghost use Rattle.wf_codec.specs.Tags.{update_tag, head_tag, admit_tag, turn_tag, bool_sort, int_sort, text_sort, happen_kind, complete_kind, max_spelling};
ghost use Rattle.wf_codec.specs.Lengths.{HeadIsShort, AdmitIsShort, TurnIsShort};
ghost use Rattle.wf_codec.specs.Records.{record_spelling, record_at, record_of, IsRecord};
ghost use Rattle.wf_codec.specs.declared.record.JournalRecord.{JournalRecord as RecordValue};
ghost use Rattle.wf_model.specs.declared.update.Update.{Update as UpdateValue};

use crate::outer::{COMPLETE, HAPPEN};
use crate::record::{ADMIT, HEAD, TURN};
use crate::room::MAX_SPELLING;
use crate::update::TAG;
use crate::value::{BOOL, INT, TEXT};

/// Each update has a spelling of its own: where the same bytes begin with the spellings of two updates, the two are one, and so is what
/// follows. So no spelling begins another's.
pub fn one_spelling()
    ensures { (a b : UpdateValue) (x y : List ℕ) → IsUpdate a → IsUpdate b → spelling_of a ++ x ≡ spelling_of b ++ y → (a ≡ b) × (x ≡ y) }
{}

/// What is spelled is decoded, whatever follows it, and the answer's length is that of the spelling.
pub fn spelled_is_decoded()
    ensures { (update : UpdateValue) (rest : List ℕ) → IsUpdate update → decoded (spelling_of update ++ rest) ≡ Ok (update, length (spelling_of update)) }
{}

/// The bytes by which spellings begin are those of the definitions, and so is the length of the longest update.
pub fn bytes_are_numbers()
    ensures update { TAG ≡ update_tag }
    ensures head { HEAD ≡ head_tag }
    ensures admission { ADMIT ≡ admit_tag }
    ensures turn { TURN ≡ turn_tag }
    ensures truth { BOOL ≡ bool_sort }
    ensures integer { INT ≡ int_sort }
    ensures text { TEXT ≡ text_sort }
    ensures event { HAPPEN ≡ happen_kind }
    ensures completion { COMPLETE ≡ complete_kind }
    ensures longest { MAX_SPELLING ≡ max_spelling }
{}

/// No spelling of an update is longer than `MAX_SPELLING` bytes.
pub fn spelling_is_short()
    ensures { (update : UpdateValue) → IsUpdate update → length (spelling_of update) ≤ MAX_SPELLING }
{}

/// Each record has a body of its own, which begins no other's: where the same bytes begin with the bodies of two records, the two are
/// one, and so is what follows.
pub fn one_record()
    ensures { (a b : RecordValue) (x y : List ℕ) → IsRecord a → IsRecord b → record_spelling a ++ x ≡ record_spelling b ++ y → (a ≡ b) × (x ≡ y) }
{}

/// The body of a record is read as that record; and where bytes follow it, the record is read from their front and they are left.
pub fn record_is_decoded()
    ensures whole { (entry : RecordValue) → IsRecord entry → record_of (record_spelling entry) ≡ Some entry }
    ensures front { (entry : RecordValue) (rest : List ℕ) → IsRecord entry → record_at (record_spelling entry ++ rest) ≡ Ok (entry, rest) }
{}

/// How long the body of a record is at most: of a head, of an admission, and of a turn by the updates that it took in.
pub fn record_is_short()
    ensures head { HeadIsShort }
    ensures admission { AdmitIsShort }
    ensures turn { TurnIsShort }
{}
