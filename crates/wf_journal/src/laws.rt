//! Laws of a journal's bytes. Each public function is a law and has nothing to do.
ghost use Rattle.std.specs.Prelude.{◌≡◌, ◌≢◌, ◌++◌, ◌∷◌, ℕ, List, length, take, get_or, All};
ghost use Rattle.wf_journal.specs.Frames.{open_gate, closed_gate, header, bodies_of, IsAtRest};
ghost use Rattle.wf_journal.specs.Journal.{IsPlace};
ghost use Rattle.wf_journal.specs.Laws.{IsBody, frames_of, AreBytes};

use crate::frame::{CLOSED, HEADER, OPEN};

/// The bytes of gates and the size of a frame's head are the numbers that the definitions have.
pub fn bytes_are_numbers()
    ensures gates { (OPEN ≡ open_gate) × (CLOSED ≡ closed_gate) }
    ensures head { HEADER ≡ header }
{}

/// The frames of bodies, one behind the other, then a gate that isn't open and anything behind it: a journal with
/// exactly these bodies, at rest with its closed gate behind the frames.
pub fn frames_are_read()
    ensures bodies { (bodies : List (List ℕ)) (gate : ℕ) (tail : List ℕ) → All IsBody bodies → gate ≢ open_gate → bodies_of (frames_of bodies ++ gate ∷ tail) ≡ bodies }
    ensures rests { (bodies : List (List ℕ)) (gate : ℕ) (tail : List ℕ) → All IsBody bodies → gate ≢ open_gate →
        IsAtRest (frames_of bodies ++ gate ∷ tail) (length (frames_of bodies)) }
{}

/// Each journal at rest is such a file: the bytes before its closed gate are the frames of its bodies, one behind the
/// other.
pub fn journals_are_frames()
    ensures front { (file : List ℕ) (place : ℕ) → AreBytes file → IsAtRest file place → take place file ≡ frames_of (bodies_of file) }
    ensures gate { (file : List ℕ) (place : ℕ) → IsAtRest file place → get_or file place open_gate ≢ open_gate }
    ensures bodies { (file : List ℕ) → All IsBody (bodies_of file) }
{}

/// A read of a journal at rest can begin at place 0.
pub fn reads_begin()
    ensures { (file : List ℕ) (place : ℕ) → IsAtRest file place → IsPlace file 0 }
{}
